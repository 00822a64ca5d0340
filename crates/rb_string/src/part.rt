//! Parts of texts.
ghost use Rattle.std.specs.Prelude.{◌≡◌, ◌≤◌, length, take, drop, slice_index};
ghost use Rattle.rb_string.specs.Parts.{text_of};

/// A part of a text: the bytes from the place `start` up to the place `end`.
#[derive(Clone, Copy, Debug, PartialEq, Eq)]
pub struct Part {
    pub start: usize,
    pub end: usize,
}

/// The bytes of a part.
pub fn bytes_of(text: &[u8], part: Part) -> &[u8]
    requires start { part.start ≤ part.end }
    requires end { part.end ≤ length text.now }
    ensures { result.now ≡ text_of text.now part }
{
    &text[part.start..part.end]
}

/// The byte at a place, or 0 behind the end.
#[inline(always)]
pub(crate) fn byte_or_zero(text: &[u8], at: usize) -> u8
    ensures { result ≡ slice_index text.now at }
{
    if at < text.len() { text[at] } else { 0 }
}

/// The first bytes, so many or all.
pub(crate) fn front(text: &[u8], count: usize) -> &[u8]
    ensures { result.now ≡ take count text.now }
{
    if count < text.len() {
        &text[..count]
    } else {
        text
    }
}

/// All but so many first bytes.
pub(crate) fn rest(text: &[u8], count: usize) -> &[u8]
    ensures { result.now ≡ drop count text.now }
{
    if count < text.len() {
        &text[count..]
    } else {
        b""
    }
}
