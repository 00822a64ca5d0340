//! Texts without what stands at their ends (ISO/IEC 30170:2012, 15.2.10).
ghost use Rattle.std.specs.Prelude.{◌≡◌};
ghost use Rattle.rb_string.specs.Stripping as texts;

use crate::part::front;

/// Whether a byte is white space: a space, or one of the five from tab to carriage return.
pub(crate) fn is_space(byte: u8) -> bool
    ensures { result ≡ texts.is_space byte }
{
    byte == b' ' || (b'\t' <= byte && byte <= b'\r')
}

/// Whether `strip` takes the byte away: white space, and zero.
fn is_blank(byte: u8) -> bool
    ensures { result ≡ texts.is_blank byte }
{
    byte == 0 || is_space(byte)
}

/// `text.lstrip`: without white space and zeros at the start.
pub fn left_stripped(text: &[u8]) -> &[u8]
    ensures { result.now ≡ texts.left_stripped text.now }
{
    let mut start = 0;
    'bytes: while start < text.len() {
        if !is_blank(text[start]) {
            break;
        }
        start += 1;
    }
    &text[start..]
}

/// `text.rstrip`: without white space and zeros at the end.
pub fn right_stripped(text: &[u8]) -> &[u8]
    ensures { result.now ≡ texts.right_stripped text.now }
{
    let mut end = text.len();
    'bytes: while end > 0 {
        if !is_blank(text[end - 1]) {
            break;
        }
        end -= 1;
    }
    &text[..end]
}

/// `text.strip`: without white space and zeros at both ends.
pub fn stripped(text: &[u8]) -> &[u8]
    ensures { result.now ≡ texts.stripped text.now }
{
    left_stripped(right_stripped(text))
}

/// The text without so many bytes at its end.
pub(crate) fn without_last(text: &[u8], count: usize) -> &[u8]
    ensures { result.now ≡ texts.without_last text.now count }
{
    front(text, text.len().saturating_sub(count))
}

/// `text.chomp`: without one carriage return and newline at the end, or one of them.
pub fn chomped(text: &[u8]) -> &[u8]
    ensures { result.now ≡ texts.chomped text.now }
{
    if text.ends_with(b"\r\n") {
        return without_last(text, 2);
    }
    if text.ends_with(b"\n") {
        return without_last(text, 1);
    }
    if text.ends_with(b"\r") {
        return without_last(text, 1);
    }
    text
}

/// `text.chop`: without the last byte, or without a carriage return and newline at the end.
pub fn chopped(text: &[u8]) -> &[u8]
    ensures { result.now ≡ texts.chopped text.now }
{
    if text.ends_with(b"\r\n") {
        without_last(text, 2)
    } else {
        without_last(text, 1)
    }
}
