//! What stands at indexes of a text (ISO/IEC 30170:2012, 15.2.10).
ghost use Rattle.std.specs.Prelude.{◌≡◌, option_copied};
ghost use Rattle.rb_string.specs.Slicing as texts;

use crate::part::{front, rest};

/// The place of an index in a text of that length: from the end where the index is below 0. It may be behind the end.
pub(crate) fn place(length: usize, index: i64) -> Option<usize>
    ensures { result ≡ texts.place length index }
{
    let distance = index.unsigned_abs() as usize;
    if index < 0 {
        length.checked_sub(distance)
    } else {
        Some(distance)
    }
}

/// The place of an index, where it isn't behind the end.
pub(crate) fn start(length: usize, index: i64) -> Option<usize>
    ensures { result ≡ texts.start length index }
{
    let at = place(length, index)?;
    if at <= length { Some(at) } else { None }
}

/// The place up to which a range with that last index goes.
fn behind(length: usize, last: i64, is_exclusive: bool) -> usize
    ensures { result ≡ texts.behind length last is_exclusive }
{
    let distance = last.unsigned_abs() as usize;
    if last < 0 {
        if is_exclusive {
            length.saturating_sub(distance)
        } else {
            length.saturating_sub(distance - 1)
        }
    } else if is_exclusive {
        distance
    } else {
        distance + 1
    }
}

/// `text[index]`: the byte there, from the end where the index is below 0; nothing where there is none.
pub fn byte_at(text: &[u8], index: i64) -> Option<u8>
    ensures { result ≡ texts.byte text.now index }
{
    let at = place(text.len(), index)?;
    if at < text.len() {
        Some(text[at])
    } else {
        None
    }
}

/// `text[index, count]`: so many bytes from there on, or all where there are fewer; nothing where the index lies
/// outside or the count is below 0.
pub fn part(text: &[u8], index: i64, count: i64) -> Option<&[u8]>
    ensures { option_copied result ≡ texts.part text.now index count }
{
    if count < 0 {
        return None;
    }
    let from = start(text.len(), index)?;
    Some(front(rest(text, from), count as usize))
}

/// `text[first..last]`, and `text[first...last]` where the last one is left out: the bytes from the first index to the
/// last, as far as they go; nothing where the first one lies outside.
pub fn range_part(text: &[u8], first: i64, last: i64, is_exclusive: bool) -> Option<&[u8]>
    ensures { option_copied result ≡ texts.range_part text.now first last is_exclusive }
{
    let from = start(text.len(), first)?;
    let end = behind(text.len(), last, is_exclusive);
    Some(front(rest(text, from), end.saturating_sub(from)))
}
