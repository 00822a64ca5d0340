//! Texts put together, and put into one another (ISO/IEC 30170:2012, 15.2.10).
ghost use Rattle.std.specs.Prelude.{◌≡◌, ◌≤◌, ◌*◌, length, IfOk};
ghost use Rattle.std.specs.List.{repeat};
ghost use Rattle.rb_string.specs.Editing as texts;
ghost use Rattle.rb_string.specs.Limit.{limited};

use crate::failure::StringFailure;
use crate::making::{GREATEST_LENGTH, joined};
use crate::part::{front, rest};
use crate::slicing::{place, start};
use rb_base::Bytes;
use std::alloc::{AllocError, Global};

/// `text + other`, and what `text << other` and `text.concat(other)` make of the text. A failure where the result is
/// too long.
#[tactic(auto, using(crate::proofs::Limits::two_joined))]
pub fn concatenated(
    alloc: Global,
    text: &[u8],
    other: &[u8],
) -> Result<Result<Bytes, StringFailure>, AllocError>
    ensures { IfOk result (λ r. r ≡ texts.concatenated text.now other.now) }
{
    joined(alloc, text, other, b"")
}

/// So many copies of a text, which have at most 2^28 bytes.
fn copies(alloc: Global, text: &[u8], count: usize) -> Result<Bytes, AllocError>
    requires { count * length text.now ≤ 268435456 }
    ensures { IfOk result (λ bytes. bytes ≡ repeat count text.now) }
{
    let mut made = Vec::with_capacity(alloc, count * text.len())?;
    if text.len() == 1 {
        made.resize(count, text[0])?;
        return Ok(Bytes::from_vec(made));
    }
    let mut left = count;
    'copies: while left > 0 {
        made.extend_from_slice(text)?;
        left -= 1;
    }
    Ok(Bytes::from_vec(made))
}

/// So many copies of a text. A failure where they have more than 2^28 bytes.
fn copies_within_limit(
    alloc: Global,
    text: &[u8],
    count: usize,
) -> Result<Result<Bytes, StringFailure>, AllocError>
    ensures { IfOk result (λ r. r ≡ limited (repeat count text.now)) }
{
    if text.is_empty() {
        return Ok(Ok(Bytes::new(alloc)));
    }
    if count > GREATEST_LENGTH / text.len() {
        return Ok(Err(StringFailure::TooLong));
    }
    let bytes = copies(alloc, text, count)?;
    Ok(Ok(bytes))
}

/// `text * count`: so many copies, one after the other. A failure where the count is below 0 or the result is too long.
pub fn repeated(
    alloc: Global,
    text: &[u8],
    count: i64,
) -> Result<Result<Bytes, StringFailure>, AllocError>
    ensures { IfOk result (λ r. r ≡ texts.repeated text.now count) }
{
    if count < 0 {
        return Ok(Err(StringFailure::NegativeCount));
    }
    copies_within_limit(alloc, text, count as usize)
}

/// A text with another one in place of so many bytes from a place on, or of all where there are fewer. A failure that
/// names the index where there is no place.
fn replaced_from(
    alloc: Global,
    text: &[u8],
    index: i64,
    at: Option<usize>,
    count: usize,
    new: &[u8],
) -> Result<Result<Bytes, StringFailure>, AllocError>
    ensures { IfOk result (λ r. r ≡ texts.replaced_from text.now index at count new.now) }
{
    match at {
        Some(at) => joined(alloc, front(text, at), new, rest(rest(text, at), count)),
        None => Ok(Err(StringFailure::OutsideText(index))),
    }
}

/// What `text[index, count] = new` makes of the text, and `text[index] = new` with the count 1: `new` in place of so
/// many bytes from the index on, or of all where there are fewer. A failure where the count is below 0, where the index
/// lies before the start or behind the end, or where the result is too long.
pub fn replaced(
    alloc: Global,
    text: &[u8],
    index: i64,
    count: i64,
    new: &[u8],
) -> Result<Result<Bytes, StringFailure>, AllocError>
    ensures { IfOk result (λ r. r ≡ texts.replaced text.now index count new.now) }
{
    if count < 0 {
        return Ok(Err(StringFailure::NegativeCount));
    }
    let at = start(text.len(), index);
    replaced_from(alloc, text, index, at, count as usize, new)
}

/// The place before which a text is inserted: an index below 0 stands for the place behind its byte.
fn insertion_place(length: usize, index: i64) -> Option<usize>
    requires { length ≤ 9223372036854775808 }
    ensures { result ≡ texts.insertion_place length index }
{
    if index < 0 {
        place(length + 1, index)
    } else {
        start(length, index)
    }
}

/// What `text.insert(index, new)` makes of the text: `new` before the byte at the index, or behind it where the index is
/// below 0. A failure where the index lies before the start or behind the end, or where the result is too long.
pub fn inserted(
    alloc: Global,
    text: &[u8],
    index: i64,
    new: &[u8],
) -> Result<Result<Bytes, StringFailure>, AllocError>
    ensures { IfOk result (λ r. r ≡ texts.inserted text.now index new.now) }
{
    let at = insertion_place(text.len(), index);
    replaced_from(alloc, text, index, at, 0, new)
}
