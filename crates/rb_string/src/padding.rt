//! Texts filled up to a width (ISO/IEC 30170:2012, 15.2.10). An empty pad fills up nothing.
ghost use Rattle.std.specs.Prelude.{◌≡◌, IfOk};
ghost use Rattle.rb_string.specs.Padding as texts;

use crate::failure::StringFailure;
use crate::making::{GREATEST_LENGTH, joined};
use crate::part::front;
use rb_base::Bytes;
use std::alloc::{AllocError, Global};

/// How many bytes a text of that length lacks.
fn missing(length: usize, width: i64) -> usize
    ensures { result ≡ texts.missing length width }
{
    if width < 0 {
        0
    } else {
        (width as usize).saturating_sub(length)
    }
}

/// The pad again and again, cut to so many bytes.
fn padding(alloc: Global, pad: &[u8], count: usize) -> Result<Vec<u8>, AllocError>
    ensures { IfOk result (λ bytes. bytes.items ≡ texts.padding pad.now count) }
{
    let mut bytes = Vec::new(alloc);
    if pad.is_empty() {
        return Ok(bytes);
    }
    if pad.len() == 1 {
        bytes.resize(count, pad[0])?;
        return Ok(bytes);
    }
    let mut left = count;
    'pads: while left > pad.len() {
        bytes.extend_from_slice(pad)?;
        left -= pad.len();
    }
    bytes.extend_from_slice(front(pad, left))?;
    Ok(bytes)
}

/// A text with so many bytes of padding before it, and so many behind it. A failure where the result is too long.
fn padded(
    alloc: Global,
    text: &[u8],
    pad: &[u8],
    before: usize,
    behind: usize,
) -> Result<Result<Bytes, StringFailure>, AllocError>
    ensures { IfOk result (λ r. r ≡ texts.padded text.now pad.now before behind) }
{
    let length = text.len().saturating_add(before).saturating_add(behind);
    if !pad.is_empty() && length > GREATEST_LENGTH {
        return Ok(Err(StringFailure::TooLong));
    }
    let first = padding(alloc, pad, before)?;
    let last = padding(alloc, pad, behind)?;
    joined(alloc, &first, text, &last)
}

/// `text.ljust(width, pad)`, and `text.ljust(width)` with a space: the text with padding behind it up to the width. A
/// failure where the result is too long.
pub fn left_justified(
    alloc: Global,
    text: &[u8],
    width: i64,
    pad: &[u8],
) -> Result<Result<Bytes, StringFailure>, AllocError>
    ensures { IfOk result (λ r. r ≡ texts.left_justified text.now width pad.now) }
{
    padded(alloc, text, pad, 0, missing(text.len(), width))
}

/// `text.rjust(width, pad)`, and `text.rjust(width)` with a space: the text with padding before it up to the width. A
/// failure where the result is too long.
pub fn right_justified(
    alloc: Global,
    text: &[u8],
    width: i64,
    pad: &[u8],
) -> Result<Result<Bytes, StringFailure>, AllocError>
    ensures { IfOk result (λ r. r ≡ texts.right_justified text.now width pad.now) }
{
    padded(alloc, text, pad, missing(text.len(), width), 0)
}

/// `text.center(width, pad)`, and `text.center(width)` with a space: the text with padding on both sides up to the
/// width, of which the one behind it has one byte more where their number is odd. A failure where the result is too
/// long.
pub fn centered(
    alloc: Global,
    text: &[u8],
    width: i64,
    pad: &[u8],
) -> Result<Result<Bytes, StringFailure>, AllocError>
    ensures { IfOk result (λ r. r ≡ texts.centered text.now width pad.now) }
{
    let all = missing(text.len(), width);
    padded(alloc, text, pad, all / 2, all - all / 2)
}
