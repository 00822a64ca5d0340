//! Texts that are made, within the limit of their length.
ghost use Rattle.std.specs.Prelude.{◌≡◌, ◌+◌, ◌++◌, length, IfOk, if◌then◌else◌};
ghost use Rattle.rb_string.specs.Limit.{fits, limited};

use crate::failure::StringFailure;
use rb_base::Bytes;
use std::alloc::{AllocError, Global};

/// The greatest length of a String that a core method makes, 2^28.
pub const GREATEST_LENGTH: usize = 268_435_456;

/// Puts a piece at the end of a text, where the whole has at most 2^28 bytes. Tells whether it does.
pub(crate) fn append(text: &mut Vec<u8>, piece: &[u8]) -> Result<bool, AllocError>
    ensures fits { IfOk result (λ b. b ≡ fits (length (text.old.items ++ piece.now))) }
    ensures items { IfOk result (λ b. text.new.items ≡ (if b then text.old.items ++ piece.now else text.old.items)) }
{
    if text.len() > GREATEST_LENGTH {
        return Ok(false);
    }
    if piece.len() > GREATEST_LENGTH - text.len() {
        return Ok(false);
    }
    text.extend_from_slice(piece)?;
    Ok(true)
}

/// Three texts, one after the other. A failure where they have more than 2^28 bytes.
#[tactic(auto, using(crate::proofs::Limits::three_short, crate::proofs::Limits::three_long))]
pub(crate) fn joined(
    alloc: Global,
    first: &[u8],
    second: &[u8],
    third: &[u8],
) -> Result<Result<Bytes, StringFailure>, AllocError>
    ensures { IfOk result (λ r. r ≡ limited (first.now ++ second.now ++ third.now)) }
{
    let front = first.len().saturating_add(second.len());
    let length = front.saturating_add(third.len());
    if length > GREATEST_LENGTH {
        return Ok(Err(StringFailure::TooLong));
    }
    let mut text = Vec::with_capacity(alloc, length)?;
    text.extend_from_slice(first)?;
    text.extend_from_slice(second)?;
    text.extend_from_slice(third)?;
    Ok(Ok(Bytes::from_vec(text)))
}
