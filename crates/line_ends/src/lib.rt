//! The ends of lines: a carriage return right before a newline belongs to it, and isn't read.
//!
//! Calls: [`as_read`], [`place_in`].
#![tactic(auto)]

ghost use Rattle.std.specs.Prelude.{◌≡◌, ◌+◌, ◌≤◌, ◌<◌, length, drop, get_or, IfOk, MatchOption};
ghost use Rattle.line_ends.specs.Lines as lines;

use memchr::memchr;
use std::alloc::{AllocError, Global};

/// Whether a carriage return stands at a place, and a newline behind it.
fn ends_line(text: &[u8], at: usize) -> bool
    requires { at < length text.now }
    ensures { result ≡ lines.ends_line (get_or text.now at 0) (drop (at + 1) text.now) }
{
    text[at] == b'\r' && text.len() - at > 1 && text[at + 1] == b'\n'
}

/// The text without each carriage return right before a newline.
#[tactic(auto, unfolding(crate::specs::Lines::as_read))]
fn without_returns(alloc: Global, text: &[u8]) -> Result<Vec<u8>, AllocError>
    ensures { IfOk result (λ read. read.items ≡ lines.as_read text.now) }
{
    let mut read = Vec::with_capacity(alloc, text.len())?;
    let mut at = 0;
    'bytes: while at < text.len() {
        if !ends_line(text, at) {
            read.push(text[at])?;
        }
        at += 1;
    }
    Ok(read)
}

/// The text as it is read, without each carriage return right before a newline; None where it has no carriage return, and
/// is read as it is. The error is that memory ran out.
#[tactic(auto, using(crate::proofs::Plain::as_it_is))]
pub fn as_read(alloc: Global, text: &[u8]) -> Result<Option<Vec<u8>>, AllocError>
    ensures { IfOk result (λ r. MatchOption r (lines.as_read text.now ≡ text.now)
        (λ read. read.items ≡ lines.as_read text.now)) }
{
    match memchr(b'\r', text) {
        None => Ok(None),
        Some(_) => Ok(Some(without_returns(alloc, text)?)),
    }
}

/// The place in a text of what stands at `place` of the text as it is read; at most its length.
#[tactic(auto, unfolding(crate::specs::Lines::place_from), using(crate::proofs::Plain::there))]
pub fn place_in(text: &[u8], place: usize) -> usize
    ensures value { result ≡ lines.place_in text.now place }
    ensures within { result ≤ length text.now }
{
    let mut at = 0;
    let mut left = place;
    'bytes: while at < text.len() && left > 0 {
        if !ends_line(text, at) {
            left -= 1;
        }
        at += 1;
    }
    at
}
