//! Integer literals.
ghost use Rattle.std.specs.Prelude.{◌≡◌, ◌≤◌, ◌<◌, ◌+◌, ◌*◌, ℕ, length, drop, true, IfOk, IfErr, MatchResult, SomeIff, Ok, Err};
ghost use Rattle.lexer_literals.specs.Integers.{digits, radix_at, integer_at};

use crate::bytes::{byte_at, digit_value, is_digit};
use crate::fault::Fault;

/// The greatest value of an integer token, 2^63.
const GREATEST: u64 = 1 << 63;

/// The place after an integer literal, and its value where that is at most 2^63.
#[derive(Clone, Copy, Debug, PartialEq, Eq)]
pub struct Scanned {
    pub end: usize,
    pub value: Option<u64>,
}

/// The integer literal that begins at `at`, a byte offset: decimal digits, or `0b`, `0o`, `0`, `0d`, `0x` with
/// their digits, the letters small or capital. Single `_` may stand between digits.
///
/// A fault where a digit is wanted and doesn't come (at the start, after a prefix, after `_`), or where a
/// decimal digit follows that the base lacks.
pub fn integer(text: &[u8], at: usize) -> Result<Scanned, Fault>
    requires { at ≤ length text.now }
    ensures value { result ≡ integer_at text.now at }
    ensures forward { IfOk result (λ s. at < s.end) }
    ensures within { IfOk result (λ s. s.end ≤ length text.now) }
    ensures fault { IfErr result (λ f. f.at ≤ length text.now) }
{
    let (base, start) = radix(text, at);
    digits(base, text, start)
}

/// The base of a literal, and the place of its digits.
#[tactic(auto, unfolding(crate::specs::Integers::radix_at))]
pub(crate) fn radix(text: &[u8], at: usize) -> (u8, usize)
    requires { at ≤ length text.now }
    ensures value { result ≡ radix_at text.now at }
    ensures forward { at ≤ result.1 }
    ensures within { result.1 ≤ length text.now }
    ensures some { 1 < result.0 }
    ensures few { result.0 ≤ 16 }
{
    if byte_at(text, at) != b'0' {
        return (10, at);
    }
    match byte_at(text, at + 1) {
        b'b' | b'B' => (2, at + 2),
        b'o' | b'O' => (8, at + 2),
        b'd' | b'D' => (10, at + 2),
        b'x' | b'X' => (16, at + 2),
        b'0'..=b'9' | b'_' => (8, at),
        _ => (10, at),
    }
}

/// One more digit after a value, where the new value is at most 2^63.
fn with_digit(value: Option<u64>, base: u8, digit: u8) -> Option<u64>
    requires { 0 < base }
    ensures { (n : ℕ) → SomeIff value (n ≤ 9223372036854775808) n
        → SomeIff result (n * base + digit ≤ 9223372036854775808) (n * base + digit) }
{
    let longer = value?
        .checked_mul(u64::from(base))?
        .checked_add(u64::from(digit))?;
    if longer <= GREATEST {
        Some(longer)
    } else {
        None
    }
}

/// The digits of a base that begin at a place, with single `_` between them.
#[tactic(auto, unfolding(crate::specs::Integers::digits))]
pub(crate) fn digits(base: u8, text: &[u8], start: usize) -> Result<Scanned, Fault>
    requires base { 0 < base }
    requires place { start ≤ length text.now }
    ensures value { MatchResult result (λ s. (n : ℕ) × (digits base true 0 start (drop start text.now) ≡ Ok (n, s.end))
        × SomeIff s.value (n ≤ 9223372036854775808) n) (λ f. digits base true 0 start (drop start text.now) ≡ Err f) }
    ensures forward { IfOk result (λ s. start < s.end) }
    ensures within { IfOk result (λ s. s.end ≤ length text.now) }
    ensures fault { IfErr result (λ f. f.at ≤ length text.now) }
{
    let mut value = Some(0);
    let mut at = start;
    let mut wanted = true;
    'bytes: while at < text.len() {
        let digit = digit_value(text[at]);
        if digit < base {
            value = with_digit(value, base, digit);
            wanted = false;
        } else if wanted || is_digit(text[at]) {
            return Err(Fault { at });
        } else if text[at] != b'_' {
            break;
        } else {
            wanted = true;
        }
        at += 1;
    }
    if wanted {
        Err(Fault { at })
    } else {
        Ok(Scanned { end: at, value })
    }
}
