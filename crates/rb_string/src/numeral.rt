//! Numbers that texts begin with (ISO/IEC 30170:2012, 15.2.10).
ghost use Rattle.std.specs.Prelude.{◌≡◌, ◌≤◌, ◌<◌, ◌+◌, ◌*◌, ℕ, drop, SomeIff};
ghost use Rattle.rb_string.specs.Numeral as numbers;

use crate::failure::StringFailure;
use crate::part::{byte_or_zero, rest};
use crate::stripping::is_space;

/// The greatest distance of an Integer from 0, 2^63.
const GREATEST: u64 = 9_223_372_036_854_775_808;

/// The value of a digit or a letter, or 36.
fn digit_value(byte: u8) -> u8
    ensures { result ≡ numbers.digit_value byte }
{
    if b'0' <= byte && byte <= b'9' {
        return byte - b'0';
    }
    if b'a' <= byte && byte <= b'z' {
        return byte - b'a' + 10;
    }
    if b'A' <= byte && byte <= b'Z' {
        return byte - b'A' + 10;
    }
    36
}

/// Whether the byte is a digit of the base.
fn is_digit(base: u8, byte: u8) -> bool
    ensures { result ≡ numbers.is_digit base byte }
{
    digit_value(byte) < base
}

/// The text behind the white space at its start.
fn after_spaces(text: &[u8]) -> &[u8]
    ensures { result.now ≡ numbers.after_spaces text.now }
{
    let mut start = 0;
    'bytes: while start < text.len() {
        if !is_space(text[start]) {
            break;
        }
        start += 1;
    }
    &text[start..]
}

/// The text behind a sign, where it begins with one.
fn after_sign(text: &[u8]) -> &[u8]
    ensures { result.now ≡ numbers.after_sign text.now }
{
    let first = byte_or_zero(text, 0);
    if first == b'+' || first == b'-' {
        rest(text, 1)
    } else {
        text
    }
}

/// Whether the letter makes a prefix of the base.
fn is_prefix_letter(base: u8, letter: u8) -> bool
    ensures { result ≡ numbers.is_prefix_letter base letter }
{
    if base == 2 {
        return letter == b'b' || letter == b'B';
    }
    if base == 8 {
        return letter == b'o' || letter == b'O';
    }
    base == 16 && (letter == b'x' || letter == b'X')
}

/// The text behind the prefix of the base, where it begins with one.
fn after_prefix(base: u8, text: &[u8]) -> &[u8]
    ensures { result.now ≡ numbers.after_prefix base text.now }
{
    if byte_or_zero(text, 0) == b'0' && is_prefix_letter(base, byte_or_zero(text, 1)) {
        rest(text, 2)
    } else {
        text
    }
}

/// One more digit after a value, where the new value is at most 2^63.
fn with_digit(value: Option<u64>, base: u8, digit: u8) -> Option<u64>
    requires { 0 < base }
    ensures { (n : ℕ) → SomeIff value (n ≤ 9223372036854775808) n
        → SomeIff result (n * base + digit ≤ 9223372036854775808) (n * base + digit) }
{
    let longer = value?
        .checked_mul(u64::from(base))?
        .checked_add(u64::from(digit))?;
    if longer <= GREATEST {
        Some(longer)
    } else {
        None
    }
}

/// The value of the digits at the start, where it is at most 2^63.
fn magnitude(base: u8, text: &[u8]) -> Option<u64>
    requires { 0 < base }
    ensures { SomeIff result (numbers.number base text.now ≤ 9223372036854775808) (numbers.number base text.now) }
{
    if !is_digit(base, byte_or_zero(text, 0)) {
        return Some(0);
    }
    let mut value = Some(0);
    let mut at = 0;
    'digits: while at < text.len() {
        let byte = text[at];
        if is_digit(base, byte) {
            value = with_digit(value, base, digit_value(byte));
        } else if byte != b'_' || !is_digit(base, byte_or_zero(text, at + 1)) {
            break;
        }
        at += 1;
    }
    value
}

/// The Integer of that magnitude, which is below 0 or isn't, or an overflow.
fn signed(is_negative: bool, magnitude: Option<u64>) -> Result<i64, StringFailure>
    ensures { (n : ℕ) → SomeIff magnitude (n ≤ 9223372036854775808) n → result ≡ numbers.signed is_negative n }
{
    let Some(magnitude) = magnitude else {
        return Err(StringFailure::Overflow);
    };
    if magnitude < GREATEST {
        let number = magnitude as i64;
        return Ok(if is_negative { -number } else { number });
    }
    if is_negative {
        Ok(i64::MIN)
    } else {
        Err(StringFailure::Overflow)
    }
}

/// The number that a text begins with: a sign or none, the prefix of the base or none, and digits.
fn number(base: u8, text: &[u8]) -> Result<i64, StringFailure>
    requires { 0 < base }
    ensures { result ≡ numbers.number_of base text.now }
{
    let is_negative = byte_or_zero(text, 0) == b'-';
    let digits = after_prefix(base, after_sign(text));
    signed(is_negative, magnitude(base, digits))
}

/// `text.to_i(base)`, and `text.to_i` in base 10: the number that the text begins with, behind white space, or 0: a sign
/// or none, the prefix of base 2, 8 or 16 or none, and as many digits of the base as there are, with single `_` between
/// them. A failure where the base isn't from 2 to 36, or an overflow.
pub fn to_integer(text: &[u8], base: i64) -> Result<i64, StringFailure>
    ensures { result ≡ numbers.to_integer text.now base }
{
    if base < 2 || 36 < base {
        return Err(StringFailure::BadBase);
    }
    number(base as u8, after_spaces(text))
}

/// `text.ord`: the first byte. A failure where there is none.
pub fn ordinal(text: &[u8]) -> Result<u8, StringFailure>
    ensures { result ≡ numbers.ordinal text.now }
{
    if text.is_empty() {
        Err(StringFailure::OutsideText(0))
    } else {
        Ok(text[0])
    }
}
