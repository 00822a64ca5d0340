//! Numeric literals: integers and what may stand after them.
ghost use Rattle.std.specs.Prelude.{◌≡◌, ◌≤◌, ◌<◌, length, IfOk, IfErr};
ghost use Rattle.lexer_literals.specs.Numbers.{decimal_end, fraction_end, sign_end, exponent_end, parts_end, suffix_at, numeral_at};

use crate::bytes::{byte_at, goes_on, is_digit};
use crate::fault::Fault;
use crate::integers::{digits, integer, radix};

/// What stands after the integer of a numeric literal: nothing; a fraction or an exponent; at the end `r`; at
/// the end `i` or `ri`.
#[derive(Clone, Copy, Debug, PartialEq, Eq)]
pub enum Tail {
    Nothing,
    Float,
    Rational,
    Imaginary,
}

/// The place after a numeric literal, the value of its integer where that is at most 2^63, and its tail.
#[derive(Clone, Copy, Debug, PartialEq, Eq)]
pub struct Number {
    pub end: usize,
    pub value: Option<u64>,
    pub tail: Tail,
}

/// The numeric literal that begins at `at`, a byte offset: an integer, without prefix maybe a fraction (a point
/// and digits) and an exponent (`e` or `E`, maybe a sign, and digits), then maybe a suffix `r`, `i` or `ri`,
/// after an exponent `i` alone. A letter after which a name goes on is no suffix, as in `1if`.
///
/// A fault where the digits of a part are malformed, as [`integer`] says.
#[tactic(auto, unfolding(crate::specs::Numbers::numeral_at))]
pub fn numeral(text: &[u8], at: usize) -> Result<Number, Fault>
    requires { at ≤ length text.now }
    ensures value { result ≡ numeral_at text.now at }
    ensures forward { IfOk result (λ n. at < n.end) }
    ensures within { IfOk result (λ n. n.end ≤ length text.now) }
    ensures fault { IfErr result (λ f. f.at ≤ length text.now) }
{
    let scanned = integer(text, at)?;
    let (fraction, exponent) = parts_end(text, at, scanned.end)?;
    let tail = if exponent == scanned.end {
        Tail::Nothing
    } else {
        Tail::Float
    };
    let (end, tail) = suffix(text, exponent, fraction != exponent, tail);
    Ok(Number {
        end,
        value: scanned.value,
        tail,
    })
}

fn decimal_end(text: &[u8], at: usize) -> Result<usize, Fault>
    requires { at ≤ length text.now }
    ensures value { result ≡ decimal_end text.now at }
    ensures forward { IfOk result (λ end. at ≤ end) }
    ensures within { IfOk result (λ end. end ≤ length text.now) }
    ensures fault { IfErr result (λ f. f.at ≤ length text.now) }
{
    let scanned = digits(10, text, at)?;
    Ok(scanned.end)
}

#[tactic(auto, unfolding(crate::specs::Numbers::fraction_end))]
fn fraction_end(text: &[u8], at: usize) -> Result<usize, Fault>
    requires { at ≤ length text.now }
    ensures value { result ≡ fraction_end text.now at }
    ensures forward { IfOk result (λ end. at ≤ end) }
    ensures within { IfOk result (λ end. end ≤ length text.now) }
    ensures fault { IfErr result (λ f. f.at ≤ length text.now) }
{
    if byte_at(text, at) == b'.' && is_digit(byte_at(text, at + 1)) {
        decimal_end(text, at + 1)
    } else {
        Ok(at)
    }
}

#[tactic(auto, unfolding(crate::specs::Numbers::sign_end))]
fn sign_end(text: &[u8], at: usize) -> usize
    requires { at ≤ length text.now }
    ensures value { result ≡ sign_end text.now at }
    ensures forward { at ≤ result }
    ensures within { result ≤ length text.now }
{
    let sign = byte_at(text, at);
    if sign == b'+' || sign == b'-' {
        at + 1
    } else {
        at
    }
}

#[tactic(auto, unfolding(crate::specs::Numbers::exponent_end))]
fn exponent_end(text: &[u8], at: usize) -> Result<usize, Fault>
    requires { at ≤ length text.now }
    ensures value { result ≡ exponent_end text.now at }
    ensures forward { IfOk result (λ end. at ≤ end) }
    ensures within { IfOk result (λ end. end ≤ length text.now) }
    ensures fault { IfErr result (λ f. f.at ≤ length text.now) }
{
    let letter = byte_at(text, at);
    if letter != b'e' && letter != b'E' {
        return Ok(at);
    }
    let first = sign_end(text, at + 1);
    if is_digit(byte_at(text, first)) {
        decimal_end(text, first)
    } else {
        Ok(at)
    }
}

/// The places after the fraction and after the exponent of a literal whose integer ends at `end`.
#[tactic(auto, unfolding(crate::specs::Numbers::parts_end))]
fn parts_end(text: &[u8], at: usize, end: usize) -> Result<(usize, usize), Fault>
    requires at { at ≤ length text.now }
    requires end { end ≤ length text.now }
    ensures value { result ≡ parts_end text.now at end }
    ensures forward { IfOk result (λ p. end ≤ p.1) }
    ensures within { IfOk result (λ p. p.1 ≤ length text.now) }
    ensures fault { IfErr result (λ f. f.at ≤ length text.now) }
{
    let (base, start) = radix(text, at);
    if base != 10 || start != at {
        return Ok((end, end));
    }
    let fraction = fraction_end(text, end)?;
    let exponent = exponent_end(text, fraction)?;
    Ok((fraction, exponent))
}

/// The place after a suffix, where one stands, and the tail that it makes of the tail before.
#[tactic(auto, unfolding(crate::specs::Numbers::suffix_at))]
fn suffix(text: &[u8], at: usize, has_exponent: bool, tail: Tail) -> (usize, Tail)
    requires { at ≤ length text.now }
    ensures value { result ≡ suffix_at text.now at has_exponent tail }
    ensures forward { at ≤ result.0 }
    ensures within { result.0 ≤ length text.now }
{
    let first = byte_at(text, at);
    let second = byte_at(text, at + 1);
    if first == b'i' && !goes_on(second) {
        return (at + 1, Tail::Imaginary);
    }
    if has_exponent || first != b'r' {
        return (at, tail);
    }
    if !goes_on(second) {
        return (at + 1, Tail::Rational);
    }
    if second == b'i' && !goes_on(byte_at(text, at + 2)) {
        return (at + 2, Tail::Imaginary);
    }
    (at, tail)
}
