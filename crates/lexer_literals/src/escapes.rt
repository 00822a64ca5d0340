//! Escapes of literals with interpolation.
ghost use Rattle.std.specs.Prelude.{◌≡◌, ◌≤◌, ◌<◌, ◌^◌, length, drop, IfOk, IfErr};
ghost use Rattle.lexer_literals.specs.Escaping.{letter, up_to, character, octal_at, hexadecimal_at, short_at, braced_at, plain_character_at};

use crate::bytes::{byte_at, digit_value};
use crate::escaped::{Escape, Escaped};
use crate::fault::Fault;

/// The escape of a literal as `".."` after the backslash before `at`, a byte offset, where it is no control or meta
/// character: `n t r a b e f v s` are control characters and the space; one to three octal digits are a byte, of a
/// value above 255 the lowest eight bits; `x` with one or two hexadecimal digits is a byte; `u` with four hexadecimal
/// digits, or with one to six in braces, is a character; a newline is nothing; any other byte stands for itself.
///
/// A fault where the text ends at the backslash, where `x` lacks a digit, where the digits of `u` are too few or too
/// many, or are the number of a surrogate or above 10FFFF, and at `c`, `C` and `M`.
#[tactic(auto, unfolding(crate::specs::Escaping::plain_character_at))]
pub(crate) fn plain_character(text: &[u8], at: usize) -> Result<Escape, Fault>
    requires { at ≤ length text.now }
    ensures value { result ≡ plain_character_at text.now at }
    ensures forward { IfOk result (λ e. at ≤ e.end) }
    ensures within { IfOk result (λ e. e.end ≤ length text.now) }
    ensures fault { IfErr result (λ f. f.at ≤ length text.now) }
{
    let Some(first) = text.get(at) else {
        return Err(Fault { at });
    };
    match *first {
        b'\n' => Ok(Escape {
            end: at + 1,
            stands_for: Escaped::Nothing,
        }),
        b'0'..=b'7' => Ok(octal(text, at)),
        b'x' => hexadecimal(text, at + 1),
        b'u' => {
            if byte_at(text, at + 1) == b'{' {
                braced(text, at + 2)
            } else {
                short(text, at + 1)
            }
        }
        b'c' | b'C' | b'M' => Err(Fault { at }),
        byte => Ok(Escape {
            end: at + 1,
            stands_for: Escaped::Byte(letter(byte)),
        }),
    }
}

/// The byte that a letter stands for after a backslash.
fn letter(byte: u8) -> u8
    ensures { result ≡ letter byte }
{
    match byte {
        b'n' => b'\n',
        b't' => b'\t',
        b'r' => b'\r',
        b'a' => 7,
        b'b' => 8,
        b'e' => 27,
        b'f' => 12,
        b'v' => 11,
        b's' => b' ',
        _ => byte,
    }
}

/// The value of the digits that begin at a place, of which there are at most so many, and the place after
/// them.
#[tactic(auto, using(crate::proofs::Bounds::bound_zero, crate::proofs::Bounds::bound_six, crate::proofs::Bounds::bound_most), unfolding(crate::specs::Escaping::up_to))]
fn up_to(base: u8, most: usize, text: &[u8], start: usize) -> (u32, usize)
    requires base { base ≤ 16 }
    requires most { most ≤ 6 }
    requires place { start ≤ length text.now }
    ensures value { result ≡ up_to base most 0 start (drop start text.now) }
    ensures small { result.0 < 16 ^ most }
    ensures forward { start ≤ result.1 }
    ensures within { result.1 ≤ length text.now }
{
    let mut value = 0;
    let mut at = start;
    let mut left = most;
    'bytes: while at < text.len() {
        if left == 0 {
            break;
        }
        let digit = digit_value(text[at]);
        if digit >= base {
            break;
        }
        value = value * u32::from(base) + u32::from(digit);
        at += 1;
        left -= 1;
    }
    (value, at)
}

/// One to three octal digits.
#[tactic(auto, unfolding(crate::specs::Escaping::octal_at))]
fn octal(text: &[u8], at: usize) -> Escape
    requires place { at ≤ length text.now }
    ensures value { result ≡ octal_at text.now at }
    ensures forward { at ≤ result.end }
    ensures within { result.end ≤ length text.now }
{
    let (value, end) = up_to(8, 3, text, at);
    Escape {
        end,
        stands_for: Escaped::Byte((value % 256) as u8),
    }
}

/// One or two hexadecimal digits.
#[tactic(auto, unfolding(crate::specs::Escaping::hexadecimal_at))]
fn hexadecimal(text: &[u8], at: usize) -> Result<Escape, Fault>
    requires { at ≤ length text.now }
    ensures value { result ≡ hexadecimal_at text.now at }
    ensures forward { IfOk result (λ e. at ≤ e.end) }
    ensures within { IfOk result (λ e. e.end ≤ length text.now) }
    ensures fault { IfErr result (λ f. f.at ≤ length text.now) }
{
    let (value, end) = up_to(16, 2, text, at);
    if end == at {
        return Err(Fault { at });
    }
    Ok(Escape {
        end,
        stands_for: Escaped::Byte(value as u8),
    })
}

/// Four hexadecimal digits of a character's number.
#[tactic(auto, unfolding(crate::specs::Escaping::short_at))]
fn short(text: &[u8], at: usize) -> Result<Escape, Fault>
    requires { at ≤ length text.now }
    ensures value { result ≡ short_at text.now at }
    ensures forward { IfOk result (λ e. at ≤ e.end) }
    ensures within { IfOk result (λ e. e.end ≤ length text.now) }
    ensures fault { IfErr result (λ f. f.at ≤ length text.now) }
{
    let (value, end) = up_to(16, 4, text, at);
    if end - at != 4 {
        return Err(Fault { at });
    }
    character(value, at, end)
}

/// One to six hexadecimal digits of a character's number, and a closing brace.
#[tactic(auto, unfolding(crate::specs::Escaping::braced_at))]
fn braced(text: &[u8], at: usize) -> Result<Escape, Fault>
    requires { at ≤ length text.now }
    ensures value { result ≡ braced_at text.now at }
    ensures forward { IfOk result (λ e. at ≤ e.end) }
    ensures within { IfOk result (λ e. e.end ≤ length text.now) }
    ensures fault { IfErr result (λ f. f.at ≤ length text.now) }
{
    let (value, end) = up_to(16, 6, text, at);
    if end == at || byte_at(text, end) != b'}' {
        return Err(Fault { at });
    }
    character(value, at, end + 1)
}

/// The escape of the character of that number, which ends at `end`; a fault at `at` where there is none.
fn character(number: u32, at: usize, end: usize) -> Result<Escape, Fault>
    ensures { result ≡ character number at end }
{
    match char::from_u32(number) {
        Some(character) => Ok(Escape {
            end,
            stands_for: Escaped::Character(character),
        }),
        None => Err(Fault { at }),
    }
}
