//! Texts as a program would write them (ISO/IEC 30170:2012, 15.2.10).
ghost use Rattle.std.specs.Prelude.{◌≡◌, ◌<◌, ◌++◌, true, length, codes, IfOk, OnOk, if◌then◌else◌};
ghost use Rattle.std.specs.Fmt.{digit_glyph};
ghost use Rattle.rb_string.specs.Limit.{fits, limited};
ghost use Rattle.rb_string.specs.Inspection as texts;

use crate::failure::StringFailure;
use crate::making::append;
use crate::part::byte_or_zero;
use rb_base::Bytes;
use std::alloc::{AllocError, Global};

/// A hexadecimal digit, with a capital letter from ten on.
fn hexadecimal_digit(digit: u8) -> u8
    requires { digit < 16 }
    ensures { result ≡ digit_glyph true digit }
{
    if digit < 10 {
        b'0' + digit
    } else {
        b'A' + (digit - 10)
    }
}

/// Two hexadecimal digits with capital letters, behind a backslash and an `x`.
fn hexadecimal(byte: u8) -> [u8; 4]
    ensures { result ≡ texts.hexadecimal byte }
{
    let high = hexadecimal_digit(byte / 16);
    let low = hexadecimal_digit(byte % 16);
    [b'\\', b'x', high, low]
}

/// What stands behind a backslash for the byte, where something does.
fn letter(byte: u8) -> Option<u8>
    ensures { result ≡ texts.letter byte }
{
    if byte == b'"' {
        return Some(b'"');
    }
    if byte == b'\\' {
        return Some(b'\\');
    }
    if byte == 27 {
        return Some(b'e');
    }
    if 7 <= byte && byte <= 13 {
        return Some(b"abtnvfr"[(byte - 7) as usize]);
    }
    None
}

/// Whether these two bytes would begin an interpolation.
fn is_interpolation(byte: u8, next: u8) -> bool
    ensures { result ≡ texts.is_interpolation byte next }
{
    byte == b'#' && (next == b'{' || next == b'$' || next == b'@')
}

/// Puts a byte that has no letter at the end of a text, as `inspect` shows it before the next byte. Tells whether there
/// is room.
fn append_plain(text: &mut Vec<u8>, byte: u8, next: u8) -> Result<bool, AllocError>
    ensures fits { IfOk result (λ b. b ≡ fits (length (text.old.items ++ texts.shown_plain byte next))) }
    ensures items { IfOk result (λ b. text.new.items
        ≡ (if b then text.old.items ++ texts.shown_plain byte next else text.old.items)) }
{
    if is_interpolation(byte, next) {
        return append(text, b"\\#");
    }
    if 32 <= byte && byte <= 126 {
        return append(text, &[byte]);
    }
    append(text, &hexadecimal(byte))
}

/// Puts a byte at the end of a text, as `inspect` shows it before the next byte. Tells whether there is room.
#[tactic(auto, unfolding(crate::specs::Inspection::shown))]
fn append_shown(text: &mut Vec<u8>, byte: u8, next: u8) -> Result<bool, AllocError>
    ensures fits { IfOk result (λ b. b ≡ fits (length (text.old.items ++ texts.shown byte next))) }
    ensures items { IfOk result (λ b. text.new.items
        ≡ (if b then text.old.items ++ texts.shown byte next else text.old.items)) }
{
    match letter(byte) {
        Some(letter) => append(text, &[b'\\', letter]),
        None => append_plain(text, byte, next),
    }
}

/// Puts a byte that has no letter at the end of a text, as `inspect` shows it before no further one.
fn put_plain(text: &mut Vec<u8>, byte: u8) -> Result<(), AllocError>
    ensures { OnOk result (text.new.items ≡ text.old.items ++ texts.shown_plain byte 0) }
{
    if 32 <= byte && byte <= 126 {
        text.extend_from_slice(&[byte])
    } else {
        text.extend_from_slice(&hexadecimal(byte))
    }
}

/// Puts a text of one byte in quotes at the end of a text, as `inspect` shows it. Nothing bounds the length.
#[tactic(auto, using(std::proofs::Common::append_assoc), unfolding(crate::specs::Inspection::shown))]
pub fn put_quoted(text: &mut Vec<u8>, byte: u8) -> Result<(), AllocError>
    ensures { OnOk result (text.new.items ≡ text.old.items ++ texts.quoted byte) }
{
    text.extend_from_slice(b"\"")?;
    match letter(byte) {
        Some(letter) => text.extend_from_slice(&[b'\\', letter])?,
        None => put_plain(text, byte)?,
    }
    text.extend_from_slice(b"\"")
}

/// The text behind a start, with escapes and a closing quote. A failure where the result is too long.
pub(crate) fn quoted(
    alloc: Global,
    start: &[u8],
    text: &[u8],
) -> Result<Result<Bytes, StringFailure>, AllocError>
    ensures { IfOk result (λ r. r ≡ limited (start.now ++ texts.escaped text.now ++ codes "\"")) }
{
    let mut shown = Vec::from_slice(alloc, start)?;
    let mut at = 0;
    'bytes: while at < text.len() {
        if !append_shown(&mut shown, text[at], byte_or_zero(text, at + 1))? {
            return Ok(Err(StringFailure::TooLong));
        }
        at += 1;
    }
    if !append(&mut shown, b"\"")? {
        return Ok(Err(StringFailure::TooLong));
    }
    Ok(Ok(Bytes::from_vec(shown)))
}

/// `text.inspect`: the text in quotes, with escapes. A failure where the result is too long.
pub fn inspected(alloc: Global, text: &[u8]) -> Result<Result<Bytes, StringFailure>, AllocError>
    ensures { IfOk result (λ r. r ≡ texts.inspected text.now) }
{
    quoted(alloc, b"\"", text)
}
