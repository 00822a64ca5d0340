//! Texts as the language writes them: in quotes, with escapes.
ghost use Rattle.std.specs.Prelude.{◌≡◌, ◌<◌};
ghost use Rattle.code_listing.specs.Inspect as texts;
ghost use Rattle.rb_refusal.specs.Writing.{Says};

use rb_base::{Failed, Sink};
use rb_refusal::write_text;

// Whether an insertion would begin here, if `#` stood before it.
fn begins_insertion(text: &[u8]) -> bool
    ensures { result ≡ texts.begins_insertion text.now }
{
    match text {
        [] => false,
        [first, ..] => *first == b'{' || *first == b'$' || *first == b'@',
    }
}

// What follows the backslash, for a byte with a letter of its own.
fn letter_of(byte: u8) -> Option<u8>
    ensures { result ≡ texts.letter_of byte }
{
    match byte {
        7 => Some(b'a'),
        8 => Some(b'b'),
        b'\t' => Some(b't'),
        b'\n' => Some(b'n'),
        11 => Some(b'v'),
        12 => Some(b'f'),
        b'\r' => Some(b'r'),
        27 => Some(b'e'),
        b'"' => Some(b'"'),
        b'\\' => Some(b'\\'),
        _ => None,
    }
}

fn escape_of(byte: u8, inserts: bool) -> Option<u8>
    ensures { result ≡ texts.escape_of byte inserts }
{
    if byte == b'#' && inserts {
        Some(b'#')
    } else {
        letter_of(byte)
    }
}

fn is_printable(byte: u8) -> bool
    ensures { result ≡ texts.is_printable byte }
{
    (32..=126).contains(&byte)
}

// A hexadecimal digit, in capitals.
fn hexadecimal(digit: u8) -> u8
    requires { digit < 16 }
    ensures { result ≡ texts.hexadecimal digit }
{
    if digit < 10 {
        b'0' + digit
    } else {
        b'A' + (digit - 10)
    }
}

// Writes a byte of a text; `inserts` says whether an insertion would begin after `#`.
#[tactic(auto, unfolding(crate::specs::Inspect::inspected_byte))]
fn write_byte<O: Sink>(out: &mut O, byte: u8, inserts: bool) -> Result<(), Failed>
    ensures { Says (texts.inspected_byte byte inserts)
        (record { taken = O.taken out.old; faults = O.faults out.old })
        (record { taken = O.taken out.new; faults = O.faults out.new }) result }
{
    match escape_of(byte, inserts) {
        Some(letter) => write_text(out, &[b'\\', letter]),
        None => {
            if is_printable(byte) {
                write_text(out, &[byte])
            } else {
                write_text(
                    out,
                    &[b'\\', b'x', hexadecimal(byte / 16), hexadecimal(byte % 16)],
                )
            }
        }
    }
}

fn write_bytes<O: Sink>(out: &mut O, text: &[u8]) -> Result<(), Failed>
    ensures { Says (texts.inspected_bytes text.now)
        (record { taken = O.taken out.old; faults = O.faults out.old })
        (record { taken = O.taken out.new; faults = O.faults out.new }) result }
{
    let mut at = 0;
    'bytes: while at < text.len() {
        write_byte(out, text[at], begins_insertion(&text[at + 1..]))?;
        at += 1;
    }
    Ok(())
}

/// Writes a text in quotes, with escapes.
///
/// `Failed` where a call failed: then a front of it went out.
pub fn write_inspected<O: Sink>(out: &mut O, text: &[u8]) -> Result<(), Failed>
    ensures { Says (texts.inspected text.now)
        (record { taken = O.taken out.old; faults = O.faults out.old })
        (record { taken = O.taken out.new; faults = O.faults out.new }) result }
{
    write_text(out, b"\"")?;
    write_bytes(out, text)?;
    write_text(out, b"\"")
}
