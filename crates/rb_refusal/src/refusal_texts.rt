//! The texts of refusals.
ghost use Rattle.std.specs.Prelude.{◌≡◌, ◌++◌, codes, decimal};
ghost use Rattle.rb_refusal.specs.RefusalText as texts;
ghost use Rattle.rb_refusal.specs.Writing.{Says};

use crate::pieces::write_pieces;
use crate::refusal::Refusal;
use itoa::Buffer;
use rb_base::{Failed, Sink};
use rite_code::Cause;

/// Writes the text of a refusal: the name of its kind, and what it speaks of.
///
/// `Failed` where a call failed: then a front of the text went out.
pub fn refusal_text<O: Sink>(refusal: &Refusal, out: &mut O) -> Result<(), Failed>
    ensures { Says (texts.refusal_text refusal.now)
        (record { taken = O.taken out.old; faults = O.faults out.old })
        (record { taken = O.taken out.new; faults = O.faults out.new }) result }
{
    match *refusal {
        Refusal::Syntax { at } => write_place(out, b"Syntax", u64::from(at)),
        Refusal::TooDeep => write_pieces(out, &[b"TooDeep"]),
        Refusal::Outside { what, at } => {
            write_named(out, b"Outside ", what.name(), b" at ", u64::from(at))
        }
        Refusal::TooLarge { what, count } => {
            write_named(out, b"TooLarge ", what.name(), b" ", count)
        }
        Refusal::NotRite => write_pieces(out, &[b"NotRite"]),
        Refusal::Foreign { name } => write_foreign(out, name),
        Refusal::Truncated { at } => write_place(out, b"Truncated", at),
        Refusal::BadSection { at } => write_place(out, b"BadSection", at),
        Refusal::BadRecord { at } => write_place(out, b"BadRecord", at),
        Refusal::Bad { irep, at, cause } => write_bad(out, irep, at, cause),
    }
}

// Writes a kind of refusal and the place that it speaks of.
fn write_place<O: Sink>(out: &mut O, kind: &[u8], at: u64) -> Result<(), Failed>
    ensures { Says (kind.now ++ (codes " at " ++ decimal at))
        (record { taken = O.taken out.old; faults = O.faults out.old })
        (record { taken = O.taken out.new; faults = O.faults out.new }) result }
{
    let mut digits = Buffer::new();
    write_pieces(out, &[kind, b" at ", digits.format(at).as_bytes()])
}

// Writes a kind of refusal, the name of what it speaks of, and a number.
fn write_named<O: Sink>(
    out: &mut O,
    kind: &'static [u8],
    name: &'static [u8],
    between: &'static [u8],
    number: u64,
) -> Result<(), Failed>
    ensures { Says (kind.now ++ (name.now ++ (between.now ++ decimal number)))
        (record { taken = O.taken out.old; faults = O.faults out.old })
        (record { taken = O.taken out.new; faults = O.faults out.new }) result }
{
    let mut digits = Buffer::new();
    write_pieces(
        out,
        &[kind, name, between, digits.format(number).as_bytes()],
    )
}

fn write_foreign<O: Sink>(out: &mut O, name: [u8; 4]) -> Result<(), Failed>
    ensures { Says (texts.refusal_text (Refusal.Foreign name))
        (record { taken = O.taken out.old; faults = O.faults out.old })
        (record { taken = O.taken out.new; faults = O.faults out.new }) result }
{
    write_pieces(out, &[b"Foreign ", &visible_name(name)])
}

/// The name with a dot in place of each byte that is no visible character.
pub fn visible_name(name: [u8; 4]) -> [u8; 4]
    ensures { result ≡ texts.visible_name name }
{
    let [a, b, c, d] = name;
    [visible(a), visible(b), visible(c), visible(d)]
}

// The byte, or a dot where it is no visible character.
fn visible(byte: u8) -> u8
    ensures { result ≡ texts.visible byte }
{
    if (33..=126).contains(&byte) {
        byte
    } else {
        b'.'
    }
}

fn write_bad<O: Sink>(out: &mut O, irep: u32, at: u32, cause: Cause) -> Result<(), Failed>
    ensures { Says (texts.refusal_text (Refusal.Bad irep at cause))
        (record { taken = O.taken out.old; faults = O.faults out.old })
        (record { taken = O.taken out.new; faults = O.faults out.new }) result }
{
    let mut body_digits = Buffer::new();
    let mut place_digits = Buffer::new();
    write_pieces(
        out,
        &[
            b"Bad irep ",
            body_digits.format(irep).as_bytes(),
            b" at ",
            place_digits.format(at).as_bytes(),
            b" ",
            cause.name(),
        ],
    )
}
