//! Programs as text: a line for each body, and in it one for each instruction, catch entry, pool entry and symbol.
ghost use Rattle.std.specs.Prelude.{◌≡◌, ◌++◌, decimal, flat_map, All};
ghost use Rattle.rite_code.specs.Code.{IsBody};
ghost use Rattle.code_listing.specs.Listing as texts;
ghost use Rattle.rb_refusal.specs.Writing.{Says};

use crate::inspecting::write_inspected;
use crate::instructions::write_code;
use itoa::Buffer;
use rb_base::{Bytes, Failed, Sink};
use rb_refusal::{write_pieces, write_text};
use rite_code::{CatchEntry, Code, Irep, PoolItem};

// Which exits an entry takes.
fn reach(rescue: bool) -> &'static [u8]
    ensures { result.now ≡ texts.reach rescue }
{
    if rescue { b"rescue" } else { b"ensure" }
}

#[tactic(auto, unfolding(crate::specs::Listing::catch_line))]
fn write_catch<O: Sink>(out: &mut O, entry: CatchEntry) -> Result<(), Failed>
    ensures { Says (texts.catch_line entry)
        (record { taken = O.taken out.old; faults = O.faults out.old })
        (record { taken = O.taken out.new; faults = O.faults out.new }) result }
{
    let mut begin = Buffer::new();
    let mut end = Buffer::new();
    let mut target = Buffer::new();
    write_pieces(
        out,
        &[
            b"catch ",
            reach(entry.rescue),
            b" ",
            begin.format(entry.begin).as_bytes(),
            b" ",
            end.format(entry.end).as_bytes(),
            b" ",
            target.format(entry.target).as_bytes(),
            b"\n",
        ],
    )
}

fn write_catches<O: Sink>(out: &mut O, entries: &[CatchEntry]) -> Result<(), Failed>
    ensures { Says (flat_map texts.catch_line entries.now)
        (record { taken = O.taken out.old; faults = O.faults out.old })
        (record { taken = O.taken out.new; faults = O.faults out.new }) result }
{
    'entries: for entry in entries {
        write_catch(out, *entry)?;
    }
    Ok(())
}

// Writes a kind of entry, its number, and what comes after it.
fn write_numbered<O: Sink>(
    out: &mut O,
    kind: &'static [u8],
    number: usize,
    rest: &'static [u8],
) -> Result<(), Failed>
    ensures { Says (kind.now ++ (decimal number ++ rest.now))
        (record { taken = O.taken out.old; faults = O.faults out.old })
        (record { taken = O.taken out.new; faults = O.faults out.new }) result }
{
    let mut buffer = Buffer::new();
    let digits = buffer.format(number).as_bytes();
    write_pieces(out, &[kind, digits, rest])
}

// Writes a text in quotes and ends the line.
fn end_with_text<O: Sink>(out: &mut O, text: &[u8]) -> Result<(), Failed>
    ensures { Says (texts.text_end text.now)
        (record { taken = O.taken out.old; faults = O.faults out.old })
        (record { taken = O.taken out.new; faults = O.faults out.new }) result }
{
    write_inspected(out, text)?;
    write_text(out, b"\n")
}

fn end_with_integer<O: Sink>(out: &mut O, number: i64) -> Result<(), Failed>
    ensures { Says (texts.integer_end number)
        (record { taken = O.taken out.old; faults = O.faults out.old })
        (record { taken = O.taken out.new; faults = O.faults out.new }) result }
{
    let mut buffer = Buffer::new();
    write_pieces(out, &[buffer.format(number).as_bytes(), b"\n"])
}

fn write_pool_item<O: Sink>(out: &mut O, number: usize, item: &PoolItem) -> Result<(), Failed>
    ensures { Says (texts.pool_line number item.now)
        (record { taken = O.taken out.old; faults = O.faults out.old })
        (record { taken = O.taken out.new; faults = O.faults out.new }) result }
{
    match item {
        PoolItem::Int(value) => {
            write_numbered(out, b"pool ", number, b" int ")?;
            end_with_integer(out, *value)
        }
        PoolItem::Text(text) => {
            write_numbered(out, b"pool ", number, b" str ")?;
            end_with_text(out, text.as_slice())
        }
    }
}

fn write_pool<O: Sink>(out: &mut O, items: &[PoolItem]) -> Result<(), Failed>
    ensures { Says (texts.numbered texts.pool_line 0 items.now)
        (record { taken = O.taken out.old; faults = O.faults out.old })
        (record { taken = O.taken out.new; faults = O.faults out.new }) result }
{
    'items: for (number, item) in items.iter().enumerate() {
        write_pool_item(out, number, item)?;
    }
    Ok(())
}

fn write_symbol<O: Sink>(out: &mut O, number: usize, name: &[u8]) -> Result<(), Failed>
    ensures { Says (texts.symbol_line number name.now)
        (record { taken = O.taken out.old; faults = O.faults out.old })
        (record { taken = O.taken out.new; faults = O.faults out.new }) result }
{
    write_numbered(out, b"sym ", number, b" ")?;
    end_with_text(out, name)
}

fn write_symbols<O: Sink>(out: &mut O, names: &[Bytes]) -> Result<(), Failed>
    ensures { Says (texts.numbered texts.symbol_line 0 names.now)
        (record { taken = O.taken out.old; faults = O.faults out.old })
        (record { taken = O.taken out.new; faults = O.faults out.new }) result }
{
    'names: for (number, name) in names.iter().enumerate() {
        write_symbol(out, number, name.as_slice())?;
    }
    Ok(())
}

#[tactic(auto, unfolding(crate::specs::Listing::head_line))]
fn write_head<O: Sink>(out: &mut O, number: usize, body: &Irep) -> Result<(), Failed>
    ensures { Says (texts.head_line number body.now)
        (record { taken = O.taken out.old; faults = O.faults out.old })
        (record { taken = O.taken out.new; faults = O.faults out.new }) result }
{
    let mut numbers = Buffer::new();
    let mut locals = Buffer::new();
    let mut registers = Buffer::new();
    let mut children = Buffer::new();
    write_pieces(
        out,
        &[
            b"irep ",
            numbers.format(number).as_bytes(),
            b" locals ",
            locals.format(body.locals).as_bytes(),
            b" registers ",
            registers.format(body.registers).as_bytes(),
            b" children ",
            children.format(body.children.len()).as_bytes(),
            b"\n",
        ],
    )
}

fn write_body<O: Sink>(out: &mut O, version: u8, number: usize, body: &Irep) -> Result<(), Failed>
    requires { IsBody version body.now }
    ensures { Says (texts.body_lines version number body.now)
        (record { taken = O.taken out.old; faults = O.faults out.old })
        (record { taken = O.taken out.new; faults = O.faults out.new }) result }
{
    write_head(out, number, body)?;
    write_code(out, version, body.code.as_slice())?;
    write_catches(out, body.catches.as_slice())?;
    write_pool(out, body.pool.as_slice())?;
    write_symbols(out, body.symbols.as_slice())
}

fn write_bodies<O: Sink>(out: &mut O, version: u8, bodies: &[Irep]) -> Result<(), Failed>
    requires { All (IsBody version) bodies.now }
    ensures { Says (texts.numbered (texts.body_lines version) 0 bodies.now)
        (record { taken = O.taken out.old; faults = O.faults out.old })
        (record { taken = O.taken out.new; faults = O.faults out.new }) result }
{
    'bodies: for (number, body) in bodies.iter().enumerate() {
        write_body(out, version, number, body)?;
    }
    Ok(())
}

/// Writes the listing of a program: each body with its number, its numbers of locals, registers and children,
/// its instructions, each at its address, with the operands in decimal, a jump with its target, and its catch
/// entries, pool and symbols. Where no instruction can be read within the code, the line is the address and `???`,
/// and the code of that body ends there. It takes no memory.
///
/// `Failed` where a call failed: then a front of the listing went out.
#[tactic(auto, unfolding(crate::specs::Listing::listing_of))]
pub fn list<O: Sink>(code: &Code, out: &mut O) -> Result<(), Failed>
    ensures { Says (texts.listing_of code.now)
        (record { taken = O.taken out.old; faults = O.faults out.old })
        (record { taken = O.taken out.new; faults = O.faults out.new }) result }
{
    write_bodies(out, code.version(), code.bodies())
}
