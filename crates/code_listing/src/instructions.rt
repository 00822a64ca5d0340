//! The code of a body, a line for each instruction.
ghost use Rattle.std.specs.Prelude.{◌≡◌, ◌+◌, ◌++◌, ◌<◌, ◌≤◌, ◌^◌, length, flat_map};
ghost use Rattle.code_listing.specs.Listing as texts;
ghost use Rattle.code_outline.specs.Layout.{standing};
ghost use Rattle.rb_refusal.specs.Writing.{Says};

use crate::line::Line;
use rb_base::{Failed, Sink};
use rb_refusal::write_text;
use rite_code::{Instr, Opcode, Operation, Shape, decode, word_of};

// Puts zeros in front of so many digits, so that there are five.
#[inline]
fn put_zeros(line: &mut Line, digits: usize)
    requires { 5 + length line.old ≤ 128 }
    ensures { line.new ≡ texts.zeros_before digits ++ line.old }
{
    match digits {
        0 => line.put_bytes(b"00000"),
        1 => line.put_bytes(b"0000"),
        2 => line.put_bytes(b"000"),
        3 => line.put_bytes(b"00"),
        4 => line.put_bytes(b"0"),
        _ => {}
    }
}

// Puts an address in front.
#[tactic(auto, unfolding(crate::specs::Listing::address))]
fn put_address(line: &mut Line, at: usize)
    requires { 25 + length line.old ≤ 128 }
    ensures { line.new ≡ texts.address at ++ line.old }
{
    let digits = line.put_decimal(at as u64);
    put_zeros(line, digits);
}

// Puts a number after a space in front.
#[inline]
fn put_number(line: &mut Line, number: i64)
    requires { 21 + length line.old ≤ 128 }
    ensures text { line.new ≡ texts.signed_number number ++ line.old }
    ensures short { length line.new ≤ 21 + length line.old }
{
    line.put_signed(number);
    line.put_byte(b' ');
}

#[inline]
fn put_two(line: &mut Line, a: i64, b: i64)
    requires { 42 + length line.old ≤ 128 }
    ensures text { line.new ≡ texts.signed_number a ++ (texts.signed_number b ++ line.old) }
    ensures short { length line.new ≤ 42 + length line.old }
{
    put_number(line, b);
    put_number(line, a);
}

#[inline]
fn put_three(line: &mut Line, a: i64, b: i64, c: i64)
    requires { 63 + length line.old ≤ 128 }
    ensures text { line.new
        ≡ texts.signed_number a ++ (texts.signed_number b ++ (texts.signed_number c ++ line.old)) }
    ensures short { length line.new ≤ 63 + length line.old }
{
    put_number(line, c);
    put_two(line, a, b);
}

fn is_jump(opcode: Opcode) -> bool
    ensures { result ≡ texts.is_jump opcode }
{
    Opcode::Jmp.number() <= opcode.number() && opcode.number() <= Opcode::JmpUw.number()
}

// The signed operand as it is shown: of a jump the target, from the place after the instruction.
fn signed_shown(next: usize, opcode: Opcode, by: i32) -> i64
    requires { next < 2 ^ 32 }
    ensures { result ≡ texts.signed_shown next opcode by }
{
    if is_jump(opcode) {
        next as i64 + i64::from(by)
    } else {
        i64::from(by)
    }
}

// Puts the operands in front, as the shape has them.
fn put_operands(line: &mut Line, next: usize, operation: Operation)
    requires { (next < 2 ^ 32) × (63 + length line.old ≤ 128) }
    ensures text { line.new ≡ flat_map texts.signed_number (texts.operands_shown next operation) ++ line.old }
    ensures short { length line.new ≤ 63 + length line.old }
{
    let opcode = operation.opcode();
    let operands = operation.operands();
    let a = i64::from(operands.a);
    let b = i64::from(operands.b);
    let by = signed_shown(next, opcode, operands.by);
    match opcode.shape() {
        Shape::Z => {}
        Shape::B => put_number(line, a),
        Shape::BB => put_two(line, a, b),
        Shape::BBB => put_three(line, a, b, i64::from(operands.c)),
        Shape::BBI => put_three(line, a, b, by),
        Shape::S => put_number(line, by),
        Shape::BS => put_two(line, a, by),
        Shape::BSS => put_two(line, a, by),
        Shape::W => put_number(line, i64::from(word_of(operands.parameters))),
    }
}

// Puts in front what stands before a mnemonic.
#[inline]
fn put_prefix(line: &mut Line, wide: bool)
    requires { 5 + length line.old ≤ 128 }
    ensures text { line.new ≡ texts.prefix wide ++ line.old }
    ensures short { length line.new ≤ 5 + length line.old }
{
    if wide {
        line.put_bytes(b" EXT ");
    } else {
        line.put_byte(b' ');
    }
}

// Makes the line of an instruction at a place, with the place after it.
#[tactic(auto, using(crate::proofs::Names::name_short), unfolding(crate::specs::Listing::instruction_line))]
fn put_instruction(line: &mut Line, at: usize, next: usize, instr: Instr)
    requires { next < 2 ^ 32 }
    ensures { line.new ≡ texts.instruction_line (standing at (instr, next)) }
{
    let operation = instr.operation();
    line.clear();
    line.put_byte(b'\n');
    put_operands(line, next, operation);
    line.put_bytes(operation.opcode().name());
    put_prefix(line, instr.is_wide());
    put_address(line, at);
}

// Writes the line of an instruction at a place, with the place after it.
fn write_instruction<O: Sink>(
    out: &mut O,
    line: &mut Line,
    at: usize,
    next: usize,
    instr: Instr,
) -> Result<(), Failed>
    requires { next < 2 ^ 32 }
    ensures { Says (texts.instruction_line (standing at (instr, next)))
        (record { taken = O.taken out.old; faults = O.faults out.old })
        (record { taken = O.taken out.new; faults = O.faults out.new }) result }
{
    put_instruction(line, at, next, instr);
    write_text(out, line.as_slice())
}

// Writes the line of a place where no instruction can be read.
#[tactic(auto, unfolding(crate::specs::Listing::unreadable_line))]
fn write_unreadable<O: Sink>(out: &mut O, line: &mut Line, at: usize) -> Result<(), Failed>
    ensures { Says (texts.unreadable_line at)
        (record { taken = O.taken out.old; faults = O.faults out.old })
        (record { taken = O.taken out.new; faults = O.faults out.new }) result }
{
    line.clear();
    line.put_bytes(b" ???\n");
    put_address(line, at);
    write_text(out, line.as_slice())
}

/// Writes a line for each instruction of the code, and a last one where none can be read within it.
///
/// `Failed` where a call failed: then a front of the lines went out.
pub fn write_code<O: Sink>(out: &mut O, version: u8, code: &[u8]) -> Result<(), Failed>
    requires { length code.now < 2 ^ 32 }
    ensures { Says (texts.code_lines version code.now)
        (record { taken = O.taken out.old; faults = O.faults out.old })
        (record { taken = O.taken out.new; faults = O.faults out.new }) result }
{
    let mut line = Line::new();
    let mut at = 0;
    'instructions: while at < code.len() {
        let Some((instr, next)) = decode(version, code, at) else {
            return write_unreadable(out, &mut line, at);
        };
        write_instruction(out, &mut line, at, next, instr)?;
        at = next;
    }
    Ok(())
}
