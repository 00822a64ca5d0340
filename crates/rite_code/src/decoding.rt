//! From bytes to instructions.
ghost use Rattle.std.specs.Prelude.{◌≡◌, ◌<◌, ◌≤◌, ℕ, ◌+◌, List, ◌++◌, Some, length, IsTrue, IfSome};
ghost use Rattle.rite_code.specs.declared.operation.Operation.{Operation as OperationValue};
ghost use Rattle.rite_code.specs.Instruction.{Instruction, narrow};
ghost use Rattle.rite_code.specs.Shape.{fits};
ghost use Rattle.rite_code.specs.Shape as shapes;
ghost use Rattle.rite_code.specs.Spelling.{encoding};
ghost use Rattle.rite_code.specs.Spelling as spelling;
ghost use Rattle.rite_code.specs.Table as table;

use crate::instr::Instr;
use crate::opcode::{Opcode, Shape, index_size};
use crate::operation::{NO_OPERANDS, Operands, Parameters};

/// The number of EXT, the prefix of a wide instruction.
pub const EXT: u8 = 73;

#[inline(always)]
fn index_at(wide: bool, bytes: &[u8], at: usize) -> u16
    requires { at + shapes.index_size wide ≤ length bytes.now }
    ensures { result ≡ spelling.index_at wide bytes.now at }
{
    if wide {
        u16::from_be_bytes([bytes[at], bytes[at + 1]])
    } else {
        u16::from(bytes[at])
    }
}

#[inline(always)]
fn long_at(bytes: &[u8], at: usize) -> i32
    requires { at + 4 ≤ length bytes.now }
    ensures { result ≡ spelling.long_at bytes.now at }
{
    i32::from_be_bytes([bytes[at], bytes[at + 1], bytes[at + 2], bytes[at + 3]])
}

#[inline(always)]
fn short_at(bytes: &[u8], at: usize) -> i16
    requires { at + 2 ≤ length bytes.now }
    ensures { result ≡ spelling.short_at bytes.now at }
{
    i16::from_be_bytes([bytes[at], bytes[at + 1]])
}

#[inline(always)]
fn distance_at(wide: bool, bytes: &[u8], at: usize) -> i32
    requires { at + shapes.distance_size wide ≤ length bytes.now }
    ensures { result ≡ spelling.distance_at wide bytes.now at }
{
    if wide {
        long_at(bytes, at)
    } else {
        i32::from(short_at(bytes, at))
    }
}

#[inline(always)]
fn signed_index_at(wide: bool, bytes: &[u8], at: usize) -> i32
    requires { at + shapes.index_size wide ≤ length bytes.now }
    ensures { result ≡ spelling.signed_index_at wide bytes.now at }
{
    if wide {
        i32::from(short_at(bytes, at))
    } else {
        i32::from(i8::from_be_bytes([bytes[at]]))
    }
}

/// The 24 bits of ENTER.
fn word_at(bytes: &[u8]) -> u32
    requires { 3 ≤ length bytes.now }
    ensures value { result ≡ spelling.word_at bytes.now 0 }
    ensures small { result < 16777216 }
{
    u32::from(bytes[0]) * 65536 + u32::from(bytes[1]) * 256 + u32::from(bytes[2])
}

/// What the 24 bits say.
fn parameters_of(word: u32) -> Parameters
    requires { word < 16777216 }
    ensures { result ≡ spelling.parameters_of word }
{
    Parameters {
        required: (word / 131072) as u8,
        optional: (word / 1024 % 128) as u8,
        rest: word / 512 % 2 == 1,
        post: (word / 4 % 128) as u8,
        block: word / 2 % 2 == 1,
        spare: word % 2 == 1,
    }
}

/// The operands of a shape at the front of the bytes.
#[inline(always)]
fn operands(wide: bool, shape: Shape, bytes: &[u8]) -> Operands
    requires { shapes.operand_size wide shape ≤ length bytes.now }
    ensures { result ≡ spelling.operands wide shape bytes.now }
{
    let mut found = NO_OPERANDS;
    let size = index_size(wide);
    match shape {
        Shape::Z => {}
        Shape::B => found.a = index_at(wide, bytes, 0),
        Shape::BB => {
            found.a = index_at(wide, bytes, 0);
            found.b = index_at(wide, bytes, size);
        }
        Shape::BBB => {
            found.a = index_at(wide, bytes, 0);
            found.b = index_at(wide, bytes, size);
            found.c = index_at(wide, bytes, size + size);
        }
        Shape::BBI => {
            found.a = index_at(wide, bytes, 0);
            found.b = index_at(wide, bytes, size);
            found.by = signed_index_at(wide, bytes, size + size);
        }
        Shape::S => found.by = distance_at(wide, bytes, 0),
        Shape::BS => {
            found.a = index_at(wide, bytes, 0);
            found.by = distance_at(wide, bytes, size);
        }
        Shape::BSS => {
            found.a = index_at(wide, bytes, 0);
            found.by = long_at(bytes, size);
        }
        Shape::W => found.parameters = parameters_of(word_at(bytes)),
    }
    found
}

/// The instruction with the operands at the front of the bytes, after a prefix of this size. The shape is that of the
/// instruction.
#[inline(always)]
fn body_as(
    wide: bool,
    prefix: usize,
    opcode: Opcode,
    shape: Shape,
    rest: &[u8],
) -> Option<(Instr, usize)>
    requires small { prefix ≤ 1 }
    requires grows { IsTrue wide → IsTrue (shapes.grows (table.shape_of opcode)) }
    requires shape { table.shape_of opcode ≡ shape }
    ensures value { result ≡ spelling.body_of wide prefix opcode rest.now }
    ensures within { IfSome result (λ found. (0 < found.1) × (found.1 ≤ prefix + 1 + length rest.now)) }
{
    let size = shape.operand_size(wide);
    if rest.len() < size {
        return None;
    }
    let operation = opcode.operation_of(shape, operands(wide, shape, rest));
    Some((Instr::from_fitting(wide, operation), prefix + 1 + size))
}

/// The instruction with the operands at the front of the bytes, after a prefix of this size. Each shape has a call of its
/// own, in which it is known.
#[inline(always)]
fn body_of(wide: bool, prefix: usize, opcode: Opcode, rest: &[u8]) -> Option<(Instr, usize)>
    requires small { prefix ≤ 1 }
    requires grows { IsTrue wide → IsTrue (shapes.grows (table.shape_of opcode)) }
    ensures value { result ≡ spelling.body_of wide prefix opcode rest.now }
    ensures within { IfSome result (λ found. (0 < found.1) × (found.1 ≤ prefix + 1 + length rest.now)) }
{
    match opcode.shape() {
        Shape::Z => body_as(wide, prefix, opcode, Shape::Z, rest),
        Shape::B => body_as(wide, prefix, opcode, Shape::B, rest),
        Shape::BB => body_as(wide, prefix, opcode, Shape::BB, rest),
        Shape::BBB => body_as(wide, prefix, opcode, Shape::BBB, rest),
        Shape::BBI => body_as(wide, prefix, opcode, Shape::BBI, rest),
        Shape::S => body_as(wide, prefix, opcode, Shape::S, rest),
        Shape::BS => body_as(wide, prefix, opcode, Shape::BS, rest),
        Shape::BSS => body_as(wide, prefix, opcode, Shape::BSS, rest),
        Shape::W => body_as(wide, prefix, opcode, Shape::W, rest),
    }
}

/// The instruction without EXT at the front of the bytes, and how many bytes it takes.
#[inline(always)]
#[tactic(auto, unfolding(crate::specs::Spelling::narrow_front))]
fn narrow_front(bytes: &[u8]) -> Option<(Instr, usize)>
    ensures value { result ≡ spelling.narrow_front bytes.now }
    ensures within { IfSome result (λ found. (0 < found.1) × (found.1 ≤ length bytes.now)) }
{
    let [number, rest @ ..] = bytes else {
        return None;
    };
    match Opcode::from_number(*number) {
        None => None,
        Some(opcode) => body_of(false, 0, opcode, rest),
    }
}

/// The instruction at the front of the bytes after EXT, and how many bytes both take.
#[inline(always)]
#[tactic(auto, unfolding(crate::specs::Spelling::wide_front))]
fn wide_front(bytes: &[u8]) -> Option<(Instr, usize)>
    ensures value { result ≡ spelling.wide_front bytes.now }
    ensures within { IfSome result (λ found. (0 < found.1) × (found.1 ≤ 1 + length bytes.now)) }
{
    let [number, rest @ ..] = bytes else {
        return None;
    };
    match Opcode::from_number(*number) {
        None => None,
        Some(opcode) => {
            if opcode.shape().grows() {
                body_of(true, 1, opcode, rest)
            } else {
                None
            }
        }
    }
}

/// The instruction at the front of the bytes, with EXT or without, and how many bytes it takes.
#[inline(always)]
#[tactic(auto, unfolding(crate::specs::Spelling::front))]
fn front(bytes: &[u8]) -> Option<(Instr, usize)>
    ensures value { result ≡ spelling.front bytes.now }
    ensures within { IfSome result (λ found. (0 < found.1) × (found.1 ≤ length bytes.now)) }
{
    match bytes {
        [] => None,
        [EXT, rest @ ..] => wide_front(rest),
        _ => narrow_front(bytes),
    }
}

/// The instruction without EXT that stands whole at a place, with the place after it. There is none past the
/// end, where the number is that of no instruction, or where the code ends within the operands.
#[inline(always)]
#[tactic(auto, unfolding(crate::specs::Spelling::decode_at, crate::specs::Spelling::narrow_front))]
pub fn decode_at(code: &[u8], at: usize) -> Option<(Instr, usize)>
    ensures value { result ≡ spelling.decode_at code.now at }
    ensures within { IfSome result (λ found. (at < found.1) × (found.1 ≤ length code.now)) }
{
    let rest = code.get(at..)?;
    let (instr, size) = narrow_front(rest)?;
    Some((instr, at + size))
}

/// The instruction with EXT or without that stands whole at a place, with the place after it.
#[inline(always)]
#[tactic(auto, unfolding(crate::specs::Spelling::decode_wide_at, crate::specs::Spelling::front))]
pub fn decode_wide_at(code: &[u8], at: usize) -> Option<(Instr, usize)>
    ensures value { result ≡ spelling.decode_wide_at code.now at }
    ensures within { IfSome result (λ found. (at < found.1) × (found.1 ≤ length code.now)) }
{
    let rest = code.get(at..)?;
    let (instr, size) = front(rest)?;
    Some((instr, at + size))
}

/// The instruction that stands whole at a place of code of this version, with the place after it. Version 1 has no
/// EXT.
pub fn decode(version: u8, code: &[u8], at: usize) -> Option<(Instr, usize)>
    ensures value { result ≡ spelling.decode version code.now at }
    ensures within { IfSome result (λ found. (at < found.1) × (found.1 ≤ length code.now)) }
{
    if version == 1 {
        decode_at(code, at)
    } else {
        decode_wide_at(code, at)
    }
}

/// What is spelled is decoded again, with the place after it, wherever it stands; and a narrow instruction
/// is spelled in the bytes of its size.
pub fn decoding_undoes_encoding()
    ensures decoded { (pre rest : List ℕ) (i : Instruction) → IsTrue (fits i)
        → spelling.decode_wide_at (pre ++ (encoding i ++ rest)) (length pre)
        ≡ Some (i, length pre + length (encoding i)) }
    ensures sizes { (o : OperationValue) → length (encoding (narrow o)) ≡ shapes.size_of o }
{}
