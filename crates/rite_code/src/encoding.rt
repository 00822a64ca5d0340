//! From instructions to bytes.
ghost use Rattle.std.specs.Prelude.{◌≡◌, ◌<◌, ◌++◌, IfOk, OnOk, IsTrue};
ghost use Rattle.rite_code.specs.Shape as shapes;
ghost use Rattle.rite_code.specs.Spelling.{encoding, encodings};
ghost use Rattle.rite_code.specs.Spelling as spelling;

use crate::decoding::EXT;
use crate::instr::Instr;
use crate::opcode::Shape;
use crate::operation::{Operands, Parameters};
use std::alloc::{AllocError, Global};

fn put_index(out: &mut Vec<u8>, wide: bool, n: u16) -> Result<(), AllocError>
    requires { IsTrue (shapes.is_index wide n) }
    ensures { OnOk result (out.new.items ≡ out.old.items ++ spelling.index_bytes wide n) }
{
    if wide {
        out.extend_from_slice(&n.to_be_bytes())?;
    } else {
        out.push(n as u8)?;
    }
    Ok(())
}

fn put_long(out: &mut Vec<u8>, n: i32) -> Result<(), AllocError>
    ensures { OnOk result (out.new.items ≡ out.old.items ++ spelling.long_bytes n) }
{
    out.extend_from_slice(&n.to_be_bytes())?;
    Ok(())
}

fn put_distance(out: &mut Vec<u8>, wide: bool, by: i32) -> Result<(), AllocError>
    requires { IsTrue (shapes.is_distance wide by) }
    ensures { OnOk result (out.new.items ≡ out.old.items ++ spelling.distance_bytes wide by) }
{
    if wide {
        put_long(out, by)?;
    } else {
        out.extend_from_slice(&(by as i16).to_be_bytes())?;
    }
    Ok(())
}

fn put_signed_index(out: &mut Vec<u8>, wide: bool, n: i32) -> Result<(), AllocError>
    requires { IsTrue (shapes.is_signed_index wide n) }
    ensures { OnOk result (out.new.items ≡ out.old.items ++ spelling.signed_index_bytes wide n) }
{
    if wide {
        out.extend_from_slice(&(n as i16).to_be_bytes())?;
    } else {
        out.extend_from_slice(&(n as i8).to_be_bytes())?;
    }
    Ok(())
}

/// The number that ENTER has: 24 bits, where each count is below 128.
pub fn word_of(parameters: Parameters) -> u32
    ensures { result ≡ spelling.word_of parameters }
{
    u32::from(parameters.required) * 131072
        + u32::from(parameters.optional) * 1024
        + u32::from(parameters.rest) * 512
        + u32::from(parameters.post) * 4
        + u32::from(parameters.block) * 2
        + u32::from(parameters.spare)
}

fn put_word(out: &mut Vec<u8>, word: u32) -> Result<(), AllocError>
    requires { word < 16777216 }
    ensures { OnOk result (out.new.items ≡ out.old.items ++ spelling.word_bytes word) }
{
    out.push((word / 65536) as u8)?;
    out.push((word / 256 % 256) as u8)?;
    out.push((word % 256) as u8)?;
    Ok(())
}

/// Puts the 24 bits of ENTER.
fn put_parameters(out: &mut Vec<u8>, parameters: Parameters) -> Result<(), AllocError>
    requires { IsTrue (shapes.are_counts parameters) }
    ensures { OnOk result (out.new.items ≡ out.old.items ++ spelling.word_bytes (spelling.word_of parameters)) }
{
    put_word(out, word_of(parameters))
}

/// Puts the operands that the shape has.
fn put_operands(
    out: &mut Vec<u8>,
    wide: bool,
    shape: Shape,
    operands: Operands,
) -> Result<(), AllocError>
    requires { IsTrue (shapes.fits_shape wide shape operands) }
    ensures { OnOk result (out.new.items ≡ out.old.items ++ spelling.shape_bytes wide shape operands) }
{
    let Operands {
        a,
        b,
        c,
        by,
        parameters,
    } = operands;
    match shape {
        Shape::Z => {}
        Shape::B => put_index(out, wide, a)?,
        Shape::BB => {
            put_index(out, wide, a)?;
            put_index(out, wide, b)?;
        }
        Shape::BBB => {
            put_index(out, wide, a)?;
            put_index(out, wide, b)?;
            put_index(out, wide, c)?;
        }
        Shape::BBI => {
            put_index(out, wide, a)?;
            put_index(out, wide, b)?;
            put_signed_index(out, wide, by)?;
        }
        Shape::S => put_distance(out, wide, by)?,
        Shape::BS => {
            put_index(out, wide, a)?;
            put_distance(out, wide, by)?;
        }
        Shape::BSS => {
            put_index(out, wide, a)?;
            put_long(out, by)?;
        }
        Shape::W => put_parameters(out, parameters)?,
    }
    Ok(())
}

/// Puts an instruction at the end.
#[tactic(auto, unfolding(crate::specs::Spelling::encoding))]
fn put(out: &mut Vec<u8>, instr: &Instr) -> Result<(), AllocError>
    ensures { OnOk result (out.new.items ≡ out.old.items ++ encoding instr.now) }
{
    let operation = instr.operation();
    if instr.is_wide() {
        out.push(EXT)?;
    }
    let opcode = operation.opcode();
    out.push(opcode.number())?;
    put_operands(out, instr.is_wide(), opcode.shape(), operation.operands())
}

/// The bytes of the instructions, one after the other.
pub fn encode(alloc: Global, list: &[Instr]) -> Result<Vec<u8>, AllocError>
    ensures { IfOk result (λ bytes. bytes.items ≡ encodings list.now) }
{
    let mut out = Vec::new(alloc);
    for instr in list {
        put(&mut out, instr)?;
    }
    Ok(out)
}
