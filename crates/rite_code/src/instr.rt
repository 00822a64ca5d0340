//! Instructions whose operands fit their shape.
ghost use Rattle.std.specs.Prelude.{◌≡◌, ◌↔◌, IsSome, IfSome, IsTrue};
ghost use Rattle.rite_code.specs.Shape as shapes;

use crate::opcode::Shape;
use crate::operation::{Operands, Operation, Parameters};
use std::marker::Model;

/// An instruction. Without `wide` its operands fit the shape of the instruction; `wide` stands only where
/// the shape has an operand that grows.
#[derive(Clone, Copy, Debug)]
pub struct Instr {
    wide: bool,
    operation: Operation,
}

impl Model for Instr {
    ghost use Rattle.rite_code.specs.Instruction.{Instruction};

    ghost Value = { Instruction };

    ghost use Rattle.std.specs.Prelude.{IsTrue};
    ghost use Rattle.rite_code.specs.Shape.{fits};

    ghost view = { λ i. record { wide = i.wide; operation = i.operation } };

    ghost invariant = { λ i. IsTrue (fits (record { wide = i.wide; operation = i.operation })) };

    ghost inverse = { λ i. record { wide = i.wide; operation = i.operation } };
}

#[inline(always)]
fn is_index(wide: bool, n: u16) -> bool
    ensures { result ≡ shapes.is_index wide n }
{
    wide || n < 256
}

#[inline(always)]
fn is_short(by: i32) -> bool
    ensures { result ≡ shapes.is_short by }
{
    -32768 <= by && by < 32768
}

#[inline(always)]
fn is_signed_index(wide: bool, n: i32) -> bool
    ensures { result ≡ shapes.is_signed_index wide n }
{
    if wide {
        is_short(n)
    } else {
        -128 <= n && n < 128
    }
}

#[inline(always)]
fn is_distance(wide: bool, by: i32) -> bool
    ensures { result ≡ shapes.is_distance wide by }
{
    wide || is_short(by)
}

fn are_counts(parameters: Parameters) -> bool
    ensures { result ≡ shapes.are_counts parameters }
{
    parameters.required < 128 && parameters.optional < 128 && parameters.post < 128
}

/// Whether the operands that the shape has fit it.
fn fits(wide: bool, shape: Shape, operands: Operands) -> bool
    ensures { result ≡ shapes.fits_shape wide shape operands }
{
    let Operands {
        a,
        b,
        c,
        by,
        parameters,
    } = operands;
    match shape {
        Shape::Z => !wide,
        Shape::B => is_index(wide, a),
        Shape::BB => is_index(wide, a) && is_index(wide, b),
        Shape::BBB => is_index(wide, a) && is_index(wide, b) && is_index(wide, c),
        Shape::BBI => is_index(wide, a) && is_index(wide, b) && is_signed_index(wide, by),
        Shape::S => is_distance(wide, by),
        Shape::BS => is_index(wide, a) && is_distance(wide, by),
        Shape::BSS => is_index(wide, a),
        Shape::W => !wide && are_counts(parameters),
    }
}

impl Instr {
    ghost use Rattle.rite_code.specs.Instruction.{instruction};
    ghost use Rattle.rite_code.specs.Shape.{fits_as};

    /// The instruction, where its operands fit. None where they don't.
    pub fn new(wide: bool, operation: Operation) -> Option<Instr>
        ensures some { IsSome result ↔ IsTrue (fits_as wide operation) }
        ensures value { IfSome result (λ i. i ≡ instruction wide operation) }
    {
        if fits(wide, operation.opcode().shape(), operation.operands()) {
            Some(Instr { wide, operation })
        } else {
            None
        }
    }

    /// The instruction of operands that fit.
    #[inline(always)]
    pub fn from_fitting(wide: bool, operation: Operation) -> Instr
        requires { IsTrue (fits_as wide operation) }
        ensures { result ≡ instruction wide operation }
    {
        Instr { wide, operation }
    }

    /// What it does, with its operands.
    #[inline(always)]
    pub fn operation(&self) -> Operation
        ensures value { result ≡ self.now.operation }
        ensures fits { IsTrue (shapes.fits self.now) }
    {
        self.operation
    }

    /// Whether EXT stands before it.
    #[inline(always)]
    pub fn is_wide(&self) -> bool
        ensures { result ≡ self.now.wide }
    {
        self.wide
    }
}

impl Operation {
    /// How many bytes it takes without EXT.
    #[inline(always)]
    pub fn size_of(self) -> usize
        ensures { result ≡ shapes.size_of self }
    {
        1 + self.opcode().shape().operand_size(false)
    }
}
