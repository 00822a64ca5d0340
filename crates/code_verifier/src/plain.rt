//! Instructions that ask for no more than registers, symbols and a count of arguments.
ghost use Rattle.std.specs.Prelude.{◌≡◌, length, nat_lt, nat_le, IsTrue};
ghost use Rattle.code_verifier.specs.Plain as plain;

use crate::needs::{arguments, self_arguments};
use rite_code::{Irep, Operation};

/// The body has so many registers.
#[inline(always)]
fn has_registers(body: &Irep, count: u32) -> bool
    ensures { result ≡ nat_le count body.now.registers }
{
    count <= u32::from(body.registers)
}

/// The body has the symbol.
#[inline(always)]
fn has_symbol(body: &Irep, symbol: u16) -> bool
    ensures { result ≡ nat_lt symbol (length body.now.symbols) }
{
    usize::from(symbol) < body.symbols.len()
}

/// Whether all is there that an instruction asks for, which asks for no more than registers, symbols and a count of
/// arguments, behind which control goes on. One look at the instruction says all of it. It is false, too, of some of
/// these that aren't frequent.
#[inline(always)]
pub fn passes(body: &Irep, operation: Operation) -> bool
    ensures { IsTrue result → IsTrue (plain.passes body.now operation) }
{
    match operation {
        Operation::LoadNil { a }
        | Operation::LoadSelf { a }
        | Operation::LoadT { a }
        | Operation::LoadF { a }
        | Operation::Except { a }
        | Operation::RaiseIf { a }
        | Operation::BlkPush { a }
        | Operation::Intern { a }
        | Operation::SClass { a }
        | Operation::TClass { a } => has_registers(body, u32::from(a) + 1),
        Operation::LoadI { a, .. }
        | Operation::LoadI16 { a, .. }
        | Operation::LoadI32 { a, .. }
        | Operation::APost { a, .. } => has_registers(body, u32::from(a) + 1),
        Operation::Add { a }
        | Operation::Sub { a }
        | Operation::Mul { a }
        | Operation::Div { a }
        | Operation::Eq { a }
        | Operation::Lt { a }
        | Operation::Le { a }
        | Operation::Gt { a }
        | Operation::Ge { a }
        | Operation::AryCat { a }
        | Operation::StrCat { a }
        | Operation::RangeInc { a }
        | Operation::RangeExc { a } => has_registers(body, u32::from(a) + 2),
        Operation::Move { a, b } | Operation::Rescue { a, b } => {
            has_registers(body, (u32::from(a) + 1).max(u32::from(b) + 1))
        }
        Operation::ARef { a, b, .. } => {
            has_registers(body, (u32::from(a) + 1).max(u32::from(b) + 1))
        }
        Operation::LoadSym { a, b }
        | Operation::GetGv { a, b }
        | Operation::SetGv { a, b }
        | Operation::GetIv { a, b }
        | Operation::SetIv { a, b }
        | Operation::GetConst { a, b }
        | Operation::SetConst { a, b }
        | Operation::GetMCnst { a, b }
        | Operation::Module { a, b } => {
            has_symbol(body, b) && has_registers(body, u32::from(a) + 1)
        }
        Operation::SetMCnst { a, b } | Operation::Class { a, b } => {
            has_symbol(body, b) && has_registers(body, u32::from(a) + 2)
        }
        Operation::SSend { a, b, c } => {
            c <= 255
                && has_symbol(body, b)
                && has_registers(body, u32::from(a) + 1 + self_arguments(c))
        }
        Operation::Send { a, b, c } => {
            c <= 255 && has_symbol(body, b) && has_registers(body, u32::from(a) + 1 + arguments(c))
        }
        Operation::SSendB { a, b, c } | Operation::SendB { a, b, c } => {
            c <= 255 && has_symbol(body, b) && has_registers(body, u32::from(a) + 2 + arguments(c))
        }
        _ => false,
    }
}
