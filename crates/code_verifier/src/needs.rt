//! What an instruction needs: registers, symbols, places.
ghost use Rattle.std.specs.Prelude.{◌≡◌, ◌≤◌, nat_lt};
ghost use Rattle.std.specs.List.{list_all};
ghost use Rattle.code_verifier.specs.Needs as needs;

use rite_code::{Operation, Parameters};

/// The registers that hold the arguments of a call.
#[inline(always)]
pub fn arguments(c: u16) -> u32
    ensures value { result ≡ needs.arguments c }
    ensures small { result ≤ 65535 }
{
    if c == 255 { 1 } else { u32::from(c) }
}

/// The registers that hold the arguments of a call on self.
#[inline(always)]
pub fn self_arguments(c: u16) -> u32
    ensures value { result ≡ needs.self_arguments c }
    ensures small { result ≤ 65535 }
{
    if c == 254 { 0 } else { arguments(c) }
}

/// How many registers a body has at least where the instruction reads and writes those that it names.
#[inline(always)]
pub fn registers_of(operation: Operation) -> u32
    ensures { result ≡ needs.registers_of operation }
{
    match operation {
        Operation::Move { a, b } | Operation::Rescue { a, b } => (u32::from(a) + 1).max(
            u32::from(b) + 1,
        ),
        Operation::ARef { a, b, .. } => (u32::from(a) + 1).max(u32::from(b) + 1),
        Operation::LoadNil { a }
        | Operation::LoadSelf { a }
        | Operation::LoadT { a }
        | Operation::LoadF { a }
        | Operation::Except { a }
        | Operation::RaiseIf { a }
        | Operation::BlkPush { a }
        | Operation::Return { a }
        | Operation::ReturnBlk { a }
        | Operation::Break { a }
        | Operation::Intern { a }
        | Operation::SClass { a }
        | Operation::TClass { a } => u32::from(a) + 1,
        Operation::LoadL { a, .. }
        | Operation::LoadI { a, .. }
        | Operation::LoadI16 { a, .. }
        | Operation::LoadI32 { a, .. }
        | Operation::LoadSym { a, .. }
        | Operation::GetGv { a, .. }
        | Operation::SetGv { a, .. }
        | Operation::GetIv { a, .. }
        | Operation::SetIv { a, .. }
        | Operation::GetConst { a, .. }
        | Operation::SetConst { a, .. }
        | Operation::GetMCnst { a, .. }
        | Operation::GetUpVar { a, .. }
        | Operation::SetUpVar { a, .. }
        | Operation::JmpIf { a, .. }
        | Operation::JmpNot { a, .. }
        | Operation::APost { a, .. }
        | Operation::String { a, .. }
        | Operation::Lambda { a, .. }
        | Operation::Block { a, .. }
        | Operation::OClass { a, .. }
        | Operation::Module { a, .. }
        | Operation::Exec { a, .. }
        | Operation::Def { a, .. }
        | Operation::Defined { a, .. } => u32::from(a) + 1,
        Operation::SetMCnst { a, .. } | Operation::Class { a, .. } => u32::from(a) + 2,
        Operation::Add { a }
        | Operation::Sub { a }
        | Operation::Mul { a }
        | Operation::Div { a }
        | Operation::Eq { a }
        | Operation::Lt { a }
        | Operation::Le { a }
        | Operation::Gt { a }
        | Operation::Ge { a }
        | Operation::AryCat { a }
        | Operation::StrCat { a }
        | Operation::RangeInc { a }
        | Operation::RangeExc { a } => u32::from(a) + 2,
        Operation::SSend { a, c, .. } => u32::from(a) + 1 + self_arguments(c),
        Operation::Send { a, c, .. } => u32::from(a) + 1 + arguments(c),
        Operation::SSendB { a, c, .. } | Operation::SendB { a, c, .. } => u32::from(a)
            + 2
            + arguments(c),
        Operation::Call { a, b } => u32::from(a) + 1 + arguments(b),
        Operation::Super { a, b } => u32::from(a) + 2 + arguments(b),
        Operation::Array { a, b } => (u32::from(a) + 1).max(u32::from(a) + u32::from(b)),
        Operation::AryPush { a, b } => u32::from(a) + 1 + u32::from(b),
        Operation::Hash { a, b } => (u32::from(a) + 1).max(u32::from(a) + 2 * u32::from(b)),
        Operation::HashAdd { a, b } => u32::from(a) + 1 + 2 * u32::from(b),
        _ => 0,
    }
}

/// Whether its symbols are below this count.
#[inline(always)]
pub fn symbols_hold(count: usize, operation: Operation) -> bool
    ensures { result ≡ list_all (λ i. nat_lt i count) (needs.symbols_of operation) }
{
    match operation {
        Operation::LoadSym { b, .. }
        | Operation::GetGv { b, .. }
        | Operation::SetGv { b, .. }
        | Operation::GetIv { b, .. }
        | Operation::SetIv { b, .. }
        | Operation::GetConst { b, .. }
        | Operation::SetConst { b, .. }
        | Operation::GetMCnst { b, .. }
        | Operation::SetMCnst { b, .. }
        | Operation::SSend { b, .. }
        | Operation::SSendB { b, .. }
        | Operation::Send { b, .. }
        | Operation::SendB { b, .. }
        | Operation::Class { b, .. }
        | Operation::Module { b, .. }
        | Operation::Def { b, .. } => usize::from(b) < count,
        Operation::Alias { a, b } => usize::from(a) < count && usize::from(b) < count,
        Operation::Undef { a } => usize::from(a) < count,
        Operation::Defined { b, c, .. } => b >= 6 || usize::from(c) < count,
        _ => true,
    }
}

/// How far a jump goes from the next instruction.
pub fn distance_of(operation: Operation) -> Option<i32>
    ensures { result ≡ needs.distance_of operation }
{
    match operation {
        Operation::Jmp { by } => Some(by),
        Operation::JmpIf { by, .. } => Some(by),
        Operation::JmpNot { by, .. } => Some(by),
        Operation::JmpUw { by } => Some(by),
        _ => None,
    }
}

/// The count of arguments, where it may be the sign of a bare name or of an Array; else 0.
#[inline(always)]
pub fn count_of(operation: Operation) -> u16
    ensures { result ≡ needs.count_of operation }
{
    match operation {
        Operation::SSend { c, .. }
        | Operation::SSendB { c, .. }
        | Operation::Send { c, .. }
        | Operation::SendB { c, .. } => c,
        Operation::Call { b, .. } | Operation::Super { b, .. } => b,
        _ => 0,
    }
}

/// Whether control goes on elsewhere.
pub fn leaves(operation: Operation) -> bool
    ensures { result ≡ needs.leaves operation }
{
    match operation {
        Operation::Jmp { .. } => true,
        Operation::JmpUw { .. } => true,
        Operation::Return { .. }
        | Operation::ReturnBlk { .. }
        | Operation::Break { .. }
        | Operation::Stop => true,
        _ => false,
    }
}

/// What ENTER says of the parameters.
pub fn parameters_of(operation: Operation) -> Option<Parameters>
    ensures { result ≡ needs.parameters_of operation }
{
    match operation {
        Operation::Enter { parameters } => Some(parameters),
        _ => None,
    }
}

/// Whether it is a plain jump.
pub fn is_jump(operation: Operation) -> bool
    ensures { result ≡ needs.is_jump operation }
{
    matches!(operation, Operation::Jmp { .. })
}
