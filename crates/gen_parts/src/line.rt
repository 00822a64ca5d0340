//! Lines of a body's code, and entries of its catch table.
use rite_code::Operation;

/// An instruction of a body. A jump names the line that it leads to by its number.
#[derive(Clone, Copy, Debug, PartialEq, Eq)]
pub enum Line {
    Does(Operation),
    Jump { to: u32 },
    /// Where the register is true.
    JumpIf { register: u16, to: u32 },
    /// Where the register isn't true.
    JumpNot { register: u16, to: u32 },
    /// A jump through the ensure parts in between.
    Leave { to: u32 },
}

/// An entry of the catch table by lines: what stands from `begin` up to but not including `end` is left at `target`, by
/// exceptions alone or by every exit.
#[derive(Clone, Copy, Debug, PartialEq, Eq)]
pub struct Catch {
    pub rescue: bool,
    pub begin: u32,
    pub end: u32,
    pub target: u32,
}
