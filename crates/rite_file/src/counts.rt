//! The counts at the front of a record.
ghost use Rattle.std.specs.Prelude.{◌≡◌, ◌≤◌, length, IfOk};
ghost use Rattle.rite_file.specs.Record as specs;

use crate::error::LoadError;
use crate::reading::{bad, u16_at};

/// How many registers, children and catch entries a body has.
#[derive(Clone, Copy, Debug, PartialEq, Eq)]
pub struct Counts {
    pub locals: u16,
    pub registers: u16,
    pub children: u16,
    pub catches: u16,
}

/// The most registers of a body of version 1.
const NARROW: u16 = 256;

#[tactic(auto, unfolding(crate::specs::Record::are_registers))]
fn are_registers(version: u8, locals: u16, registers: u16) -> bool
    ensures { result ≡ specs.are_registers version locals registers }
{
    registers >= locals && (version != 1 || registers <= NARROW)
}

/// The counts of a body of this version.
#[tactic(auto, unfolding(crate::specs::Record::counts_at, crate::specs::Record::tested_at))]
pub fn counts_at(version: u8, bytes: &[u8], at: usize) -> Result<(Counts, usize), LoadError>
    requires { at ≤ length bytes.now }
    ensures value { result ≡ specs.counts_at version bytes.now at }
    ensures within { IfOk result (λ x. x.1 ≤ length bytes.now) }
{
    let (locals, next) = u16_at(bytes, at)?;
    if locals == 0 {
        return Err(bad(at));
    }
    let at = next;
    let (registers, next) = u16_at(bytes, at)?;
    if !are_registers(version, locals, registers) {
        return Err(bad(at));
    }
    let (children, next) = u16_at(bytes, next)?;
    let (catches, next) = u16_at(bytes, next)?;
    Ok((
        Counts {
            locals,
            registers,
            children,
            catches,
        },
        next,
    ))
}
