//! The places of the lines of a body, and their instructions.
ghost use Rattle.std.specs.Prelude.{◌≡◌, ◌+◌, map, IfOk, OnOk, ◌++◌, ◌∷◌, []};
ghost use Rattle.rite_code.specs.Instruction.{instruction};
ghost use Rattle.gen_parts.specs.Assembly as assembly;

use crate::line::{Catch, Line};
use rb_base::List;
use rite_code::{CatchEntry, Instr, Operation};
use std::alloc::{AllocError, Global};

/// An instruction that fits its shape.
fn fitting(wide: bool, operation: Operation) -> Result<Instr, AllocError>
    ensures { IfOk result (λ i. i ≡ instruction wide operation) }
{
    match Instr::new(wide, operation) {
        Some(instr) => Ok(instr),
        None => Err(AllocError),
    }
}

/// An instruction in its shortest form.
fn shortest(operation: Operation) -> Result<Instr, AllocError>
    ensures { IfOk result (λ i. i ≡ assembly.shortest operation) }
{
    match Instr::new(false, operation) {
        Some(instr) => Ok(instr),
        None => fitting(true, operation),
    }
}

/// The instruction of a line, for a jump that goes so far. It fails where the operands are past what an instruction can
/// say.
fn instruction_by(wide: bool, by: i32, line: Line) -> Result<Instr, AllocError>
    ensures { IfOk result (λ i. i ≡ assembly.instruction_by wide by line) }
{
    match line {
        Line::Does(operation) => shortest(operation),
        Line::Jump { .. } => fitting(wide, Operation::Jmp { by }),
        Line::JumpIf { register, .. } => fitting(wide, Operation::JmpIf { a: register, by }),
        Line::JumpNot { register, .. } => fitting(wide, Operation::JmpNot { a: register, by }),
        Line::Leave { .. } => fitting(wide, Operation::JmpUw { by }),
    }
}

/// How many bytes an instruction takes.
fn size_of(instr: &Instr) -> u32
    ensures { result ≡ assembly.size_of instr.now }
{
    let prefix = if instr.is_wide() { 2 } else { 1 };
    prefix
        + instr
            .operation()
            .opcode()
            .shape()
            .operand_size(instr.is_wide()) as u32
}

fn size(wide: bool, line: Line) -> Result<u32, AllocError>
    ensures { IfOk result (λ n. n ≡ assembly.size wide line) }
{
    let instr = instruction_by(wide, 0, line)?;
    Ok(size_of(&instr))
}

fn sum(a: u32, b: u32) -> Result<u32, AllocError>
    ensures { IfOk result (λ n. n ≡ a + b) }
{
    match a.checked_add(b) {
        Some(n) => Ok(n),
        None => Err(AllocError),
    }
}

/// The places of the lines, and the place after the last.
pub fn places(alloc: Global, wide: bool, lines: &[Line]) -> Result<Vec<u32>, AllocError>
    ensures { IfOk result (λ at. at.items ≡ assembly.places wide 0 lines.now) }
{
    let mut at = Vec::with_capacity(alloc, lines.len().saturating_add(1))?;
    let mut here = 0;
    for line in lines {
        at.push(here)?;
        here = sum(here, size(wide, *line)?)?;
    }
    at.push(here)?;
    Ok(at)
}

/// The place of a line.
fn place_of(at: &[u32], line: u32) -> u32
    ensures { result ≡ assembly.place_of at.now line }
{
    match at.get(line as usize) {
        Some(place) => *place,
        None => 0,
    }
}

/// The line that a line leads to.
fn target_of(line: Line) -> u32
    ensures { result ≡ assembly.target_of line }
{
    match line {
        Line::Does(_) => 0,
        Line::Jump { to } => to,
        Line::JumpIf { to, .. } => to,
        Line::JumpNot { to, .. } => to,
        Line::Leave { to } => to,
    }
}

/// How far it is to where a line leads, from the place of the next one.
fn distance(at: &[u32], next: u32, line: Line) -> Result<i32, AllocError>
    ensures { IfOk result (λ by. by ≡ assembly.distance at.now next line) }
{
    let by = i64::from(place_of(at, target_of(line))) - i64::from(next);
    match i32::try_from(by) {
        Ok(by) => Ok(by),
        Err(_) => Err(AllocError),
    }
}

/// The instruction of a line, before the one at that place.
#[tactic(auto, unfolding(crate::specs::Assembly::instruction_before))]
fn instruction_before(wide: bool, at: &[u32], next: u32, line: Line) -> Result<Instr, AllocError>
    ensures { IfOk result (λ i. i ≡ assembly.instruction_before wide at.now next line) }
{
    let by = distance(at, next, line)?;
    instruction_by(wide, by, line)
}

/// The instruction of a line at a place, and the place behind it.
#[tactic(auto, unfolding(crate::specs::Assembly::instruction_before))]
fn next_instruction(
    wide: bool,
    at: &[u32],
    here: u32,
    line: Line,
) -> Result<(Instr, u32), AllocError>
    ensures instruction { IfOk result (λ p. p.0 ≡
        assembly.instruction_before wide at.now (here + assembly.size wide line) line) }
    ensures next { IfOk result (λ p. p.1 ≡ here + assembly.size wide line) }
{
    if let Line::Does(operation) = line {
        let instr = shortest(operation)?;
        let next = sum(here, size_of(&instr))?;
        return Ok((instr, next));
    }
    let next = sum(here, size(wide, line)?)?;
    Ok((instruction_before(wide, at, next, line)?, next))
}

/// The instructions of the lines.
pub fn instructions(
    alloc: Global,
    wide: bool,
    at: &[u32],
    lines: &[Line],
) -> Result<Vec<Instr>, AllocError>
    ensures { IfOk result (λ list. list.items ≡ assembly.instructions wide at.now 0 lines.now) }
{
    let mut list = Vec::with_capacity(alloc, lines.len())?;
    let mut here = 0;
    for line in lines {
        let (instr, next) = next_instruction(wide, at, here, *line)?;
        list.push(instr)?;
        here = next;
    }
    Ok(list)
}

fn entry_by(at: &[u32], entry: &Catch) -> CatchEntry
    ensures { result ≡ assembly.entry_by at.now entry.now }
{
    CatchEntry {
        rescue: entry.rescue,
        begin: place_of(at, entry.begin),
        end: place_of(at, entry.end),
        target: place_of(at, entry.target),
    }
}

/// The catch table by places.
pub fn catch_table(
    alloc: Global,
    at: &[u32],
    entries: &[Catch],
) -> Result<List<CatchEntry>, AllocError>
    ensures { IfOk result (λ list. list ≡ map (assembly.entry_by at.now) entries.now) }
{
    let mut list = Vec::with_capacity(alloc, entries.len())?;
    for entry in entries {
        list.push(entry_by(at, entry))?;
    }
    Ok(List::from_vec(list))
}
