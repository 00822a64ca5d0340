//! The records of bodies.
ghost use Rattle.std.specs.Prelude.{◌≤◌, [], length, IfOk};
ghost use Rattle.rite_file.specs.Gives.{Gives};
ghost use Rattle.rite_file.specs.Record as specs;

use crate::counts::counts_at;
use crate::error::LoadError;
use crate::lists::{catches_at, pool_at, symbols_at};
use crate::reading::{bad, text_at, u32_at};
use rb_base::List;
use rite_code::Irep;
use std::alloc::Global;

/// What a record holds: a body without the numbers of its children, and how many these are.
#[derive(Debug, Drop)]
pub struct Record {
    pub body: Irep,
    pub children: u16,
}

/// What stands after the size of a record.
#[tactic(auto, unfolding(crate::specs::Record::fields_at))]
fn fields_at(
    alloc: Global,
    version: u8,
    bytes: &[u8],
    at: usize,
) -> Result<(Record, usize), LoadError>
    requires { at ≤ length bytes.now }
    ensures value { Gives result (specs.fields_at version bytes.now at) }
    ensures within { IfOk result (λ x. x.1 ≤ length bytes.now) }
{
    let (counts, next) = counts_at(version, bytes, at)?;
    let (code, next) = text_at(alloc, bytes, next)?;
    let (catches, next) = catches_at(alloc, counts.catches, bytes, next)?;
    let (pool, next) = pool_at(alloc, bytes, next)?;
    let (symbols, next) = symbols_at(alloc, bytes, next)?;
    let body = Irep {
        locals: counts.locals,
        registers: counts.registers,
        code,
        catches,
        pool,
        symbols,
        children: List::new(alloc),
    };
    let children = counts.children;
    Ok((Record { body, children }, next))
}

/// The record at a place, whose size is that in its first field.
#[tactic(auto, unfolding(crate::specs::Record::record_at))]
fn record_at(
    alloc: Global,
    version: u8,
    bytes: &[u8],
    at: usize,
) -> Result<(Record, usize), LoadError>
    requires { at ≤ length bytes.now }
    ensures value { Gives result (specs.record_at version bytes.now at) }
    ensures within { IfOk result (λ x. x.1 ≤ length bytes.now) }
{
    let (size, start) = u32_at(bytes, at)?;
    let (record, next) = fields_at(alloc, version, bytes, start)?;
    if next != at + size as usize {
        return Err(bad(at));
    }
    Ok((record, next))
}

/// The most bodies of a program.
const MOST_BODIES: usize = 65536;

/// The records from a place on: that of body 0 and those of its children, depth first. Each awaits its children.
pub fn records_at(
    alloc: Global,
    version: u8,
    bytes: &[u8],
    at: usize,
) -> Result<(List<Record>, usize), LoadError>
    requires { at ≤ length bytes.now }
    ensures value { Gives result (specs.records_at 65536 version [] 1 bytes.now at) }
    ensures within { IfOk result (λ x. x.1 ≤ length bytes.now) }
{
    let mut records = List::new(alloc);
    let mut awaited = 1;
    let mut next = at;
    'records: while awaited > 0 {
        if records.len() == MOST_BODIES {
            return Err(bad(next));
        }
        let (record, after) = record_at(alloc, version, bytes, next)?;
        awaited = awaited - 1 + u64::from(record.children);
        records.push(record)?;
        next = after;
    }
    Ok((records, next))
}
