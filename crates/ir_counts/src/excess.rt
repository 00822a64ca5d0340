//! The first count of a program that exceeds its limit.
ghost use Rattle.std.specs.Prelude.{◌≡◌, map, IfOk, None};
ghost use Rattle.ir_core.specs.View.{body_view};
ghost use Rattle.ir_walk.specs.Steps.{body as view};
ghost use Rattle.ir_counts.specs.Counts.{counts, need};
ghost use Rattle.ir_counts.specs.Limits as limits;

use crate::bodies::bodies_of;
use crate::counts::{Counts, counts_of};
use ir_core::{Body, Core, Program};
use ir_walk::sums::add;
use rb_syntax::Count;
use std::alloc::{AllocError, Global};

/// A count that exceeds its limit.
#[derive(Clone, Copy, Debug, PartialEq, Eq)]
pub struct Excess {
    pub what: Count,
    pub count: u64,
}

/// The count, where it exceeds its limit, else what follows.
fn past(what: Count, count: u64, limit: u64, next: Option<Excess>) -> Option<Excess>
    ensures { result ≡ limits.past what count limit next }
{
    if limit < count {
        Some(Excess { what, count })
    } else {
        next
    }
}

/// The first count of a body that exceeds its limit, in the order of `Count`.
fn past_in_body(counts: Counts) -> Option<Excess>
    ensures { result ≡ limits.of_body counts None }
{
    let next = past(Count::Code, counts.code, 4194303, None);
    let next = past(Count::Children, counts.children, 65535, next);
    let next = past(Count::Symbols, counts.symbols, 65535, next);
    let next = past(Count::Pool, counts.pool, 65535, next);
    let next = past(Count::Registers, counts.registers, 65535, next);
    past(Count::Parameters, counts.parameters, 127, next)
}

/// The count of a file of so many bodies and bytes.
fn file_count(bodies: usize, bytes: u64) -> u64
    ensures { result ≡ limits.file_of bodies bytes }
{
    if 65536 < bodies { 4294967296 } else { bytes }
}

/// The first count of the bodies that exceeds its limit, the file last.
#[tactic(auto, using(crate::proofs::Limits::limit_laws))]
fn first_of_bodies(alloc: Global, bodies: &[&Body<Core>]) -> Result<Option<Excess>, AllocError>
    ensures { IfOk result (λ excess. excess ≡ limits.first_excess (map counts (map view bodies.now))) }
{
    let mut bytes = 64;
    for body in bodies {
        let counts = counts_of(alloc, *body)?;
        if let Some(excess) = past_in_body(counts) {
            return Ok(Some(excess));
        }
        bytes = add(bytes, counts.bytes)?;
    }
    let file = file_count(bodies.len(), bytes);
    Ok(past(Count::File, file, 4294967295, None))
}

/// The first count that exceeds its limit: bodies depth first, in each body in the order of `Count`, the file
/// last. A sum past 2^64 - 1, which no memory can hold the forms of, is answered as if memory ran out.
pub fn first_past_limit(alloc: Global, program: &Program) -> Result<Option<Excess>, AllocError>
    ensures { IfOk result (λ excess. excess ≡ limits.first_excess (need (body_view program.now))) }
{
    let bodies = bodies_of(alloc, program)?;
    first_of_bodies(alloc, &bodies)
}
