//! `*` of an Array.
ghost use Rattle.std.specs.Prelude.{◌≡◌, IfOk};
ghost use Rattle.def_plans.specs.Plan.{Plans};
ghost use Rattle.iter_comparing.specs.Stage.{stage_of};
ghost use Rattle.iter_comparing.specs.Repeating as repeating;

use crate::state::ComparingState;
use core_calls::heap::Heap;
use core_calls::{Plan, integer};
use def_core::Cause;
use rb_value::{ObjId, Value};
use std::alloc::{AllocError, Global};

/// Copies of values that aren't none, one after another.
fn copies(alloc: Global, elements: &[Value], times: u64) -> Result<Vec<Value>, AllocError>
    ensures { IfOk result (λ values. values.items ≡ repeating.repeated times elements.now) }
{
    let mut values = Vec::new(alloc);
    let length = usize::try_from(times)
        .unwrap_or(usize::MAX)
        .checked_mul(elements.len());
    match length {
        Some(length) => values.reserve(length)?,
        None => return Err(AllocError),
    }
    'times: for _done in 0..times {
        values.extend_from_slice(elements)?;
    }
    Ok(values)
}

/// The elements so many times, one after another.
#[tactic(auto, using(crate::proofs::Repeated::nothing_repeated))]
fn repeated(alloc: Global, elements: &[Value], times: u64) -> Result<Vec<Value>, AllocError>
    ensures { IfOk result (λ values. values.items ≡ repeating.repeated times elements.now) }
{
    match elements.first() {
        Some(_) => copies(alloc, elements, times),
        None => Ok(Vec::new(alloc)),
    }
}

/// Gives a new Array of the elements so many times.
pub(crate) fn repeat(
    heap: &mut Heap,
    array: ObjId,
    times: Value,
) -> Result<Plan<ComparingState>, AllocError>
    ensures { Plans stage_of heap.new result (repeating.repeat heap.old array times) }
{
    let number = match integer(heap, times) {
        Ok(number) => number,
        Err(cause) => return Ok(Plan::Fails(cause)),
    };
    match u64::try_from(number) {
        Ok(times) => {
            let values = repeated(heap.alloc(), heap.elements(array), times)?;
            Ok(Plan::Finishes(heap.make_array(values)?))
        }
        Err(_) => Ok(Plan::Fails(Cause::NegativeCount)),
    }
}
