//! `initialize` of an Array and of a Hash.
ghost use Rattle.std.specs.Prelude.{◌≡◌, Ok, IfOk};
ghost use Rattle.def_plans.specs.Plan.{Plans};
ghost use Rattle.rb_store.specs.Held.{Held};
ghost use Rattle.core_iter.specs.Filling as fills;
ghost use Rattle.core_iter.specs.Sending.{IsBeat};
ghost use Rattle.core_iter.specs.Stage.{stage_of};

use crate::iteration::Iteration;
use crate::sending::{call_beat, refuse, with_one};
use def_core::Cause;
use rb_value::{CoreClass, ObjId, Value};
use run_rows::core_calls::{Beat, Call, Plan, argument, integer};
use run_rows::heap::Heap;
use std::alloc::AllocError;

/// How many elements a new Array may have.
const MOST: u64 = 1 << 24;

/// An Array that gets what a block gives for each place.
#[derive(Clone, Copy, Debug)]
pub struct Filling {
    pub array: ObjId,
    pub place: u64,
    pub count: u64,
    pub block: ObjId,
}

/// The call of the block with the next place, which is passed, where there is one.
fn place_beat(filling: &mut Filling) -> Option<Beat>
    ensures { (held : Held) → IsBeat (fills.place_beat held filling.old) (Ok result) filling.new held }
{
    let place = filling.place;
    if place >= filling.count {
        return None;
    }
    filling.place = place.saturating_add(1);
    let number = i64::try_from(place).unwrap_or(i64::MAX);
    Some(with_one(filling.block, Value::Int(number)))
}

/// Calls the block with the next place, or ends.
fn fill_next(heap: &Heap, filling: Filling) -> Result<Plan<Iteration>, AllocError>
    ensures { Plans stage_of heap.now result (fills.fill_next heap.now filling) }
{
    let mut filling = filling;
    match place_beat(&mut filling) {
        Some(beat) => call_beat(heap, Iteration::Filling(filling), beat),
        None => Ok(Plan::Finishes(Value::Obj(filling.array))),
    }
}

/// Puts what the block gives after the elements, and calls it with the next place, where there is one; nothing is done
/// where there is none.
pub(crate) fn fill_beat(
    heap: &mut Heap,
    filling: &mut Filling,
    answer: Value,
) -> Result<Option<Beat>, AllocError>
    ensures { IsBeat (fills.fill_beat heap.old filling.old answer) result filling.new heap.new }
{
    if filling.place >= filling.count {
        return Ok(None);
    }
    heap.push(filling.array, answer)?;
    Ok(place_beat(filling))
}

/// Puts what the block gives after the elements, and goes on.
pub(crate) fn fill_then(
    heap: &mut Heap,
    filling: Filling,
    answer: Value,
) -> Result<Plan<Iteration>, AllocError>
    ensures { Plans stage_of heap.new result (fills.fill_then heap.old filling answer) }
{
    heap.push(filling.array, answer)?;
    fill_next(heap, filling)
}

/// So many times a value.
fn copies(heap: &Heap, count: u64, value: Value) -> Result<Vec<Value>, AllocError>
    ensures { IfOk result (λ values. values.items ≡ fills.copies count value) }
{
    let mut values = Vec::new(heap.alloc());
    'values: for _done in 0..count {
        values.push(value)?;
    }
    Ok(values)
}

/// Fills an Array with so many times a value.
fn fill_with(
    heap: &mut Heap,
    array: ObjId,
    count: u64,
    value: Value,
) -> Result<Plan<Iteration>, AllocError>
    ensures { Plans stage_of heap.new result (fills.filled heap.old array count value) }
{
    let elements = copies(heap, count, value)?;
    heap.replace_elements(array, elements);
    Ok(Plan::Finishes(Value::Obj(array)))
}

/// How many elements an Array shall get, or why it can't.
fn size_in(heap: &Heap, value: Value) -> Result<u64, Cause>
    ensures { result ≡ fills.size_in heap.now.store value }
{
    let number = integer(heap, value)?;
    let Ok(count) = u64::try_from(number) else {
        return Err(Cause::NegativeCount);
    };
    if count > MOST {
        return Err(Cause::ArrayTooBig);
    }
    Ok(count)
}

/// Begins to fill an Array: with nothing, with so many times a value, or with what the block gives for each place.
pub(crate) fn begin_array(heap: &mut Heap, call: Call<'_>) -> Result<Plan<Iteration>, AllocError>
    ensures { Plans stage_of heap.new result
        (fills.begin_array heap.old call.entry.receiver call.entry.args.now call.entry.block) }
{
    let Some(array) = heap.an_array(call.receiver) else {
        return Ok(refuse(heap, CoreClass::Array, call.receiver));
    };
    let Some(size) = call.args.first() else {
        return fill_with(heap, array, 0, Value::Nil);
    };
    match (size_in(heap, *size), call.block) {
        (Ok(count), Some(block)) => {
            heap.replace_elements(array, Vec::new(heap.alloc()));
            let filling = Filling {
                array,
                place: 0,
                count,
                block,
            };
            fill_next(heap, filling)
        }
        (Ok(count), None) => fill_with(heap, array, count, argument(call.args, 1)),
        (Err(cause), _) => Ok(Plan::Fails(cause)),
    }
}

/// Sets what an absent key of a Hash gives.
pub(crate) fn begin_hash(heap: &mut Heap, call: Call<'_>) -> Plan<Iteration>
    ensures { Plans stage_of heap.new (Ok result)
        (fills.begin_hash heap.old call.entry.receiver call.entry.args.now call.entry.block) }
{
    match heap.a_hash(call.receiver) {
        Some(hash) => {
            heap.set_absent(hash, argument(call.args, 0), call.block);
            Plan::Finishes(call.receiver)
        }
        None => refuse(heap, CoreClass::Hash, call.receiver),
    }
}
