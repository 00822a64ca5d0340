//! `each`, `each_index`, `map!` and `delete_if` of an Array, whose length is read anew at each turn.
ghost use Rattle.std.specs.Prelude.{◌≡◌, Ok, OnOk};
ghost use Rattle.def_plans.specs.Plan.{Plans};
ghost use Rattle.core_iter.specs.Sending.{IsBeat};
ghost use Rattle.core_iter.specs.Stage.{stage_of};
ghost use Rattle.core_iter.specs.Visiting as visiting;

use crate::iteration::Iteration;
use crate::sending::{call_beat, call_with, refuse, with_one};
use rb_value::{CoreClass, ObjId, Value};
use run_rows::VisitRow;
use run_rows::core_calls::{Beat, Plan};
use run_rows::heap::Heap;
use std::alloc::AllocError;

/// A place of an Array, and the block that is called there.
#[derive(Clone, Copy, Debug)]
pub struct Visit {
    pub array: ObjId,
    pub place: usize,
    pub block: ObjId,
}

impl Visit {
    /// The place behind.
    fn passed(self) -> Visit
        ensures { result ≡ visiting.passed self }
    {
        Visit {
            place: self.place.saturating_add(1),
            ..self
        }
    }
}

/// The call of the block with the element at the place, which is passed; nothing behind the last one.
pub(crate) fn visit_beat(heap: &Heap, visit: &mut Visit) -> Option<Beat>
    ensures { IsBeat (visiting.element_beat heap.now visit.old) (Ok result) visit.new heap.now }
{
    let value = heap.elements(visit.array).get(visit.place).copied()?;
    *visit = visit.passed();
    Some(with_one(visit.block, value))
}

/// The element at the place, with what comes behind; at the end the Array is given.
pub(crate) fn visit_next(heap: &Heap, visit: Visit) -> Result<Plan<Iteration>, AllocError>
    ensures { Plans stage_of heap.now result (visiting.visit_next heap.now visit) }
{
    let mut visit = visit;
    match visit_beat(heap, &mut visit) {
        Some(beat) => call_beat(heap, Iteration::Visiting(visit), beat),
        None => Ok(Plan::Finishes(Value::Obj(visit.array))),
    }
}

/// The call of the block with the number of the place, which is passed, where the Array has it.
pub(crate) fn index_beat(heap: &Heap, visit: &mut Visit) -> Option<Beat>
    ensures { IsBeat (visiting.index_beat heap.now visit.old) (Ok result) visit.new heap.now }
{
    if visit.place >= heap.elements(visit.array).len() {
        return None;
    }
    let number = i64::try_from(visit.place).unwrap_or(i64::MAX);
    *visit = visit.passed();
    Some(with_one(visit.block, Value::Int(number)))
}

/// The number of the place, where the Array has it; behind the last one the Array is given.
pub(crate) fn index_next(heap: &Heap, visit: Visit) -> Result<Plan<Iteration>, AllocError>
    ensures { Plans stage_of heap.now result (visiting.index_next heap.now visit) }
{
    let mut visit = visit;
    match index_beat(heap, &mut visit) {
        Some(beat) => call_beat(heap, Iteration::Indexing(visit), beat),
        None => Ok(Plan::Finishes(Value::Obj(visit.array))),
    }
}

/// The element at the place, which the answer shall replace.
fn replace_next(heap: &Heap, visit: Visit) -> Result<Plan<Iteration>, AllocError>
    ensures { Plans stage_of heap.now result (visiting.replace_next heap.now visit) }
{
    match heap.elements(visit.array).get(visit.place) {
        Some(value) => call_with(heap, Iteration::Replacing(visit), visit.block, *value),
        None => Ok(Plan::Finishes(Value::Obj(visit.array))),
    }
}

/// Puts the answer in the place of the element, and calls the block with the one behind it, where there is one; nothing
/// is done where there is none.
pub(crate) fn replace_beat(heap: &mut Heap, visit: &mut Visit, answer: Value) -> Option<Beat>
    ensures { IsBeat (visiting.replace_beat heap.old visit.old answer) (Ok result) visit.new heap.new }
{
    let next = visit.passed();
    let value = heap.elements(next.array).get(next.place).copied()?;
    heap.set_element(visit.array, visit.place, answer);
    *visit = next;
    Some(with_one(next.block, value))
}

/// Puts the answer in the place of the element, and goes on behind it.
pub(crate) fn replace_then(
    heap: &mut Heap,
    visit: Visit,
    answer: Value,
) -> Result<Plan<Iteration>, AllocError>
    ensures { Plans stage_of heap.new result (visiting.replace_then heap.old visit answer) }
{
    heap.set_element(visit.array, visit.place, answer);
    replace_next(heap, visit.passed())
}

/// The element at the place, which the answer may delete.
fn delete_next(heap: &Heap, visit: Visit) -> Result<Plan<Iteration>, AllocError>
    ensures { Plans stage_of heap.now result (visiting.delete_next heap.now visit) }
{
    match heap.elements(visit.array).get(visit.place) {
        Some(value) => call_with(heap, Iteration::Deleting(visit), visit.block, *value),
        None => Ok(Plan::Finishes(Value::Obj(visit.array))),
    }
}

/// Takes the element at a place out of an Array.
fn delete_at(heap: &mut Heap, array: ObjId, place: usize) -> Result<(), AllocError>
    ensures { OnOk result (heap.new ≡ visiting.deleted heap.old array place) }
{
    let alloc = heap.alloc();
    let elements = heap.elements(array);
    let (Some(before), Some(after)) = (
        elements.get(..place),
        elements.get(place.saturating_add(1)..),
    ) else {
        return Ok(());
    };
    let mut left = Vec::from_slice(alloc, before)?;
    left.extend_from_slice(after)?;
    heap.replace_elements(array, left);
    Ok(())
}

/// Deletes the element where the answer is true, and goes on behind it.
pub(crate) fn delete_then(
    heap: &mut Heap,
    visit: Visit,
    answer: Value,
) -> Result<Plan<Iteration>, AllocError>
    ensures { Plans stage_of heap.new result (visiting.delete_then heap.old visit answer) }
{
    if answer.is_true() {
        delete_at(heap, visit.array, visit.place)?;
        delete_next(heap, visit)
    } else {
        delete_next(heap, visit.passed())
    }
}

/// Begins to visit an Array.
pub(crate) fn begin_visit(
    heap: &Heap,
    row: VisitRow,
    receiver: Value,
    block: ObjId,
) -> Result<Plan<Iteration>, AllocError>
    ensures { Plans stage_of heap.now result (visiting.begin row heap.now receiver block) }
{
    let Some(array) = heap.an_array(receiver) else {
        return Ok(refuse(heap, CoreClass::Array, receiver));
    };
    let visit = Visit {
        array,
        place: 0,
        block,
    };
    match row {
        VisitRow::EachIndex => index_next(heap, visit),
        VisitRow::MapInPlace => replace_next(heap, visit),
        VisitRow::DeleteElements => delete_next(heap, visit),
        _ => visit_next(heap, visit),
    }
}
