//! The items of an Enumerator.
ghost use Rattle.std.specs.Prelude.{◌≡◌, IfOk, OnOk};
ghost use Rattle.rb_value.specs.declared.value.Value.TheVariants.{Obj};
ghost use Rattle.def_core.specs.Store.{next_number};
ghost use Rattle.heap.specs.Made.{number_for, with_core_proc};
ghost use Rattle.def_plans.specs.Plan.{Plans};
ghost use Rattle.iter_enumerators.specs.Items as items;

use crate::state::EnumeratorState;
use core_calls::Plan;
use core_calls::heap::{Cursor, Heap};
use core_calls::hidden::FIRST_OF_ITEMS;
use def_core::Cause;
use rb_value::{CoreClass, ObjId, Value};
use std::alloc::AllocError;

/// The row of the Proc that an Enumerator's fiber runs.
const ENUMERATE_ROW: u16 = FIRST_OF_ITEMS;

/// The item that came and wasn't given yet.
fn held(heap: &Heap, cursor: Cursor) -> Option<Value>
    ensures { result ≡ items.item_at heap.now cursor }
{
    let place = usize::try_from(cursor.position).unwrap_or(usize::MAX);
    heap.elements(cursor.items).get(place).copied()
}

/// Gives the item that is held, which leaves or stays.
fn give(
    heap: &mut Heap,
    enumerator: ObjId,
    cursor: Cursor,
    item: Value,
    leaves: bool,
) -> Result<Plan<EnumeratorState>, AllocError>
    ensures { Plans (λ s. s) heap.new result (items.give heap.old enumerator cursor item leaves) }
{
    if leaves {
        let position = cursor.position.saturating_add(1);
        heap.set_cursor(enumerator, Cursor { position, ..cursor })?;
    }
    Ok(Plan::Finishes(item))
}

/// Resumes the fiber that gives the items, where there is one.
fn resume(
    heap: &Heap,
    enumerator: ObjId,
    leaves: bool,
    fiber: Option<ObjId>,
) -> Plan<EnumeratorState>
    ensures { Plans (λ s. s) heap.now (Ok result) (items.resumed heap.now enumerator leaves fiber) }
{
    match fiber {
        Some(fiber) => Plan::Resumes {
            then: EnumeratorState::Waits {
                enumerator,
                fiber,
                leaves,
            },
            fiber,
            args: Vec::new(heap.alloc()),
        },
        None => Plan::Finishes(Value::Nil),
    }
}

/// A new fiber that runs a Proc, which the Enumerator then has.
fn begin_fiber(
    heap: &mut Heap,
    enumerator: ObjId,
    cursor: Cursor,
    block: ObjId,
) -> Result<Option<ObjId>, AllocError>
    ensures number { IfOk result (λ fiber. fiber ≡ number_for heap.old.store block) }
    ensures begun { OnOk result (heap.new ≡ items.with_begun heap.old enumerator cursor block) }
{
    let class = heap.class_object(CoreClass::Fiber);
    let fiber = heap.make_fiber(class, block)?;
    heap.set_cursor(enumerator, Cursor { fiber, ..cursor })?;
    Ok(fiber)
}

/// The new Proc that an Enumerator's fiber runs.
#[tactic(auto, unfolding(rb_value::specs::CoreClass::core_classes))]
fn make_running(heap: &mut Heap, enumerator: ObjId) -> Result<ObjId, AllocError>
    ensures number { IfOk result (λ id. id ≡ next_number heap.old.store) }
    ensures made { OnOk result (heap.new ≡ with_core_proc heap.old items.enumerate_row (Obj enumerator)) }
{
    heap.make_core_proc(ENUMERATE_ROW, Value::Obj(enumerator))
}

/// Resumes the fiber that gives the items: the one that has begun, or a new one.
fn wake(
    heap: &mut Heap,
    enumerator: ObjId,
    cursor: Cursor,
    leaves: bool,
) -> Result<Plan<EnumeratorState>, AllocError>
    ensures { Plans (λ s. s) heap.new result (items.wake heap.old enumerator cursor leaves cursor.fiber) }
{
    if cursor.fiber.is_some() {
        return Ok(resume(heap, enumerator, leaves, cursor.fiber));
    }
    let block = make_running(heap, enumerator)?;
    let fiber = begin_fiber(heap, enumerator, cursor, block)?;
    Ok(resume(heap, enumerator, leaves, fiber))
}

/// Gives the next item of an Enumerator. Where none is held its fiber is resumed, and where the end was reached a
/// StopIteration is raised.
pub(crate) fn next_item(
    heap: &mut Heap,
    enumerator: ObjId,
    leaves: bool,
) -> Result<Plan<EnumeratorState>, AllocError>
    ensures { Plans (λ s. s) heap.new result (items.next_item heap.old enumerator leaves) }
{
    let Some(cursor) = heap.cursor_of(enumerator) else {
        return Ok(Plan::Finishes(Value::Nil));
    };
    if let Some(item) = held(heap, cursor) {
        return give(heap, enumerator, cursor, item, leaves);
    }
    match cursor.result {
        Some(result) => Ok(Plan::Fails(Cause::IterationEnd { result })),
        None => wake(heap, enumerator, cursor, leaves),
    }
}

/// Whether both are the same fiber, or none.
fn is_same(fiber: Option<ObjId>, other: Option<ObjId>) -> bool
    ensures { result ≡ items.is_same fiber other }
{
    match (fiber, other) {
        (Some(fiber), Some(other)) => fiber == other,
        (None, None) => true,
        _ => false,
    }
}

/// Takes what the fiber of an Enumerator gave: an item, or the end where its source has returned. An item of a fiber
/// that the Enumerator has no more is given and not held.
pub(crate) fn take_item(
    heap: &mut Heap,
    enumerator: ObjId,
    fiber: ObjId,
    leaves: bool,
    item: Value,
) -> Result<Plan<EnumeratorState>, AllocError>
    ensures { Plans (λ s. s) heap.new result (items.take_item heap.old enumerator fiber leaves item) }
{
    let Some(cursor) = heap.cursor_of(enumerator) else {
        return Ok(Plan::Finishes(item));
    };
    if !is_same(cursor.fiber, Some(fiber)) {
        return Ok(Plan::Finishes(item));
    }
    if let Some(result) = cursor.result {
        return Ok(Plan::Fails(Cause::IterationEnd { result }));
    }
    heap.push(cursor.items, item)?;
    give(heap, enumerator, cursor, item, leaves)
}

/// Lets an Enumerator begin anew.
pub(crate) fn rewind(
    heap: &mut Heap,
    enumerator: ObjId,
) -> Result<Plan<EnumeratorState>, AllocError>
    ensures { Plans (λ s. s) heap.new result (items.rewind heap.old enumerator) }
{
    let none = Vec::new(heap.alloc());
    if let Value::Obj(items) = heap.make_array(none)? {
        let cursor = Cursor {
            fiber: None,
            items,
            position: 0,
            result: None,
        };
        heap.set_cursor(enumerator, cursor)?;
    }
    Ok(Plan::Finishes(Value::Obj(enumerator)))
}

/// Notes that the source of an Enumerator has returned, where the Enumerator still has the fiber that ran it.
pub(crate) fn end(
    heap: &mut Heap,
    enumerator: ObjId,
    fiber: Option<ObjId>,
    given: Value,
) -> Result<Plan<EnumeratorState>, AllocError>
    ensures { Plans (λ s. s) heap.new result (items.end heap.old enumerator fiber given) }
{
    if let Some(cursor) = heap.cursor_of(enumerator) {
        if is_same(cursor.fiber, fiber) {
            let result = Some(given);
            heap.set_cursor(enumerator, Cursor { result, ..cursor })?;
        }
    }
    Ok(Plan::Finishes(given))
}
