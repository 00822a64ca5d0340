//! The first plan of each row, and the next with the answer to the one before.
ghost use Rattle.std.specs.Prelude.{◌≡◌};
ghost use Rattle.def_plans.specs.Plan.{Plans};
ghost use Rattle.iter_enumerators.specs.Rows as rows;

use crate::items::{end, next_item, rewind, take_item};
use crate::row::EnumeratorRow;
use crate::sources::{enumerate, put, run};
use crate::state::EnumeratorState;
use core_calls::heap::Heap;
use core_calls::{Call, Plan, miscounted};
use def_core::Cause;
use rb_value::{CoreClass, ObjId, Value};
use std::alloc::AllocError;

/// Why a row can't take so many arguments.
fn refused(row: EnumeratorRow, given: usize) -> Option<Cause>
    ensures { result ≡ rows.refused row given }
{
    match row {
        EnumeratorRow::Next | EnumeratorRow::Peek | EnumeratorRow::Rewind | EnumeratorRow::Each =>
            miscounted(given, 0, Some(0)),
        EnumeratorRow::Put => miscounted(given, 1, Some(1)),
        EnumeratorRow::Yield | EnumeratorRow::Enumerate => None,
    }
}

/// Begins `each` of an Enumerator, which wants a block.
fn start_each(
    heap: &mut Heap,
    enumerator: ObjId,
    block: Option<ObjId>,
) -> Result<Plan<EnumeratorState>, AllocError>
    ensures { Plans (λ s. s) heap.new result (rows.each heap.old block enumerator) }
{
    match block {
        Some(block) => run(heap, EnumeratorState::Hands, enumerator, block),
        None => Ok(Plan::Fails(Cause::NoBlockGiven)),
    }
}

/// The Enumerator that a value is.
fn an_enumerator(heap: &Heap, value: Value) -> Option<ObjId>
    ensures { result ≡ rows.an_enumerator heap.now.store.objects value }
{
    match value {
        Value::Obj(id) => match heap.enumerator_of(id) {
            Some(_) => Some(id),
            None => None,
        },
        _ => None,
    }
}

/// Begins a method of an Enumerator; of a Yielder it does nothing.
fn start_enumerator(
    heap: &mut Heap,
    row: EnumeratorRow,
    enumerator: ObjId,
    call: Call<'_>,
) -> Result<Plan<EnumeratorState>, AllocError>
    ensures { Plans (λ s. s) heap.new result (rows.of_it row heap.old call.entry.block enumerator) }
{
    match row {
        EnumeratorRow::Next => next_item(heap, enumerator, true),
        EnumeratorRow::Peek => next_item(heap, enumerator, false),
        EnumeratorRow::Rewind => rewind(heap, enumerator),
        EnumeratorRow::Each => start_each(heap, enumerator, call.block),
        EnumeratorRow::Enumerate => enumerate(heap, enumerator),
        EnumeratorRow::Put | EnumeratorRow::Yield => Ok(Plan::Finishes(Value::Nil)),
    }
}

/// Begins a method whose arguments are counted.
fn start_counted(
    heap: &mut Heap,
    row: EnumeratorRow,
    call: Call<'_>,
) -> Result<Plan<EnumeratorState>, AllocError>
    ensures { Plans (λ s. s) heap.new result (rows.counted row heap.old call.entry.receiver call.entry.args.now call.entry.block) }
{
    let receiver = call.receiver;
    match row {
        EnumeratorRow::Put => put(heap, EnumeratorState::Gives(receiver), receiver, call.args),
        EnumeratorRow::Yield => put(heap, EnumeratorState::Hands, receiver, call.args),
        _ => match an_enumerator(heap, receiver) {
            Some(enumerator) => start_enumerator(heap, row, enumerator, call),
            None => Ok(Plan::Fails(heap.refusal(CoreClass::Enumerator, receiver))),
        },
    }
}

/// The first plan of a row.
pub fn start(
    heap: &mut Heap,
    row: EnumeratorRow,
    call: Call<'_>,
) -> Result<Plan<EnumeratorState>, AllocError>
    ensures { Plans (λ s. s) heap.new result (rows.start row heap.old call.entry.receiver call.entry.args.now call.entry.block) }
{
    match refused(row, call.args.len()) {
        Some(cause) => Ok(Plan::Fails(cause)),
        None => start_counted(heap, row, call),
    }
}

/// The next plan, with the answer to the one before.
pub fn next(
    heap: &mut Heap,
    state: EnumeratorState,
    answer: Value,
) -> Result<Plan<EnumeratorState>, AllocError>
    ensures { Plans (λ s. s) heap.new result (rows.next heap.old state answer) }
{
    match state {
        EnumeratorState::Waits {
            enumerator,
            fiber,
            leaves,
        } => take_item(heap, enumerator, fiber, leaves, answer),
        EnumeratorState::Runs { enumerator, fiber } => end(heap, enumerator, fiber, answer),
        EnumeratorState::Hands => Ok(Plan::Finishes(answer)),
        EnumeratorState::Gives(value) => Ok(Plan::Finishes(value)),
    }
}
