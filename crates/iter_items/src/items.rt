//! The first plan of each row, and the next with the answer to the one before.
ghost use Rattle.std.specs.Prelude.{IfOk};
ghost use Rattle.def_plans.specs.Plan.{Meets};
ghost use Rattle.iter_items.specs.Rows as rows;
ghost use Rattle.iter_items.specs.Stage.{stage_of};

use crate::asking::is_backwards;
use crate::checks::given;
use crate::lifting::lift;
use crate::row::{ItemsRow, Task};
use crate::source::Source;
use crate::state::ItemsState;
use crate::{driving, gathering};
use rb_value::{CoreClass, Value};
use rows_items::core_calls::{Beat, Call, Plan};
use rows_items::heap::Heap;
use std::alloc::AllocError;

/// Begins a method over the items of an Array, a Hash or a Range.
#[tactic(auto, using(crate::proofs::Started::starts_so, crate::proofs::Started::start_refused, crate::proofs::Started::without_items))]
fn start_visit(heap: &mut Heap, task: Task, call: Call<'_>) -> Result<Plan<ItemsState>, AllocError>
    ensures { Meets stage_of heap.new result
        (rows.StartsVisit heap.old task call.entry.receiver call.entry.args.now call.entry.block) }
{
    let given = match given(heap, task, call.args, call.block)? {
        Ok(given) => given,
        Err(cause) => return Ok(Plan::Fails(cause)),
    };
    match Source::of(heap, call.receiver, is_backwards(task))? {
        Some(source) => driving::begin(heap, task, call.receiver, source, given, call.block),
        None => Ok(Plan::Fails(heap.refusal(CoreClass::Array, call.receiver))),
    }
}

/// The first plan of a row.
#[tactic(auto, using(crate::proofs::Lifted::lifted_comparing, crate::proofs::Lifted::lifted_enumerator))]
pub fn start(heap: &mut Heap, row: ItemsRow, call: Call<'_>) -> Result<Plan<ItemsState>, AllocError>
    ensures { Meets stage_of heap.new result
        (rows.Starts row heap.old call.entry.receiver call.entry.args.now call.entry.block) }
{
    match row {
        ItemsRow::Visits(task) => start_visit(heap, task, call),
        ItemsRow::Compares(row) => Ok(lift(iter_comparing::start(heap, row, call)?)),
        ItemsRow::Enumerates(row) => Ok(lift(iter_enumerators::start(heap, row, call)?)),
        ItemsRow::Gathers(row) => gathering::start(heap, row, call),
    }
}

/// The next plan, with the answer to the one before.
#[tactic(auto, using(crate::proofs::Lifted::lifted_comparing, crate::proofs::Lifted::lifted_enumerator))]
pub fn next(
    heap: &mut Heap,
    state: ItemsState,
    answer: Value,
) -> Result<Plan<ItemsState>, AllocError>
    ensures { Meets stage_of heap.new result (rows.GoesOn heap.old (stage_of state) answer) }
{
    match state {
        ItemsState::Visits(state) => driving::go_on(heap, state, answer),
        ItemsState::Gathers(state) => gathering::go_on(heap, state),
        ItemsState::Compares(state) => Ok(lift(iter_comparing::next(heap, state, answer)?)),
        ItemsState::Enumerates(state) => Ok(lift(iter_enumerators::next(heap, state, answer)?)),
    }
}

/// The call of a block that a method wants by an answer, made in place; nothing where its next plan says what it wants.
pub fn beat(
    heap: &mut Heap,
    state: &mut ItemsState,
    answer: Value,
) -> Result<Option<Beat>, AllocError>
    ensures { IfOk result (rows.Beats heap.old state.old answer heap.new state.new) }
{
    match state {
        ItemsState::Visits(visit) => driving::beat(heap, visit.get_mut(), answer),
        _ => Ok(None),
    }
}
