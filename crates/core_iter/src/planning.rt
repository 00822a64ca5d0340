//! The first plan of each row, and the next with the answer to the one before.
ghost use Rattle.std.specs.Prelude.{◌≡◌, Ok, IfOk};
ghost use Rattle.def_plans.specs.Plan.{Plans, Meets};
ghost use Rattle.core_iter.specs.Rows as rows;
ghost use Rattle.core_iter.specs.Stage.{stage_of};

use crate::counting::{begin_integers, begin_range, begin_range_step, count_beat, count_next};
use crate::filling::{begin_array, begin_hash, fill_beat, fill_then};
use crate::iteration::Iteration;
use crate::lifting::lift;
use crate::making::begin_new;
use crate::pairs::{begin_pairs, pair_beat, pair_then};
use crate::raising::{raise_all, raise_made};
use crate::sending::{
    begin_call, begin_kept, begin_resume, begin_send, begin_yield, blockless, call_with, loop_next,
};
use crate::strings::{
    begin_string, byte_beat, byte_next, character_beat, character_next, line_beat, line_next,
};
use crate::telling::{
    ask_message, begin_message, give_message, raise_reported, report, tell, tell_text,
};
use crate::visiting::{
    begin_visit, delete_then, index_beat, index_next, replace_beat, replace_then, visit_beat,
    visit_next,
};
use crate::writing::{
    all_of, inspect_next, inspect_text, print_next, print_text, put_all, put_next, put_text,
};
use def_core::Cause;
use rb_value::{CoreClass, ObjId, Value};
use run_rows::core_calls::{Beat, Call, Passed, Plan, miscounted};
use run_rows::heap::Heap;
use run_rows::{KernelRow, StarRow, VisitRow};
use std::alloc::AllocError;

/// Why a row of Kernel, Class, Proc or Fiber can't take so many arguments.
fn refused_by_kernel(row: KernelRow, given: usize) -> Option<Cause>
    ensures { result ≡ rows.refused_by_kernel row given }
{
    match row {
        KernelRow::Gets
        | KernelRow::Loop
        | KernelRow::Tap
        | KernelRow::Then
        | KernelRow::Message
        | KernelRow::InspectException => miscounted(given, 0, Some(0)),
        KernelRow::Raise => miscounted(given, 0, Some(2)),
        KernelRow::Send | KernelRow::PublicSend | KernelRow::SendKept => miscounted(given, 1, None),
        _ => None,
    }
}

/// Why a row that visits can't take so many arguments.
fn refused_by_visit(row: VisitRow, given: usize) -> Option<Cause>
    ensures { result ≡ rows.refused_by_visit row given }
{
    match row {
        VisitRow::Upto | VisitRow::Downto | VisitRow::StepOfRange => miscounted(given, 1, Some(1)),
        VisitRow::Step => miscounted(given, 2, Some(2)),
        VisitRow::InitializeArray => miscounted(given, 0, Some(2)),
        VisitRow::InitializeHash => miscounted(given, 0, Some(1)),
        _ => miscounted(given, 0, Some(0)),
    }
}

/// Begins a row of Kernel that calls a block.
fn begin_with_block(
    heap: &Heap,
    row: KernelRow,
    call: Call<'_>,
) -> Result<Plan<Iteration>, AllocError>
    ensures { Plans stage_of heap.now result
        (rows.with_block row heap.now call.entry.receiver call.entry.block) }
{
    let Some(block) = call.block else {
        return Ok(blockless());
    };
    match row {
        KernelRow::Tap => call_with(heap, Iteration::Giving(call.receiver), block, call.receiver),
        KernelRow::Then => call_with(heap, Iteration::Handing, block, call.receiver),
        _ => Ok(loop_next(heap, block)),
    }
}

/// Begins a row of Kernel, Class, Proc or Fiber.
fn begin_kernel(
    heap: &mut Heap,
    row: KernelRow,
    call: Call<'_>,
) -> Result<Plan<Iteration>, AllocError>
    ensures { Meets stage_of heap.new result (rows.StartsKernel row heap.old
        call.entry.receiver call.entry.args.now call.entry.block) }
{
    match row {
        KernelRow::Puts => put_all(heap, call.args),
        KernelRow::Print => {
            let rest = all_of(heap, call.args)?;
            print_next(heap, rest)
        }
        KernelRow::Inspect => {
            let rest = all_of(heap, call.args)?;
            inspect_next(heap, rest)
        }
        KernelRow::Gets => Ok(Plan::Reads {
            then: Iteration::Handing,
        }),
        KernelRow::Raise => raise_all(heap, call.args),
        KernelRow::Loop | KernelRow::Tap | KernelRow::Then => begin_with_block(heap, row, call),
        KernelRow::Send => begin_send(heap, call, false),
        KernelRow::PublicSend => begin_send(heap, call, true),
        KernelRow::SendKept => begin_kept(heap, call),
        KernelRow::NewObject => begin_new(heap, call),
        KernelRow::CallProc => begin_call(heap, call),
        KernelRow::Resume => begin_resume(heap, call),
        KernelRow::Yield => begin_yield(heap, call.args),
        KernelRow::Message => begin_message(heap, call.receiver),
        KernelRow::InspectException => {
            ask_message(heap, Iteration::Telling(call.receiver), call.receiver)
        }
    }
}

/// Begins a row that visits with a block.
fn begin_visit_with(
    heap: &mut Heap,
    row: VisitRow,
    call: Call<'_>,
    block: ObjId,
) -> Result<Plan<Iteration>, AllocError>
    ensures { Plans stage_of heap.new result
        (rows.visiting_with row heap.old call.entry.receiver call.entry.args.now block) }
{
    match row {
        VisitRow::Times | VisitRow::Upto | VisitRow::Downto | VisitRow::Step => begin_integers(
            heap, row, call, block,
        ),
        VisitRow::EachCharacter | VisitRow::EachByte | VisitRow::EachLine => begin_string(
            heap,
            row,
            call.receiver,
            block,
        ),
        VisitRow::EachOfRange => begin_range(heap, call.receiver, block),
        VisitRow::StepOfRange => begin_range_step(heap, call, block),
        VisitRow::EachPair | VisitRow::EachKey | VisitRow::EachValue | VisitRow::DeletePairs => {
            begin_pairs(heap, row, call.receiver, block)
        }
        _ => begin_visit(heap, row, call.receiver, block),
    }
}

/// Begins a row that visits, or fills a new object.
fn begin_any_visit(
    heap: &mut Heap,
    row: VisitRow,
    call: Call<'_>,
) -> Result<Plan<Iteration>, AllocError>
    ensures { Plans stage_of heap.new result
        (rows.visited row heap.old call.entry.receiver call.entry.args.now call.entry.block) }
{
    match (row, call.block) {
        (VisitRow::InitializeArray, _) => begin_array(heap, call),
        (VisitRow::InitializeHash, _) => Ok(begin_hash(heap, call)),
        (_, Some(block)) => begin_visit_with(heap, row, call, block),
        (_, None) => Ok(blockless()),
    }
}

/// The first plan of a row.
pub fn start(heap: &mut Heap, row: StarRow, call: Call<'_>) -> Result<Plan<Iteration>, AllocError>
    ensures { Meets stage_of heap.new result (rows.Starts row heap.old
        call.entry.receiver call.entry.args.now call.entry.block) }
{
    match row {
        StarRow::Kernel(row) => match refused_by_kernel(row, call.args.len()) {
            Some(cause) => Ok(Plan::Fails(cause)),
            None => begin_kernel(heap, row, call),
        },
        StarRow::Visit(row) => match refused_by_visit(row, call.args.len()) {
            Some(cause) => Ok(Plan::Fails(cause)),
            None => begin_any_visit(heap, row, call),
        },
        StarRow::Items(row) => Ok(lift(run_rows::iter_items::start(heap, row, call)?)),
    }
}

/// The next plan, with the answer to the one before.
pub fn next(heap: &mut Heap, state: Iteration, answer: Value) -> Result<Plan<Iteration>, AllocError>
    ensures { Meets stage_of heap.new result (rows.GoesOn heap.old (stage_of state) answer) }
{
    match state {
        Iteration::Handing => Ok(Plan::Finishes(answer)),
        Iteration::Giving(value) => Ok(Plan::Finishes(value)),
        Iteration::Putting(rest) => put_next(heap, rest),
        Iteration::PuttingText(rest) => put_text(heap, rest, answer),
        Iteration::Printing(rest) => print_next(heap, rest),
        Iteration::PrintingText(rest) => print_text(heap, rest, answer),
        Iteration::Inspecting(rest) => inspect_next(heap, rest),
        Iteration::InspectingText(rest) => inspect_text(heap, rest, answer),
        Iteration::Raising => Ok(raise_made(heap, answer)),
        Iteration::Messaging(exception) => give_message(heap, exception, answer),
        Iteration::Telling(exception) => tell(heap, exception, answer),
        Iteration::TellingText(exception) => tell_text(heap, exception, answer),
        Iteration::Reporting(exception) => report(heap, exception),
        Iteration::Reported(exception) => Ok(raise_reported(heap, exception, answer)),
        Iteration::Looping(block) => Ok(loop_next(heap, block)),
        Iteration::Counting(count) => count_next(heap, count),
        Iteration::Characters(walk) => character_next(heap, walk),
        Iteration::Lines(walk) => line_next(heap, walk),
        Iteration::Bytes(walk) => byte_next(heap, walk),
        Iteration::Visiting(visit) => visit_next(heap, visit),
        Iteration::Indexing(visit) => index_next(heap, visit),
        Iteration::Replacing(visit) => replace_then(heap, visit, answer),
        Iteration::Deleting(visit) => delete_then(heap, visit, answer),
        Iteration::Filling(filling) => fill_then(heap, filling, answer),
        Iteration::Pairs(walk) => pair_then(heap, walk, answer),
        Iteration::Items(state) => Ok(lift(run_rows::iter_items::next(heap, state, answer)?)),
    }
}

/// The call of a block that an iteration wants by an answer, made in place; nothing where its next plan says what it
/// wants.
pub fn beat(
    heap: &mut Heap,
    state: &mut Iteration,
    answer: Value,
) -> Result<Option<Beat>, AllocError>
    ensures { IfOk result (rows.Beats heap.old state.old answer heap.new state.new) }
{
    match state {
        Iteration::Looping(block) => Ok(Some(Beat {
            callee: *block,
            passed: Passed::Nothing,
        })),
        Iteration::Counting(count) => count_beat(heap, count),
        Iteration::Visiting(visit) => Ok(visit_beat(heap, visit)),
        Iteration::Indexing(visit) => Ok(index_beat(heap, visit)),
        Iteration::Replacing(visit) => Ok(replace_beat(heap, visit, answer)),
        Iteration::Filling(filling) => fill_beat(heap, filling, answer),
        Iteration::Characters(walk) => character_beat(heap, walk),
        Iteration::Lines(walk) => line_beat(heap, walk),
        Iteration::Bytes(walk) => Ok(byte_beat(heap, walk)),
        Iteration::Pairs(walk) => pair_beat(heap, walk, answer),
        Iteration::Items(state) => run_rows::iter_items::beat(heap, state, answer),
        _ => Ok(None),
    }
}

/// What an iteration gives where an exception comes to it: `loop` ends with the result of a StopIteration, and no other
/// iteration stops an exception. It takes no memory.
pub fn caught(heap: &Heap, state: &Iteration, exception: ObjId) -> Option<Value>
    ensures { result ≡ rows.caught heap.now.store state.now exception }
{
    match state {
        Iteration::Looping(_) => {
            let class = heap.plain_class_of(Value::Obj(exception));
            if heap.is_below(class, CoreClass::StopIteration) {
                Some(heap.detail_of(exception))
            } else {
                None
            }
        }
        _ => None,
    }
}
