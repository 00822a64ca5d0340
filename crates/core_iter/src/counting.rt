//! Numbers up to a limit, one after another: `times`, `upto`, `downto` and `step` of an Integer, `each` and `step` of a
//! Range.
ghost use Rattle.std.specs.Prelude.{◌≡◌, IfOk, OnOk};
ghost use Rattle.def_plans.specs.Plan.{Plans};
ghost use Rattle.core_iter.specs.Counting as counting;
ghost use Rattle.core_iter.specs.Sending.{IsBeat};
ghost use Rattle.core_iter.specs.Stage.{stage_of};

use crate::iteration::Iteration;
use crate::sending::{call_beat, refuse};
use def_core::Cause;
use rb_value::{CoreClass, ObjId, RangeContents, RangeEnds, Value};
use run_rows::VisitRow;
use run_rows::core_calls::{Beat, Call, Passed, Plan, argument, integer};
use run_rows::heap::Heap;
use std::alloc::AllocError;

/// The numbers from one to another, by steps of that size; none where there is no next. A block is called with each, or
/// with a String of the byte that it is; then a value is given.
#[derive(Clone, Copy, Debug)]
pub struct Count {
    pub next: Option<i64>,
    pub last: i64,
    pub by: i64,
    pub of_bytes: bool,
    pub block: ObjId,
    pub gives: Value,
}

/// What is shown of a number: it, or a new String of the byte that it is.
fn shown(heap: &mut Heap, number: i64, of_byte: bool) -> Result<Value, AllocError>
    ensures value { IfOk result (λ v. v ≡ (counting.shown heap.old number of_byte).value) }
    ensures made { OnOk result (heap.new ≡ (counting.shown heap.old number of_byte).held) }
{
    if !of_byte {
        return Ok(Value::Int(number));
    }
    match u8::try_from(number) {
        Ok(byte) => heap.make_text(&[byte]),
        Err(_) => Ok(Value::Nil),
    }
}

/// Whether a number passes the last one.
fn is_past(count: Count, number: i64) -> bool
    ensures { result ≡ counting.is_past count number }
{
    if count.by > 0 {
        number > count.last
    } else {
        number < count.last
    }
}

/// The next number, where it doesn't pass the last one.
fn due(count: Count) -> Option<i64>
    ensures { result ≡ counting.due count }
{
    let number = count.next?;
    if is_past(count, number) {
        None
    } else {
        Some(number)
    }
}

/// The call of the block with the next number, which is passed; nothing where none is left.
pub(crate) fn count_beat(heap: &mut Heap, count: &mut Count) -> Result<Option<Beat>, AllocError>
    ensures { IsBeat (counting.count_beat heap.old count.old) result count.new heap.new }
{
    let Some(number) = due(*count) else {
        return Ok(None);
    };
    count.next = number.checked_add(count.by);
    Ok(Some(Beat {
        callee: count.block,
        passed: Passed::One(shown(heap, number, count.of_bytes)?),
    }))
}

/// Calls the block with the next number, or gives the value.
pub(crate) fn count_next(heap: &mut Heap, count: Count) -> Result<Plan<Iteration>, AllocError>
    ensures { Plans stage_of heap.new result (counting.count_next heap.old count) }
{
    let mut count = count;
    match count_beat(heap, &mut count)? {
        Some(beat) => call_beat(heap, Iteration::Counting(count), beat),
        None => Ok(Plan::Finishes(count.gives)),
    }
}

/// Integers from one to another by steps.
fn from_to(call: Call<'_>, block: ObjId, first: i64, last: i64, by: i64) -> Count
    ensures { result ≡ counting.from_to call.entry.receiver block first last by }
{
    Count {
        next: Some(first),
        last,
        by,
        of_bytes: false,
        block,
        gives: call.receiver,
    }
}

/// Integers from one to another by steps, which aren't of no size.
fn by_steps(call: Call<'_>, block: ObjId, first: i64, last: i64, by: i64) -> Result<Count, Cause>
    ensures { result ≡ counting.by_steps call.entry.receiver block first last by }
{
    if by == 0 {
        return Err(Cause::NegativeCount);
    }
    Ok(from_to(call, block, first, last, by))
}

/// The numbers that an Integer counts for its rows.
fn integers(heap: &Heap, row: VisitRow, call: Call<'_>, block: ObjId) -> Result<Count, Cause>
    ensures { result ≡ counting.integers row heap.now.store call.entry.receiver call.entry.args.now block }
{
    let own = integer(heap, call.receiver)?;
    match row {
        VisitRow::Upto => {
            let last = integer(heap, argument(call.args, 0))?;
            Ok(from_to(call, block, own, last, 1))
        }
        VisitRow::Downto => {
            let last = integer(heap, argument(call.args, 0))?;
            Ok(from_to(call, block, own, last, -1))
        }
        VisitRow::Step => {
            let last = integer(heap, argument(call.args, 0))?;
            let by = integer(heap, argument(call.args, 1))?;
            by_steps(call, block, own, last, by)
        }
        _ => Ok(from_to(call, block, 0, own.saturating_sub(1), 1)),
    }
}

/// Begins to count for an Integer.
pub(crate) fn begin_integers(
    heap: &mut Heap,
    row: VisitRow,
    call: Call<'_>,
    block: ObjId,
) -> Result<Plan<Iteration>, AllocError>
    ensures { Plans stage_of heap.new result
        (counting.begin_integers row heap.old call.entry.receiver call.entry.args.now block) }
{
    match integers(heap, row, call, block) {
        Ok(count) => count_next(heap, count),
        Err(cause) => Ok(Plan::Fails(cause)),
    }
}

/// The numbers of a Range up to its last, by steps.
fn up_to_end(range: RangeContents, receiver: Value, block: ObjId, by: i64) -> Count
    ensures { result ≡ counting.up_to_end range receiver block by }
{
    let (first, last, of_bytes) = match range.ends {
        RangeEnds::Integers { first, last } => (first, last, false),
        RangeEnds::Bytes { first, last } => (i64::from(first), i64::from(last), true),
    };
    Count {
        next: Some(first),
        last,
        by,
        of_bytes,
        block,
        gives: receiver,
    }
}

/// The numbers of a Range, by steps: those before its end, where that is excluded.
fn numbers_of(range: RangeContents, receiver: Value, block: ObjId, by: i64) -> Count
    ensures { result ≡ counting.numbers_of range receiver block by }
{
    let count = up_to_end(range, receiver, block, by);
    if !range.exclusive {
        return count;
    }
    match count.last.checked_sub(1) {
        Some(last) => Count { last, ..count },
        None => Count {
            next: None,
            ..count
        },
    }
}

/// Begins to count for a Range, by steps of one.
pub(crate) fn begin_range(
    heap: &mut Heap,
    receiver: Value,
    block: ObjId,
) -> Result<Plan<Iteration>, AllocError>
    ensures { Plans stage_of heap.new result (counting.begin_range heap.old receiver block) }
{
    match heap.range_of(receiver) {
        Some(range) => count_next(heap, numbers_of(range, receiver, block, 1)),
        None => Ok(refuse(heap, CoreClass::Range, receiver)),
    }
}

/// Begins to count for a Range, by steps of the size that is given.
pub(crate) fn begin_range_step(
    heap: &mut Heap,
    call: Call<'_>,
    block: ObjId,
) -> Result<Plan<Iteration>, AllocError>
    ensures { Plans stage_of heap.new result
        (counting.begin_range_step heap.old call.entry.receiver call.entry.args.now block) }
{
    let Some(range) = heap.range_of(call.receiver) else {
        return Ok(refuse(heap, CoreClass::Range, call.receiver));
    };
    match integer(heap, argument(call.args, 0)) {
        Ok(by) => if by > 0 {
            count_next(heap, numbers_of(range, call.receiver, block, by))
        } else {
            Ok(Plan::Fails(Cause::NegativeCount))
        },
        Err(cause) => Ok(Plan::Fails(cause)),
    }
}
