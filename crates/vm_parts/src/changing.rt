//! Core methods of Array and Hash that change their receiver in place.
ghost use Rattle.std.specs.Prelude.{◌≡◌, false, IfOk, OnErr, None};
ghost use Rattle.fiber_switch.specs.Frames.calls.rows.straight as straight;

use fiber_switch::heap::Heap;
use fiber_switch::run_rows::PlainRow;
use fiber_switch::run_rows::rows_array::{ArrayRow, give_directly as give_of_array};
use fiber_switch::run_rows::rows_hash::give_directly as give_of_hash;
use rb_value::Value;
use std::alloc::AllocError;

/// The row of a method of Array with its arguments: `push` of one value is `<<`.
#[inline(always)]
fn with_one(row: ArrayRow, args: &[Value]) -> ArrayRow
    ensures { result ≡ straight.with_one row args.now }
{
    match (row, args) {
        (ArrayRow::Push, [_]) => ArrayRow::Append,
        (row, _) => row,
    }
}

/// What a core method of Array or Hash gives straight on; nothing of any other method, receiver and arguments, which
/// change nothing then. `push` of one value is `<<`.
#[inline(always)]
pub fn give_straight(
    heap: &mut Heap,
    row: PlainRow,
    receiver: Value,
    args: &[Value],
) -> Result<Option<Value>, AllocError>
    ensures given { IfOk result (λ found. straight.given row heap.old receiver args.now ≡ (found, heap.new)) }
    ensures none { IfOk result (λ found. found ≡ None → heap.new ≡ heap.old) }
    ensures err { straight.may_copy row heap.old args.now ≡ false → OnErr result (heap.new ≡ heap.old) }
{
    match row {
        PlainRow::Array(row) => give_of_array(heap, with_one(row, args), receiver, args),
        PlainRow::Hash(row) => give_of_hash(heap, row, receiver, args),
        _ => Ok(None),
    }
}
