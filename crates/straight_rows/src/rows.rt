//! What rows of the table give straight on.
ghost use Rattle.std.specs.Prelude.{◌≡◌, None, IfOk, OnErr};
ghost use Rattle.straight_rows.specs.Straight as straight;
ghost use Rattle.straight_rows.specs.Called.{GivesAsCalled};

use crate::numbers::give_number;
use crate::texts::give_text;
use heap::Heap;
use rb_value::Value;
use row_table::CoreRow;
use std::alloc::AllocError;

/// What a row of the table gives straight on; nothing of any other row, receiver and arguments, which change nothing
/// then. Where memory runs out the heap is as before.
#[inline(always)]
#[tactic(auto, using(crate::proofs::Calls::given_is_called))]
pub fn give(
    heap: &mut Heap,
    row: CoreRow,
    receiver: Value,
    args: &[Value],
) -> Result<Option<Value>, AllocError>
    ensures given { IfOk result (λ found. straight.given row heap.old receiver args.now ≡ (found, heap.new)) }
    ensures called { IfOk result (λ found. GivesAsCalled row heap.old heap.new receiver args.now found) }
    ensures none { IfOk result (λ found. found ≡ None → heap.new ≡ heap.old) }
    ensures err { OnErr result (heap.new ≡ heap.old) }
{
    match row {
        CoreRow::String(method) => give_text(heap, method, receiver, args),
        CoreRow::Integer(method) => give_number(heap, method, receiver, args),
        _ => Ok(None),
    }
}
