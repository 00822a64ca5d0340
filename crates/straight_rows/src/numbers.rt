//! What methods of Integer without arguments give.
ghost use Rattle.std.specs.Prelude.{◌≡◌, None, IfOk, OnErr};
ghost use Rattle.row_table.specs.declared.line.CoreRow.TheVariants as rows;
ghost use Rattle.straight_rows.specs.Straight as straight;

use heap::Heap;
use rb_integer::comparison::{is_even, is_odd, is_zero};
use rb_integer::numeral::decimal;
use rb_value::Value;
use row_table::IntegerMethod;
use std::alloc::AllocError;

/// What a method of Integer without arguments gives: the digits of a number, or whether it is even, odd or 0; nothing of
/// any other method, receiver and arguments.
pub(crate) fn give_number(
    heap: &mut Heap,
    method: IntegerMethod,
    receiver: Value,
    args: &[Value],
) -> Result<Option<Value>, AllocError>
    ensures given { IfOk result (λ found. straight.given (rows.Integer method) heap.old receiver args.now ≡ (found, heap.new)) }
    ensures none { IfOk result (λ found. found ≡ None → heap.new ≡ heap.old) }
    ensures err { OnErr result (heap.new ≡ heap.old) }
{
    let (Value::Int(number), []) = (receiver, args) else {
        return Ok(None);
    };
    match method {
        IntegerMethod::ToText => Ok(Some(heap.make_text(decimal(number).as_slice())?)),
        IntegerMethod::IsEven => Ok(Some(Value::from_truth(is_even(number)))),
        IntegerMethod::IsOdd => Ok(Some(Value::from_truth(is_odd(number)))),
        IntegerMethod::IsZero => Ok(Some(Value::from_truth(is_zero(number)))),
        _ => Ok(None),
    }
}
