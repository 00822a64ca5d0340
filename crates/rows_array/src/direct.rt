//! Methods whose outcome is given straight on.
ghost use Rattle.std.specs.Prelude.{◌≡◌, [], None, IfOk, OnErr};
ghost use Rattle.rows_array.specs.Directly as directly;

use crate::places::value_at;
use crate::rows::{ArrayRow, length};
use rb_value::{ObjId, Value};
use rows_items::heap::Heap;
use std::alloc::AllocError;

/// Puts a value in the place of the element at an index that counts from the front; nothing where there is none.
#[inline(always)]
fn put_in_place(heap: &mut Heap, id: ObjId, index: i64, value: Value) -> Option<Value>
    ensures given { directly.put_in_place heap.old id index value ≡ (result, heap.new) }
    ensures none { result ≡ None → heap.new ≡ heap.old }
{
    let place = usize::try_from(index).ok()?;
    if place < heap.elements(id).len() {
        heap.set_element(id, place, value);
        Some(value)
    } else {
        None
    }
}

/// What a method without arguments reads straight on: how many elements there are. Nothing of any other method
/// and receiver.
#[inline(always)]
pub fn read_alone(heap: &Heap, row: ArrayRow, receiver: Value) -> Option<Value>
    ensures { directly.given row heap.now receiver [] ≡ (result, heap.now) }
{
    let id = heap.an_array(receiver)?;
    match row {
        ArrayRow::Length => Some(length(heap, id)),
        _ => None,
    }
}

/// What a method gives straight on: an element by its index, how many there are, a value in the place of an element or
/// behind the last one. Nothing of any other method, receiver and arguments, which change nothing then. Where memory
/// runs out the Array is as before.
#[inline(always)]
pub fn give_directly(
    heap: &mut Heap,
    row: ArrayRow,
    receiver: Value,
    args: &[Value],
) -> Result<Option<Value>, AllocError>
    ensures given { IfOk result (λ found. directly.given row heap.old receiver args.now ≡ (found, heap.new)) }
    ensures none { IfOk result (λ found. found ≡ None → heap.new ≡ heap.old) }
    ensures err { OnErr result (heap.new ≡ heap.old) }
{
    let Some(id) = heap.an_array(receiver) else {
        return Ok(None);
    };
    match (row, args) {
        (ArrayRow::Element, [Value::Int(index)]) => Ok(Some(value_at(heap.elements(id), *index))),
        (ArrayRow::SetElement, [Value::Int(index), value]) => {
            Ok(put_in_place(heap, id, *index, *value))
        }
        (ArrayRow::Length, []) => Ok(Some(length(heap, id))),
        (ArrayRow::Append, [value]) => {
            heap.push(id, *value)?;
            Ok(Some(receiver))
        }
        _ => Ok(None),
    }
}
