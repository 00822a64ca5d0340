//! Methods whose outcome is given straight on.
ghost use Rattle.std.specs.Prelude.{◌≡◌, [], ◌∷◌, length, false, is_some, None, IfOk, OnErr};
ghost use Rattle.def_calls.specs.Views.{a_string};
ghost use Rattle.rows_hash.specs.declared.rows.HashRow.TheVariants as methods;
ghost use Rattle.rows_hash.specs.Directly as directly;

use crate::pairs;
use crate::rows::{HashRow, is_empty, length};
use rb_value::{ObjId, Value};
use rows_items::RowError;
use rows_items::heap::Heap;
use std::alloc::AllocError;

/// What a method without arguments reads straight on: how many pairs there are, or whether there is none. Nothing of any
/// other method and receiver.
#[inline(always)]
pub fn read_alone(heap: &Heap, row: HashRow, receiver: Value) -> Option<Value>
    ensures { directly.given row heap.now receiver [] ≡ (result, heap.now) }
{
    let id = heap.a_hash(receiver)?;
    match row {
        HashRow::Length => Some(length(heap, id)),
        HashRow::IsEmpty => Some(is_empty(heap, id)),
        _ => None,
    }
}

/// Whether there is a key; nothing where none is made of the value.
fn key_there(heap: &Heap, id: ObjId, key: Value) -> Result<Option<Value>, AllocError>
    ensures { IfOk result (λ found. directly.directly methods.HasKey heap.now id (key ∷ []) ≡ (found, heap.now)) }
{
    match pairs::has_key(heap, id, key) {
        Ok(there) => Ok(Some(Value::from_truth(there))),
        Err(RowError::Fails(_)) => Ok(None),
        Err(RowError::NoMemory) => Err(AllocError),
    }
}

/// Gives a key a value, and gives the value; nothing where no key is made of it.
fn stored(heap: &mut Heap, id: ObjId, key: Value, value: Value) -> Result<Option<Value>, AllocError>
    ensures given { IfOk result (λ found. directly.directly methods.Store heap.old id (key ∷ value ∷ []) ≡ (found, heap.new)) }
    ensures none { IfOk result (λ found. found ≡ None → heap.new ≡ heap.old) }
    ensures err { is_some (a_string heap.old.store.objects key) ≡ false → OnErr result (heap.new ≡ heap.old) }
{
    match pairs::store(heap, id, key, value) {
        Ok(value) => Ok(Some(value)),
        Err(RowError::Fails(_)) => Ok(None),
        Err(RowError::NoMemory) => Err(AllocError),
    }
}

/// What a method gives straight on: how many pairs there are, or whether there is none, whether a key is there, a value
/// under a key. Nothing of any other method, receiver and arguments, which change nothing then. Where memory runs out
/// all is as before, unless a value was put under a String, of which a copy may have been made.
#[inline(always)]
pub fn give_directly(
    heap: &mut Heap,
    row: HashRow,
    receiver: Value,
    args: &[Value],
) -> Result<Option<Value>, AllocError>
    ensures given { IfOk result (λ found. directly.given row heap.old receiver args.now ≡ (found, heap.new)) }
    ensures none { IfOk result (λ found. found ≡ None → heap.new ≡ heap.old) }
    ensures err { directly.may_copy row heap.old args.now ≡ false → OnErr result (heap.new ≡ heap.old) }
{
    let Some(id) = heap.a_hash(receiver) else {
        return Ok(None);
    };
    match (row, args) {
        (HashRow::Store, [key, value]) => stored(heap, id, *key, *value),
        (HashRow::HasKey, [key]) => key_there(heap, id, *key),
        (HashRow::Length, []) => Ok(Some(length(heap, id))),
        (HashRow::IsEmpty, []) => Ok(Some(is_empty(heap, id))),
        _ => Ok(None),
    }
}
