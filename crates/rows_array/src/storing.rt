//! Stores at places of Arrays.
ghost use Rattle.std.specs.Prelude.{◌≡◌, ◌<◌, ◌^◌, ◌++◌, replicate, get_or, OnOk, IfOk};
ghost use Rattle.rb_value.specs.declared.value.Value.TheVariants.{Nil};
ghost use Rattle.rows_items.specs.Told.{Gives, Leaves};
ghost use Rattle.rows_array.specs.Lists as lists;
ghost use Rattle.rows_array.specs.Changed as changed;

use crate::places::{behind, front, place_in};
use def_core::Cause;
use rb_value::{ObjId, Value};
use rows_items::core_calls::argument;
use rows_items::heap::Heap;
use rows_items::{RowError, an_array, an_integer, count};
use std::alloc::{AllocError, Global};

/// Puts nil so many times after values.
fn put_nils(values: &mut Vec<Value>, count: usize) -> Result<(), AllocError>
    ensures { OnOk result (values.new.items ≡ values.old.items ++ replicate count Nil) }
{
    let len = values.len().saturating_add(count);
    values.resize(len, Value::Nil)
}

/// Puts nil after the elements of an Array until there are so many.
fn pad(heap: &mut Heap, id: ObjId, len: usize) -> Result<(), AllocError>
    ensures { OnOk result (heap.new ≡ changed.padded heap.old id len) }
{
    let missing = len.saturating_sub(heap.elements(id).len());
    if missing == 0 {
        return Ok(());
    }
    let mut nils = Vec::new(heap.alloc());
    put_nils(&mut nils, missing)?;
    heap.append(id, &nils)
}

/// Puts a value in the place of an element, or after nils where there is none.
fn store(heap: &mut Heap, id: ObjId, index: i64, value: Value) -> Result<Value, RowError>
    ensures { Gives heap.old heap.new result (changed.store heap.old id index value) }
{
    let len = heap.elements(id).len();
    let Some(place) = place_in(len, index) else {
        return Err(RowError::Fails(Cause::IndexOutOfRange(index)));
    };
    if place < len {
        heap.set_element(id, place, value);
    } else {
        pad(heap, id, place)?;
        heap.push(id, value)?;
    }
    Ok(value)
}

/// These values with others in the place of so many from a place on, after nils where the place lies past the end.
fn spliced(
    alloc: Global,
    values: &[Value],
    place: usize,
    count: usize,
    more: &[Value],
) -> Result<Vec<Value>, AllocError>
    ensures { IfOk result (λ list. list.items ≡ lists.spliced values.now place count more.now) }
{
    let mut spliced = Vec::from_slice(alloc, front(values, place))?;
    put_nils(&mut spliced, place.saturating_sub(values.len()))?;
    spliced.extend_from_slice(more)?;
    spliced.extend_from_slice(behind(values, place.saturating_add(count)))?;
    Ok(spliced)
}

/// Puts the elements of an Array in the place of so many from an index on.
fn store_part(heap: &mut Heap, id: ObjId, args: &[Value]) -> Result<Value, RowError>
    ensures { Gives heap.old heap.new result
        (changed.store_part heap.old id (get_or args.now 0 Nil) (get_or args.now 1 Nil) (get_or args.now 2 Nil)) }
{
    let index = an_integer(heap, argument(args, 0))?;
    an_integer(heap, argument(args, 1))?;
    let value = argument(args, 2);
    let other = an_array(heap, value)?;
    let count = count(heap, argument(args, 1))?;
    let elements = heap.elements(id);
    let Some(place) = place_in(elements.len(), index) else {
        return Err(RowError::Fails(Cause::IndexOutOfRange(index)));
    };
    let changed = spliced(heap.alloc(), elements, place, count, heap.elements(other))?;
    heap.replace_elements(id, changed);
    Ok(value)
}

/// `array[index] = value` and `array[index, count] = array`.
pub(crate) fn set_element(heap: &mut Heap, id: ObjId, args: &[Value]) -> Result<Value, RowError>
    ensures { Gives heap.old heap.new result (changed.set_element heap.old id args.now) }
{
    if args.len() > 2 {
        return store_part(heap, id, args);
    }
    let index = an_integer(heap, argument(args, 0))?;
    store(heap, id, index, argument(args, 1))
}

/// The place before which an index inserts: a negative one counts from behind the last element.
fn insertion(len: usize, index: i64) -> Option<usize>
    requires { len < 2 ^ 63 }
    ensures { result ≡ changed.insertion len index }
{
    if index < 0 {
        place_in(len + 1, index)
    } else {
        place_in(len, index)
    }
}

/// `array.insert(index, value, ..)`.
pub(crate) fn insert(heap: &mut Heap, id: ObjId, args: &[Value]) -> Result<(), RowError>
    ensures { Leaves heap.old heap.new result (changed.insert heap.old id args.now) }
{
    let index = an_integer(heap, argument(args, 0))?;
    let more = behind(args, 1);
    let elements = heap.elements(id);
    let Some(place) = insertion(elements.len(), index) else {
        return Err(RowError::Fails(Cause::IndexOutOfRange(index)));
    };
    let changed = spliced(heap.alloc(), elements, place, 0, more)?;
    heap.replace_elements(id, changed);
    Ok(())
}

/// `array.delete_at(index)`: the element, which is taken out; nil outside.
pub(crate) fn delete_at(heap: &mut Heap, id: ObjId, index: Value) -> Result<Value, RowError>
    ensures { Gives heap.old heap.new result (changed.delete_at heap.old id index) }
{
    let index = an_integer(heap, index)?;
    let elements = heap.elements(id);
    let Some(place) = place_in(elements.len(), index) else {
        return Ok(Value::Nil);
    };
    let Some(value) = elements.get(place).copied() else {
        return Ok(Value::Nil);
    };
    let changed = spliced(heap.alloc(), elements, place, 1, &[])?;
    heap.replace_elements(id, changed);
    Ok(value)
}
