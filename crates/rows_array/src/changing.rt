//! Changes of all elements of Arrays.
ghost use Rattle.std.specs.Prelude.{◌≡◌, [], OnOk};
ghost use Rattle.heap.specs.Changes as changes;
ghost use Rattle.rows_items.specs.Told.{Leaves};
ghost use Rattle.rows_items.specs.Outcome.{ToldBy};
ghost use Rattle.rows_array.specs.Changed as changed;
ghost use Rattle.rows_array.specs.Rows as rows;

use rb_value::{ObjId, Value};
use rows_items::heap::Heap;
use rows_items::{RowError, an_array, sorted};
use std::alloc::AllocError;

/// Puts a value in the place of each element.
pub(crate) fn fill(heap: &mut Heap, id: ObjId, value: Value) -> Result<(), AllocError>
    ensures { OnOk result (heap.new ≡ changed.filled heap.old id value) }
{
    let mut values = Vec::new(heap.alloc());
    values.resize(heap.elements(id).len(), value)?;
    heap.replace_elements(id, values);
    Ok(())
}

/// Takes out all elements.
pub(crate) fn clear(heap: &mut Heap, id: ObjId)
    ensures { heap.new ≡ changes.with_elements heap.old id [] }
{
    let none = Vec::new(heap.alloc());
    heap.replace_elements(id, none);
}

/// Puts the elements of an Array in the place of all.
pub(crate) fn replace(heap: &mut Heap, id: ObjId, other: Value) -> Result<(), RowError>
    ensures { Leaves heap.old heap.new result (changed.replace heap.old id other) }
{
    let other = an_array(heap, other)?;
    let values = Vec::from_slice(heap.alloc(), heap.elements(other))?;
    heap.replace_elements(id, values);
    Ok(())
}

/// Turns the order of the elements around.
pub(crate) fn reverse_in_place(heap: &mut Heap, id: ObjId) -> Result<(), AllocError>
    ensures { OnOk result (heap.new ≡ changed.turned heap.old id) }
{
    let mut values = Vec::from_slice(heap.alloc(), heap.elements(id))?;
    values.reverse();
    heap.replace_elements(id, values);
    Ok(())
}

/// Sorts the elements, and gives the Array.
pub(crate) fn sort_in_place(heap: &mut Heap, id: ObjId) -> Result<Value, RowError>
    ensures { ToldBy (rows.SortsInPlace heap.old id) result heap.new }
{
    let values = Vec::from_slice(heap.alloc(), heap.elements(id))?;
    let values = sorted(heap, values)?;
    heap.replace_elements(id, values);
    Ok(Value::Obj(id))
}
