//! `zip`: items with the elements of Arrays at the same places.
ghost use Rattle.std.specs.Prelude.{◌≡◌, Ok, IfOk, IfErr};
ghost use Rattle.rows_items.specs.Checks as checks;
ghost use Rattle.rows_items.specs.Told.{Gives, Refused, each};
ghost use Rattle.rows_items.specs.Zipped as zipped;

use crate::checks::an_array;
use crate::error::RowError;
use core_calls::heap::Heap;
use rb_value::{ObjId, Value};
use std::alloc::AllocError;

/// The Arrays that the arguments are.
#[tactic(auto, using(crate::proofs::Each::front_more, crate::proofs::Each::front_all))]
fn arrays(heap: &Heap, args: &[Value]) -> Result<Vec<ObjId>, RowError>
    ensures arrays { IfOk result (λ list. each (checks.array_of heap.now.store) args.now ≡ Ok list.items) }
    ensures refused { IfErr result (Refused (each (checks.array_of heap.now.store) args.now)) }
{
    let mut arrays = Vec::new(heap.alloc());
    'args: for arg in args {
        arrays.push(an_array(heap, *arg)?)?;
    }
    Ok(arrays)
}

/// A value and the elements of the Arrays at a place; nil where one has none there.
fn row(heap: &Heap, value: Value, arrays: &[ObjId], place: usize) -> Result<Vec<Value>, AllocError>
    ensures { IfOk result (λ list. list.items ≡ zipped.row_of heap.now.store value arrays.now place) }
{
    let mut row = Vec::with_capacity(heap.alloc(), arrays.len().saturating_add(1))?;
    row.push(value)?;
    'arrays: for id in arrays {
        row.push(heap.elements(*id).get(place).copied().unwrap_or(Value::Nil))?;
    }
    Ok(row)
}

/// A new Array of an Array for each item: the item, and the elements at its place of the Arrays that the arguments are.
#[tactic(auto, using(crate::proofs::Zipped::arrays_more, crate::proofs::Zipped::arrays_end))]
pub(crate) fn zipped(heap: &mut Heap, items: &[Value], args: &[Value]) -> Result<Value, RowError>
    ensures { Gives heap.old heap.new result (zipped.zipped heap.old items.now args.now) }
{
    let arrays = arrays(heap, args)?;
    let mut rows = Vec::with_capacity(heap.alloc(), items.len())?;
    'items: for (place, item) in items.iter().enumerate() {
        let row = row(heap, *item, &arrays, place)?;
        rows.push(heap.make_array(row)?)?;
    }
    Ok(heap.make_array(rows)?)
}
