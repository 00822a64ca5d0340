//! Changes at the ends of Arrays.
ghost use Rattle.std.specs.Prelude.{◌≡◌, OnOk};
ghost use Rattle.rows_items.specs.Told.{Leaves, Gives};
ghost use Rattle.rows_array.specs.Changed as changed;

use crate::places::{behind, front};
use rb_value::{ObjId, Value};
use rows_items::heap::Heap;
use rows_items::{RowError, an_array, count};
use std::alloc::AllocError;

/// Takes so many elements from the end.
fn drop_last(heap: &mut Heap, id: ObjId, count: usize)
    ensures { heap.new ≡ changed.without_last count heap.old id }
{
    'elements: for _taken in 0..count {
        heap.pop(id);
    }
}

/// Takes so many elements from the front.
fn drop_first(heap: &mut Heap, id: ObjId, count: usize)
    ensures { heap.new ≡ changed.without_first count heap.old id }
{
    'elements: for _taken in 0..count {
        heap.shift(id);
    }
}

/// The last element, which is taken out, or a new Array of the last ones.
pub(crate) fn pop(heap: &mut Heap, id: ObjId, args: &[Value]) -> Result<Value, RowError>
    ensures { Gives heap.old heap.new result (changed.pop heap.old id args.now) }
{
    let Some(wanted) = args.first() else {
        return Ok(heap.pop(id).unwrap_or(Value::Nil));
    };
    let wanted = count(heap, *wanted)?;
    let elements = heap.elements(id);
    let rest = behind(elements, elements.len().saturating_sub(wanted));
    let values = Vec::from_slice(heap.alloc(), rest)?;
    drop_last(heap, id, values.len());
    Ok(heap.make_array(values)?)
}

/// The first element, which is taken out, or a new Array of the first ones.
pub(crate) fn shift(heap: &mut Heap, id: ObjId, args: &[Value]) -> Result<Value, RowError>
    ensures { Gives heap.old heap.new result (changed.shift heap.old id args.now) }
{
    let Some(wanted) = args.first() else {
        return Ok(heap.shift(id).unwrap_or(Value::Nil));
    };
    let wanted = count(heap, *wanted)?;
    let values = Vec::from_slice(heap.alloc(), front(heap.elements(id), wanted))?;
    drop_first(heap, id, values.len());
    Ok(heap.make_array(values)?)
}

/// Puts values before the elements, in their order.
#[tactic(auto, using(crate::proofs::Ends::unshifted_more))]
pub(crate) fn unshift(heap: &mut Heap, id: ObjId, values: &[Value]) -> Result<(), AllocError>
    ensures { OnOk result (heap.new ≡ changed.unshifted_all heap.old id values.now) }
{
    'places: for place in (0..values.len()).rev() {
        heap.unshift(id, values[place])?;
    }
    Ok(())
}

/// Puts the elements of Arrays after those of an Array.
#[tactic(auto, using(rows_items::proofs::Each::front_more, rows_items::proofs::Each::front_all))]
pub(crate) fn concat(heap: &mut Heap, id: ObjId, args: &[Value]) -> Result<(), RowError>
    ensures { Leaves heap.old heap.new result (changed.concat heap.old id args.now) }
{
    let mut more = Vec::new(heap.alloc());
    'arrays: for arg in args {
        let other = an_array(heap, *arg)?;
        more.extend_from_slice(heap.elements(other))?;
    }
    Ok(heap.append(id, &more)?)
}
