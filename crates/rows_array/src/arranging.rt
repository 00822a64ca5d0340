//! New Arrays of the elements in another order or form.
ghost use Rattle.std.specs.Prelude.{◌≡◌, ◌^◌, ◌<◌, reverse, IfOk, OnOk, IfErr, Ok, Err};
ghost use Rattle.heap.specs.Made as made;
ghost use Rattle.def_core.specs.Parts.{elements_at};
ghost use Rattle.rows_items.specs.Told.{Refused, Gives, each};
ghost use Rattle.rows_items.specs.Checks as checks;
ghost use Rattle.rows_items.specs.Zipped as zipped;
ghost use Rattle.rows_array.specs.Lists as lists;
ghost use Rattle.rows_array.specs.Read as read;

use crate::places::{behind, front};
use def_core::Cause;
use rb_value::{ObjId, Value};
use rows_items::core_calls::argument;
use rows_items::heap::Heap;
use rows_items::{RowError, an_array, an_integer};
use std::alloc::AllocError;

/// A new Array of the elements from the last to the first.
pub(crate) fn reverse(heap: &mut Heap, id: ObjId) -> Result<Value, AllocError>
    ensures value { IfOk result (λ v.
        v ≡ made.array_given heap.old.store (reverse (elements_at heap.old.store.objects id))) }
    ensures made { OnOk result (heap.new
        ≡ made.with_array heap.old (reverse (elements_at heap.old.store.objects id))) }
{
    let mut values = Vec::from_slice(heap.alloc(), heap.elements(id))?;
    values.reverse();
    heap.make_array(values)
}

/// How many elements go from the front to the end, where so many are there.
fn turns(len: usize, count: i64) -> usize
    requires { len < 2 ^ 63 }
    ensures { result ≡ lists.turns len count }
{
    let turns = match i64::try_from(len) {
        Ok(len) => count.checked_rem_euclid(len),
        Err(_) => None,
    };
    match turns {
        Some(turns) => usize::try_from(turns).unwrap_or(0),
        None => 0,
    }
}

/// A new Array of the elements, of which so many go from the front to the end, and one without an argument.
pub(crate) fn rotate(heap: &mut Heap, id: ObjId, args: &[Value]) -> Result<Value, RowError>
    ensures { Gives heap.old heap.new result (read.rotate heap.old id args.now) }
{
    let count = if args.is_empty() {
        1
    } else {
        an_integer(heap, argument(args, 0))?
    };
    let elements = heap.elements(id);
    let turns = turns(elements.len(), count);
    let mut values = Vec::from_slice(heap.alloc(), behind(elements, turns))?;
    values.extend_from_slice(front(elements, turns))?;
    Ok(heap.make_array(values)?)
}

/// A new Array of the elements that aren't nil.
#[tactic(auto, using(crate::proofs::Present::nil_passed, crate::proofs::Present::one_more))]
pub(crate) fn compact(heap: &mut Heap, id: ObjId) -> Result<Value, AllocError>
    ensures value { IfOk result (λ v.
        v ≡ made.array_given heap.old.store (lists.present (elements_at heap.old.store.objects id))) }
    ensures made { OnOk result (heap.new
        ≡ made.with_array heap.old (lists.present (elements_at heap.old.store.objects id))) }
{
    let mut values = Vec::new(heap.alloc());
    'elements: for value in heap.elements(id) {
        if *value != Value::Nil {
            values.push(*value)?;
        }
    }
    heap.make_array(values)
}

/// The Arrays that the elements are, which have to have the same length.
#[tactic(auto, using(rows_items::proofs::Each::front_more, rows_items::proofs::Each::front_all))]
fn lines_of(heap: &Heap, id: ObjId) -> Result<Vec<ObjId>, RowError>
    ensures lines { IfOk result (λ list.
        each (checks.array_of heap.now.store) (elements_at heap.now.store.objects id) ≡ Ok list.items) }
    ensures refused { IfErr result (Refused
        (each (checks.array_of heap.now.store) (elements_at heap.now.store.objects id))) }
{
    let mut lines = Vec::new(heap.alloc());
    'elements: for value in heap.elements(id) {
        lines.push(an_array(heap, *value)?)?;
    }
    Ok(lines)
}

/// How many elements each of the Arrays has.
fn width_of(heap: &Heap, lines: &[ObjId]) -> Result<usize, Cause>
    ensures { result ≡ read.width_of heap.now.store lines.now }
{
    let Some(first) = lines.first() else {
        return Ok(0);
    };
    let width = heap.elements(*first).len();
    'lines: for line in lines {
        if heap.elements(*line).len() != width {
            return Err(Cause::TooFewItems);
        }
    }
    Ok(width)
}

/// The elements of the Arrays at a place.
fn column(heap: &Heap, lines: &[ObjId], place: usize) -> Result<Vec<Value>, AllocError>
    ensures { IfOk result (λ list. list.items ≡ zipped.elements_beside heap.now.store lines.now place) }
{
    let mut column = Vec::with_capacity(heap.alloc(), lines.len())?;
    'lines: for line in lines {
        let value = heap.elements(*line).get(place).copied();
        column.push(value.unwrap_or(Value::Nil))?;
    }
    Ok(column)
}

/// A new Array of Arrays, whose lines are the columns of the Arrays that the elements are.
#[tactic(auto, using(rows_items::proofs::Zipped::arrays_more, rows_items::proofs::Zipped::arrays_end))]
pub(crate) fn transpose(heap: &mut Heap, id: ObjId) -> Result<Value, RowError>
    ensures { Gives heap.old heap.new result (read.transpose heap.old id) }
{
    let lines = lines_of(heap, id)?;
    let width = width_of(heap, &lines)?;
    let mut columns = Vec::new(heap.alloc());
    'columns: for place in 0..width {
        let column = column(heap, &lines, place)?;
        columns.push(heap.make_array(column)?)?;
    }
    Ok(heap.make_array(columns)?)
}
