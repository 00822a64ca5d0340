//! Elements and parts of Arrays.
ghost use Rattle.std.specs.Prelude.{◌≡◌, Ok, get_or, option_map, IfOk, IfErr};
ghost use Rattle.rb_value.specs.declared.value.Value.TheVariants.{Nil};
ghost use Rattle.rows_items.specs.Told.{Told, Refused, Gives};
ghost use Rattle.rows_array.specs.Read as read;

use crate::places::{behind, part, range_part, value_at};
use rb_value::{CoreClass, ObjId, RangeEnds, Value};
use rows_items::core_calls::argument;
use rows_items::heap::Heap;
use rows_items::{RowError, an_array, an_integer, count};

/// A new Array of these values, or nil.
fn some_array(heap: &mut Heap, values: Option<Vec<Value>>) -> Result<Value, RowError>
    ensures { Gives heap.old heap.new result (read.array_or_nil heap.old (option_map (λ list. list.items) values)) }
{
    match values {
        Some(values) => Ok(heap.make_array(values)?),
        None => Ok(Value::Nil),
    }
}

/// A copy of the elements in a Range of Integers; any other value is refused.
fn in_range(heap: &Heap, id: ObjId, place: Value) -> Result<Option<Vec<Value>>, RowError>
    ensures part { IfOk result (λ found.
        read.in_range heap.now.store id place ≡ Ok (option_map (λ list. list.items) found)) }
    ensures refused { IfErr result (Refused (read.in_range heap.now.store id place)) }
{
    let Some(contents) = heap.range_of(place) else {
        return Err(RowError::Fails(heap.refusal(CoreClass::Integer, place)));
    };
    let RangeEnds::Integers { first, last } = contents.ends else {
        return Err(RowError::Fails(heap.refusal(CoreClass::Integer, place)));
    };
    match range_part(heap.elements(id), first, last, contents.exclusive) {
        Some(values) => Ok(Some(Vec::from_slice(heap.alloc(), values)?)),
        None => Ok(None),
    }
}

/// A copy of the elements from an index on, at most so many.
fn from_index(heap: &Heap, id: ObjId, args: &[Value]) -> Result<Option<Vec<Value>>, RowError>
    ensures part { IfOk result (λ found.
        read.from_index heap.now.store id (get_or args.now 0 Nil) (get_or args.now 1 Nil)
        ≡ Ok (option_map (λ list. list.items) found)) }
    ensures refused { IfErr result (Refused
        (read.from_index heap.now.store id (get_or args.now 0 Nil) (get_or args.now 1 Nil))) }
{
    let index = an_integer(heap, argument(args, 0))?;
    let count = an_integer(heap, argument(args, 1))?;
    match part(heap.elements(id), index, count) {
        Some(values) => Ok(Some(Vec::from_slice(heap.alloc(), values)?)),
        None => Ok(None),
    }
}

/// `array[index]`, `array[range]` and `array[index, count]`.
pub(crate) fn element(heap: &mut Heap, id: ObjId, args: &[Value]) -> Result<Value, RowError>
    ensures { Gives heap.old heap.new result (read.element heap.old id args.now) }
{
    if args.len() > 1 {
        let values = from_index(heap, id, args)?;
        return some_array(heap, values);
    }
    match argument(args, 0) {
        Value::Int(index) => Ok(value_at(heap.elements(id), index)),
        place => {
            let values = in_range(heap, id, place)?;
            some_array(heap, values)
        }
    }
}

/// `array.at(index)`.
pub(crate) fn at(heap: &Heap, id: ObjId, index: Value) -> Result<Value, RowError>
    ensures { Told result (read.at heap.now.store id index) }
{
    let index = an_integer(heap, index)?;
    Ok(value_at(heap.elements(id), index))
}

/// A new Array of the elements at these indexes.
#[tactic(auto, using(rows_items::proofs::Each::front_more, rows_items::proofs::Each::front_all))]
pub(crate) fn values_at(heap: &mut Heap, id: ObjId, args: &[Value]) -> Result<Value, RowError>
    ensures { Gives heap.old heap.new result (read.values_at heap.old id args.now) }
{
    let mut values = Vec::with_capacity(heap.alloc(), args.len())?;
    'indexes: for index in args {
        values.push(at(heap, id, *index)?)?;
    }
    Ok(heap.make_array(values)?)
}

/// The last element, or a new Array of the last ones.
pub(crate) fn last(heap: &mut Heap, id: ObjId, args: &[Value]) -> Result<Value, RowError>
    ensures { Gives heap.old heap.new result (read.last heap.old id args.now) }
{
    let Some(wanted) = args.first() else {
        return Ok(heap.elements(id).last().copied().unwrap_or(Value::Nil));
    };
    let wanted = count(heap, *wanted)?;
    let elements = heap.elements(id);
    let rest = behind(elements, elements.len().saturating_sub(wanted));
    let values = Vec::from_slice(heap.alloc(), rest)?;
    Ok(heap.make_array(values)?)
}

/// A new Array of the elements of an Array and of another.
pub(crate) fn plus(heap: &mut Heap, id: ObjId, other: Value) -> Result<Value, RowError>
    ensures { Gives heap.old heap.new result (read.plus heap.old id other) }
{
    let other = an_array(heap, other)?;
    let (left, right) = (heap.elements(id), heap.elements(other));
    let mut values = Vec::with_capacity(heap.alloc(), left.len().saturating_add(right.len()))?;
    values.extend_from_slice(left)?;
    values.extend_from_slice(right)?;
    Ok(heap.make_array(values)?)
}
