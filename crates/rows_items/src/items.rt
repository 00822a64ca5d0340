//! The items of Arrays, Hashes and Ranges.
ghost use Rattle.std.specs.Prelude.{◌≡◌, ◌++◌, take, IfOk, IfErr, OnOk, Ok};
ghost use Rattle.rows_items.specs.Items as items;
ghost use Rattle.rows_items.specs.Told.{Stays};

use crate::error::RowError;
use core_calls::heap::Heap;
use rb_value::{CoreClass, ObjId, RangeContents, RangeEnds, Value};
use std::alloc::AllocError;

/// The first values of a list, at most so many.
fn front(values: &[Value], limit: usize) -> &[Value]
    ensures { result.now ≡ take limit values.now }
{
    match values.get(..limit) {
        Some(front) => front,
        None => values,
    }
}

/// Puts values after others.
pub fn put_values(values: &mut Vec<Value>, more: &[Value]) -> Result<(), AllocError>
    ensures { OnOk result (values.new.items ≡ values.old.items ++ more.now) }
{
    values.extend_from_slice(more)
}

/// What is shown as the key of a pair of a Hash, and its value.
fn pair_parts(heap: &Heap, id: ObjId, place: usize) -> Result<Vec<Value>, AllocError>
    ensures { IfOk result (λ parts. parts.items ≡ items.pair_parts id heap.now.store place) }
{
    match heap.pair_at(id, place) {
        Some(pair) => Vec::from_slice(heap.alloc(), &[pair.shown, pair.value]),
        None => Ok(Vec::new(heap.alloc())),
    }
}

/// The first pairs of a Hash as Arrays of key and value, at most so many.
#[tactic(auto, using(crate::proofs::Zipped::arrays_more, crate::proofs::Zipped::arrays_end))]
fn pair_items(heap: &mut Heap, id: ObjId, limit: usize) -> Result<Vec<Value>, AllocError>
    ensures items { IfOk result (λ list. items.pair_items heap.old id limit ≡ (list.items, heap.new)) }
{
    let mut items = Vec::new(heap.alloc());
    let count = limit.min(heap.pair_count(id));
    'pairs: for place in 0..count {
        let parts = pair_parts(heap, id, place)?;
        items.push(heap.make_array(parts)?)?;
    }
    Ok(items)
}

/// How many numbers there are from a first to a last one.
fn span(first: i64, last: i64, exclusive: bool) -> u64
    ensures { result ≡ items.span first last exclusive }
{
    if last < first {
        return 0;
    }
    let behind = first.abs_diff(last);
    if exclusive {
        behind
    } else {
        behind.saturating_add(1)
    }
}

/// The first numbers from a number on, so many.
#[tactic(auto, using(crate::proofs::Numbers::numbers_more, crate::proofs::Numbers::numbers_end))]
fn numbers(heap: &Heap, first: i64, count: u64) -> Result<Vec<Value>, AllocError>
    ensures { IfOk result (λ list. list.items ≡ items.numbers_from first count) }
{
    let mut items = Vec::new(heap.alloc());
    let mut number = first;
    'numbers: for place in 0..count {
        items.push(Value::Int(number))?;
        number = number.wrapping_add(1);
    }
    Ok(items)
}

/// The first bytes from a byte on, so many, as new Strings.
#[tactic(auto, using(crate::proofs::Numbers::letters_more, crate::proofs::Numbers::letters_end))]
fn letters(heap: &mut Heap, first: u8, count: u64) -> Result<Vec<Value>, AllocError>
    ensures items { IfOk result (λ list. items.letters_from first count heap.old ≡ (list.items, heap.new)) }
{
    let mut items = Vec::new(heap.alloc());
    let mut byte = first;
    'bytes: for place in 0..count {
        items.push(heap.make_text(&[byte])?)?;
        byte = byte.saturating_add(1);
    }
    Ok(items)
}

/// The first items of a Range, at most so many.
fn range_items(
    heap: &mut Heap,
    contents: RangeContents,
    limit: usize,
) -> Result<Vec<Value>, AllocError>
    ensures items { IfOk result (λ list.
        items.range_items heap.old contents.ends contents.exclusive limit ≡ (list.items, heap.new)) }
{
    let limit = limit as u64;
    match contents.ends {
        RangeEnds::Integers { first, last } => {
            let count = span(first, last, contents.exclusive);
            numbers(heap, first, limit.min(count))
        }
        RangeEnds::Bytes { first, last } => {
            let count = span(i64::from(first), i64::from(last), contents.exclusive);
            letters(heap, first, limit.min(count))
        }
    }
}

/// The first items of an Array, Hash or Range, at most so many; any other value is refused.
pub fn first_items(heap: &mut Heap, value: Value, limit: usize) -> Result<Vec<Value>, RowError>
    ensures items { IfOk result (λ list. items.first_items heap.old value limit ≡ Ok (list.items, heap.new)) }
    ensures refused { IfErr result (Stays heap.old heap.new (items.first_items heap.old value limit)) }
{
    if let Some(elements) = heap.elements_of(value) {
        return Ok(Vec::from_slice(heap.alloc(), front(elements, limit))?);
    }
    if let Some(contents) = heap.range_of(value) {
        return Ok(range_items(heap, contents, limit)?);
    }
    match heap.a_hash(value) {
        Some(id) => Ok(pair_items(heap, id, limit)?),
        None => Err(RowError::Fails(heap.refusal(CoreClass::Array, value))),
    }
}

/// The items of an Array, Hash or Range; any other value is refused.
pub fn items_of(heap: &mut Heap, value: Value) -> Result<Vec<Value>, RowError>
    ensures items { IfOk result (λ list. items.items_of heap.old value ≡ Ok (list.items, heap.new)) }
    ensures refused { IfErr result (Stays heap.old heap.new (items.items_of heap.old value)) }
{
    first_items(heap, value, usize::MAX)
}
