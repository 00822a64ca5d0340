//! Calls over a heap, with results from outside.
mod failures;
mod notation;
mod results;

use core_calls::Call;
use heap::{Given, Heap};
use notation::{read, shown};
use rb_value::{ObjId, Sort, Value};
use rows_array::ArrayRow;
use rows_hash::HashRow;
use rows_items::ItemRow;
use std::alloc::{AllocError, Global};

/// A call: the receiver, the name of the method, the arguments, what it gives or raises, and the receiver afterwards.
pub(crate) type Case = (
    &'static [u8],
    &'static [u8],
    &'static [u8],
    &'static [u8],
    &'static [u8],
);

/// A method.
#[derive(Clone, Copy)]
enum Row {
    Array(ArrayRow),
    Hash(HashRow),
    Item(ItemRow),
}

/// The segment of the methods of a value.
fn segment_of(heap: &Heap, receiver: Value) -> u16 {
    match heap.sort(receiver) {
        Some(Sort::Array) => 26,
        Some(Sort::Hash) => 28,
        Some(Sort::Range) => 30,
        _ => 0,
    }
}

/// The method of a segment under a name.
fn row_of(segment: u16, name: &[u8]) -> Option<Row> {
    for (other, row) in rows_array::rows_of(segment) {
        if *other == name {
            return Some(Row::Array(*row));
        }
    }
    for (other, row) in rows_hash::rows_of(segment) {
        if *other == name {
            return Some(Row::Hash(*row));
        }
    }
    for (other, row) in rows_items::rows_of(segment) {
        if *other == name {
            return Some(Row::Item(*row));
        }
    }
    None
}

/// Calls a method; nil where there is none of that name.
fn called(
    heap: &mut Heap,
    receiver: Value,
    name: &[u8],
    args: &[Value],
) -> Result<Given, AllocError> {
    let call = Call {
        receiver,
        args,
        block: None,
    };
    match row_of(segment_of(heap, receiver), name) {
        Some(Row::Array(row)) => rows_array::call(heap, row, call),
        Some(Row::Hash(row)) => rows_hash::call(heap, row, call),
        Some(Row::Item(row)) => rows_items::call(heap, row, call),
        None => Ok(Given::Gives(Value::Nil)),
    }
}

/// The class and message of an exception.
fn exception_text(heap: &Heap, id: ObjId) -> Result<Vec<u8>, AllocError> {
    let class = heap.class_of(Value::Obj(id));
    let mut text = Vec::from_slice(heap.alloc(), heap.class_name(class))?;
    text.extend_from_slice(b": ")?;
    if let Some(message) = heap.text_of(heap.message_of(id)) {
        text.extend_from_slice(message)?;
    }
    Ok(text)
}

/// What a call gives or raises.
fn given_text(heap: &Heap, given: Given) -> Result<Vec<u8>, AllocError> {
    match given {
        Given::Gives(value) => shown(heap, value),
        Given::Raises(id) => exception_text(heap, id),
    }
}

/// The value of a text.
fn value_of(heap: &mut Heap, text: &[u8]) -> Result<Value, AllocError> {
    let values = read(heap, text)?;
    Ok(values.first().copied().unwrap_or(Value::Nil))
}

/// Whether a call gives what it is to, and leaves the receiver as it is to be.
fn is_right(heap: &mut Heap, case: &Case) -> Result<bool, AllocError> {
    let (before, name, args, wanted, after) = *case;
    let receiver = value_of(heap, before)?;
    let args = read(heap, args)?;
    let given = called(heap, receiver, name, args.as_slice())?;
    let text = given_text(heap, given)?;
    let left = shown(heap, receiver)?;
    Ok(text.as_slice() == wanted && left.as_slice() == after)
}

/// The number of the first case that gives something else; none where all give what they are to.
fn first_wrong(alloc: Global, cases: &[Case]) -> Result<Option<usize>, AllocError> {
    let mut heap = Heap::new(alloc)?;
    'cases: for (i, case) in cases.iter().enumerate() {
        if !is_right(&mut heap, case)? {
            return Ok(Some(i));
        }
    }
    Ok(None)
}

/// An Array in so many others.
fn nested(heap: &mut Heap, levels: usize) -> Result<Value, AllocError> {
    let mut value = Value::Int(1);
    'levels: for _ in 0..levels {
        let elements = Vec::from_slice(heap.alloc(), &[value])?;
        value = heap.make_array(elements)?;
    }
    Ok(value)
}

/// What `flatten` gives of an Array of so many levels.
fn flattened(alloc: Global, levels: usize) -> Result<Vec<u8>, AllocError> {
    let mut heap = Heap::new(alloc)?;
    let receiver = nested(&mut heap, levels)?;
    let given = called(&mut heap, receiver, b"flatten", &[])?;
    given_text(&heap, given)
}

/// What a store under a key of so many levels gives.
fn stored(alloc: Global, levels: usize) -> Result<Vec<u8>, AllocError> {
    let mut heap = Heap::new(alloc)?;
    let key = nested(&mut heap, levels)?;
    let receiver = heap.make_hash()?;
    let given = called(&mut heap, receiver, b"[]=", &[key, Value::Int(7)])?;
    given_text(&heap, given)
}

#[test]
fn lists_give_what_ruby_gives(rt: HostRuntime) -> Result<(), AllocError> {
    assert_eq!(rt; first_wrong(rt.alloc(), &results::RESULTS_1)?, None);
    assert_eq!(rt; first_wrong(rt.alloc(), &results::RESULTS_2)?, None);
    assert_eq!(rt; first_wrong(rt.alloc(), &results::RESULTS_3)?, None);
    Ok(())
}

#[test]
fn lists_fail_as_the_library_says(rt: HostRuntime) -> Result<(), AllocError> {
    assert_eq!(rt; first_wrong(rt.alloc(), &failures::FAILURES)?, None);
    Ok(())
}

#[test]
fn lists_nest_ten_thousand_levels(rt: HostRuntime) -> Result<(), AllocError> {
    let deep: &[u8] = b"SystemStackError: stack level too deep";
    assert!(rt; flattened(rt.alloc(), 10_000)?.as_slice() == b"[1]".as_slice());
    assert!(rt; flattened(rt.alloc(), 10_001)?.as_slice() == deep);
    assert!(rt; stored(rt.alloc(), 9_999)?.as_slice() == b"7".as_slice());
    assert!(rt; stored(rt.alloc(), 10_001)?.as_slice() == deep);
    Ok(())
}
