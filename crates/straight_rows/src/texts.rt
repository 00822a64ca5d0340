//! What methods of String give that make a String, or change one.
ghost use Rattle.std.specs.Prelude.{◌≡◌, [], ◌∷◌, None, IfOk, OnOk, OnErr};
ghost use Rattle.rb_value.specs.declared.value.Value.TheVariants as values;
ghost use Rattle.row_table.specs.declared.line.CoreRow.TheVariants as rows;
ghost use Rattle.row_table.specs.declared.string.StringMethod.TheVariants as methods;
ghost use Rattle.def_core.specs.Parts as parts;
ghost use Rattle.heap.specs.Changes as changes;
ghost use Rattle.straight_rows.specs.Straight as straight;

use crate::comparing::{a_string, read_text, read_texts};
use arrayvec::ArrayVec;
use heap::Heap;
use rb_string::{GREATEST_LENGTH, editing, slicing};
use rb_value::{ObjId, Value};
use row_table::StringMethod;
use std::alloc::AllocError;

/// How many bytes are put behind others without memory of their own.
const SHORT: usize = 64;

/// Puts the bytes of a String behind those of another. Where memory runs out both are as before.
fn append_text(heap: &mut Heap, id: ObjId, from: ObjId) -> Result<(), AllocError>
    ensures ok { OnOk result (heap.new ≡ changes.with_more_bytes heap.old id (parts.text_at heap.old.store.objects from)) }
    ensures err { OnErr result (heap.new ≡ heap.old) }
{
    let more = heap.text(from);
    if more.len() <= SHORT {
        let mut copy: ArrayVec<u8, SHORT> = ArrayVec::new();
        let _ = copy.try_extend_from_slice(more);
        heap.append_bytes(id, copy.as_slice())
    } else {
        let copy = Vec::from_slice(heap.alloc(), more)?;
        heap.append_bytes(id, &copy)
    }
}

/// `text << other` of two Strings that are short enough.
#[tactic(auto, unfolding(def_rows::specs::StringRows::gives, def_core::specs::Changes::fails), using(crate::proofs::Places::appended_is))]
fn append(heap: &mut Heap, receiver: Value, other: Value) -> Result<Option<Value>, AllocError>
    ensures given { IfOk result (λ found. straight.given (rows.String methods.Append) heap.old receiver (other ∷ []) ≡ (found, heap.new)) }
    ensures none { IfOk result (λ found. found ≡ None → heap.new ≡ heap.old) }
    ensures err { OnErr result (heap.new ≡ heap.old) }
{
    let (Some(id), Some(from)) = (a_string(heap, receiver), a_string(heap, other)) else {
        return Ok(None);
    };
    let length = heap.text(id).len().saturating_add(heap.text(from).len());
    if length > GREATEST_LENGTH {
        return Ok(None);
    }
    append_text(heap, id, from)?;
    Ok(Some(receiver))
}

/// `text + other` of two Strings that are short enough.
#[tactic(auto, unfolding(def_rows::specs::StringRows::gives, def_core::specs::Changes::fails))]
fn joined(heap: &mut Heap, receiver: Value, other: Value) -> Result<Option<Value>, AllocError>
    ensures given { IfOk result (λ found. straight.given (rows.String methods.Plus) heap.old receiver (other ∷ []) ≡ (found, heap.new)) }
    ensures none { IfOk result (λ found. found ≡ None → heap.new ≡ heap.old) }
    ensures err { OnErr result (heap.new ≡ heap.old) }
{
    let (Some(id), Some(more)) = (a_string(heap, receiver), a_string(heap, other)) else {
        return Ok(None);
    };
    match editing::concatenated(heap.alloc(), heap.text(id), heap.text(more))? {
        Ok(whole) => Ok(Some(heap.make_string(whole.into_vec())?)),
        Err(_) => Ok(None),
    }
}

/// `text[index]`.
#[tactic(auto, unfolding(def_rows::specs::StringRows::gives))]
fn byte(heap: &mut Heap, receiver: Value, index: i64) -> Result<Option<Value>, AllocError>
    ensures given { IfOk result (λ found. straight.given (rows.String methods.Element) heap.old receiver (values.Int index ∷ []) ≡ (found, heap.new)) }
    ensures none { IfOk result (λ found. found ≡ None → heap.new ≡ heap.old) }
    ensures err { OnErr result (heap.new ≡ heap.old) }
{
    let Some(id) = a_string(heap, receiver) else {
        return Ok(None);
    };
    match slicing::byte_at(heap.text(id), index) {
        Some(byte) => Ok(Some(heap.make_text(&[byte])?)),
        None => Ok(Some(Value::Nil)),
    }
}

/// `text[index, count]`.
#[tactic(auto, unfolding(def_rows::specs::StringRows::gives))]
fn part(
    heap: &mut Heap,
    receiver: Value,
    index: i64,
    count: i64,
) -> Result<Option<Value>, AllocError>
    ensures given { IfOk result (λ found. straight.given (rows.String methods.Element) heap.old receiver
        (values.Int index ∷ values.Int count ∷ []) ≡ (found, heap.new)) }
    ensures none { IfOk result (λ found. found ≡ None → heap.new ≡ heap.old) }
    ensures err { OnErr result (heap.new ≡ heap.old) }
{
    let Some(id) = a_string(heap, receiver) else {
        return Ok(None);
    };
    match slicing::part(heap.text(id), index, count) {
        Some(bytes) => {
            let bytes = Vec::from_slice(heap.alloc(), bytes)?;
            Ok(Some(heap.make_string(bytes)?))
        }
        None => Ok(Some(Value::Nil)),
    }
}

/// `text[value]` with an index; nothing with any other value.
fn element(heap: &mut Heap, receiver: Value, value: Value) -> Result<Option<Value>, AllocError>
    ensures given { IfOk result (λ found. straight.given (rows.String methods.Element) heap.old receiver (value ∷ []) ≡ (found, heap.new)) }
    ensures none { IfOk result (λ found. found ≡ None → heap.new ≡ heap.old) }
    ensures err { OnErr result (heap.new ≡ heap.old) }
{
    match value {
        Value::Int(index) => byte(heap, receiver, index),
        _ => Ok(None),
    }
}

/// What a method of String gives for one argument.
#[tactic(auto, using(crate::proofs::Reading::read_is_given))]
fn give_by(
    heap: &mut Heap,
    method: StringMethod,
    receiver: Value,
    argument: Value,
) -> Result<Option<Value>, AllocError>
    ensures given { IfOk result (λ found. straight.given (rows.String method) heap.old receiver (argument ∷ []) ≡ (found, heap.new)) }
    ensures none { IfOk result (λ found. found ≡ None → heap.new ≡ heap.old) }
    ensures err { OnErr result (heap.new ≡ heap.old) }
{
    match method {
        StringMethod::Append => append(heap, receiver, argument),
        StringMethod::Plus => joined(heap, receiver, argument),
        StringMethod::Element => element(heap, receiver, argument),
        _ => Ok(read_texts(heap, method, receiver, argument)),
    }
}

/// What a method of String gives; nothing of any other method, receiver and arguments, which change nothing then.
pub(crate) fn give_text(
    heap: &mut Heap,
    method: StringMethod,
    receiver: Value,
    args: &[Value],
) -> Result<Option<Value>, AllocError>
    ensures given { IfOk result (λ found. straight.given (rows.String method) heap.old receiver args.now ≡ (found, heap.new)) }
    ensures none { IfOk result (λ found. found ≡ None → heap.new ≡ heap.old) }
    ensures err { OnErr result (heap.new ≡ heap.old) }
{
    match args {
        [] => Ok(read_text(heap, method, receiver)),
        [argument] => give_by(heap, method, receiver, *argument),
        [Value::Int(index), Value::Int(count)] => match method {
            StringMethod::Element => part(heap, receiver, *index, *count),
            _ => Ok(None),
        },
        _ => Ok(None),
    }
}
