//! What methods of String read of one String, or of two.
ghost use Rattle.std.specs.Prelude.{◌≡◌, [], ◌∷◌};
ghost use Rattle.rb_value.specs.declared.kind.Sort.TheVariants as sorts;
ghost use Rattle.row_table.specs.declared.line.CoreRow.TheVariants as rows;
ghost use Rattle.def_rows.specs.Operands.{place_of};
ghost use Rattle.straight_rows.specs.Goes as goes;
ghost use Rattle.straight_rows.specs.Straight as straight;
ghost use Rattle.straight_rows.specs.Compared as comparisons;

use heap::Heap;
use rb_string::{comparison, searching};
use rb_value::{ObjId, Value};
use row_table::StringMethod;

/// The String that a value is.
#[inline(always)]
#[tactic(auto, using(crate::proofs::Places::string_is))]
pub(crate) fn a_string(heap: &Heap, value: Value) -> Option<ObjId>
    ensures { result ≡ place_of heap.now.store.objects sorts.String value }
{
    heap.a_string(value)
}

/// How many bytes there are.
fn length_of(text: &[u8]) -> Value
    ensures { result ≡ straight.length_of text.now }
{
    Value::Int(text.len() as i64)
}

/// What a method of String without arguments reads; nothing of any other method and receiver.
#[inline(always)]
#[tactic(auto, unfolding(def_rows::specs::StringRows::gives))]
pub fn read_text(heap: &Heap, method: StringMethod, receiver: Value) -> Option<Value>
    ensures { straight.given (rows.String method) heap.now receiver [] ≡ (result, heap.now) }
{
    match method {
        StringMethod::Length | StringMethod::Size | StringMethod::ByteSize => {
            let id = a_string(heap, receiver)?;
            Some(length_of(heap.text(id)))
        }
        StringMethod::IsEmpty => {
            let id = a_string(heap, receiver)?;
            Some(Value::from_truth(heap.text(id).is_empty()))
        }
        StringMethod::ToText => {
            let _id = a_string(heap, receiver)?;
            Some(receiver)
        }
        _ => None,
    }
}

/// What a method that compares two texts, or seeks one in another, gives for them; nothing of any other method.
fn compared(method: StringMethod, text: &[u8], other: &[u8]) -> Option<Value>
    ensures { result ≡ comparisons.compared method text.now other.now }
{
    match method {
        StringMethod::Equal => Some(Value::from_truth(text == other)),
        StringMethod::Order => Some(Value::Int(comparison::order(text, other))),
        StringMethod::Less => Some(Value::from_truth(comparison::order(text, other) < 0)),
        StringMethod::AtMost => Some(Value::from_truth(comparison::order(text, other) <= 0)),
        StringMethod::Greater => Some(Value::from_truth(0 < comparison::order(text, other))),
        StringMethod::AtLeast => Some(Value::from_truth(0 <= comparison::order(text, other))),
        StringMethod::Includes => Some(Value::from_truth(searching::includes(text, other))),
        StringMethod::StartsWith => Some(Value::from_truth(searching::starts_with(text, other))),
        StringMethod::EndsWith => Some(Value::from_truth(searching::ends_with(text, other))),
        _ => None,
    }
}

/// Whether a method of String compares two Strings, or seeks one in another.
fn compares(method: StringMethod) -> bool
    ensures { result ≡ goes.compares method }
{
    matches!(
        method,
        StringMethod::Equal
            | StringMethod::Order
            | StringMethod::Less
            | StringMethod::AtMost
            | StringMethod::Greater
            | StringMethod::AtLeast
            | StringMethod::Includes
            | StringMethod::StartsWith
            | StringMethod::EndsWith
    )
}

/// What a method of String reads of two Strings; nothing of any other method and values.
pub(crate) fn read_texts(
    heap: &Heap,
    method: StringMethod,
    receiver: Value,
    other: Value,
) -> Option<Value>
    ensures { result ≡ comparisons.read_texts heap.now.store.objects method receiver other }
{
    if !compares(method) {
        return None;
    }
    let text = a_string(heap, receiver)?;
    let other = a_string(heap, other)?;
    compared(method, heap.text(text), heap.text(other))
}
