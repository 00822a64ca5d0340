//! Methods of Kernel, and `method_missing`.
ghost use Rattle.std.specs.Prelude.{◌≡◌};
ghost use Rattle.rows_object.specs.Answered.{Answered};
ghost use Rattle.rows_object.specs.Follows.{Follows};
ghost use Rattle.rows_object.specs.Numbers as numbers;
ghost use Rattle.rows_object.specs.Rows as rows;

use core_calls::heap::{Given, Heap};
use core_calls::name_in;
use def_core::Cause;
use rb_string::numeral;
use rb_value::{CoreClass, Value};
use std::alloc::AllocError;

/// `method_missing`, where a program calls it: no method of that name is found.
pub(crate) fn method_missing(
    heap: &mut Heap,
    receiver: Value,
    name: Value,
) -> Result<Given, AllocError>
    ensures { Follows heap.old heap.new result (rows.method_missing receiver name) }
{
    match name_in(heap, name)? {
        Ok(name) => {
            let class = heap.plain_class_of(receiver);
            heap.fail(Cause::UndefinedMethod { name, class })
        }
        Err(cause) => heap.fail(cause),
    }
}

/// The status that a value stands for: true is a good end, and false isn't.
fn status_in(value: Value) -> Option<i64>
    ensures { result ≡ rows.status_in value }
{
    match value {
        Value::True => Some(0),
        Value::False => Some(1),
        Value::Int(status) => Some(status),
        _ => None,
    }
}

/// The end of a program with a status, or why there is no such end.
fn ending(status: i64) -> Cause
    ensures { result ≡ rows.ending status }
{
    match u8::try_from(status) {
        Ok(status) => Cause::Exit { status },
        Err(_) => Cause::StatusOutOfRange,
    }
}

/// `exit`, with a status or without one.
#[tactic(auto, unfolding(def_calls::specs::World::fail))]
pub(crate) fn exit(heap: &mut Heap, args: &[Value]) -> Result<Given, AllocError>
    ensures { Answered heap.old heap.new result (rows.exit args.now) }
{
    let wish = args.first().copied().unwrap_or(Value::True);
    match status_in(wish) {
        Some(status) => heap.fail(ending(status)),
        None => heap.unexpected(CoreClass::Integer, wish),
    }
}

/// Whether all bytes are decimal digits.
fn are_digits(text: &[u8]) -> bool
    ensures { result ≡ numbers.are_digits text.now }
{
    'bytes: for byte in text {
        if !byte.is_ascii_digit() {
            return false;
        }
    }
    true
}

/// A text without the sign that it begins with.
fn behind_sign(text: &[u8]) -> &[u8]
    ensures { result.now ≡ numbers.behind_sign text.now }
{
    match text.split_first() {
        Some((b'+', rest)) => rest,
        Some((b'-', rest)) => rest,
        _ => text,
    }
}

/// The number that a text is: decimal digits after a sign or none.
fn whole_number(text: &[u8]) -> Result<i64, Cause>
    ensures { result ≡ numbers.whole_number text.now }
{
    let digits = behind_sign(text);
    if digits.is_empty() || !are_digits(digits) {
        return Err(Cause::InvalidInteger);
    }
    match numeral::to_integer(text, 10) {
        Ok(number) => Ok(number),
        Err(_) => Err(Cause::IntegerOverflow),
    }
}

/// Gives the number that a String is, and refuses another value.
fn number_in_text(heap: &mut Heap, value: Value) -> Result<Given, AllocError>
    ensures { Follows heap.old heap.new result (numbers.text_number value) }
{
    match heap.text_of(value) {
        Some(text) => match whole_number(text) {
            Ok(number) => Ok(Given::Gives(Value::Int(number))),
            Err(cause) => heap.fail(cause),
        },
        None => heap.unexpected(CoreClass::Integer, value),
    }
}

/// `Integer`: the number that a value is.
pub(crate) fn to_integer(heap: &mut Heap, value: Value) -> Result<Given, AllocError>
    ensures { Follows heap.old heap.new result (numbers.to_integer value) }
{
    match value {
        Value::Int(_) => Ok(Given::Gives(value)),
        other => number_in_text(heap, other),
    }
}
