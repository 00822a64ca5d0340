//! Parts of a String by indexes, Ranges and other Strings.
ghost use Rattle.std.specs.Prelude.{◌≡◌, IfOk};
ghost use Rattle.def_rows.specs.Checking as checking;
ghost use Rattle.def_rows.specs.StringRows as rows;

use crate::answers::{fault_of, some_byte, some_text, text as new_text};
use core_range::range_of;
use core_rows::checking::{plain_class, unfit};
use core_rows::operands::{integer, is_text, text};
use def_core::Cause;
use def_rows::Answer;
use rb_base::Bytes;
use rb_integer::{Bounds, Ends};
use rb_store::Store;
use rb_string::{StringFailure, editing, searching, slicing};
use rb_value::{CoreClass, Value};
use row_answer::Plain;
use row_table::Wanted;
use std::alloc::{AllocError, Global};

const INTEGER: Wanted = Wanted::Of(CoreClass::Integer);

const STRING: Wanted = Wanted::Of(CoreClass::String);

/// The failure of a value that is no index.
fn no_index(st: &Store, value: Value) -> Answer
    ensures { result ≡ rows.no_index st.now.store.objects value }
{
    Answer::Fail(Cause::Expected {
        class: st.class_object(CoreClass::Integer),
        got: plain_class(st, value),
    })
}

/// `text[range]`.
fn in_range(
    st: &Store,
    bytes: &[u8],
    value: Value,
    range: Option<Ends>,
) -> Result<Answer, AllocError>
    ensures { IfOk result (λ a. a ≡ rows.in_range st.now.store.objects bytes.now value range) }
{
    let Some(ends) = range else {
        return Ok(no_index(st, value));
    };
    match ends.bounds {
        Bounds::Integers(first, last) => {
            let part = slicing::range_part(bytes, first, last, ends.is_exclusive);
            Ok(Answer::Plain(some_text(st.alloc(), part)?))
        }
        Bounds::Bytes(_, _) => Ok(no_index(st, value)),
    }
}

/// A new String of these bytes, where they stand in others, or nil.
fn if_included(alloc: Global, bytes: &[u8], other: &[u8]) -> Result<Plain, AllocError>
    ensures { IfOk result (λ a. a ≡ rows.if_included bytes.now other.now) }
{
    if searching::includes(bytes, other) {
        new_text(alloc, other)
    } else {
        Ok(Plain::Nil)
    }
}

/// `text[object]`.
fn at_object(st: &Store, bytes: &[u8], value: Value) -> Result<Answer, AllocError>
    ensures { IfOk result (λ a. a ≡ rows.at_object st.now.store.objects bytes.now value) }
{
    if is_text(st, value) {
        return Ok(Answer::Plain(if_included(st.alloc(), bytes, text(st, value))?));
    }
    in_range(st, bytes, value, range_of(st, value))
}

/// `text[value]`.
fn at_value(st: &Store, bytes: &[u8], value: Value) -> Result<Answer, AllocError>
    ensures { IfOk result (λ a. a ≡ rows.at_value st.now.store.objects bytes.now value) }
{
    match value {
        Value::Int(index) => {
            let byte = slicing::byte_at(bytes, index);
            Ok(Answer::Plain(some_byte(st.alloc(), byte)?))
        }
        Value::Obj(_) => at_object(st, bytes, value),
        _ => Ok(no_index(st, value)),
    }
}

/// The first cause of two.
fn first_of(first: Option<Cause>, second: Option<Cause>) -> Option<Cause>
    ensures { result ≡ checking.first_of first second }
{
    match first {
        Some(cause) => Some(cause),
        None => second,
    }
}

/// `text[value, count]`.
fn part(st: &Store, bytes: &[u8], value: Value, count: Value) -> Result<Answer, AllocError>
    ensures { IfOk result (λ a. a ≡ rows.part st.now.store.objects bytes.now value count) }
{
    match first_of(unfit(st, INTEGER, value), unfit(st, INTEGER, count)) {
        Some(cause) => Ok(Answer::Fail(cause)),
        None => {
            let part = slicing::part(bytes, integer(value), integer(count));
            Ok(Answer::Plain(some_text(st.alloc(), part)?))
        }
    }
}

/// `text[value]` and `text[value, count]`.
pub(crate) fn element(st: &Store, bytes: &[u8], args: &[Value]) -> Result<Answer, AllocError>
    ensures { IfOk result (λ a. a ≡ rows.element st.now.store.objects bytes.now args.now) }
{
    if args.is_empty() {
        return Ok(no_index(st, Value::Nil));
    }
    if args.len() == 1 {
        return at_value(st, bytes, args[0]);
    }
    part(st, bytes, args[0], args[1])
}

/// The value that is given, where the receiver gets the bytes, or why it stays.
fn stored(given: Value, result_of: Result<Bytes, StringFailure>) -> Answer
    ensures { result ≡ rows.stored given result_of }
{
    match result_of {
        Ok(bytes) => Answer::Put { bytes, given },
        Err(failure) => Answer::Plain(Plain::Fail(fault_of(failure))),
    }
}

/// A String in place of so many bytes from an index on.
fn store_part(
    st: &Store,
    bytes: &[u8],
    index: i64,
    count: i64,
    new: Value,
) -> Result<Answer, AllocError>
    ensures { IfOk result (λ a. a ≡ rows.store_part st.now.store.objects bytes.now index count new) }
{
    match unfit(st, STRING, new) {
        Some(cause) => Ok(Answer::Fail(cause)),
        None => {
            let replaced = editing::replaced(st.alloc(), bytes, index, count, text(st, new))?;
            Ok(stored(new, replaced))
        }
    }
}

/// `text[index] = new` and `text[index, count] = new`.
pub(crate) fn set_element(st: &Store, bytes: &[u8], args: &[Value]) -> Result<Answer, AllocError>
    ensures { IfOk result (λ a. a ≡ rows.set_element st.now.store.objects bytes.now args.now) }
{
    if args.is_empty() {
        return Ok(no_index(st, Value::Nil));
    }
    if args.len() == 1 {
        return Ok(no_index(st, args[0]));
    }
    if args.len() == 2 {
        return store_part(st, bytes, integer(args[0]), 1, args[1]);
    }
    match unfit(st, INTEGER, args[1]) {
        Some(cause) => Ok(Answer::Fail(cause)),
        None => store_part(st, bytes, integer(args[0]), integer(args[1]), args[2]),
    }
}
