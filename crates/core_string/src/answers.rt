//! Results of functions on bytes as answers.
ghost use Rattle.std.specs.Prelude.{◌≡◌, ◌≤◌, IfOk, IfSome, Ok, map, length, pos, option_copied};
ghost use Rattle.row_answer.specs.declared.answer.Plain.TheVariants as plain;
ghost use Rattle.def_rows.specs.declared.answer.Answer.TheVariants as answers;
ghost use Rattle.def_rows.specs.StringRows as rows;

use def_rows::Answer;
use rb_base::{Bytes, List};
use rb_string::{GREATEST_LENGTH, StringFailure};
use row_answer::{Fault, Plain};
use std::alloc::{AllocError, Global};

/// What names no object, as an answer.
pub(crate) fn plain(answer: Plain) -> Result<Answer, AllocError>
    ensures { result ≡ Ok (answers.Plain answer) }
{
    Ok(Answer::Plain(answer))
}

/// The fault of a failure.
pub(crate) fn fault_of(failure: StringFailure) -> Fault
    ensures { result ≡ rows.fault_of failure }
{
    match failure {
        StringFailure::TooLong => Fault::StringTooLong,
        StringFailure::NegativeCount => Fault::NegativeCount,
        StringFailure::OutsideText(index) => Fault::IndexOutOfRange(index),
        StringFailure::BadBase => Fault::BadBase,
        StringFailure::Overflow => Fault::IntegerOverflow,
    }
}

/// A new String, or why there is none.
pub fn made(result_of: Result<Bytes, StringFailure>) -> Plain
    ensures { result ≡ rows.made result_of }
{
    match result_of {
        Ok(bytes) => Plain::Text(bytes),
        Err(failure) => Plain::Fail(fault_of(failure)),
    }
}

/// The receiver with these bytes in place of its own, or why it stays.
pub(crate) fn changed(result_of: Result<Bytes, StringFailure>) -> Plain
    ensures { result ≡ rows.changed result_of }
{
    match result_of {
        Ok(bytes) => Plain::Replace(bytes),
        Err(failure) => Plain::Fail(fault_of(failure)),
    }
}

/// The receiver with these bytes behind its own, where they have room.
pub(crate) fn longer(bytes: &[u8], more: Bytes) -> Plain
    ensures { result ≡ rows.longer bytes.now more }
{
    if bytes.len().saturating_add(more.len()) <= GREATEST_LENGTH {
        Plain::Append(more)
    } else {
        Plain::Fail(Fault::StringTooLong)
    }
}

/// A number, or why there is none.
pub(crate) fn number(result_of: Result<i64, StringFailure>) -> Plain
    ensures { result ≡ rows.number result_of }
{
    match result_of {
        Ok(number) => Plain::Int(number),
        Err(failure) => Plain::Fail(fault_of(failure)),
    }
}

/// The number of a byte, or why there is none.
pub(crate) fn first_byte(result_of: Result<u8, StringFailure>) -> Plain
    ensures { result ≡ rows.first_byte result_of }
{
    match result_of {
        Ok(byte) => Plain::Int(i64::from(byte)),
        Err(failure) => Plain::Fail(fault_of(failure)),
    }
}

/// A place in a text, or nil.
pub(crate) fn place(bytes: &[u8], found: Option<usize>) -> Plain
    requires { IfSome found (λ place. place ≤ length bytes.now) }
    ensures { result ≡ rows.place found }
{
    let _length = bytes.len();
    match found {
        Some(place) => Plain::Int(place as i64),
        None => Plain::Nil,
    }
}

/// A new String.
pub(crate) fn text(alloc: Global, bytes: &[u8]) -> Result<Plain, AllocError>
    ensures { IfOk result (λ a. a ≡ plain.Text bytes.now) }
{
    Ok(Plain::Text(Bytes::from_slice(alloc, bytes)?))
}

/// A new String, or nil.
pub(crate) fn some_text(alloc: Global, bytes: Option<&[u8]>) -> Result<Plain, AllocError>
    ensures { IfOk result (λ a. a ≡ rows.some_text (option_copied bytes.entry)) }
{
    match bytes {
        Some(bytes) => text(alloc, bytes),
        None => Ok(Plain::Nil),
    }
}

/// A new String of one byte, or nil.
pub(crate) fn some_byte(alloc: Global, byte: Option<u8>) -> Result<Plain, AllocError>
    ensures { IfOk result (λ a. a ≡ rows.some_byte byte) }
{
    match byte {
        Some(byte) => text(alloc, &[byte]),
        None => Ok(Plain::Nil),
    }
}

/// How many bytes there are.
pub(crate) fn length_of(bytes: &[u8]) -> Plain
    ensures { result ≡ rows.length_of bytes.now }
{
    Plain::Int(bytes.len() as i64)
}

/// A new Array of the numbers of bytes.
pub(crate) fn numbers(alloc: Global, bytes: &[u8]) -> Result<Plain, AllocError>
    ensures { IfOk result (λ a. a ≡ plain.Numbers (map pos bytes.now)) }
{
    let mut numbers = Vec::with_capacity(alloc, bytes.len())?;
    'bytes: for byte in bytes {
        numbers.push(i64::from(*byte))?;
    }
    Ok(Plain::Numbers(List::from_vec(numbers)))
}
