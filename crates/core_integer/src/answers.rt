//! Results of functions on numbers as answers.
ghost use Rattle.std.specs.Prelude.{◌≡◌, IfOk};
ghost use Rattle.row_answer.specs.declared.answer.Plain.TheVariants as texts;
ghost use Rattle.def_rows.specs.IntegerRows as rows;

use core_rows::operands::integer;
use rb_base::{Bytes, List};
use rb_integer::{IntegerFailure, Text, comparison, numeral};
use rb_value::Value;
use row_answer::{Fault, Plain};
use std::alloc::{AllocError, Global};

/// The fault of a failure.
pub fn fault_of(failure: IntegerFailure) -> Fault
    ensures { result ≡ rows.fault_of failure }
{
    match failure {
        IntegerFailure::Overflow => Fault::IntegerOverflow,
        IntegerFailure::DividedByZero => Fault::DividedByZero,
        IntegerFailure::NegativeExponent => Fault::NegativeExponent,
        IntegerFailure::NegativeCount => Fault::NegativeCount,
        IntegerFailure::BadBase => Fault::BadBase,
        IntegerFailure::OutsideCharacters(number) => Fault::CharOutOfRange(number),
        IntegerFailure::BadEnds => Fault::BadRange,
    }
}

/// A number, or why there is none.
pub fn number(result_of: Result<i64, IntegerFailure>) -> Plain
    ensures { result ≡ rows.number result_of }
{
    match result_of {
        Ok(number) => Plain::Int(number),
        Err(failure) => Plain::Fail(fault_of(failure)),
    }
}

/// Quotient and remainder, or why there are none.
pub(crate) fn pair(
    alloc: Global,
    result_of: Result<(i64, i64), IntegerFailure>,
) -> Result<Plain, AllocError>
    ensures { IfOk result (λ a. a ≡ rows.pair result_of) }
{
    match result_of {
        Ok((quotient, remainder)) => {
            let numbers = Vec::from_slice(alloc, &[quotient, remainder])?;
            Ok(Plain::Numbers(List::from_vec(numbers)))
        }
        Err(failure) => Ok(Plain::Fail(fault_of(failure))),
    }
}

/// A text.
pub fn text(alloc: Global, text: &Text) -> Result<Plain, AllocError>
    ensures { IfOk result (λ a. a ≡ texts.Text text.now) }
{
    Ok(Plain::Text(Bytes::from_slice(alloc, text.as_slice())?))
}

/// One byte as a text, or why there is none.
pub(crate) fn byte(
    alloc: Global,
    result_of: Result<u8, IntegerFailure>,
) -> Result<Plain, AllocError>
    ensures { IfOk result (λ a. a ≡ rows.byte result_of) }
{
    match result_of {
        Ok(byte) => Ok(Plain::Text(Bytes::from_slice(alloc, &[byte])?)),
        Err(failure) => Ok(Plain::Fail(fault_of(failure))),
    }
}

/// The digits of a number: decimal, or in the base that is given.
pub(crate) fn digits(alloc: Global, x: i64, args: &[Value]) -> Result<Plain, AllocError>
    ensures { IfOk result (λ a. a ≡ rows.digits x args.now) }
{
    if args.is_empty() {
        return text(alloc, &numeral::decimal(x));
    }
    match numeral::to_text(x, integer(args[0])) {
        Ok(numeral) => text(alloc, &numeral),
        Err(failure) => Ok(Plain::Fail(fault_of(failure))),
    }
}

/// Whether a value is the same number.
pub(crate) fn equals(x: i64, other: Value) -> bool
    ensures { result ≡ rows.equals x other }
{
    match other {
        Value::Int(y) => comparison::is_equal(x, y),
        _ => false,
    }
}

/// The order between a number and a value.
pub(crate) fn order(x: i64, other: Value) -> Plain
    ensures { result ≡ rows.order x other }
{
    match other {
        Value::Int(y) => Plain::Int(comparison::order(x, y)),
        _ => Plain::Nil,
    }
}
