//! Calls and results. CRuby 3.1 gives the same, but for results of more than 64 bits, and where a table says otherwise.
use rb_integer::IntegerFailure;

mod numbers;
mod ranges;
mod texts;

/// A result that fits, or an overflow.
fn exact(number: Option<i64>) -> Result<i64, IntegerFailure> {
    number.ok_or(IntegerFailure::Overflow)
}
