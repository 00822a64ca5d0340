//! What operators give for two numbers.
ghost use Rattle.std.specs.Prelude.{◌≡◌};
ghost use Rattle.integer_operators.specs.Operators as operators;
ghost use Rattle.integer_operators.specs.Straight.{GivesStraight};

use crate::operator::Operator;
use rb_integer::{arithmetic, comparison, division};
use rb_value::Value;

/// The number that an operator's method gives for two numbers; nothing where it fails, or gives a truth.
#[inline(always)]
pub fn number_of(operator: Operator, left: i64, right: i64) -> Option<i64>
    ensures { result ≡ operators.number_of operator left right }
{
    match operator {
        Operator::Add => arithmetic::add(left, right).ok(),
        Operator::Subtract => arithmetic::subtract(left, right).ok(),
        Operator::Multiply => arithmetic::multiply(left, right).ok(),
        Operator::Divide => division::divide(left, right).ok(),
        _ => None,
    }
}

/// Whether two numbers stand to one another as a comparison tells; of any other operator no.
#[inline(always)]
pub fn holds(operator: Operator, left: i64, right: i64) -> bool
    ensures { result ≡ operators.holds operator left right }
{
    match operator {
        Operator::Equal => comparison::is_equal(left, right),
        Operator::Less => comparison::is_less(left, right),
        Operator::AtMost => comparison::is_at_most(left, right),
        Operator::Greater => comparison::is_greater(left, right),
        Operator::AtLeast => comparison::is_at_least(left, right),
        _ => false,
    }
}

/// A number as a value.
#[inline(always)]
fn number(found: Option<i64>) -> Option<Value>
    ensures { result ≡ operators.number found }
{
    match found {
        Some(number) => Some(Value::Int(number)),
        None => None,
    }
}

/// What an operator's method gives for two numbers; nothing where it fails.
#[inline(always)]
fn applied(operator: Operator, left: i64, right: i64) -> Option<Value>
    ensures { result ≡ operators.applied operator left right }
{
    if operator.compares() {
        Some(Value::from_truth(holds(operator, left, right)))
    } else {
        number(number_of(operator, left, right))
    }
}

/// What an operator's method gives for two values, where both are Integers; nothing where it has to be called. The method
/// is the core one.
#[inline(always)]
#[tactic(auto, using(crate::proofs::Called::operator_gives))]
pub fn operated(operator: Operator, left: Value, right: Value) -> Option<Value>
    ensures value { result ≡ operators.operated operator left right }
    ensures row { GivesStraight (operators.row_of operator) left right result }
{
    match (left, right) {
        (Value::Int(left), Value::Int(right)) => applied(operator, left, right),
        _ => None,
    }
}
