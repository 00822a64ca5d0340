ghost use Rattle.std.specs.Prelude.{◌≡◌};
ghost use Rattle.path_core.specs.Rows as rows;
ghost use Rattle.path_number.specs.Outcome.{outcome_of, checked};
ghost use Rattle.path_value.specs.Value as values;

use path_value::failure::class_of;
use path_value::{Failure, Value};
use rb_syntax::Operator;

/// What the call of a core method gives, or the exception that it raises.
#[derive(Clone, Copy, Debug, PartialEq, Eq)]
pub enum Outcome {
    Gives(Value),
    Raises(Failure),
}

/// The Integer of a checked result, or an overflow.
#[inline(always)]
fn integer(number: Option<i64>) -> Outcome
    ensures { outcome_of result ≡ checked number }
{
    match number {
        Some(number) => Outcome::Gives(Value::Int(number)),
        None => Outcome::Raises(Failure::IntegerOverflow),
    }
}

#[inline(always)]
fn truth(holds: bool) -> Outcome
    ensures { outcome_of result ≡ rows.gives (values.truth holds) }
{
    Outcome::Gives(Value::from_truth(holds))
}

#[inline(always)]
#[tactic(auto, using(crate::proofs::Checked::checked_as))]
fn on_integers(operator: Operator, x: i64, y: i64) -> Outcome
    ensures { outcome_of result ≡ rows.on_integers operator x y }
{
    match operator {
        Operator::Plus => integer(x.checked_add(y)),
        Operator::Minus => integer(x.checked_sub(y)),
        Operator::Times => integer(x.checked_mul(y)),
        Operator::Equal => truth(x == y),
        Operator::Less => truth(x < y),
        Operator::LessEqual => truth(x <= y),
        Operator::Greater => truth(x > y),
        Operator::GreaterEqual => truth(x >= y),
    }
}

/// Whether two values are the same one.
fn is_same(x: Value, y: Value) -> bool
    ensures { result ≡ rows.is_same x y }
{
    match (x, y) {
        (Value::Nil, Value::Nil) | (Value::True, Value::True) | (Value::False, Value::False) =>
            true,
        (Value::Int(x), Value::Int(y)) => x == y,
        _ => false,
    }
}

/// An operator on an Integer and a value that is none.
fn on_other(operator: Operator, argument: Value) -> Outcome
    ensures { outcome_of result ≡ rows.on_other operator argument }
{
    match operator {
        Operator::Equal => Outcome::Gives(Value::False),
        _ => Outcome::Raises(Failure::IntegerExpected(class_of(argument))),
    }
}

/// An operator that is sent to a value that is no Integer.
fn without_row(operator: Operator, receiver: Value, argument: Value) -> Outcome
    ensures { outcome_of result ≡ rows.without_row operator receiver argument }
{
    match operator {
        Operator::Equal => truth(is_same(receiver, argument)),
        _ => Outcome::Raises(Failure::UndefinedMethod(operator, class_of(receiver))),
    }
}

/// The call of an operator on a value with another: what it gives, or the exception.
#[inline(always)]
#[tactic(auto, unfolding(path_core::specs::Rows::call))]
pub fn call(operator: Operator, receiver: Value, argument: Value) -> Outcome
    ensures { outcome_of result ≡ rows.call operator receiver argument }
{
    match (receiver, argument) {
        (Value::Int(x), Value::Int(y)) => on_integers(operator, x, y),
        (Value::Int(_), other) => on_other(operator, other),
        (other, argument) => without_row(operator, other, argument),
    }
}
