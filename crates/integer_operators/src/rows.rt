//! What rows of Integer without an instruction of their own give for two numbers.
ghost use Rattle.std.specs.Prelude.{◌≡◌, ◌∷◌, []};
ghost use Rattle.row_table.specs.declared.integer.IntegerMethod.TheVariants as method;
ghost use Rattle.integer_operators.specs.Operators as operators;
ghost use Rattle.integer_operators.specs.Operators.{given};
ghost use Rattle.integer_operators.specs.Straight.{GivesStraight, GivesFor};

use crate::operator::INTEGER_ROWS;
use rb_integer::{bits, division};
use rb_value::Value;

/// The row of `%`.
const PERCENT: u16 = INTEGER_ROWS + 4;

/// The row of `&`.
const AND: u16 = INTEGER_ROWS + 12;

/// The row of `|`.
const OR: u16 = INTEGER_ROWS + 13;

/// The row of `^`.
const XOR: u16 = INTEGER_ROWS + 14;

/// The remainder of two numbers, which has the sign of the right one; nothing where it fails.
fn remainder(left: i64, right: i64) -> Option<Value>
    ensures { result ≡ given method.Percent left right }
{
    match division::modulo(left, right) {
        Ok(number) => Some(Value::Int(number)),
        Err(_) => None,
    }
}

/// The bits that both numbers have.
fn both(left: i64, right: i64) -> Option<Value>
    ensures { result ≡ given method.And left right }
{
    Some(Value::Int(bits::bit_and(left, right)))
}

/// The bits that one of two numbers has, or both.
fn either(left: i64, right: i64) -> Option<Value>
    ensures { result ≡ given method.Or left right }
{
    Some(Value::Int(bits::bit_or(left, right)))
}

/// The bits that exactly one of two numbers has.
fn one(left: i64, right: i64) -> Option<Value>
    ensures { result ≡ given method.Xor left right }
{
    Some(Value::Int(bits::bit_xor(left, right)))
}

/// What a row gives for two numbers, where it is `%`, `&`, `|` or `^`; nothing of any other row, and where it fails.
#[tactic(auto, using(crate::proofs::Called::percent_gives, crate::proofs::Called::and_gives, crate::proofs::Called::or_gives, crate::proofs::Called::xor_gives))]
fn computed_of(row: u16, left: i64, right: i64) -> Option<Value>
    ensures row { GivesStraight row (Value.Int left) (Value.Int right) result }
    ensures value { result ≡ operators.computed_of row left right }
{
    match row {
        PERCENT => remainder(left, right),
        AND => both(left, right),
        OR => either(left, right),
        XOR => one(left, right),
        _ => None,
    }
}

/// What a row gives straight on for an argument; nothing where it has to be called.
#[inline(always)]
pub fn computed_by(row: u16, receiver: Value, argument: Value) -> Option<Value>
    ensures row { GivesStraight row receiver argument result }
    ensures value { result ≡ operators.computed_by row receiver argument }
{
    match (receiver, argument) {
        (Value::Int(left), Value::Int(right)) => computed_of(row, left, right),
        _ => None,
    }
}

/// What a row gives straight on for some arguments; nothing where it has to be called.
#[inline(always)]
pub fn computed(row: u16, receiver: Value, args: &[Value]) -> Option<Value>
    ensures row { GivesFor row receiver args.now result }
    ensures value { result ≡ operators.computed row receiver args.now }
{
    match args {
        [argument] => computed_by(row, receiver, *argument),
        _ => None,
    }
}
