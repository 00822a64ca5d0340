//! What each row of Integer gives.
ghost use Rattle.std.specs.Prelude.{◌≡◌, IfOk};
ghost use Rattle.def_rows.specs.IntegerRows as rows;

use crate::answers::{byte, digits, equals, number, order, pair, text};
use core_rows::operands::{argument, integer};
use rb_integer::{arithmetic, bits, comparison, division, numeral};
use rb_value::Value;
use row_answer::Plain;
use row_table::IntegerMethod;
use std::alloc::{AllocError, Global};

/// What a method gives, where its call isn't refused.
pub fn give(
    alloc: Global,
    method: IntegerMethod,
    recv: Value,
    args: &[Value],
) -> Result<Plain, AllocError>
    ensures { IfOk result (λ a. a ≡ rows.gives method recv args.now) }
{
    let x = integer(recv);
    let y = integer(argument(args, 0));
    let z = integer(argument(args, 1));
    Ok(match method {
        IntegerMethod::Plus => number(arithmetic::add(x, y)),
        IntegerMethod::Minus => number(arithmetic::subtract(x, y)),
        IntegerMethod::Times => number(arithmetic::multiply(x, y)),
        IntegerMethod::Divide | IntegerMethod::Div => number(division::divide(x, y)),
        IntegerMethod::Percent | IntegerMethod::Modulo => number(division::modulo(x, y)),
        IntegerMethod::Power => number(arithmetic::power(x, y)),
        IntegerMethod::Divmod => pair(alloc, division::divide_with_remainder(x, y))?,
        IntegerMethod::Negate => number(arithmetic::negate(x)),
        IntegerMethod::Itself | IntegerMethod::Ordinal | IntegerMethod::ToInteger =>
            Plain::Receiver,
        IntegerMethod::Complement => Plain::Int(bits::complement(x)),
        IntegerMethod::And => Plain::Int(bits::bit_and(x, y)),
        IntegerMethod::Or => Plain::Int(bits::bit_or(x, y)),
        IntegerMethod::Xor => Plain::Int(bits::bit_xor(x, y)),
        IntegerMethod::Left => number(bits::shift_left(x, y)),
        IntegerMethod::Right => number(bits::shift_right(x, y)),
        IntegerMethod::Equal => Plain::Truth(equals(x, argument(args, 0))),
        IntegerMethod::Order => order(x, argument(args, 0)),
        IntegerMethod::Less => Plain::Truth(comparison::is_less(x, y)),
        IntegerMethod::AtMost => Plain::Truth(comparison::is_at_most(x, y)),
        IntegerMethod::Greater => Plain::Truth(comparison::is_greater(x, y)),
        IntegerMethod::AtLeast => Plain::Truth(comparison::is_at_least(x, y)),
        IntegerMethod::Absolute => number(arithmetic::absolute(x)),
        IntegerMethod::Successor | IntegerMethod::Next => number(arithmetic::successor(x)),
        IntegerMethod::Predecessor => number(arithmetic::predecessor(x)),
        IntegerMethod::Character => byte(alloc, numeral::character(x))?,
        IntegerMethod::ToText => digits(alloc, x, args)?,
        IntegerMethod::Inspect => text(alloc, &numeral::decimal(x))?,
        IntegerMethod::IsZero => Plain::Truth(comparison::is_zero(x)),
        IntegerMethod::IsEven => Plain::Truth(comparison::is_even(x)),
        IntegerMethod::IsOdd => Plain::Truth(comparison::is_odd(x)),
        IntegerMethod::IsPositive => Plain::Truth(comparison::is_positive(x)),
        IntegerMethod::IsNegative => Plain::Truth(comparison::is_negative(x)),
        IntegerMethod::IsBetween => Plain::Truth(comparison::is_between(x, y, z)),
        IntegerMethod::Clamp => Plain::Int(comparison::clamp(x, y, z)),
    })
}
