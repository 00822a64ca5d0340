//! Division that rounds down (ISO/IEC 30170:2012, 15.2.8).
ghost use Rattle.std.specs.Prelude.{◌≡◌, ◌≢◌, ℤ, pos};
ghost use Rattle.rb_integer.specs.Division as numbers;
ghost use Rattle.rb_integer.specs.Exact.{exact};
ghost use Rattle.rb_integer.specs.Truncation as truncation;

use crate::arithmetic::checked;
use crate::failure::IntegerFailure;

/// Whether `x / y`, which rounds toward zero, rounds up.
#[inline(always)]
fn is_rounded_up(x: i64, y: i64) -> bool
    requires { y ≢ pos 0 }
    ensures { result ≡ truncation.is_rounded_up x y }
{
    let remainder = x.wrapping_rem(y);
    remainder != 0 && (remainder < 0) != (y < 0)
}

/// The quotient rounded down, or an overflow.
#[inline(always)]
fn floor_quotient(x: i64, y: i64) -> Result<i64, IntegerFailure>
    requires { y ≢ pos 0 }
    ensures { result ≡ exact (numbers.floor_quotient x y) }
{
    if is_rounded_up(x, y) {
        Ok(x / y - 1)
    } else {
        checked(x.checked_div(y))
    }
}

/// The remainder of the quotient rounded down.
#[inline(always)]
#[tactic(auto, using(crate::proofs::Divisions::remainder_more))]
fn floor_remainder(x: i64, y: i64) -> i64
    requires { y ≢ pos 0 }
    ensures { result ≡ numbers.floor_remainder x y }
{
    let remainder = x.wrapping_rem(y);
    if is_rounded_up(x, y) {
        remainder + y
    } else {
        remainder
    }
}

/// `x / y` and `x.div(y)`: the quotient rounded down. A failure where `y` is 0, or an overflow.
pub fn divide(x: i64, y: i64) -> Result<i64, IntegerFailure>
    ensures { result ≡ numbers.quotient x y }
{
    if y == 0 {
        Err(IntegerFailure::DividedByZero)
    } else {
        floor_quotient(x, y)
    }
}

/// `x % y` and `x.modulo(y)`: the remainder, which has the divisor's sign. A failure where `y` is 0.
pub fn modulo(x: i64, y: i64) -> Result<i64, IntegerFailure>
    ensures { result ≡ numbers.remainder x y }
{
    if y == 0 {
        Err(IntegerFailure::DividedByZero)
    } else {
        Ok(floor_remainder(x, y))
    }
}

/// `x.divmod(y)`: quotient and remainder. A failure where `y` is 0, or an overflow of the quotient.
pub fn divide_with_remainder(x: i64, y: i64) -> Result<(i64, i64), IntegerFailure>
    ensures { result ≡ numbers.quotient_and_remainder x y }
{
    if y == 0 {
        return Err(IntegerFailure::DividedByZero);
    }
    let quotient = floor_quotient(x, y)?;
    Ok((quotient, floor_remainder(x, y)))
}

/// What division gives: the quotient times the divisor and the remainder are the dividend, and the remainder lies from
/// 0 to the divisor, which it doesn't reach.
pub fn laws_of_division()
    ensures { (x y : ℤ) → y ≢ pos 0
        → numbers.IsFloorDivision x y (numbers.floor_quotient x y) (numbers.floor_remainder x y) }
{}
