//! Sums, products and powers (ISO/IEC 30170:2012, 15.2.8).
ghost use Rattle.std.specs.Prelude.{◌≡◌, ◌≤◌, ◌*ℤ◌, ℕ, suc, ℤ, pos, ok_or};
ghost use Rattle.std.specs.Int.{int_pow};
ghost use Rattle.rb_integer.specs.Arithmetic as numbers;

use crate::failure::IntegerFailure;

/// The result of a checked operation, or an overflow.
#[inline(always)]
pub(crate) fn checked(number: Option<i64>) -> Result<i64, IntegerFailure>
    ensures { result ≡ ok_or number IntegerFailure.Overflow }
{
    number.ok_or(IntegerFailure::Overflow)
}

/// `x + y`, or an overflow.
#[inline(always)]
#[tactic(auto, using(crate::proofs::Checked::checked_as))]
pub fn add(x: i64, y: i64) -> Result<i64, IntegerFailure>
    ensures { result ≡ numbers.sum x y }
{
    checked(x.checked_add(y))
}

/// `x - y`, or an overflow.
#[inline(always)]
#[tactic(auto, using(crate::proofs::Checked::checked_as))]
pub fn subtract(x: i64, y: i64) -> Result<i64, IntegerFailure>
    ensures { result ≡ numbers.difference x y }
{
    checked(x.checked_sub(y))
}

/// `x * y`, or an overflow.
#[inline(always)]
#[tactic(auto, using(crate::proofs::Checked::checked_as))]
pub fn multiply(x: i64, y: i64) -> Result<i64, IntegerFailure>
    ensures { result ≡ numbers.product x y }
{
    checked(x.checked_mul(y))
}

/// `-x`, or an overflow.
#[tactic(auto, using(crate::proofs::Checked::checked_as))]
pub fn negate(x: i64) -> Result<i64, IntegerFailure>
    ensures { result ≡ numbers.negation x }
{
    checked(x.checked_neg())
}

/// `x.abs`, or an overflow.
#[tactic(auto, using(crate::proofs::Checked::checked_as))]
pub fn absolute(x: i64) -> Result<i64, IntegerFailure>
    ensures { result ≡ numbers.magnitude x }
{
    checked(x.checked_abs())
}

/// `x.succ` and `x.next`, or an overflow.
pub fn successor(x: i64) -> Result<i64, IntegerFailure>
    ensures { result ≡ numbers.next x }
{
    add(x, 1)
}

/// `x.pred`, or an overflow.
pub fn predecessor(x: i64) -> Result<i64, IntegerFailure>
    ensures { result ≡ numbers.previous x }
{
    subtract(x, 1)
}

/// `x` to an exponent of 64 or above, for which only 0, 1 and -1 have a power that fits.
#[tactic(auto, using(crate::proofs::Powers::large_powers))]
fn large_power(x: i64, exponent: u64) -> Result<i64, IntegerFailure>
    requires { 64 ≤ exponent }
    ensures { result ≡ numbers.power x (pos exponent) }
{
    if x == 0 {
        Ok(0)
    } else if x == 1 {
        Ok(1)
    } else if x != -1 {
        Err(IntegerFailure::Overflow)
    } else if exponent % 2 == 0 {
        Ok(1)
    } else {
        Ok(-1)
    }
}

/// `x` to an exponent of 0 or above. No product is formed for an exponent of 64 or above.
#[tactic(auto, using(crate::proofs::Checked::checked_as))]
fn natural_power(x: i64, exponent: u64) -> Result<i64, IntegerFailure>
    ensures { result ≡ numbers.power x (pos exponent) }
{
    if exponent < 64 {
        checked(x.checked_pow(exponent as u32))
    } else {
        large_power(x, exponent)
    }
}

/// `x ** exponent`: a failure where the exponent is below 0, else the power, or an overflow.
pub fn power(x: i64, exponent: i64) -> Result<i64, IntegerFailure>
    ensures { result ≡ numbers.power x exponent }
{
    if exponent < 0 {
        Err(IntegerFailure::NegativeExponent)
    } else {
        natural_power(x, exponent as u64)
    }
}

/// What powers are: 1 without a factor, and with one more factor the product with it.
pub fn laws_of_powers()
    ensures none { (x : ℤ) → int_pow x 0 ≡ pos 1 }
    ensures more { (x : ℤ) (n : ℕ) → int_pow x (suc n) ≡ int_pow x n *ℤ x }
{}
