//! Operations on bits in two's complement, and shifts (ISO/IEC 30170:2012, 15.2.8).
ghost use Rattle.std.specs.Prelude.{◌≡◌, ◌≢◌, ◌≤◌, ℕ, min, max, ◌+◌, ◌*◌, ◌%◌, ◌^◌, ◌*ℤ◌, pos, Ok};
ghost use Rattle.std.specs.Int.{w64, int_bit_and, int_bit_or, int_bit_xor};
ghost use Rattle.rb_integer.specs.Bits as numbers;
ghost use Rattle.rb_integer.specs.Bits.{bit_of};
ghost use Rattle.rb_integer.specs.Division as division;
ghost use Rattle.rb_integer.specs.Exact.{exact};

use crate::arithmetic::checked;
use crate::failure::IntegerFailure;

/// `~x`: each bit turned over, which is `-x - 1`.
pub fn complement(x: i64) -> i64
    ensures { result ≡ numbers.complement x }
{
    !x
}

/// `x & y`: the bits that both have.
pub fn bit_and(x: i64, y: i64) -> i64
    ensures value { result ≡ int_bit_and w64 x y }
    ensures bits { (i : ℕ) → bit_of result i ≡ min (bit_of x i) (bit_of y i) }
{
    x & y
}

/// `x | y`: the bits that one or both have.
pub fn bit_or(x: i64, y: i64) -> i64
    ensures value { result ≡ int_bit_or w64 x y }
    ensures bits { (i : ℕ) → bit_of result i ≡ max (bit_of x i) (bit_of y i) }
{
    x | y
}

/// `x ^ y`: the bits that exactly one has.
pub fn bit_xor(x: i64, y: i64) -> i64
    ensures value { result ≡ int_bit_xor w64 x y }
    ensures bits { (i : ℕ) → bit_of result i ≡ (bit_of x i + bit_of y i) % 2 }
{
    x ^ y
}

/// `x`, which isn't 0, times 2 to a power of 63 or above: only -1 has such a product that fits.
#[tactic(auto, using(crate::proofs::Shifts::large_shifts))]
fn multiply_by_large_power(x: i64, count: u64) -> Result<i64, IntegerFailure>
    requires non_zero { x ≢ pos 0 }
    requires large { 63 ≤ count }
    ensures { result ≡ exact (x *ℤ pos (2 ^ count)) }
{
    if x != -1 {
        Err(IntegerFailure::Overflow)
    } else if count == 63 {
        Ok(i64::MIN)
    } else {
        Err(IntegerFailure::Overflow)
    }
}

/// `x` times 2 to the power of the count, or an overflow.
#[tactic(auto, using(crate::proofs::Shifts::zero_left))]
fn multiply_by_power(x: i64, count: u64) -> Result<i64, IntegerFailure>
    ensures { result ≡ exact (x *ℤ pos (2 ^ count)) }
{
    if x == 0 {
        Ok(0)
    } else if count < 63 {
        checked(x.checked_mul(1 << count))
    } else {
        multiply_by_large_power(x, count)
    }
}

/// `x` divided by 2 to the power of the count, rounded down.
#[tactic(auto, using(crate::proofs::Shifts::shifted_right))]
fn divide_by_power(x: i64, count: u64) -> i64
    ensures { result ≡ division.floor_quotient x (pos (2 ^ count)) }
{
    x >> count.min(63)
}

/// `x << count`: to the right where the count is below 0. An overflow where the exact result has more than 64 bits.
pub fn shift_left(x: i64, count: i64) -> Result<i64, IntegerFailure>
    ensures { result ≡ numbers.left x count }
{
    if count < 0 {
        Ok(divide_by_power(x, count.unsigned_abs()))
    } else {
        multiply_by_power(x, count.unsigned_abs())
    }
}

/// `x >> count`: rounded down, and to the left where the count is below 0, with its overflow.
#[tactic(auto, using(crate::proofs::Shifts::right_by))]
pub fn shift_right(x: i64, count: i64) -> Result<i64, IntegerFailure>
    ensures { result ≡ numbers.right x count }
{
    if count < 0 {
        multiply_by_power(x, count.unsigned_abs())
    } else {
        Ok(divide_by_power(x, count.unsigned_abs()))
    }
}
