//! Comparisons and tests (ISO/IEC 30170:2012, 15.2.8).
ghost use Rattle.std.specs.Prelude.{◌≡◌, int_lt, int_le};
ghost use Rattle.rb_integer.specs.Comparison as numbers;

/// `x <=> y`: -1, 0 or 1.
pub fn order(x: i64, y: i64) -> i64
    ensures { result ≡ numbers.order x y }
{
    if x < y {
        -1
    } else if y < x {
        1
    } else {
        0
    }
}

/// `x == y`.
#[inline(always)]
pub fn is_equal(x: i64, y: i64) -> bool
    ensures { result ≡ numbers.is_equal x y }
{
    x == y
}

/// `x < y`.
#[inline(always)]
pub fn is_less(x: i64, y: i64) -> bool
    ensures { result ≡ int_lt x y }
{
    x < y
}

/// `x <= y`.
#[inline(always)]
pub fn is_at_most(x: i64, y: i64) -> bool
    ensures { result ≡ int_le x y }
{
    x <= y
}

/// `x > y`.
#[inline(always)]
pub fn is_greater(x: i64, y: i64) -> bool
    ensures { result ≡ int_lt y x }
{
    x > y
}

/// `x >= y`.
#[inline(always)]
pub fn is_at_least(x: i64, y: i64) -> bool
    ensures { result ≡ int_le y x }
{
    x >= y
}

/// `x.between?(low, high)`, both included.
pub fn is_between(x: i64, low: i64, high: i64) -> bool
    ensures { result ≡ numbers.is_between x low high }
{
    low <= x && x <= high
}

/// `x.clamp(low, high)`: `low` where `x` is below it, else `high` where `x` is above that, else `x`.
pub fn clamp(x: i64, low: i64, high: i64) -> i64
    ensures { result ≡ numbers.clamped x low high }
{
    if x < low {
        low
    } else if x > high {
        high
    } else {
        x
    }
}

/// `x.zero?`.
pub fn is_zero(x: i64) -> bool
    ensures { result ≡ numbers.is_zero x }
{
    x == 0
}

/// `x.even?`.
pub fn is_even(x: i64) -> bool
    ensures { result ≡ numbers.is_even x }
{
    x.unsigned_abs() % 2 == 0
}

/// `x.odd?`.
pub fn is_odd(x: i64) -> bool
    ensures { result ≡ numbers.is_odd x }
{
    !is_even(x)
}

/// `x.positive?`.
pub fn is_positive(x: i64) -> bool
    ensures { result ≡ numbers.is_positive x }
{
    x > 0
}

/// `x.negative?`.
pub fn is_negative(x: i64) -> bool
    ensures { result ≡ numbers.is_negative x }
{
    x < 0
}
