use super::exact;
use rb_integer::{IntegerFailure, arithmetic, bits, comparison, division};

/// `x`, `y`, `x + y`.
static SUMS: [(i64, i64, Option<i64>); 14] = [
    (0, 0, Some(0)),
    (1, 2, Some(3)),
    (-1, 1, Some(0)),
    (i64::MAX, 1, None),
    (i64::MAX, 0, Some(i64::MAX)),
    (i64::MIN, -1, None),
    (i64::MIN, 1, Some(-9223372036854775807)),
    (i64::MIN, i64::MIN, None),
    (i64::MAX, i64::MIN, Some(-1)),
    (0, i64::MIN, Some(i64::MIN)),
    (-1, i64::MIN, None),
    (4611686018427387904, 4611686018427387904, None),
    (-4611686018427387904, -4611686018427387904, Some(i64::MIN)),
    (123456789, -987654321, Some(-864197532)),
];

/// `x`, `y`, `x - y`.
static DIFFERENCES: [(i64, i64, Option<i64>); 14] = [
    (0, 0, Some(0)),
    (1, 2, Some(-1)),
    (-1, 1, Some(-2)),
    (i64::MAX, 1, Some(9223372036854775806)),
    (i64::MAX, 0, Some(i64::MAX)),
    (i64::MIN, -1, Some(-9223372036854775807)),
    (i64::MIN, 1, None),
    (i64::MIN, i64::MIN, Some(0)),
    (i64::MAX, i64::MIN, None),
    (0, i64::MIN, None),
    (-1, i64::MIN, Some(i64::MAX)),
    (4611686018427387904, 4611686018427387904, Some(0)),
    (-4611686018427387904, -4611686018427387904, Some(0)),
    (123456789, -987654321, Some(1111111110)),
];

/// `x`, `y`, `x * y`.
static PRODUCTS: [(i64, i64, Option<i64>); 16] = [
    (0, 0, Some(0)),
    (3, -4, Some(-12)),
    (-3, -4, Some(12)),
    (i64::MAX, 1, Some(i64::MAX)),
    (i64::MAX, -1, Some(-9223372036854775807)),
    (i64::MIN, 1, Some(i64::MIN)),
    (i64::MIN, -1, None),
    (-1, i64::MIN, None),
    (0, i64::MIN, Some(0)),
    (i64::MAX, 2, None),
    (4294967296, 2147483648, None),
    (4294967296, -2147483648, Some(i64::MIN)),
    (3037000499, 3037000499, Some(9223372030926249001)),
    (3037000500, 3037000500, None),
    (-3037000500, 3037000500, None),
    (-4611686018427387904, 2, Some(i64::MIN)),
];

#[test]
fn sums_differences_and_products(rt: HostRuntime) {
    for (x, y, sum) in SUMS {
        assert_eq!(rt; arithmetic::add(x, y), exact(sum), "{x} + {y}");
    }
    for (x, y, difference) in DIFFERENCES {
        assert_eq!(rt; arithmetic::subtract(x, y), exact(difference), "{x} - {y}");
    }
    for (x, y, product) in PRODUCTS {
        assert_eq!(rt; arithmetic::multiply(x, y), exact(product), "{x} * {y}");
    }
}

/// `x`, `-x`, `x.abs`, `x.succ`, `x.pred`, `~x`.
static SINGLE: [(i64, Option<i64>, Option<i64>, Option<i64>, Option<i64>, i64); 7] = [
    (0, Some(0), Some(0), Some(1), Some(-1), -1),
    (1, Some(-1), Some(1), Some(2), Some(0), -2),
    (-5, Some(5), Some(5), Some(-4), Some(-6), 4),
    (
        i64::MAX,
        Some(-9223372036854775807),
        Some(i64::MAX),
        None,
        Some(9223372036854775806),
        i64::MIN,
    ),
    (
        i64::MIN,
        None,
        None,
        Some(-9223372036854775807),
        None,
        i64::MAX,
    ),
    (
        9223372036854775806,
        Some(-9223372036854775806),
        Some(9223372036854775806),
        Some(i64::MAX),
        Some(9223372036854775805),
        -9223372036854775807,
    ),
    (
        -9223372036854775807,
        Some(i64::MAX),
        Some(i64::MAX),
        Some(-9223372036854775806),
        Some(i64::MIN),
        9223372036854775806,
    ),
];

#[test]
fn operations_on_one_number(rt: HostRuntime) {
    for (x, negated, absolute, successor, predecessor, complement) in SINGLE {
        assert_eq!(rt; arithmetic::negate(x), exact(negated), "-({x})");
        assert_eq!(rt; arithmetic::absolute(x), exact(absolute), "{x}.abs");
        assert_eq!(rt; arithmetic::successor(x), exact(successor), "{x}.succ");
        assert_eq!(rt; arithmetic::predecessor(x), exact(predecessor), "{x}.pred");
        assert_eq!(rt; bits::complement(x), complement, "~{x}");
    }
}

/// `x`, `y`, `x / y`, `x % y`.
static QUOTIENTS: [(i64, i64, Option<i64>, i64); 52] = [
    (7, 3, Some(2), 1),
    (7, -3, Some(-3), -2),
    (-7, 3, Some(-3), 2),
    (-7, -3, Some(2), -1),
    (6, 3, Some(2), 0),
    (6, -3, Some(-2), 0),
    (-6, 3, Some(-2), 0),
    (-6, -3, Some(2), 0),
    (1, 3, Some(0), 1),
    (1, -3, Some(-1), -2),
    (-1, 3, Some(-1), 2),
    (-1, -3, Some(0), -1),
    (3, 7, Some(0), 3),
    (3, -7, Some(-1), -4),
    (-3, 7, Some(-1), 4),
    (-3, -7, Some(0), -3),
    (0, 3, Some(0), 0),
    (0, -3, Some(0), 0),
    (1, 1, Some(1), 0),
    (1, -1, Some(-1), 0),
    (-1, 1, Some(-1), 0),
    (-1, -1, Some(1), 0),
    (2, 2, Some(1), 0),
    (2, -2, Some(-1), 0),
    (-2, 2, Some(-1), 0),
    (-2, -2, Some(1), 0),
    (10, 7, Some(1), 3),
    (10, -7, Some(-2), -4),
    (-10, 7, Some(-2), 4),
    (-10, -7, Some(1), -3),
    (i64::MIN, 1, Some(i64::MIN), 0),
    (i64::MIN, -1, None, 0),
    (i64::MAX, -1, Some(-9223372036854775807), 0),
    (i64::MAX, i64::MIN, Some(-1), -1),
    (i64::MIN, i64::MAX, Some(-2), 9223372036854775806),
    (i64::MIN, i64::MIN, Some(1), 0),
    (i64::MAX, i64::MAX, Some(1), 0),
    (i64::MIN, 2, Some(-4611686018427387904), 0),
    (i64::MIN, -2, Some(4611686018427387904), 0),
    (i64::MIN, 3, Some(-3074457345618258603), 1),
    (i64::MIN, -3, Some(3074457345618258602), -2),
    (i64::MAX, 2, Some(4611686018427387903), 1),
    (i64::MAX, -2, Some(-4611686018427387904), -1),
    (1, i64::MIN, Some(-1), -9223372036854775807),
    (-1, i64::MIN, Some(0), -1),
    (-1, i64::MAX, Some(-1), 9223372036854775806),
    (1, i64::MAX, Some(0), 1),
    (-9223372036854775807, -1, Some(i64::MAX), 0),
    (0, i64::MIN, Some(0), 0),
    (-7, 7, Some(-1), 0),
    (8, -3, Some(-3), -1),
    (-8, 3, Some(-3), 1),
];

#[test]
fn quotients_and_remainders(rt: HostRuntime) {
    for (x, y, quotient, remainder) in QUOTIENTS {
        assert_eq!(rt; division::divide(x, y), exact(quotient), "{x} / {y}");
        assert_eq!(rt; division::modulo(x, y), Ok(remainder), "{x} % {y}");
        assert_eq!(rt;
            division::divide_with_remainder(x, y),
            exact(quotient).map(|quotient| (quotient, remainder)),
            "{x}.divmod({y})"
        );
    }
}

#[test]
fn nothing_is_divided_by_zero(rt: HostRuntime) {
    for x in [0, 1, -1, i64::MIN, i64::MAX] {
        assert_eq!(rt; division::divide(x, 0), Err(IntegerFailure::DividedByZero));
        assert_eq!(rt; division::modulo(x, 0), Err(IntegerFailure::DividedByZero));
        assert_eq!(rt;
            division::divide_with_remainder(x, 0),
            Err(IntegerFailure::DividedByZero)
        );
    }
}

/// `x`, `y`, `x ** y`.
static POWERS: [(i64, i64, Option<i64>); 49] = [
    (0, 0, Some(1)),
    (1, 0, Some(1)),
    (-1, 0, Some(1)),
    (5, 0, Some(1)),
    (i64::MIN, 0, Some(1)),
    (0, 1, Some(0)),
    (0, 63, Some(0)),
    (0, 64, Some(0)),
    (0, 1000000000000000000, Some(0)),
    (1, 64, Some(1)),
    (1, i64::MAX, Some(1)),
    (-1, 63, Some(-1)),
    (-1, 64, Some(1)),
    (-1, i64::MAX, Some(-1)),
    (-1, 9223372036854775806, Some(1)),
    (2, 62, Some(4611686018427387904)),
    (2, 63, None),
    (2, 64, None),
    (2, 65, None),
    (2, i64::MAX, None),
    (-2, 62, Some(4611686018427387904)),
    (-2, 63, Some(i64::MIN)),
    (-2, 64, None),
    (-2, 65, None),
    (3, 39, Some(4052555153018976267)),
    (3, 40, None),
    (-3, 39, Some(-4052555153018976267)),
    (7, 22, Some(3909821048582988049)),
    (7, 23, None),
    (10, 18, Some(1000000000000000000)),
    (10, 19, None),
    (-10, 18, Some(1000000000000000000)),
    (i64::MAX, 1, Some(i64::MAX)),
    (i64::MIN, 1, Some(i64::MIN)),
    (i64::MAX, 2, None),
    (i64::MIN, 2, None),
    (3037000499, 2, Some(9223372030926249001)),
    (3037000500, 2, None),
    (-3037000499, 2, Some(9223372030926249001)),
    (2097151, 3, Some(9223358842721533951)),
    (2097152, 3, None),
    (-2097152, 3, Some(i64::MIN)),
    (55108, 4, Some(9222710978872688896)),
    (55109, 4, None),
    (4, 31, Some(4611686018427387904)),
    (4, 32, None),
    (-8, 21, Some(i64::MIN)),
    (8, 21, None),
    (16, i64::MAX, None),
];

#[test]
fn powers(rt: HostRuntime) {
    for (x, exponent, power) in POWERS {
        assert_eq!(rt;
            arithmetic::power(x, exponent),
            exact(power),
            "{x} ** {exponent}"
        );
    }
    for (x, exponent) in [(2, -1), (0, -1), (1, -1), (-1, i64::MIN)] {
        assert_eq!(rt;
            arithmetic::power(x, exponent),
            Err(IntegerFailure::NegativeExponent),
            "{x} ** {exponent}"
        );
    }
}

/// `x`, `y`, `x << y`, `x >> y`.
static SHIFTS: [(i64, i64, Option<i64>, Option<i64>); 56] = [
    (0, 0, Some(0), Some(0)),
    (1, 0, Some(1), Some(1)),
    (-1, 0, Some(-1), Some(-1)),
    (5, 1, Some(10), Some(2)),
    (-5, 1, Some(-10), Some(-3)),
    (5, 2, Some(20), Some(1)),
    (-5, 3, Some(-40), Some(-1)),
    (1, 61, Some(2305843009213693952), Some(0)),
    (1, 62, Some(4611686018427387904), Some(0)),
    (1, 63, None, Some(0)),
    (1, 64, None, Some(0)),
    (-1, 63, Some(i64::MIN), Some(-1)),
    (-1, 64, None, Some(-1)),
    (0, 64, Some(0), Some(0)),
    (0, i64::MAX, Some(0), Some(0)),
    (1, i64::MAX, None, Some(0)),
    (-1, i64::MAX, None, Some(-1)),
    (i64::MAX, 1, None, Some(4611686018427387903)),
    (i64::MIN, 1, None, Some(-4611686018427387904)),
    (i64::MAX, 63, None, Some(0)),
    (i64::MIN, 63, None, Some(-1)),
    (i64::MIN, 64, None, Some(-1)),
    (
        -4611686018427387904,
        1,
        Some(i64::MIN),
        Some(-2305843009213693952),
    ),
    (3, 61, Some(6917529027641081856), Some(0)),
    (3, 62, None, Some(0)),
    (12345, 7, Some(1580160), Some(96)),
    (-12345, 7, Some(-1580160), Some(-97)),
    (5, -1, Some(2), Some(10)),
    (-5, -1, Some(-3), Some(-10)),
    (5, -2, Some(1), Some(20)),
    (-5, -3, Some(-1), Some(-40)),
    (1, -61, Some(0), Some(2305843009213693952)),
    (1, -62, Some(0), Some(4611686018427387904)),
    (1, -63, Some(0), None),
    (1, -64, Some(0), None),
    (-1, -63, Some(-1), Some(i64::MIN)),
    (-1, -64, Some(-1), None),
    (0, -64, Some(0), Some(0)),
    (0, -9223372036854775807, Some(0), Some(0)),
    (1, -9223372036854775807, Some(0), None),
    (-1, -9223372036854775807, Some(-1), None),
    (i64::MAX, -1, Some(4611686018427387903), None),
    (i64::MIN, -1, Some(-4611686018427387904), None),
    (i64::MAX, -63, Some(0), None),
    (i64::MIN, -63, Some(-1), None),
    (i64::MIN, -64, Some(-1), None),
    (
        -4611686018427387904,
        -1,
        Some(-2305843009213693952),
        Some(i64::MIN),
    ),
    (3, -61, Some(0), Some(6917529027641081856)),
    (3, -62, Some(0), None),
    (12345, -7, Some(96), Some(1580160)),
    (-12345, -7, Some(-97), Some(-1580160)),
    (5, i64::MIN, Some(0), None),
    (-5, i64::MIN, Some(-1), None),
    (0, i64::MIN, Some(0), Some(0)),
    (i64::MAX, i64::MIN, Some(0), None),
    (i64::MIN, i64::MIN, Some(-1), None),
];

#[test]
fn shifts(rt: HostRuntime) {
    for (x, count, left, right) in SHIFTS {
        assert_eq!(rt; bits::shift_left(x, count), exact(left), "{x} << {count}");
        assert_eq!(rt; bits::shift_right(x, count), exact(right), "{x} >> {count}");
    }
}

/// `x`, `y`, `x & y`, `x | y`, `x ^ y`.
static BITS: [(i64, i64, i64, i64, i64); 12] = [
    (0, 0, 0, 0, 0),
    (1, 3, 1, 3, 2),
    (12, 10, 8, 14, 6),
    (-1, 5, 5, -1, -6),
    (-12, 10, 0, -2, -2),
    (-12, -10, -12, -10, 2),
    (i64::MIN, i64::MAX, 0, -1, -1),
    (i64::MIN, -1, i64::MIN, -1, i64::MAX),
    (i64::MAX, -1, i64::MAX, -1, i64::MIN),
    (255, -256, 0, -1, -1),
    (252645135, 858993459, 50529027, 1061109567, 1010580540),
    (-1099511627776, 1099511627775, 0, -1, -1),
];

#[test]
fn bits_of_two_numbers(rt: HostRuntime) {
    for (x, y, both, either, one) in BITS {
        assert_eq!(rt; bits::bit_and(x, y), both, "{x} & {y}");
        assert_eq!(rt; bits::bit_or(x, y), either, "{x} | {y}");
        assert_eq!(rt; bits::bit_xor(x, y), one, "{x} ^ {y}");
    }
}

/// `x`, `y`, `x <=> y`.
static ORDERS: [(i64, i64, i64); 10] = [
    (0, 0, 0),
    (1, 2, -1),
    (2, 1, 1),
    (-1, 1, -1),
    (1, -1, 1),
    (i64::MIN, i64::MAX, -1),
    (i64::MAX, i64::MIN, 1),
    (i64::MIN, i64::MIN, 0),
    (-5, -6, 1),
    (-6, -5, -1),
];

#[test]
fn comparisons(rt: HostRuntime) {
    for (x, y, order) in ORDERS {
        assert_eq!(rt; comparison::order(x, y), order, "{x} <=> {y}");
        assert_eq!(rt; comparison::is_equal(x, y), order == 0, "{x} == {y}");
        assert_eq!(rt; comparison::is_less(x, y), order < 0, "{x} < {y}");
        assert_eq!(rt; comparison::is_at_most(x, y), order <= 0, "{x} <= {y}");
        assert_eq!(rt; comparison::is_greater(x, y), order > 0, "{x} > {y}");
        assert_eq!(rt; comparison::is_at_least(x, y), order >= 0, "{x} >= {y}");
    }
}

/// `x`, `low`, `high`, `x.between?(low, high)`, `x.clamp(low, high)`. Where `low` is above `high` CRuby's `clamp` raises;
/// here it gives a bound.
static BOUNDS: [(i64, i64, i64, bool, i64); 14] = [
    (5, 1, 10, true, 5),
    (0, 1, 10, false, 1),
    (11, 1, 10, false, 10),
    (1, 1, 10, true, 1),
    (10, 1, 10, true, 10),
    (-5, -3, -1, false, -3),
    (i64::MIN, -1, 1, false, -1),
    (i64::MAX, -1, 1, false, 1),
    (3, 4, 4, false, 4),
    (4, 4, 4, true, 4),
    (0, 5, 1, false, 5),
    (3, 5, 1, false, 5),
    (5, 5, 1, false, 1),
    (9, 5, 1, false, 1),
];

#[test]
fn numbers_between_bounds(rt: HostRuntime) {
    for (x, low, high, is_between, clamped) in BOUNDS {
        assert_eq!(rt;
            comparison::is_between(x, low, high),
            is_between,
            "{x}.between?({low}, {high})"
        );
        assert_eq!(rt;
            comparison::clamp(x, low, high),
            clamped,
            "{x}.clamp({low}, {high})"
        );
    }
}

/// `x`, and whether it is zero, even, odd, positive, negative.
static TESTS: [(i64, bool, bool, bool, bool, bool); 10] = [
    (0, true, true, false, false, false),
    (1, false, false, true, true, false),
    (-1, false, false, true, false, true),
    (2, false, true, false, true, false),
    (-2, false, true, false, false, true),
    (i64::MIN, false, true, false, false, true),
    (i64::MAX, false, false, true, true, false),
    (-9223372036854775807, false, false, true, false, true),
    (7, false, false, true, true, false),
    (-8, false, true, false, false, true),
];

#[test]
fn tests_of_one_number(rt: HostRuntime) {
    for (x, is_zero, is_even, is_odd, is_positive, is_negative) in TESTS {
        assert_eq!(rt; comparison::is_zero(x), is_zero, "{x}.zero?");
        assert_eq!(rt; comparison::is_even(x), is_even, "{x}.even?");
        assert_eq!(rt; comparison::is_odd(x), is_odd, "{x}.odd?");
        assert_eq!(rt; comparison::is_positive(x), is_positive, "{x}.positive?");
        assert_eq!(rt; comparison::is_negative(x), is_negative, "{x}.negative?");
    }
}
