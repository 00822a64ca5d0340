use super::*;

const BY_ZERO: Wanted = Raises(CoreClass::ZeroDivisionError, b"divided by 0");

const GOT_STRING: Wanted = Raises(CoreClass::TypeError, b"expected Integer, got String");

const GOT_TRUE: Wanted = Raises(CoreClass::TypeError, b"expected Integer, got TrueClass");

const GOT_RANGE: Wanted = Raises(CoreClass::TypeError, b"expected Integer, got Range");

const GOT_MODULE: Wanted = Raises(CoreClass::TypeError, b"expected Integer, got Module");

const GOT_CLASS: Wanted = Raises(CoreClass::TypeError, b"expected Integer, got Class");

const GOT_FALSE: Wanted = Raises(CoreClass::TypeError, b"expected Integer, got FalseClass");

const NEGATIVE_EXPONENT: Wanted = Raises(CoreClass::ArgumentError, b"negative exponent");

const COMPARED_WITH_NIL: Wanted = Raises(
    CoreClass::ArgumentError,
    b"comparison of Integer with NilClass failed",
);

const COMPARED_WITH_STRING: Wanted = Raises(
    CoreClass::ArgumentError,
    b"comparison of Integer with String failed",
);

const COMPARED_WITH_RANGE: Wanted = Raises(
    CoreClass::ArgumentError,
    b"comparison of Integer with Range failed",
);

const ABOVE_BYTES: Wanted = Raises(CoreClass::RangeError, b"256 out of char range");

const BELOW_BYTES: Wanted = Raises(CoreClass::RangeError, b"-1 out of char range");

const BAD_BASE: Wanted = Raises(CoreClass::ArgumentError, b"bad base");

const GIVEN_2_FOR_1: Wanted = Raises(
    CoreClass::ArgumentError,
    b"wrong number of arguments (given 2, expected 1)",
);

const GIVEN_1_FOR_2: Wanted = Raises(
    CoreClass::ArgumentError,
    b"wrong number of arguments (given 1, expected 2)",
);

const GIVEN_3_FOR_2: Wanted = Raises(
    CoreClass::ArgumentError,
    b"wrong number of arguments (given 3, expected 2)",
);

/// Sums, products, quotients and what is made of one Integer.
static ARITHMETIC: [Case; 33] = [
    (b"+", Int(2), &[Int(3)], Gives(Int(5))),
    (b"+", Int(i64::MAX), &[Int(1)], OVERFLOW),
    (b"+", Int(1), &[Nil], GOT_NIL),
    (b"+", Int(1), &[LETTER_A], GOT_STRING),
    (b"+", Int(1), &[True], GOT_TRUE),
    (b"+", Int(1), &[ONE_TO_THREE], GOT_RANGE),
    (b"+", Int(1), &[KERNEL], GOT_MODULE),
    (b"+", Int(1), &[RANGE], GOT_CLASS),
    (b"-", Int(i64::MIN), &[Int(1)], OVERFLOW),
    (b"*", Int(3), &[False], GOT_FALSE),
    (b"/", Int(7), &[Int(0)], BY_ZERO),
    (b"/", Int(-7), &[Int(2)], Gives(Int(-4))),
    (b"/", Int(i64::MIN), &[Int(-1)], OVERFLOW),
    (b"%", Int(-7), &[Int(3)], Gives(Int(2))),
    (b"modulo", Int(7), &[Int(0)], BY_ZERO),
    (b"div", Int(7), &[Int(-2)], Gives(Int(-4))),
    (b"**", Int(2), &[Int(-1)], NEGATIVE_EXPONENT),
    (b"**", Int(2), &[Int(62)], Gives(Int(4611686018427387904))),
    (b"**", Int(2), &[Int(63)], OVERFLOW),
    (b"divmod", Int(7), &[Int(-2)], Integers(&[-4, -1])),
    (b"divmod", Int(7), &[Nil], GOT_NIL),
    (b"divmod", Int(7), &[Int(0)], BY_ZERO),
    (b"divmod", Int(i64::MIN), &[Int(-1)], OVERFLOW),
    (b"-@", Int(i64::MIN), &[], OVERFLOW),
    (b"+@", Int(5), &[], Gives(Int(5))),
    (b"~", Int(0), &[], Gives(Int(-1))),
    (b"abs", Int(i64::MIN), &[], OVERFLOW),
    (b"abs", Int(-5), &[], Gives(Int(5))),
    (b"succ", Int(i64::MAX), &[], OVERFLOW),
    (b"next", Int(1), &[], Gives(Int(2))),
    (b"pred", Int(i64::MIN), &[], OVERFLOW),
    (b"ord", Int(98), &[], Gives(Int(98))),
    (b"to_i", Int(-3), &[], Gives(Int(-3))),
];

/// Operations on bits.
static BITS: [Case; 10] = [
    (b"&", Int(12), &[Int(10)], Gives(Int(8))),
    (b"|", Int(12), &[Int(10)], Gives(Int(14))),
    (b"^", Int(12), &[Int(10)], Gives(Int(6))),
    (b"&", Int(-1), &[Int(255)], Gives(Int(255))),
    (b"<<", Int(1), &[Int(62)], Gives(Int(4611686018427387904))),
    (b"<<", Int(1), &[Int(63)], OVERFLOW),
    (b"<<", Int(1), &[Int(-1)], Gives(Int(0))),
    (b">>", Int(-1), &[Int(1)], Gives(Int(-1))),
    (b">>", Int(1), &[Int(-3)], Gives(Int(8))),
    (b"<<", Int(1), &[LETTER_A], GOT_STRING),
];

/// Comparisons and tests.
static COMPARISONS: [Case; 30] = [
    (b"==", Int(1), &[Int(1)], YES),
    (b"==", Int(1), &[Int(2)], NO),
    (b"==", Int(1), &[Nil], NO),
    (b"==", Int(1), &[LETTER_A], NO),
    (b"==", Int(1), &[ONE_TO_THREE], NO),
    (b"<=>", Int(1), &[Int(2)], Gives(Int(-1))),
    (b"<=>", Int(2), &[Int(1)], Gives(Int(1))),
    (b"<=>", Int(1), &[Int(1)], Gives(Int(0))),
    (b"<=>", Int(1), &[Nil], NOTHING),
    (b"<=>", Int(1), &[LETTER_A], NOTHING),
    (b"<", Int(1), &[Int(2)], YES),
    (b"<=", Int(2), &[Int(1)], NO),
    (b">", Int(2), &[Int(1)], YES),
    (b">=", Int(1), &[Int(2)], NO),
    (b">", Int(1), &[Nil], COMPARED_WITH_NIL),
    (b">=", Int(1), &[LETTER_A], COMPARED_WITH_STRING),
    (b"<", Int(1), &[A_TO_C], COMPARED_WITH_RANGE),
    (b"zero?", Int(0), &[], YES),
    (b"even?", Int(3), &[], NO),
    (b"odd?", Int(3), &[], YES),
    (b"positive?", Int(0), &[], NO),
    (b"negative?", Int(-1), &[], YES),
    (b"between?", Int(5), &[Int(1), Int(5)], YES),
    (b"between?", Int(5), &[Int(6), Int(9)], NO),
    (b"between?", Int(5), &[LETTER_A, Nil], GOT_STRING),
    (b"between?", Int(5), &[Int(1), Nil], GOT_NIL),
    (b"clamp", Int(5), &[Int(7), Int(9)], Gives(Int(7))),
    (b"clamp", Int(5), &[Int(1), Int(3)], Gives(Int(3))),
    (b"clamp", Int(5), &[Int(1), Int(9)], Gives(Int(5))),
    (b"clamp", Int(5), &[True, Int(9)], GOT_TRUE),
];

/// Strings of Integers.
static WRITING: [Case; 13] = [
    (b"chr", Int(97), &[], Text(b"a")),
    (b"chr", Int(255), &[], Text(b"\xff")),
    (b"chr", Int(256), &[], ABOVE_BYTES),
    (b"chr", Int(-1), &[], BELOW_BYTES),
    (b"to_s", Int(255), &[], Text(b"255")),
    (b"to_s", Int(-255), &[Int(16)], Text(b"-ff")),
    (b"to_s", Int(35), &[Int(36)], Text(b"z")),
    (b"to_s", Int(0), &[Int(2)], Text(b"0")),
    (b"to_s", Int(7), &[Int(1)], BAD_BASE),
    (b"to_s", Int(7), &[Int(37)], BAD_BASE),
    (b"to_s", Int(7), &[Nil], GOT_NIL),
    (b"inspect", Int(-7), &[], Text(b"-7")),
    (
        b"inspect",
        Int(i64::MIN),
        &[],
        Text(b"-9223372036854775808"),
    ),
];

/// Wrong numbers of arguments, and receivers of other classes.
static COUNTS: [Case; 17] = [
    (b"+", Int(1), &[], GIVEN_0_FOR_1),
    (b"+", Int(1), &[Int(1), Int(2)], GIVEN_2_FOR_1),
    (b"-@", Int(1), &[Int(1)], GIVEN_1_FOR_0),
    (b"==", Int(1), &[], GIVEN_0_FOR_1),
    (b"<=>", Int(1), &[Int(1), Int(2)], GIVEN_2_FOR_1),
    (b"<", Int(1), &[], GIVEN_0_FOR_1),
    (b"between?", Int(1), &[Int(1)], GIVEN_1_FOR_2),
    (b"clamp", Int(1), &[Int(1), Int(2), Int(3)], GIVEN_3_FOR_2),
    (b"to_s", Int(1), &[Int(2), Int(3)], GIVEN_2_FOR_0_TO_1),
    (b"inspect", Int(1), &[Int(1)], GIVEN_1_FOR_0),
    (b"zero?", Int(1), &[Nil], GIVEN_1_FOR_0),
    (b"chr", Int(1), &[Nil], GIVEN_1_FOR_0),
    (b"divmod", Int(1), &[], GIVEN_0_FOR_1),
    (b"+", Nil, &[], GIVEN_0_FOR_1),
    (b"+", Nil, &[LETTER_A], GOT_NIL),
    (b"to_s", LETTER_A, &[], GOT_STRING),
    (b"zero?", ONE_TO_THREE, &[], GOT_RANGE),
];

#[test]
fn integers_are_reckoned(rt: HostRuntime) -> Result<(), AllocError> {
    let wrong = first_wrong(rt.alloc(), CoreClass::Integer, &ARITHMETIC)?;
    assert_eq!(rt; wrong, None);
    Ok(())
}

#[test]
fn bits_are_set(rt: HostRuntime) -> Result<(), AllocError> {
    let wrong = first_wrong(rt.alloc(), CoreClass::Integer, &BITS)?;
    assert_eq!(rt; wrong, None);
    Ok(())
}

#[test]
fn integers_are_compared(rt: HostRuntime) -> Result<(), AllocError> {
    let wrong = first_wrong(rt.alloc(), CoreClass::Integer, &COMPARISONS)?;
    assert_eq!(rt; wrong, None);
    Ok(())
}

#[test]
fn integers_are_written(rt: HostRuntime) -> Result<(), AllocError> {
    let wrong = first_wrong(rt.alloc(), CoreClass::Integer, &WRITING)?;
    assert_eq!(rt; wrong, None);
    Ok(())
}

#[test]
fn arguments_are_counted(rt: HostRuntime) -> Result<(), AllocError> {
    let wrong = first_wrong(rt.alloc(), CoreClass::Integer, &COUNTS)?;
    assert_eq!(rt; wrong, None);
    Ok(())
}
