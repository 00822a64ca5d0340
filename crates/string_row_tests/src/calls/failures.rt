//! Calls of methods of String that fail, and those of which CRuby gives another class or text.
use super::*;

const GOT_INTEGER: Wanted = Raises(CoreClass::TypeError, b"expected String, got Integer");

const GOT_NIL: Wanted = Raises(CoreClass::TypeError, b"expected String, got NilClass");

const GOT_RANGE: Wanted = Raises(CoreClass::TypeError, b"expected String, got Range");

const STRING_FOR_INTEGER: Wanted = Raises(CoreClass::TypeError, b"expected Integer, got String");

const NIL_FOR_INTEGER: Wanted = Raises(CoreClass::TypeError, b"expected Integer, got NilClass");

const RANGE_FOR_INTEGER: Wanted = Raises(CoreClass::TypeError, b"expected Integer, got Range");

const NEGATIVE_COUNT: Wanted = Raises(CoreClass::ArgumentError, b"negative count");

const TOO_LONG: Wanted = Raises(CoreClass::RangeError, b"string too long");

const OVERFLOW: Wanted = Raises(CoreClass::RangeError, b"integer overflow");

const BAD_BASE: Wanted = Raises(CoreClass::ArgumentError, b"bad base");

const GIVEN_0_FOR_1: Wanted = Raises(
    CoreClass::ArgumentError,
    b"wrong number of arguments (given 0, expected 1)",
);

const GIVEN_1_FOR_0: Wanted = Raises(
    CoreClass::ArgumentError,
    b"wrong number of arguments (given 1, expected 0)",
);

const GIVEN_0_FOR_1_TO_2: Wanted = Raises(
    CoreClass::ArgumentError,
    b"wrong number of arguments (given 0, expected 1..2)",
);

const GIVEN_1_FOR_2: Wanted = Raises(
    CoreClass::ArgumentError,
    b"wrong number of arguments (given 1, expected 2)",
);

const GIVEN_1_FOR_2_TO_3: Wanted = Raises(
    CoreClass::ArgumentError,
    b"wrong number of arguments (given 1, expected 2..3)",
);

const COMPARED_WITH_INTEGER: Wanted = Raises(
    CoreClass::ArgumentError,
    b"comparison of String with Integer failed",
);

const COMPARED_WITH_NIL: Wanted = Raises(
    CoreClass::ArgumentError,
    b"comparison of String with NilClass failed",
);

/// What the library says of failures, of an empty pad, and of numbers outside 64 bits.
pub(super) static FAILURES: [Case; 62] = [
    (b"+", b"a", &[Number(1)], GOT_INTEGER),
    (b"+", b"a", &[Nothing], GOT_NIL),
    (b"+", b"a", &[], GIVEN_0_FOR_1),
    (b"*", b"ab", &[Number(-1)], NEGATIVE_COUNT),
    (b"*", b"ab", &[Letters(b"2")], STRING_FOR_INTEGER),
    (b"*", b"ab", &[Number(134_217_729)], TOO_LONG),
    (b"*", b"ab", &[Number(i64::MAX)], TOO_LONG),
    (b"*", b"ab", &[Number(i64::MIN)], NEGATIVE_COUNT),
    (b"<", b"a", &[Number(1)], COMPARED_WITH_INTEGER),
    (b"<=", b"a", &[Nothing], COMPARED_WITH_NIL),
    (b">", b"a", &[Number(1)], COMPARED_WITH_INTEGER),
    (b">=", b"a", &[Nothing], COMPARED_WITH_NIL),
    (b"[]", b"abc", &[], GIVEN_0_FOR_1_TO_2),
    (b"[]", b"abc", &[Nothing], NIL_FOR_INTEGER),
    (b"[]", b"abc", &[Bounded(b"a", b"b")], RANGE_FOR_INTEGER),
    (b"[]", b"abc", &[Letters(b"a"), Nothing], STRING_FOR_INTEGER),
    (b"[]", b"abc", &[Number(0), Nothing], NIL_FOR_INTEGER),
    (
        b"[]",
        b"abc",
        &[Between(0, 1, false), Number(1)],
        RANGE_FOR_INTEGER,
    ),
    (b"[]", b"abc", &[Number(i64::MIN)], NOTHING),
    (b"[]", b"abc", &[Number(i64::MAX)], NOTHING),
    (b"[]=", b"abc", &[Number(0)], GIVEN_1_FOR_2_TO_3),
    (
        b"[]=",
        b"abc",
        &[Letters(b"a"), Letters(b"b")],
        STRING_FOR_INTEGER,
    ),
    (b"[]=", b"abc", &[Number(0), Number(1)], GOT_INTEGER),
    (
        b"[]=",
        b"abc",
        &[Number(0), Nothing, Letters(b"b")],
        NIL_FOR_INTEGER,
    ),
    (b"[]=", b"abc", &[Number(0), Number(1), Nothing], GOT_NIL),
    (
        b"[]=",
        b"abc",
        &[Number(0), Number(-1), Letters(b"x")],
        NEGATIVE_COUNT,
    ),
    (
        b"[]=",
        b"abc",
        &[Number(4), Letters(b"x")],
        Raises(CoreClass::IndexError, b"index 4 out of range"),
    ),
    (
        b"[]=",
        b"abc",
        &[Number(-4), Letters(b"x")],
        Raises(CoreClass::IndexError, b"index -4 out of range"),
    ),
    (b"length", b"abc", &[Number(1)], GIVEN_1_FOR_0),
    (b"bytes", b"abc", &[Number(1)], GIVEN_1_FOR_0),
    (b"upcase", b"abc", &[Nothing], GIVEN_1_FOR_0),
    (b"<<", b"abc", &[Number(65)], GOT_INTEGER),
    (b"<<", b"abc", &[], GIVEN_0_FOR_1),
    (b"concat", b"abc", &[Letters(b"d"), Nothing], GOT_NIL),
    (b"replace", b"abc", &[Number(1)], GOT_INTEGER),
    (b"insert", b"abc", &[Number(1)], GIVEN_1_FOR_2),
    (
        b"insert",
        b"abc",
        &[Letters(b"a"), Letters(b"b")],
        STRING_FOR_INTEGER,
    ),
    (b"insert", b"abc", &[Number(0), Number(1)], GOT_INTEGER),
    (
        b"insert",
        b"abc",
        &[Number(4), Letters(b"x")],
        Raises(CoreClass::IndexError, b"index 4 out of range"),
    ),
    (
        b"insert",
        b"abc",
        &[Number(-5), Letters(b"x")],
        Raises(CoreClass::IndexError, b"index -5 out of range"),
    ),
    (b"include?", b"abc", &[Number(97)], GOT_INTEGER),
    (
        b"start_with?",
        b"abc",
        &[Letters(b"a"), Number(1)],
        GOT_INTEGER,
    ),
    (b"end_with?", b"abc", &[Between(1, 2, false)], GOT_RANGE),
    (
        b"index",
        b"abc",
        &[Letters(b"a"), Letters(b"b")],
        STRING_FOR_INTEGER,
    ),
    (b"index", b"abc", &[Number(1)], GOT_INTEGER),
    (b"rindex", b"abc", &[Nothing], GOT_NIL),
    (b"sub", b"abc", &[Letters(b"a")], GIVEN_1_FOR_2),
    (b"sub", b"abc", &[Letters(b"a"), Number(1)], GOT_INTEGER),
    (b"gsub", b"abc", &[Number(1), Letters(b"a")], GOT_INTEGER),
    (b"split", b"abc", &[Number(1)], GOT_INTEGER),
    (b"center", b"abc", &[], GIVEN_0_FOR_1_TO_2),
    (b"center", b"abc", &[Number(9), Letters(b"")], Text(b"abc")),
    (b"ljust", b"abc", &[Number(5), Number(1)], GOT_INTEGER),
    (b"ljust", b"abc", &[Number(268_435_457)], TOO_LONG),
    (b"rjust", b"abc", &[Letters(b"a")], STRING_FOR_INTEGER),
    (b"to_i", b"12", &[Number(1)], BAD_BASE),
    (b"to_i", b"12", &[Number(37)], BAD_BASE),
    (b"to_i", b"9223372036854775808", &[], OVERFLOW),
    (b"to_i", b"-9223372036854775809", &[], OVERFLOW),
    (b"to_sym", b"abc", &[Nothing], GIVEN_1_FOR_0),
    (
        b"ord",
        b"",
        &[],
        Raises(CoreClass::IndexError, b"index 0 out of range"),
    ),
    (b"inspect", b"abc", &[Number(1)], GIVEN_1_FOR_0),
];
