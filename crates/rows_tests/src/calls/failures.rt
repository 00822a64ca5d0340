//! Calls of methods of Array, Hash and Range that fail.
use super::Case;

const NEGATIVE_COUNT: &[u8] = b"ArgumentError: negative count";

const COMPARISON_FAILED: &[u8] = b"ArgumentError: comparison failed";

const INTEGER_FOR_ARRAY: &[u8] = b"TypeError: expected Array, got Integer";

/// What the library says of failures.
pub(super) static FAILURES: [Case; 20] = [
    (
        b"[1]",
        b"[]",
        b"'a'",
        b"TypeError: expected Integer, got String",
        b"[1]",
    ),
    (
        b"[1]",
        b"[]",
        b"('a' 'b')",
        b"TypeError: expected Integer, got Range",
        b"[1]",
    ),
    (
        b"[1]",
        b"[]",
        b"",
        b"ArgumentError: wrong number of arguments (given 0, expected 1..2)",
        b"[1]",
    ),
    (
        b"[1]",
        b"[]=",
        b"-2 5",
        b"IndexError: index -2 out of range",
        b"[1]",
    ),
    (b"[1]", b"[]=", b"0 -1 []", NEGATIVE_COUNT, b"[1]"),
    (b"[1]", b"[]=", b"0 1 5", INTEGER_FOR_ARRAY, b"[1]"),
    (
        b"[1]",
        b"insert",
        b"-3 5",
        b"IndexError: index -3 out of range",
        b"[1]",
    ),
    (
        b"[1]",
        b"insert",
        b"1",
        b"ArgumentError: wrong number of arguments (given 1, expected 2+)",
        b"[1]",
    ),
    (b"[1]", b"first", b"-1", NEGATIVE_COUNT, b"[1]"),
    (
        b"[1]",
        b"take",
        b"n",
        b"TypeError: expected Integer, got NilClass",
        b"[1]",
    ),
    (b"[1]", b"+", b"2", INTEGER_FOR_ARRAY, b"[1]"),
    (b"[1]", b"zip", b"2", INTEGER_FOR_ARRAY, b"[1]"),
    (
        b"[[1] [2 3]]",
        b"transpose",
        b"",
        b"ArgumentError: too few items",
        b"[[1] [2 3]]",
    ),
    (b"[1]", b"transpose", b"", INTEGER_FOR_ARRAY, b"[1]"),
    (b"[1 'a']", b"sort", b"", COMPARISON_FAILED, b"[1 'a']"),
    (b"[n 1]", b"max", b"", COMPARISON_FAILED, b"[n 1]"),
    (
        b"[[1] ['a']]",
        b"sort",
        b"",
        COMPARISON_FAILED,
        b"[[1] ['a']]",
    ),
    (
        b"{1 2}",
        b"merge",
        b"1",
        b"TypeError: expected Hash, got Integer",
        b"{1 2}",
    ),
    (
        b"{1 2}",
        b"store",
        b"1",
        b"ArgumentError: wrong number of arguments (given 1, expected 2)",
        b"{1 2}",
    ),
    (b"(1 3)", b"take", b"-1", NEGATIVE_COUNT, b"(1 3)"),
];
