use super::*;

const NEGATIVE_COUNT: Wanted = Raises(CoreClass::ArgumentError, b"negative count");

const BAD_RANGE: Wanted = Raises(CoreClass::ArgumentError, b"bad value for range");

const GOT_NIL_FOR_RANGE: Wanted = Raises(CoreClass::TypeError, b"expected Range, got NilClass");

const GOT_INTEGER_FOR_RANGE: Wanted = Raises(CoreClass::TypeError, b"expected Range, got Integer");

const GIVEN_1_FOR_2_TO_3: Wanted = Raises(
    CoreClass::ArgumentError,
    b"wrong number of arguments (given 1, expected 2..3)",
);

const GIVEN_0_FOR_2_TO_3: Wanted = Raises(
    CoreClass::ArgumentError,
    b"wrong number of arguments (given 0, expected 2..3)",
);

const GOT_INTEGER_FOR_CLASS: Wanted = Raises(CoreClass::TypeError, b"expected Class, got Integer");

const GOT_MODULE_FOR_CLASS: Wanted = Raises(CoreClass::TypeError, b"expected Class, got Module");

/// Ends and items.
static ENDS: [Case; 27] = [
    (b"first", ONE_TO_THREE, &[], Gives(Int(1))),
    (b"first", A_TO_C, &[], Text(b"a")),
    (b"first", ONE_TO_THREE, &[Int(2)], Integers(&[1, 2])),
    (b"first", ONE_TO_THREE, &[Int(9)], Integers(&[1, 2, 3])),
    (b"first", ONE_TO_TWO, &[Int(9)], Integers(&[1, 2])),
    (b"first", A_TO_C, &[Int(2)], Texts(&[b"a", b"b"])),
    (b"first", A_TO_B, &[Int(9)], Texts(&[b"a", b"b"])),
    (b"first", A_TO_C, &[Int(0)], Integers(&[])),
    (b"first", DOWNWARD, &[Int(3)], Integers(&[])),
    (b"first", ONE_TO_THREE, &[Int(-1)], NEGATIVE_COUNT),
    (b"first", A_TO_C, &[Int(-1)], NEGATIVE_COUNT),
    (b"first", ONE_TO_THREE, &[Nil], GOT_NIL),
    (
        b"first",
        ONE_TO_THREE,
        &[Int(1), Int(2)],
        GIVEN_2_FOR_0_TO_1,
    ),
    (b"begin", A_TO_C, &[], Text(b"a")),
    (b"last", ONE_TO_TWO, &[], Gives(Int(3))),
    (b"end", A_TO_B, &[], Text(b"c")),
    (b"last", ONE_TO_THREE, &[Int(1)], GIVEN_1_FOR_0),
    (b"size", ONE_TO_THREE, &[], Gives(Int(3))),
    (b"size", ONE_TO_TWO, &[], Gives(Int(2))),
    (b"size", DOWNWARD, &[], Gives(Int(0))),
    (b"size", A_TO_C, &[], Gives(Int(3))),
    (b"size", ALL_INTEGERS, &[], OVERFLOW),
    (b"exclude_end?", ONE_TO_TWO, &[], YES),
    (b"exclude_end?", A_TO_C, &[], NO),
    (b"exclude_end?", A_TO_B, &[], YES),
    (b"size", Nil, &[], GOT_NIL_FOR_RANGE),
    (b"size", Int(5), &[], GOT_INTEGER_FOR_RANGE),
];

/// What is an item, and which Ranges are equal.
static MEMBERS: [Case; 15] = [
    (b"include?", ONE_TO_THREE, &[Int(2)], YES),
    (b"include?", ONE_TO_TWO, &[Int(3)], NO),
    (b"member?", A_TO_C, &[LETTER_C], YES),
    (b"===", A_TO_B, &[LETTER_C], NO),
    (b"include?", A_TO_C, &[TWO_LETTERS], NO),
    (b"include?", A_TO_C, &[NO_LETTER], NO),
    (b"===", ONE_TO_THREE, &[LETTER_A], NO),
    (b"===", A_TO_C, &[Nil], NO),
    (b"include?", ONE_TO_THREE, &[], GIVEN_0_FOR_1),
    (b"==", ONE_TO_THREE, &[ONE_TO_THREE], YES),
    (b"==", ONE_TO_THREE, &[ONE_TO_TWO], NO),
    (b"==", ONE_TO_THREE, &[Int(1)], NO),
    (b"==", ONE_TO_THREE, &[A_TO_C], NO),
    (b"==", A_TO_C, &[A_TO_B], NO),
    (b"==", A_TO_C, &[LETTER_A], NO),
];

/// Strings of Ranges.
static WRITING: [Case; 7] = [
    (b"to_s", ONE_TO_THREE, &[], Text(b"1..3")),
    (b"to_s", A_TO_B, &[], Text(b"a...c")),
    (b"inspect", ONE_TO_TWO, &[], Text(b"1...3")),
    (b"inspect", A_TO_C, &[], Text(b"\"a\"..\"c\"")),
    (b"inspect", BYTES, &[], Text(b"\"\\n\"..\"\\x80\"")),
    (b"inspect", FROM_QUOTE, &[], Text(b"\"\\\"\"..\"a\"")),
    (b"to_s", ONE_TO_THREE, &[Int(1)], GIVEN_1_FOR_0),
];

/// Ends that make no Range.
static MAKING: [Case; 9] = [
    (b"new", RANGE, &[Int(1), LETTER_A], BAD_RANGE),
    (b"new", RANGE, &[TWO_LETTERS, LETTER_C], BAD_RANGE),
    (b"new", RANGE, &[NO_LETTER, LETTER_A], BAD_RANGE),
    (b"new", RANGE, &[Nil, Int(1)], BAD_RANGE),
    (b"new", RANGE, &[ONE_TO_THREE, Int(1)], BAD_RANGE),
    (b"new", RANGE, &[Int(1)], GIVEN_1_FOR_2_TO_3),
    (b"new", RANGE, &[], GIVEN_0_FOR_2_TO_3),
    (b"new", Int(5), &[Int(1), Int(2)], GOT_INTEGER_FOR_CLASS),
    (b"new", KERNEL, &[Int(1), Int(2)], GOT_MODULE_FOR_CLASS),
];

#[test]
fn ranges_have_ends(rt: HostRuntime) -> Result<(), AllocError> {
    let wrong = first_wrong(rt.alloc(), CoreClass::Range, &ENDS)?;
    assert_eq!(rt; wrong, None);
    Ok(())
}

#[test]
fn ranges_have_members(rt: HostRuntime) -> Result<(), AllocError> {
    let wrong = first_wrong(rt.alloc(), CoreClass::Range, &MEMBERS)?;
    assert_eq!(rt; wrong, None);
    Ok(())
}

#[test]
fn ranges_are_written(rt: HostRuntime) -> Result<(), AllocError> {
    let wrong = first_wrong(rt.alloc(), CoreClass::Range, &WRITING)?;
    assert_eq!(rt; wrong, None);
    Ok(())
}

#[test]
fn ranges_are_made(rt: HostRuntime) -> Result<(), AllocError> {
    let wrong = first_wrong(rt.alloc(), CoreClass::Range, &MAKING)?;
    assert_eq!(rt; wrong, None);
    Ok(())
}
