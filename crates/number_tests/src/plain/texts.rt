use rb_integer::{IntegerFailure, numeral};

/// `x`, `base`, `x.to_s(base)`.
static TEXTS: [(i64, i64, &[u8]); 44] = [
    (0, 2, b"0"),
    (-1, 2, b"-1"),
    (35, 2, b"100011"),
    (-36, 2, b"-100100"),
    (
        i64::MAX,
        2,
        b"111111111111111111111111111111111111111111111111111111111111111",
    ),
    (
        i64::MIN,
        2,
        b"-1000000000000000000000000000000000000000000000000000000000000000",
    ),
    (0, 3, b"0"),
    (-1, 3, b"-1"),
    (35, 3, b"1022"),
    (-36, 3, b"-1100"),
    (i64::MAX, 3, b"2021110011022210012102010021220101220221"),
    (i64::MIN, 3, b"-2021110011022210012102010021220101220222"),
    (0, 8, b"0"),
    (-1, 8, b"-1"),
    (35, 8, b"43"),
    (-36, 8, b"-44"),
    (i64::MAX, 8, b"777777777777777777777"),
    (i64::MIN, 8, b"-1000000000000000000000"),
    (0, 10, b"0"),
    (-1, 10, b"-1"),
    (35, 10, b"35"),
    (-36, 10, b"-36"),
    (i64::MAX, 10, b"9223372036854775807"),
    (i64::MIN, 10, b"-9223372036854775808"),
    (0, 16, b"0"),
    (-1, 16, b"-1"),
    (35, 16, b"23"),
    (-36, 16, b"-24"),
    (i64::MAX, 16, b"7fffffffffffffff"),
    (i64::MIN, 16, b"-8000000000000000"),
    (0, 36, b"0"),
    (-1, 36, b"-1"),
    (35, 36, b"z"),
    (-36, 36, b"-10"),
    (i64::MAX, 36, b"1y2p0ij32e8e7"),
    (i64::MIN, 36, b"-1y2p0ij32e8e8"),
    (123456789, 7, b"3026236221"),
    (-123456789, 20, b"-1ibc1j9"),
    (1295, 36, b"zz"),
    (-10, 10, b"-10"),
    (99, 10, b"99"),
    (100, 10, b"100"),
    (7, 2, b"111"),
    (-8, 2, b"-1000"),
];

#[test]
fn texts_in_bases(rt: HostRuntime) {
    for (x, base, wanted) in TEXTS {
        match numeral::to_text(x, base) {
            Ok(text) => assert_eq!(rt; text.as_slice(), wanted, "{x}.to_s({base})"),
            Err(_) => assert!(rt; false, "{x}.to_s({base})"),
        }
        if base == 10 {
            assert_eq!(rt; numeral::decimal(x).as_slice(), wanted, "{x}.to_s");
        }
    }
    for base in [1, 0, 37, -10, i64::MIN, i64::MAX, 266] {
        match numeral::to_text(5, base) {
            Ok(_) => assert!(rt; false, "{base} is a base"),
            Err(failure) => assert_eq!(rt; failure, IntegerFailure::BadBase),
        }
    }
}

#[test]
fn characters(rt: HostRuntime) {
    for (number, byte) in [(0, 0), (65, b'A'), (127, 127), (128, 128), (255, 255)] {
        assert_eq!(rt; numeral::character(number), Ok(byte));
    }
    for number in [-1, 256, 321, i64::MIN, i64::MAX] {
        assert_eq!(rt;
            numeral::character(number),
            Err(IntegerFailure::OutsideCharacters(number))
        );
    }
}

/// A failure, its class and its message.
static FAILURES: [(IntegerFailure, &[u8], &[u8]); 8] = [
    (IntegerFailure::Overflow, b"RangeError", b"integer overflow"),
    (
        IntegerFailure::DividedByZero,
        b"ZeroDivisionError",
        b"divided by 0",
    ),
    (
        IntegerFailure::NegativeExponent,
        b"ArgumentError",
        b"negative exponent",
    ),
    (
        IntegerFailure::NegativeCount,
        b"ArgumentError",
        b"negative count",
    ),
    (IntegerFailure::BadBase, b"ArgumentError", b"bad base"),
    (
        IntegerFailure::OutsideCharacters(256),
        b"RangeError",
        b"256 out of char range",
    ),
    (
        IntegerFailure::OutsideCharacters(i64::MIN),
        b"RangeError",
        b"-9223372036854775808 out of char range",
    ),
    (
        IntegerFailure::BadEnds,
        b"ArgumentError",
        b"bad value for range",
    ),
];

#[test]
fn classes_and_messages_of_failures(rt: HostRuntime) {
    for (failure, class, message) in FAILURES {
        assert_eq!(rt; failure.class().name(), class);
        assert_eq!(rt; failure.message().as_slice(), message);
    }
}
