use crate::outcomes::{fails, gives, is_text};
use rb_string::editing::{concatenated, inserted, repeated, replaced};
use rb_string::inspection::inspected;
use rb_string::letters::{capitalized, downcased, reversed, swapped, upcased};
use rb_string::padding::{centered, left_justified, right_justified};
use rb_string::stripping::{chomped, chopped, left_stripped, right_stripped, stripped};
use rb_string::{GREATEST_LENGTH, StringFailure};

/// `text`, its bytes in reverse, and as `upcase`, `downcase`, `capitalize` and `swapcase` give it.
static LETTERS: [(
    &'static [u8],
    &'static [u8],
    &'static [u8],
    &'static [u8],
    &'static [u8],
    &'static [u8],
); 8] = [
    (b"", b"", b"", b"", b"", b""),
    (b"a", b"a", b"A", b"a", b"A", b"A"),
    (b"aBc", b"cBa", b"ABC", b"abc", b"Abc", b"AbC"),
    (
        b"hELLO wORLD",
        b"DLROw OLLEh",
        b"HELLO WORLD",
        b"hello world",
        b"Hello world",
        b"Hello World",
    ),
    (b"1a", b"a1", b"1A", b"1a", b"1a", b"1A"),
    (
        b"\xc3\xa9z",
        b"z\xa9\xc3",
        b"\xc3\xa9Z",
        b"\xc3\xa9z",
        b"\xc3\xa9z",
        b"\xc3\xa9Z",
    ),
    (
        b"@[`{AZaz",
        b"zaZA{`[@",
        b"@[`{AZAZ",
        b"@[`{azaz",
        b"@[`{azaz",
        b"@[`{azAZ",
    ),
    (b"a\nb", b"b\na", b"A\nB", b"a\nb", b"A\nb", b"A\nB"),
];

/// `text`, and as `lstrip`, `rstrip`, `strip`, `chomp` and `chop` give it.
static ENDS: [(
    &'static [u8],
    &'static [u8],
    &'static [u8],
    &'static [u8],
    &'static [u8],
    &'static [u8],
); 16] = [
    (b"", b"", b"", b"", b"", b""),
    (b" a ", b"a ", b" a", b"a", b" a ", b" a"),
    (
        b"\t\n\x0b\x0c\r a\0",
        b"a\0",
        b"\t\n\x0b\x0c\r a",
        b"a",
        b"\t\n\x0b\x0c\r a\0",
        b"\t\n\x0b\x0c\r a",
    ),
    (b"a b", b"a b", b"a b", b"a b", b"a b", b"a "),
    (b"  ", b"", b"", b"", b"  ", b" "),
    (b"\0a", b"a", b"\0a", b"a", b"\0a", b"\0"),
    (b"a\n", b"a\n", b"a", b"a", b"a", b"a"),
    (b"a\r\n", b"a\r\n", b"a", b"a", b"a", b"a"),
    (b"a\r", b"a\r", b"a", b"a", b"a", b"a"),
    (b"a\n\n", b"a\n\n", b"a", b"a", b"a\n", b"a\n"),
    (b"a\n\r", b"a\n\r", b"a", b"a", b"a\n", b"a\n"),
    (b"\n", b"", b"", b"", b"", b""),
    (b"\r\n", b"", b"", b"", b"", b""),
    (b"ab", b"ab", b"ab", b"ab", b"ab", b"a"),
    (
        b"\x08a\x0e",
        b"\x08a\x0e",
        b"\x08a\x0e",
        b"\x08a\x0e",
        b"\x08a\x0e",
        b"\x08a",
    ),
    (
        b" \0 a \0 ",
        b"a \0 ",
        b" \0 a",
        b"a",
        b" \0 a \0 ",
        b" \0 a \0",
    ),
];

/// `text`, `count`, `text * count`.
static COPIES: [(&'static [u8], i64, &'static [u8]); 4] = [
    (b"ab", 0, b""),
    (b"ab", 1, b"ab"),
    (b"ab", 3, b"ababab"),
    (b"", 4, b""),
];

/// `text`, `index`, `count`, `new`, and what `text[index, count] = new` makes of it.
static REPLACED: [(&'static [u8], i64, i64, &'static [u8], &'static [u8]); 10] = [
    (b"hello", 1, 3, b"XY", b"hXYo"),
    (b"hello", 0, 0, b"XY", b"XYhello"),
    (b"hello", 5, 0, b"XY", b"helloXY"),
    (b"hello", 2, 99, b"XY", b"heXY"),
    (b"hello", -2, 1, b"XY", b"helXYo"),
    (b"hello", 0, 1, b"", b"ello"),
    (b"hello", -5, 1, b"J", b"Jello"),
    (b"hello", 4, 1, b"long", b"helllong"),
    (b"hello", 5, 1, b"!", b"hello!"),
    (b"", 0, 1, b"a", b"a"),
];

/// `text`, `index`, and what `text.insert(index, "X")` makes of it.
static INSERTED: [(&'static [u8], i64, &'static [u8]); 8] = [
    (b"abc", 0, b"Xabc"),
    (b"abc", 1, b"aXbc"),
    (b"abc", 3, b"abcX"),
    (b"abc", -1, b"abcX"),
    (b"abc", -2, b"abXc"),
    (b"abc", -4, b"Xabc"),
    (b"", 0, b"X"),
    (b"", -1, b"X"),
];

/// `text`, `width`, `pad`, and as `center`, `ljust` and `rjust` give it.
static PADDED: [(
    &'static [u8],
    i64,
    &'static [u8],
    &'static [u8],
    &'static [u8],
    &'static [u8],
); 9] = [
    (b"ab", 0, b" ", b"ab", b"ab", b"ab"),
    (b"ab", 2, b" ", b"ab", b"ab", b"ab"),
    (b"ab", 5, b" ", b" ab  ", b"ab   ", b"   ab"),
    (b"ab", 6, b" ", b"  ab  ", b"ab    ", b"    ab"),
    (b"ab", -1, b" ", b"ab", b"ab", b"ab"),
    (b"ab", 7, b"*", b"**ab***", b"ab*****", b"*****ab"),
    (b"ab", 7, b"xyz", b"xyabxyz", b"abxyzxy", b"xyzxyab"),
    (b"ab", 3, b"xyz", b"abx", b"abx", b"xab"),
    (b"", 3, b"xy", b"xxy", b"xyx", b"xyx"),
];

/// `text`, and its `inspect`.
static INSPECTED: [(&'static [u8], &'static [u8]); 17] = [
    (b"", b"\"\""),
    (b"a", b"\"a\""),
    (b"\"", b"\"\\\"\""),
    (b"\\", b"\"\\\\\""),
    (
        b"\n\t\r\x1b\x07\x08\x0b\x0c",
        b"\"\\n\\t\\r\\e\\a\\b\\v\\f\"",
    ),
    (b"\0", b"\"\\x00\""),
    (b"\x7f", b"\"\\x7F\""),
    (b"\x80\xff", b"\"\\x80\\xFF\""),
    (b"#", b"\"#\""),
    (b"#a", b"\"#a\""),
    (b"'", b"\"'\""),
    (b"#{a", b"\"\\#{a\""),
    (b"#$a", b"\"\\#$a\""),
    (b"#@a", b"\"\\#@a\""),
    (b"#$", b"\"\\#$\""),
    (b"##", b"\"##\""),
    (b" ~", b"\" ~\""),
];

#[test]
fn letters(rt: HostRuntime) {
    let alloc = rt.alloc();
    for (text, reverse, up, down, capital, swap) in LETTERS {
        assert!(rt; is_text(reversed(alloc, text), reverse), "{text:?}");
        assert!(rt; is_text(upcased(alloc, text), up), "{text:?}");
        assert!(rt; is_text(downcased(alloc, text), down), "{text:?}");
        assert!(rt; is_text(capitalized(alloc, text), capital), "{text:?}");
        assert!(rt; is_text(swapped(alloc, text), swap), "{text:?}");
    }
}

#[test]
fn ends(rt: HostRuntime) {
    for (text, left, right, both, chomp, chop) in ENDS {
        assert!(rt; left_stripped(text) == left, "{text:?}");
        assert!(rt; right_stripped(text) == right, "{text:?}");
        assert!(rt; stripped(text) == both, "{text:?}");
        assert!(rt; chomped(text) == chomp, "{text:?}");
        assert!(rt; chopped(text) == chop, "{text:?}");
    }
}

#[test]
fn texts_put_together(rt: HostRuntime) {
    let alloc = rt.alloc();
    assert!(rt; gives(concatenated(alloc, b"a", b"bc"), b"abc"));
    for (text, count, wanted) in COPIES {
        assert!(rt; gives(repeated(alloc, text, count), wanted), "{text:?}");
    }
    for (text, index, count, new, wanted) in REPLACED {
        assert!(rt;
            gives(replaced(alloc, text, index, count, new), wanted),
            "{text:?} {index}"
        );
    }
    for (text, index, wanted) in INSERTED {
        assert!(rt;
            gives(inserted(alloc, text, index, b"X"), wanted),
            "{text:?} {index}"
        );
    }
}

#[test]
fn padding(rt: HostRuntime) {
    let alloc = rt.alloc();
    for (text, width, pad, center, left, right) in PADDED {
        assert!(rt;
            gives(centered(alloc, text, width, pad), center),
            "{text:?} {width}"
        );
        assert!(rt;
            gives(left_justified(alloc, text, width, pad), left),
            "{text:?} {width}"
        );
        assert!(rt;
            gives(right_justified(alloc, text, width, pad), right),
            "{text:?} {width}"
        );
    }
    // Not Ruby's: an empty pad gives a copy.
    assert!(rt; gives(centered(alloc, b"ab", i64::MAX, b""), b"ab"));
}

#[test]
fn inspection(rt: HostRuntime) {
    let alloc = rt.alloc();
    for (text, wanted) in INSPECTED {
        assert!(rt; gives(inspected(alloc, text), wanted), "{text:?}");
    }
}

#[test]
fn failures(rt: HostRuntime) {
    let alloc = rt.alloc();
    assert!(rt; fails(repeated(alloc, b"ab", -1), StringFailure::NegativeCount));
    assert!(rt; fails(repeated(alloc, b"ab", i64::MAX), StringFailure::TooLong));
    assert!(rt; fails(repeated(alloc, b"ab", 134_217_729), StringFailure::TooLong));
    assert!(rt;
        fails(
            replaced(alloc, b"hello", 1, -1, b"X"),
            StringFailure::NegativeCount
        )
    );
    assert!(rt;
        fails(
            replaced(alloc, b"hello", 6, 1, b"!"),
            StringFailure::OutsideText(6)
        )
    );
    assert!(rt;
        fails(
            replaced(alloc, b"hello", -6, 1, b"!"),
            StringFailure::OutsideText(-6)
        )
    );
    assert!(rt;
        fails(
            inserted(alloc, b"abc", 4, b"X"),
            StringFailure::OutsideText(4)
        )
    );
    assert!(rt;
        fails(
            inserted(alloc, b"abc", -5, b"X"),
            StringFailure::OutsideText(-5)
        )
    );
    assert!(rt;
        fails(
            left_justified(alloc, b"ab", i64::MAX, b" "),
            StringFailure::TooLong
        )
    );
    assert!(rt;
        fails(
            centered(alloc, b"ab", 268_435_457, b" "),
            StringFailure::TooLong
        )
    );
    assert!(rt; GREATEST_LENGTH == 268_435_456);
}

#[test]
fn messages(rt: HostRuntime) {
    let failure = StringFailure::OutsideText(-6);
    assert!(rt; failure.class().name() == b"IndexError".as_slice());
    assert!(rt; failure.message().as_slice() == b"index -6 out of range".as_slice());
    assert!(rt; StringFailure::TooLong.message().as_slice() == b"string too long".as_slice());
}
