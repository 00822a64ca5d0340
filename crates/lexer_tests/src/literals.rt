use lexer_literals::{
    Delimiters, Escaped, Tail, full_escape, integer, numeral, plain_escape, word_escape,
};
use std::alloc::Global;
use std::process::Abort;
use std::test::Fail;

#[test]
fn scans_integers(rt: HostRuntime) {
    for (text, end, value) in [
        ("0", 1, Some(0)),
        ("12_3 4", 4, Some(123)),
        ("0b1_01", 6, Some(5)),
        ("0B10", 4, Some(2)),
        ("0o17", 4, Some(15)),
        ("017", 3, Some(15)),
        ("0_17", 4, Some(15)),
        ("0d19", 4, Some(19)),
        ("0xFfg", 4, Some(255)),
        ("1..2", 1, Some(1)),
        ("9223372036854775807", 19, Some((1 << 63) - 1)),
        ("9223372036854775808", 19, Some(1 << 63)),
        ("9223372036854775809", 19, None),
        ("0x8000_0000_0000_0000", 21, Some(1 << 63)),
        ("18446744073709551617", 20, None),
    ] {
        let Ok(scanned) = integer(text.as_bytes(), 0) else {
            assert!(rt; false);
            return;
        };
        assert_eq!(rt; scanned.end, end);
        assert_eq!(rt; scanned.value, value);
    }
}

#[test]
fn refuses_malformed_digits(rt: HostRuntime) {
    for (text, at) in [
        ("", 0),
        ("x", 0),
        ("1_", 2),
        ("1__0", 2),
        ("1_a", 2),
        ("0x", 2),
        ("0x_1", 2),
        ("0b2", 2),
        ("0b12", 3),
        ("08", 1),
        ("0_8", 2),
        ("0o", 2),
    ] {
        let scanned = integer(text.as_bytes(), 0);
        assert_eq!(rt; scanned.err().map(|fault| fault.at), Some(at));
    }
    for text in ["1.5_", "1.5__0", "1_.5", "1e5_", "08.5"] {
        assert!(rt; numeral(text.as_bytes(), 0).is_err());
    }
}

#[test]
fn knows_what_stands_behind(rt: HostRuntime) {
    for (text, end, tail) in [
        ("15", 2, Tail::Nothing),
        ("1.5", 3, Tail::Float),
        ("0.5.6", 3, Tail::Float),
        ("1.x", 1, Tail::Nothing),
        ("1e5", 3, Tail::Float),
        ("1.5E-2_0;", 8, Tail::Float),
        ("1e", 1, Tail::Nothing),
        ("1e+", 1, Tail::Nothing),
        ("3r", 2, Tail::Rational),
        ("3r2", 2, Tail::Rational),
        ("1.5r", 4, Tail::Rational),
        ("3i", 2, Tail::Imaginary),
        ("3ri", 3, Tail::Imaginary),
        ("1e5i", 4, Tail::Imaginary),
        ("1e5r", 3, Tail::Float),
        ("1if", 1, Tail::Nothing),
        ("1rescue", 1, Tail::Nothing),
        ("1ri_", 1, Tail::Nothing),
        ("0x1r", 4, Tail::Rational),
        ("0x1.5", 3, Tail::Nothing),
        ("017.5", 3, Tail::Nothing),
    ] {
        let Ok(number) = numeral(text.as_bytes(), 0) else {
            assert!(rt; false);
            return;
        };
        assert_eq!(rt; number.end, end);
        assert_eq!(rt; number.tail, tail);
    }
}

/// What the escape stands for has these bytes.
fn has_bytes(rt: &impl Abort, alloc: Global, escaped: Escaped, bytes: &[u8]) -> Result<(), Fail> {
    let mut found = Vec::new(alloc);
    escaped.push_to(&mut found)?;
    assert!(rt; found.as_slice() == bytes);
    Ok(())
}

#[test]
fn reads_escapes(rt: HostRuntime) -> Result<(), Fail> {
    for (text, end, bytes) in [
        ("n", 1, b"\n".as_slice()),
        ("t", 1, b"\t".as_slice()),
        ("r", 1, b"\r".as_slice()),
        ("a", 1, b"\x07".as_slice()),
        ("b", 1, b"\x08".as_slice()),
        ("e", 1, b"\x1B".as_slice()),
        ("f", 1, b"\x0C".as_slice()),
        ("v", 1, b"\x0B".as_slice()),
        ("s", 1, b" ".as_slice()),
        ("0", 1, b"\0".as_slice()),
        ("q", 1, b"q".as_slice()),
        ("8", 1, b"8".as_slice()),
        ("\"", 1, b"\"".as_slice()),
        ("\n", 1, b"".as_slice()),
        ("7z", 1, b"\x07".as_slice()),
        ("1018", 3, b"A".as_slice()),
        ("1011", 3, b"A".as_slice()),
        ("777", 3, b"\xFF".as_slice()),
        ("x4g", 2, b"\x04".as_slice()),
        ("x411", 3, b"A".as_slice()),
        ("u00e91", 5, b"\xC3\xA9".as_slice()),
        ("u{41}", 5, b"A".as_slice()),
        ("u{1F600}", 8, b"\xF0\x9F\x98\x80".as_slice()),
        ("u{10ffff}", 9, b"\xF4\x8F\xBF\xBF".as_slice()),
        ("ca", 2, b"\x01".as_slice()),
        ("C-a", 3, b"\x01".as_slice()),
        ("c?", 2, b"\x7F".as_slice()),
        ("c\\?", 3, b"\x1F".as_slice()),
        ("c\n", 2, b"\n".as_slice()),
        ("c\\\n", 3, b"\n".as_slice()),
        ("c\\x41", 5, b"\x01".as_slice()),
        ("M-a", 3, b"\xE1".as_slice()),
        ("M-\\n", 4, b"\x8A".as_slice()),
        ("M-\\101", 6, b"\xC1".as_slice()),
        ("M-\\ca", 5, b"\x81".as_slice()),
        ("C-\\M-a", 6, b"\x81".as_slice()),
        ("c\\M-?", 5, b"\x9F".as_slice()),
        ("M-\\C-?", 6, b"\xFF".as_slice()),
    ] {
        let Ok(escape) = full_escape(text.as_bytes(), 0) else {
            assert!(rt; false);
            return Ok(());
        };
        assert_eq!(rt; escape.end, end);
        has_bytes(&rt, rt.alloc(), escape.stands_for, bytes)?;
    }
    for text in [
        "",
        "x",
        "xg",
        "u",
        "u12",
        "u123g",
        "u{}",
        "u{41",
        "u{41 42}",
        "u{0000041}",
        "uD800",
        "uDFFF",
        "u{110000}",
        "c",
        "C",
        "Ca",
        "C-",
        "M",
        "M a",
        "M-",
        "c\u{e9}",
        "c\\u0041",
        "M-\\x",
        "M-\\M-a",
        "c\\C-a",
        "M-\\c\\M-a",
    ] {
        assert!(rt; full_escape(text.as_bytes(), 0).is_err());
    }
    Ok(())
}

#[test]
fn reads_plain_escapes(rt: HostRuntime) -> Result<(), Fail> {
    let quotes = Delimiters {
        open: b'\'',
        close: b'\'',
    };
    let brackets = Delimiters {
        open: b'(',
        close: b')',
    };
    for (text, delimiters, end, byte) in [
        ("'", quotes, 1, b'\''),
        ("\\", quotes, 1, b'\\'),
        ("n", quotes, 0, b'\\'),
        ("", quotes, 0, b'\\'),
        ("(", brackets, 1, b'('),
        (")", brackets, 1, b')'),
        ("'", brackets, 0, b'\\'),
        (" ", brackets, 0, b'\\'),
    ] {
        let escape = plain_escape(text.as_bytes(), 0, delimiters);
        assert_eq!(rt; escape.end, end);
        has_bytes(&rt, rt.alloc(), escape.stands_for, &[byte])?;
    }
    for (text, end, byte) in [
        (" ", 1, b' '),
        ("\n", 1, b'\n'),
        (")", 1, b')'),
        ("n", 0, b'\\'),
    ] {
        let escape = word_escape(text.as_bytes(), 0, brackets);
        assert_eq!(rt; escape.end, end);
        has_bytes(&rt, rt.alloc(), escape.stands_for, &[byte])?;
    }
    Ok(())
}
