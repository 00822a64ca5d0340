use crate::outcomes::{are_parts, gives, is_same_option};
use rb_base::List;
use rb_string::comparison::{is_equal, order};
use rb_string::numeral::{ordinal, to_integer};
use rb_string::searching::{ends_with, includes, index, last_index, starts_with};
use rb_string::slicing::{byte_at, part, range_part};
use rb_string::splitting::{characters, lines, split, words};
use rb_string::substitution::{substituted, substituted_everywhere};
use rb_string::{Part, StringFailure};
use std::alloc::AllocError;

/// `text`, `other`, `text <=> other`.
static ORDERS: [(&'static [u8], &'static [u8], i64); 18] = [
    (b"", b"", 0),
    (b"", b"b", -1),
    (b"", b"\xff", -1),
    (b"a", b"", 1),
    (b"a", b"b", -1),
    (b"a", b"\xff", -1),
    (b"b", b"", 1),
    (b"b", b"b", 0),
    (b"b", b"\xff", -1),
    (b"ba", b"", 1),
    (b"ba", b"b", 1),
    (b"ba", b"\xff", -1),
    (b"\xff", b"", 1),
    (b"\xff", b"b", 1),
    (b"\xff", b"\xff", 0),
    (b"\x7f", b"", 1),
    (b"\x7f", b"b", 1),
    (b"\x7f", b"\xff", -1),
];

/// `index`, `"hello"[index]`.
static BYTES: [(i64, Option<u8>); 8] = [
    (0, Some(b'h')),
    (1, Some(b'e')),
    (4, Some(b'o')),
    (-1, Some(b'o')),
    (-5, Some(b'h')),
    (5, None),
    (-6, None),
    (99, None),
];

/// `index`, `count`, `"hello"[index, count]`.
static SLICES: [(i64, i64, Option<&'static [u8]>); 8] = [
    (0, 2, Some(b"he")),
    (1, 0, Some(b"")),
    (3, 9, Some(b"lo")),
    (5, 1, Some(b"")),
    (6, 1, None),
    (-3, 2, Some(b"ll")),
    (-6, 2, None),
    (2, -1, None),
];

/// `first`, `last`, `"hello"[first..last]`, `"hello"[first...last]`.
static RANGES: [(i64, i64, Option<&'static [u8]>, Option<&'static [u8]>); 12] = [
    (1, 3, Some(b"ell"), Some(b"el")),
    (0, -1, Some(b"hello"), Some(b"hell")),
    (-3, -2, Some(b"ll"), Some(b"l")),
    (3, 1, Some(b""), Some(b"")),
    (5, 6, Some(b""), Some(b"")),
    (6, 7, None, None),
    (-9, 2, None, None),
    (2, 99, Some(b"llo"), Some(b"llo")),
    (0, -6, Some(b""), Some(b"")),
    (0, -7, Some(b""), Some(b"")),
    (-5, -9, Some(b""), Some(b"")),
    (0, 9223372036854775806, Some(b"hello"), Some(b"hello")),
];

/// `other`; whether `"hello"` includes it, begins and ends with it; its first place and its last one.
static PLACES: [(
    &'static [u8],
    bool,
    bool,
    bool,
    Option<usize>,
    Option<usize>,
); 9] = [
    (b"", true, true, true, Some(0), Some(5)),
    (b"h", true, true, false, Some(0), Some(0)),
    (b"l", true, false, false, Some(2), Some(3)),
    (b"lo", true, false, true, Some(3), Some(3)),
    (b"x", false, false, false, None, None),
    (b"hello", true, true, true, Some(0), Some(0)),
    (b"lol", false, false, false, None, None),
    (b"hello there", false, false, false, None, None),
    (b"e", true, false, false, Some(1), Some(1)),
];

/// `other`, `from`, `"hello".index(other, from)`.
static INDEXES: [(&'static [u8], i64, Option<usize>); 13] = [
    (b"l", 0, Some(2)),
    (b"l", 2, Some(2)),
    (b"l", 3, Some(3)),
    (b"l", 4, None),
    (b"l", 6, None),
    (b"l", -1, None),
    (b"l", -2, Some(3)),
    (b"l", -9, None),
    (b"", 0, Some(0)),
    (b"", 5, Some(5)),
    (b"", 6, None),
    (b"", -5, Some(0)),
    (b"", -6, None),
];

/// `text`, `pattern`, `new`, `text.sub(pattern, new)`, `text.gsub(pattern, new)`.
static SUBSTITUTED: [(
    &'static [u8],
    &'static [u8],
    &'static [u8],
    &'static [u8],
    &'static [u8],
); 21] = [
    (b"hello", b"l", b"", b"helo", b"heo"),
    (b"hello", b"l", b"long", b"helonglo", b"helonglongo"),
    (b"hello", b"lo", b"L", b"helL", b"helL"),
    (b"hello", b"x", b"L", b"hello", b"hello"),
    (b"hello", b"", b"L", b"Lhello", b"LhLeLlLlLoL"),
    (b"hello", b"hello", b"L", b"L", b"L"),
    (b"hello", b"ll", b"--", b"he--o", b"he--o"),
    (b"aaa", b"aa", b"b", b"ba", b"ba"),
    (b"aaaa", b"aa", b"b", b"baa", b"bb"),
    (b"", b"", b"x", b"x", b"x"),
    (b"", b"a", b"x", b"", b""),
    (b"hello", b"l", b"ll", b"helllo", b"hellllo"),
    (b"hello", b"l", b"<\\0\\&>", b"he<ll>lo", b"he<ll><ll>o"),
    (b"hello", b"l", b"\\`", b"hehelo", b"hehehelo"),
    (b"hello", b"l", b"\\'", b"helolo", b"helooo"),
    (b"hello", b"l", b"\\\\", b"he\\lo", b"he\\\\o"),
    (b"hello", b"l", b"\\1\\9", b"helo", b"heo"),
    (b"hello", b"l", b"\\z", b"he\\zlo", b"he\\z\\zo"),
    (b"hello", b"l", b"a\\", b"hea\\lo", b"hea\\a\\o"),
    (b"ab", b"", b"\\'", b"abab", b"ababb"),
    (b"hello", b"l", b"x\\\\\\&y", b"hex\\lylo", b"hex\\lyx\\lyo"),
];

/// `text`, `separator`, `text.split(separator)`.
static SPLITS: [(&'static [u8], &'static [u8], &'static [&'static [u8]]); 18] = [
    (b"", b",", &[]),
    (b"a b", b" ", &[b"a", b"b"]),
    (b"  a  b ", b" ", &[b"a", b"b"]),
    (b"a\tb\nc", b" ", &[b"a", b"b", b"c"]),
    (b"a", b" ", &[b"a"]),
    (b"\0a\0b", b" ", &[b"\0a\0b"]),
    (b"a,b", b",", &[b"a", b"b"]),
    (b",a,,b,,", b",", &[b"", b"a", b"", b"b"]),
    (b",", b",", &[]),
    (b"a--b--", b"--", &[b"a", b"b"]),
    (b"--", b"--", &[]),
    (b"a-b", b"--", &[b"a-b"]),
    (b"", b"", &[]),
    (b"abc", b"", &[b"a", b"b", b"c"]),
    (b"a b", b"  ", &[b"a b"]),
    (b"aaa", b"aa", &[b"", b"a"]),
    (b"abab", b"ab", &[]),
    (b"a\x0bb\x0cc\rd ", b" ", &[b"a", b"b", b"c", b"d"]),
];

/// `text`, `text.lines`, `text.chars`.
static LINES: [(
    &'static [u8],
    &'static [&'static [u8]],
    &'static [&'static [u8]],
); 7] = [
    (b"", &[], &[]),
    (b"a", &[b"a"], &[b"a"]),
    (b"a\n", &[b"a\n"], &[b"a", b"\n"]),
    (b"a\nb", &[b"a\n", b"b"], &[b"a", b"\n", b"b"]),
    (
        b"a\n\nb\n",
        &[b"a\n", b"\n", b"b\n"],
        &[b"a", b"\n", b"\n", b"b", b"\n"],
    ),
    (b"\n", &[b"\n"], &[b"\n"]),
    (b"a\r\nb", &[b"a\r\n", b"b"], &[b"a", b"\r", b"\n", b"b"]),
];

/// `text`, `base`, `text.to_i(base)`.
static NUMBERS: [(&'static [u8], i64, i64); 44] = [
    (b"", 10, 0),
    (b"0", 10, 0),
    (b"12", 10, 12),
    (b"-12", 10, -12),
    (b"+12", 10, 12),
    (b"12abc", 10, 12),
    (b"abc", 10, 0),
    (b" 12", 10, 12),
    (b"\n\t-5", 10, -5),
    (b"1_000", 10, 1000),
    (b"1__0", 10, 1),
    (b"_1", 10, 0),
    (b"1_", 10, 1),
    (b"- 5", 10, 0),
    (b"--5", 10, 0),
    (b"0x1A", 10, 0),
    (b"0b11", 10, 0),
    (b"007", 10, 7),
    (b"9223372036854775807", 10, 9223372036854775807),
    (b"-9223372036854775808", 10, i64::MIN),
    (b"\0 12", 10, 0),
    (b"101", 2, 5),
    (b"0b101", 2, 5),
    (b"102", 2, 2),
    (b"2", 2, 0),
    (b"17", 8, 15),
    (b"0o17", 8, 15),
    (b"017", 8, 15),
    (b"0_17", 8, 15),
    (b"0o_17", 8, 0),
    (b"8", 8, 0),
    (b"ff", 16, 255),
    (b"FF", 16, 255),
    (b"0xFf", 16, 255),
    (b"-0x1f", 16, -31),
    (b"g", 16, 0),
    (b"0x", 16, 0),
    (b"00x1", 16, 0),
    (b"z", 36, 35),
    (b"Zz", 36, 1295),
    (b"_", 36, 0),
    (b"0X1f", 16, 31),
    (b"0B1", 2, 1),
    (b"1_a", 16, 26),
];

/// Whether a call gave the parts with those texts.
fn splits(text: &[u8], made: Result<List<Part>, AllocError>, wanted: &[&[u8]]) -> bool {
    match made {
        Ok(parts) => are_parts(text, parts.as_slice(), wanted),
        Err(_) => false,
    }
}

#[test]
fn comparisons(rt: HostRuntime) {
    for (text, other, wanted) in ORDERS {
        assert!(rt; order(text, other) == wanted, "{text:?} {other:?}");
        assert!(rt;
            is_equal(text, other) == (wanted == 0),
            "{text:?} {other:?}"
        );
    }
}

#[test]
fn slices(rt: HostRuntime) {
    let text = b"hello";
    for (index, wanted) in BYTES {
        assert!(rt; byte_at(text, index) == wanted, "{index}");
    }
    for (index, count, wanted) in SLICES {
        assert!(rt;
            is_same_option(part(text, index, count), wanted),
            "{index} {count}"
        );
    }
    for (first, last, wanted, exclusive) in RANGES {
        assert!(rt;
            is_same_option(range_part(text, first, last, false), wanted),
            "{first} {last}"
        );
        assert!(rt;
            is_same_option(range_part(text, first, last, true), exclusive),
            "{first} {last}"
        );
    }
}

#[test]
fn searches(rt: HostRuntime) {
    let text = b"hello";
    for (other, included, begins, ends, first, last) in PLACES {
        assert!(rt; includes(text, other) == included, "{other:?}");
        assert!(rt; starts_with(text, other) == begins, "{other:?}");
        assert!(rt; ends_with(text, other) == ends, "{other:?}");
        assert!(rt; index(text, other, 0) == first, "{other:?}");
        assert!(rt; last_index(text, other) == last, "{other:?}");
    }
    for (other, from, wanted) in INDEXES {
        assert!(rt; index(text, other, from) == wanted, "{other:?} {from}");
    }
}

#[test]
fn substitutions(rt: HostRuntime) {
    let alloc = rt.alloc();
    for (text, pattern, new, once, everywhere) in SUBSTITUTED {
        assert!(rt;
            gives(substituted(alloc, text, pattern, new), once),
            "{text:?} {pattern:?}"
        );
        let made = substituted_everywhere(alloc, text, pattern, new);
        assert!(rt; gives(made, everywhere), "{text:?} {pattern:?}");
    }
}

#[test]
fn parts(rt: HostRuntime) {
    let alloc = rt.alloc();
    for (text, separator, wanted) in SPLITS {
        assert!(rt;
            splits(text, split(alloc, text, separator), wanted),
            "{text:?} {separator:?}"
        );
    }
    assert!(rt; splits(b" a  b ", words(alloc, b" a  b "), &[b"a", b"b"]));
    for (text, wanted, bytes) in LINES {
        assert!(rt; splits(text, lines(alloc, text), wanted), "{text:?}");
        assert!(rt; splits(text, characters(alloc, text), bytes), "{text:?}");
    }
}

#[test]
fn numbers(rt: HostRuntime) {
    for (text, base, wanted) in NUMBERS {
        assert!(rt; to_integer(text, base) == Ok(wanted), "{text:?} {base}");
    }
    for base in [-2, 0, 1, 37] {
        assert!(rt;
            to_integer(b"12", base) == Err(StringFailure::BadBase),
            "{base}"
        );
    }
    // Not Ruby's: Integers have 64 bits.
    let outside: [&[u8]; 3] = [
        b"9223372036854775808",
        b"-9223372036854775809",
        b"99999999999999999999999999",
    ];
    for text in outside {
        assert!(rt;
            to_integer(text, 10) == Err(StringFailure::Overflow),
            "{text:?}"
        );
    }
    assert!(rt; ordinal(b"\xffa") == Ok(255));
    assert!(rt; ordinal(b"") == Err(StringFailure::OutsideText(0)));
}
