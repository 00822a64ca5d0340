use super::exact;
use rb_integer::{Bounds, Ends, IntegerFailure, Item};

/// A Range over Integers.
fn integers(first: i64, last: i64, is_exclusive: bool) -> Ends {
    Ends {
        bounds: Bounds::Integers(first, last),
        is_exclusive,
    }
}

/// A Range over one-byte Strings.
fn strings(first: u8, last: u8, is_exclusive: bool) -> Ends {
    Ends {
        bounds: Bounds::Bytes(first, last),
        is_exclusive,
    }
}

/// First and last end, whether the last is left out, `size`.
static RANGES: [(i64, i64, bool, Option<i64>); 24] = [
    (1, 5, false, Some(5)),
    (1, 5, true, Some(4)),
    (1, 1, false, Some(1)),
    (1, 1, true, Some(0)),
    (5, 1, false, Some(0)),
    (5, 1, true, Some(0)),
    (-3, 3, false, Some(7)),
    (-3, 3, true, Some(6)),
    (0, i64::MAX, false, None),
    (0, i64::MAX, true, Some(i64::MAX)),
    (i64::MIN, i64::MAX, false, None),
    (i64::MIN, i64::MAX, true, None),
    (i64::MIN, -1, false, None),
    (i64::MIN, -1, true, Some(i64::MAX)),
    (i64::MIN, -2, false, Some(i64::MAX)),
    (i64::MIN, -2, true, Some(9223372036854775806)),
    (-1, i64::MAX, false, None),
    (-1, i64::MAX, true, None),
    (0, 9223372036854775806, false, Some(i64::MAX)),
    (0, 9223372036854775806, true, Some(9223372036854775806)),
    (i64::MAX, i64::MAX, false, Some(1)),
    (i64::MAX, i64::MAX, true, Some(0)),
    (i64::MIN, i64::MIN, false, Some(1)),
    (i64::MIN, i64::MIN, true, Some(0)),
];

/// First and last end, whether the last is left out, `to_s`.
static RANGE_TEXTS: [(i64, i64, bool, &[u8]); 7] = [
    (1, 5, false, b"1..5"),
    (1, 5, true, b"1...5"),
    (5, 1, false, b"5..1"),
    (-3, 3, false, b"-3..3"),
    (
        i64::MIN,
        i64::MAX,
        false,
        b"-9223372036854775808..9223372036854775807",
    ),
    (
        i64::MIN,
        i64::MAX,
        true,
        b"-9223372036854775808...9223372036854775807",
    ),
    (i64::MIN, -2, false, b"-9223372036854775808..-2"),
];

#[test]
fn sizes_and_texts(rt: HostRuntime) {
    for (first, last, is_exclusive, size) in RANGES {
        let range = integers(first, last, is_exclusive);
        assert_eq!(rt; range.size(), exact(size), "{first} to {last}");
        assert_eq!(rt; range.first(), Item::Integer(first));
        assert_eq!(rt; range.last(), Item::Integer(last));
        assert!(rt; range.is_equal(range));
    }
    for (first, last, is_exclusive, text) in RANGE_TEXTS {
        let range = integers(first, last, is_exclusive);
        assert_eq!(rt; range.to_text().as_slice(), text);
    }
}

/// First and last end, whether the last is left out, a count, how many items the first ones are.
static FIRSTS: [(i64, i64, bool, i64, u64); 12] = [
    (1, 5, false, 3, 3),
    (1, 5, true, 3, 3),
    (1, 5, false, 5, 5),
    (1, 5, true, 5, 4),
    (1, 5, false, 9, 5),
    (1, 5, true, 9, 4),
    (1, 5, false, 0, 0),
    (1, 5, true, 0, 0),
    (5, 1, false, 2, 0),
    (5, 1, true, 2, 0),
    (-3, 3, false, 100, 7),
    (-3, 3, true, 100, 6),
];

#[test]
fn first_items(rt: HostRuntime) {
    for (first, last, is_exclusive, count, wanted) in FIRSTS {
        let range = integers(first, last, is_exclusive);
        assert_eq!(rt;
            range.first_count(count),
            Ok(wanted),
            "{count} of {first} to {last}"
        );
        assert_eq!(rt; range.first_count(-1), Err(IntegerFailure::NegativeCount));
    }
}

/// First and last end, whether the last is left out, a number, whether it is included.
static MEMBERS: [(i64, i64, bool, i64, bool); 28] = [
    (1, 5, false, 0, false),
    (1, 5, false, 1, true),
    (1, 5, false, 5, true),
    (1, 5, false, 6, false),
    (1, 5, true, 0, false),
    (1, 5, true, 1, true),
    (1, 5, true, 5, false),
    (1, 5, true, 6, false),
    (5, 1, false, 4, false),
    (5, 1, false, 5, false),
    (5, 1, false, 0, false),
    (5, 1, false, 1, false),
    (5, 1, false, 2, false),
    (5, 1, true, 4, false),
    (5, 1, true, 5, false),
    (5, 1, true, 0, false),
    (5, 1, true, 1, false),
    (5, 1, true, 2, false),
    (-2, 2, false, -3, false),
    (-2, 2, false, -2, true),
    (-2, 2, false, 0, true),
    (-2, 2, false, 2, true),
    (-2, 2, false, 3, false),
    (-2, 2, true, -3, false),
    (-2, 2, true, -2, true),
    (-2, 2, true, 0, true),
    (-2, 2, true, 2, false),
    (-2, 2, true, 3, false),
];

#[test]
fn members(rt: HostRuntime) {
    for (first, last, is_exclusive, number, is_included) in MEMBERS {
        let range = integers(first, last, is_exclusive);
        let item = Item::Integer(number);
        assert_eq!(rt;
            range.includes(item),
            is_included,
            "{number} in {first} to {last}"
        );
        assert!(rt; !range.includes(Item::Byte(1)));
    }
}

/// First and last byte, whether the last is left out, a byte, whether it is included. CRuby says that `"z".."a"` includes
/// `"a"`, though it has no items.
static BYTE_MEMBERS: [(u8, u8, bool, u8, bool); 30] = [
    (b'a', b'z', false, b'a', true),
    (b'a', b'z', false, b'b', true),
    (b'a', b'z', false, b'm', true),
    (b'a', b'z', false, b'z', true),
    (b'a', b'z', false, b'A', false),
    (b'a', b'z', true, b'a', true),
    (b'a', b'z', true, b'b', true),
    (b'a', b'z', true, b'm', true),
    (b'a', b'z', true, b'z', false),
    (b'a', b'z', true, b'A', false),
    (b'z', b'a', false, b'a', false),
    (b'z', b'a', false, b'b', false),
    (b'z', b'a', false, b'm', false),
    (b'z', b'a', false, b'z', false),
    (b'z', b'a', false, b'A', false),
    (b'z', b'a', true, b'a', false),
    (b'z', b'a', true, b'b', false),
    (b'z', b'a', true, b'm', false),
    (b'z', b'a', true, b'z', false),
    (b'z', b'a', true, b'A', false),
    (b'b', b'b', false, b'a', false),
    (b'b', b'b', false, b'b', true),
    (b'b', b'b', false, b'm', false),
    (b'b', b'b', false, b'z', false),
    (b'b', b'b', false, b'A', false),
    (b'b', b'b', true, b'a', false),
    (b'b', b'b', true, b'b', false),
    (b'b', b'b', true, b'm', false),
    (b'b', b'b', true, b'z', false),
    (b'b', b'b', true, b'A', false),
];

#[test]
fn members_of_ranges_of_strings(rt: HostRuntime) {
    for (first, last, is_exclusive, byte, is_included) in BYTE_MEMBERS {
        let range = strings(first, last, is_exclusive);
        assert_eq!(rt;
            range.includes(Item::Byte(byte)),
            is_included,
            "{byte} in {first} to {last}"
        );
        assert!(rt; !range.includes(Item::Integer(97)));
    }
}

/// First and last byte, whether the last is left out, how many items CRuby's `to_a` has, `to_s`.
static BYTE_RANGES: [(u8, u8, bool, i64, &[u8]); 8] = [
    (b'a', b'z', false, 26, b"a..z"),
    (b'a', b'z', true, 25, b"a...z"),
    (b'z', b'a', false, 0, b"z..a"),
    (b'z', b'a', true, 0, b"z...a"),
    (b'b', b'b', false, 1, b"b..b"),
    (b'b', b'b', true, 0, b"b...b"),
    (b'0', b'9', false, 10, b"0..9"),
    (b'0', b'9', true, 9, b"0...9"),
];

#[test]
fn sizes_and_texts_of_ranges_of_strings(rt: HostRuntime) {
    for (first, last, is_exclusive, size, text) in BYTE_RANGES {
        let range = strings(first, last, is_exclusive);
        assert_eq!(rt; range.size(), Ok(size));
        assert_eq!(rt; range.to_text().as_slice(), text);
        assert_eq!(rt;
            Ends::of_strings(&[first], &[last], is_exclusive),
            Ok(range)
        );
    }
}

#[test]
fn other_ends(rt: HostRuntime) {
    for (first, last) in [("", "a"), ("a", ""), ("ab", "c"), ("a", "bc"), ("", "")] {
        assert_eq!(rt;
            Ends::of_strings(first.as_bytes(), last.as_bytes(), false),
            Err(IntegerFailure::BadEnds)
        );
    }
}

#[test]
fn items_by_index(rt: HostRuntime) {
    let whole = Ends {
        bounds: Bounds::Integers(i64::MIN, i64::MAX),
        is_exclusive: false,
    };
    assert_eq!(rt; whole.item(0), Item::Integer(i64::MIN));
    assert_eq!(rt; whole.item(u64::MAX), Item::Integer(i64::MAX));
    let letters = Ends {
        bounds: Bounds::Bytes(b'a', b'z'),
        is_exclusive: true,
    };
    assert_eq!(rt; letters.item(24), Item::Byte(b'y'));
}
