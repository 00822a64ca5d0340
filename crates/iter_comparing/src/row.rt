//! The methods that look up `==`, `<=>`, `inspect` or `to_s` of what they compare or show, by the names under which
//! classes have them.

/// A method that calls others of the values that it compares or shows.
#[derive(Clone, Copy, Debug, PartialEq, Eq)]
pub enum ComparingRow {
    /// `!=`: not `==`.
    Differs,
    /// `===`: as `==`.
    Matches,
    ArrayEquality,
    ArrayOrder,
    ArrayIndex,
    ArrayIncludes,
    ArrayDelete,
    ArrayDifference,
    ArrayIntersection,
    ArrayUnion,
    ArrayRepeat,
    ArrayJoin,
    ArrayText,
    HashElement,
    HashFetch,
    HashHasValue,
    HashKeyOf,
    HashEquality,
    HashText,
    Order(OrderRow),
}

/// A method of Comparable, by the program's own `<=>`.
#[derive(Clone, Copy, Debug, PartialEq, Eq)]
pub enum OrderRow {
    Less,
    AtMost,
    Greater,
    AtLeast,
    Equal,
    Between,
    Clamp,
}
