use rb_base::{Bytes, List};

/// Why a core method raises, where the reason names no object, class or symbol.
#[derive(Clone, Copy, Debug, PartialEq, Eq)]
pub enum Fault {
    NegativeExponent,
    NegativeCount,
    BadBase,
    BadRange,
    InvalidInteger,
    ComparisonFailed,
    TooFewItems,
    ArrayTooBig,
    StringTooLong,
    IntegerOverflow,
    DividedByZero,
    IndexOutOfRange(i64),
    CharOutOfRange(i64),
}

/// What a core method gives.
#[derive(Debug, Drop)]
pub enum Plain {
    Nil,
    Truth(bool),
    Int(i64),
    /// The receiver itself.
    Receiver,
    /// A new String.
    Text(Bytes),
    /// The symbol of that name.
    Symbol(Bytes),
    /// A new Array of new Strings.
    Texts(List<Bytes>),
    /// A new Array of Integers.
    Numbers(List<i64>),
    /// The receiver, a String, with these bytes after its own.
    Append(Bytes),
    /// The receiver, a String, with these bytes in place of its own.
    Replace(Bytes),
    Fail(Fault),
}
