ghost use Rattle.std.specs.Prelude.{◌≡◌};

use crate::text::Text;
use itoa::Buffer;

/// The class of an exception that a method of String raises (ISO/IEC 30170:2012, 15.2.24, 15.2.26 and 15.2.33).
#[derive(Clone, Copy, Debug, PartialEq, Eq)]
pub enum ExceptionClass {
    ArgumentError,
    IndexError,
    RangeError,
}

/// Why a method of String raises.
#[derive(Clone, Copy, Debug, PartialEq, Eq)]
pub enum StringFailure {
    /// The result has more than 2^28 bytes.
    TooLong,
    /// A count of bytes or of copies is below 0.
    NegativeCount,
    /// The text has no place of this index.
    OutsideText(i64),
    /// The base of a numeral is not from 2 to 36.
    BadBase,
    /// The number has more than 64 bits.
    Overflow,
}

impl ExceptionClass {
    ghost use Rattle.rb_string.specs.Failure.{name_of};

    /// The name of the class.
    pub fn name(self) -> &'static [u8]
        ensures { result.now ≡ name_of self }
    {
        match self {
            ExceptionClass::ArgumentError => b"ArgumentError",
            ExceptionClass::IndexError => b"IndexError",
            ExceptionClass::RangeError => b"RangeError",
        }
    }
}

impl StringFailure {
    ghost use Rattle.rb_string.specs.Failure as failures;

    /// The class of the exception.
    pub fn class(self) -> ExceptionClass
        ensures { result ≡ failures.class_of self }
    {
        match self {
            StringFailure::TooLong | StringFailure::Overflow => ExceptionClass::RangeError,
            StringFailure::NegativeCount | StringFailure::BadBase => ExceptionClass::ArgumentError,
            StringFailure::OutsideText(_) => ExceptionClass::IndexError,
        }
    }

    /// The message of the exception.
    pub fn message(self) -> Text
        ensures { result ≡ failures.message_of self }
    {
        match self {
            StringFailure::TooLong => Text::joined(b"string too long", b""),
            StringFailure::NegativeCount => Text::joined(b"negative count", b""),
            StringFailure::OutsideText(index) => {
                let mut buffer = Buffer::new();
                let front = Text::joined(b"index ", buffer.format(index).as_bytes());
                Text::joined(front.as_slice(), b" out of range")
            }
            StringFailure::BadBase => Text::joined(b"bad base", b""),
            StringFailure::Overflow => Text::joined(b"integer overflow", b""),
        }
    }
}
