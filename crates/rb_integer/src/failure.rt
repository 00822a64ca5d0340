ghost use Rattle.std.specs.Prelude.{◌≡◌};

use crate::text::Text;
use itoa::Buffer;

/// The class of an exception that a method of Integer or Range raises (ISO/IEC 30170:2012, 15.2.24, 15.2.26 and 15.2.30).
#[derive(Clone, Copy, Debug, PartialEq, Eq)]
pub enum ExceptionClass {
    ArgumentError,
    RangeError,
    ZeroDivisionError,
}

/// Why a method of Integer or Range raises.
#[derive(Clone, Copy, Debug, PartialEq, Eq)]
pub enum IntegerFailure {
    /// The exact result has more than 64 bits.
    Overflow,
    /// The divisor is 0.
    DividedByZero,
    /// The exponent of a power is below 0.
    NegativeExponent,
    /// A count of items is below 0.
    NegativeCount,
    /// The base of a numeral is not from 2 to 36.
    BadBase,
    /// This number is no byte.
    OutsideCharacters(i64),
    /// The ends of a Range are neither two Integers nor two Strings of one byte.
    BadEnds,
}

impl ExceptionClass {
    ghost use Rattle.rb_integer.specs.Failure.{name_of};

    /// The name of the class.
    pub fn name(self) -> &'static [u8]
        ensures { result.now ≡ name_of self }
    {
        match self {
            ExceptionClass::ArgumentError => b"ArgumentError",
            ExceptionClass::RangeError => b"RangeError",
            ExceptionClass::ZeroDivisionError => b"ZeroDivisionError",
        }
    }
}

impl IntegerFailure {
    ghost use Rattle.rb_integer.specs.Failure as failures;

    /// The class of the exception.
    pub fn class(self) -> ExceptionClass
        ensures { result ≡ failures.class_of self }
    {
        match self {
            IntegerFailure::Overflow | IntegerFailure::OutsideCharacters(_) =>
                ExceptionClass::RangeError,
            IntegerFailure::DividedByZero => ExceptionClass::ZeroDivisionError,
            IntegerFailure::NegativeExponent
            | IntegerFailure::NegativeCount
            | IntegerFailure::BadBase
            | IntegerFailure::BadEnds => ExceptionClass::ArgumentError,
        }
    }

    /// The message of the exception.
    pub fn message(self) -> Text
        ensures { result ≡ failures.message_of self }
    {
        match self {
            IntegerFailure::Overflow => Text::joined(b"integer overflow", b""),
            IntegerFailure::DividedByZero => Text::joined(b"divided by 0", b""),
            IntegerFailure::NegativeExponent => Text::joined(b"negative exponent", b""),
            IntegerFailure::NegativeCount => Text::joined(b"negative count", b""),
            IntegerFailure::BadBase => Text::joined(b"bad base", b""),
            IntegerFailure::OutsideCharacters(number) => {
                let mut buffer = Buffer::new();
                Text::joined(buffer.format(number).as_bytes(), b" out of char range")
            }
            IntegerFailure::BadEnds => Text::joined(b"bad value for range", b""),
        }
    }
}
