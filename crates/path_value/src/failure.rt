ghost use Rattle.std.specs.Prelude.{◌≡◌};
ghost use Rattle.path_value.specs.Value as values;

use crate::value::Value;
use rb_syntax::Operator;

/// A class that values or exceptions are of.
#[derive(Clone, Copy, Debug, PartialEq, Eq)]
pub enum CoreClass {
    NilClass,
    TrueClass,
    FalseClass,
    Integer,
    RangeError,
    TypeError,
    NoMethodError,
}

/// Why a core method raises.
#[derive(Clone, Copy, Debug, PartialEq, Eq)]
pub enum Failure {
    /// The result has more than 64 bits.
    IntegerOverflow,
    /// The receiver's class has no such method.
    UndefinedMethod(Operator, CoreClass),
    /// An Integer was wanted, and a value of this class came.
    IntegerExpected(CoreClass),
}

/// The class of a value.
pub fn class_of(value: Value) -> CoreClass
    ensures { result ≡ values.class_of value }
{
    match value {
        Value::Nil => CoreClass::NilClass,
        Value::True => CoreClass::TrueClass,
        Value::False => CoreClass::FalseClass,
        Value::Int(_) => CoreClass::Integer,
    }
}

impl CoreClass {
    ghost use Rattle.path_value.specs.Failure.{name_of};

    /// The name of the class.
    pub fn name(self) -> &'static [u8]
        ensures { result.now ≡ name_of self }
    {
        match self {
            CoreClass::NilClass => b"NilClass",
            CoreClass::TrueClass => b"TrueClass",
            CoreClass::FalseClass => b"FalseClass",
            CoreClass::Integer => b"Integer",
            CoreClass::RangeError => b"RangeError",
            CoreClass::TypeError => b"TypeError",
            CoreClass::NoMethodError => b"NoMethodError",
        }
    }
}

impl Failure {
    ghost use Rattle.path_value.specs.Failure as failures;

    /// The class of the exception.
    pub fn class(self) -> CoreClass
        ensures { result ≡ failures.class_of self }
    {
        match self {
            Failure::IntegerOverflow => CoreClass::RangeError,
            Failure::UndefinedMethod(_, _) => CoreClass::NoMethodError,
            Failure::IntegerExpected(_) => CoreClass::TypeError,
        }
    }
}
