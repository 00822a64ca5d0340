//! Why an exception is raised by the language itself.
use rb_value::{CoreClass, ObjId, SymId, Value};

/// Why an exception is raised by the language itself. Its class, text and detail follow from it.
#[derive(Clone, Copy, Debug, PartialEq, Eq)]
pub enum Cause {
    /// No method of that name is found for a receiver of the class.
    UndefinedMethod {
        name: SymId,
        class: ObjId,
    },
    PrivateMethod {
        name: SymId,
        class: ObjId,
    },
    ProtectedMethod {
        name: SymId,
        class: ObjId,
    },
    /// No method of that name is found above the running one.
    NoSuperMethod {
        name: SymId,
        class: ObjId,
    },
    SuperOutside,
    /// A name alone is neither a variable nor a method.
    UndefinedName {
        name: SymId,
        class: ObjId,
    },
    /// A constant isn't found; the scope is there where it is written before the name.
    UninitializedConstant {
        scope: Option<ObjId>,
        name: SymId,
    },
    /// The class has no method of that name to change.
    UndefinedInClass {
        name: SymId,
        class: ObjId,
    },
    /// So many arguments were given, and at least and at most so many were expected; none stands for no bound.
    WrongCount {
        given: u64,
        least: u64,
        most: Option<u64>,
    },
    NegativeExponent,
    NoBlockGiven,
    /// Values of these classes can't be compared.
    Incomparable {
        left: ObjId,
        right: ObjId,
    },
    ComparisonFailed,
    BadRange,
    InvalidInteger,
    StatusOutOfRange,
    ArrayTooBig,
    NegativeCount,
    BadBase,
    TooFewItems,
    /// A value of the first class was expected, and one of the second was given.
    Expected {
        class: ObjId,
        got: ObjId,
    },
    /// An instruction, by its name, meets a value that it isn't made for.
    WrongValue(SymId),
    RescueNotClass,
    NotException,
    SuperclassMismatch(SymId),
    SuperclassNotClass,
    NotClass(SymId),
    NotModule(SymId),
    NoSingleton,
    NoVariable,
    IndexOutOfRange(i64),
    /// A key isn't there; what `inspect` shows of it is a String of the store.
    KeyNotFound(ObjId),
    IntegerOverflow,
    StringTooLong,
    CharOutOfRange(i64),
    DividedByZero,
    UnexpectedReturn,
    BreakFromProc,
    NoBlockToYield,
    DeadFiber,
    DoubleResume,
    RootYield,
    /// An Enumerator has no further item; its source gave the result.
    IterationEnd {
        result: Value,
    },
    StackTooDeep,
    /// The program ends with the status.
    Exit {
        status: u8,
    },
    Unhandled,
}

impl Cause {
    ghost use Rattle.std.specs.Prelude.{◌≡◌};
    ghost use Rattle.def_core.specs.Texts as texts;

    /// The class of the exception.
    pub fn class(self) -> CoreClass
        ensures { result ≡ texts.class_of self }
    {
        match self {
            Cause::UndefinedMethod { name: _, class: _ }
            | Cause::PrivateMethod { name: _, class: _ }
            | Cause::ProtectedMethod { name: _, class: _ }
            | Cause::NoSuperMethod { name: _, class: _ }
            | Cause::SuperOutside => CoreClass::NoMethodError,
            Cause::UndefinedName { name: _, class: _ }
            | Cause::UninitializedConstant { scope: _, name: _ }
            | Cause::UndefinedInClass { name: _, class: _ } => CoreClass::NameError,
            Cause::WrongCount {
                given: _,
                least: _,
                most: _,
            }
            | Cause::NegativeExponent
            | Cause::NoBlockGiven
            | Cause::Incomparable { left: _, right: _ }
            | Cause::ComparisonFailed
            | Cause::BadRange
            | Cause::InvalidInteger
            | Cause::StatusOutOfRange
            | Cause::ArrayTooBig
            | Cause::NegativeCount
            | Cause::BadBase
            | Cause::TooFewItems => CoreClass::ArgumentError,
            Cause::Expected { class: _, got: _ }
            | Cause::WrongValue(_)
            | Cause::RescueNotClass
            | Cause::NotException
            | Cause::SuperclassMismatch(_)
            | Cause::SuperclassNotClass
            | Cause::NotClass(_)
            | Cause::NotModule(_)
            | Cause::NoSingleton
            | Cause::NoVariable => CoreClass::TypeError,
            Cause::IndexOutOfRange(_) => CoreClass::IndexError,
            Cause::KeyNotFound(_) => CoreClass::KeyError,
            Cause::IntegerOverflow | Cause::StringTooLong | Cause::CharOutOfRange(_) =>
                CoreClass::RangeError,
            Cause::DividedByZero => CoreClass::ZeroDivisionError,
            Cause::UnexpectedReturn | Cause::BreakFromProc | Cause::NoBlockToYield =>
                CoreClass::LocalJumpError,
            Cause::DeadFiber | Cause::DoubleResume | Cause::RootYield => CoreClass::FiberError,
            Cause::IterationEnd { result: _ } => CoreClass::StopIteration,
            Cause::StackTooDeep => CoreClass::SystemStackError,
            Cause::Exit { status: _ } => CoreClass::SystemExit,
            Cause::Unhandled => CoreClass::RuntimeError,
        }
    }

    /// The detail of the exception: the name of a NameError or NoMethodError, the status of a SystemExit, the result
    /// of a StopIteration, and else nil.
    pub fn detail(self) -> Value
        ensures { result ≡ texts.detail_of self }
    {
        match self {
            Cause::UndefinedMethod { name, class: _ }
            | Cause::PrivateMethod { name, class: _ }
            | Cause::ProtectedMethod { name, class: _ }
            | Cause::NoSuperMethod { name, class: _ }
            | Cause::UndefinedName { name, class: _ }
            | Cause::UndefinedInClass { name, class: _ } => Value::Sym(name),
            Cause::UninitializedConstant { scope: _, name } => Value::Sym(name),
            Cause::IterationEnd { result } => result,
            Cause::Exit { status } => Value::Int(i64::from(status)),
            _ => Value::Nil,
        }
    }
}
