//! The classes and modules that every store has from its start.
ghost use Rattle.std.specs.Prelude.{◌≡◌};

/// A core class, core module or class of exceptions (ISO/IEC 30170:2012, 15), in the order of their numbers in a
/// store: a superclass stands before its subclasses.
#[derive(Clone, Copy, Debug, PartialEq, Eq)]
pub enum CoreClass {
    Object,
    Kernel,
    Module,
    Class,
    Comparable,
    Enumerable,
    Numeric,
    Integer,
    NilClass,
    TrueClass,
    FalseClass,
    String,
    Symbol,
    Array,
    Hash,
    Range,
    Proc,
    Fiber,
    Enumerator,
    Yielder,
    Exception,
    ScriptError,
    NotImplementedError,
    SystemExit,
    SystemStackError,
    StandardError,
    ArgumentError,
    FiberError,
    IndexError,
    KeyError,
    StopIteration,
    LocalJumpError,
    NameError,
    NoMethodError,
    RangeError,
    RuntimeError,
    TypeError,
    ZeroDivisionError,
}

impl CoreClass {
    ghost use Rattle.rb_value.specs.CoreClass as table;

    /// The number of its object in every store.
    pub fn number(self) -> u64
        ensures { result ≡ table.number_of self }
    {
        match self {
            CoreClass::Object => 0,
            CoreClass::Kernel => 1,
            CoreClass::Module => 2,
            CoreClass::Class => 3,
            CoreClass::Comparable => 4,
            CoreClass::Enumerable => 5,
            CoreClass::Numeric => 6,
            CoreClass::Integer => 7,
            CoreClass::NilClass => 8,
            CoreClass::TrueClass => 9,
            CoreClass::FalseClass => 10,
            CoreClass::String => 11,
            CoreClass::Symbol => 12,
            CoreClass::Array => 13,
            CoreClass::Hash => 14,
            CoreClass::Range => 15,
            CoreClass::Proc => 16,
            CoreClass::Fiber => 17,
            CoreClass::Enumerator => 18,
            CoreClass::Yielder => 19,
            CoreClass::Exception => 20,
            CoreClass::ScriptError => 21,
            CoreClass::NotImplementedError => 22,
            CoreClass::SystemExit => 23,
            CoreClass::SystemStackError => 24,
            CoreClass::StandardError => 25,
            CoreClass::ArgumentError => 26,
            CoreClass::FiberError => 27,
            CoreClass::IndexError => 28,
            CoreClass::KeyError => 29,
            CoreClass::StopIteration => 30,
            CoreClass::LocalJumpError => 31,
            CoreClass::NameError => 32,
            CoreClass::NoMethodError => 33,
            CoreClass::RangeError => 34,
            CoreClass::RuntimeError => 35,
            CoreClass::TypeError => 36,
            CoreClass::ZeroDivisionError => 37,
        }
    }

    /// Its name, with that of the class around it.
    pub fn name(self) -> &'static [u8]
        ensures { result.now ≡ table.name_of self }
    {
        match self {
            CoreClass::Object => b"Object",
            CoreClass::Kernel => b"Kernel",
            CoreClass::Module => b"Module",
            CoreClass::Class => b"Class",
            CoreClass::Comparable => b"Comparable",
            CoreClass::Enumerable => b"Enumerable",
            CoreClass::Numeric => b"Numeric",
            CoreClass::Integer => b"Integer",
            CoreClass::NilClass => b"NilClass",
            CoreClass::TrueClass => b"TrueClass",
            CoreClass::FalseClass => b"FalseClass",
            CoreClass::String => b"String",
            CoreClass::Symbol => b"Symbol",
            CoreClass::Array => b"Array",
            CoreClass::Hash => b"Hash",
            CoreClass::Range => b"Range",
            CoreClass::Proc => b"Proc",
            CoreClass::Fiber => b"Fiber",
            CoreClass::Enumerator => b"Enumerator",
            CoreClass::Yielder => b"Enumerator::Yielder",
            CoreClass::Exception => b"Exception",
            CoreClass::ScriptError => b"ScriptError",
            CoreClass::NotImplementedError => b"NotImplementedError",
            CoreClass::SystemExit => b"SystemExit",
            CoreClass::SystemStackError => b"SystemStackError",
            CoreClass::StandardError => b"StandardError",
            CoreClass::ArgumentError => b"ArgumentError",
            CoreClass::FiberError => b"FiberError",
            CoreClass::IndexError => b"IndexError",
            CoreClass::KeyError => b"KeyError",
            CoreClass::StopIteration => b"StopIteration",
            CoreClass::LocalJumpError => b"LocalJumpError",
            CoreClass::NameError => b"NameError",
            CoreClass::NoMethodError => b"NoMethodError",
            CoreClass::RangeError => b"RangeError",
            CoreClass::RuntimeError => b"RuntimeError",
            CoreClass::TypeError => b"TypeError",
            CoreClass::ZeroDivisionError => b"ZeroDivisionError",
        }
    }

    /// Its superclass: none of Object and of a module.
    pub fn superclass(self) -> Option<CoreClass>
        ensures { result ≡ table.superclass_of self }
    {
        match self {
            CoreClass::Object | CoreClass::Kernel | CoreClass::Comparable | CoreClass::Enumerable =>
                None,
            CoreClass::Module
            | CoreClass::Numeric
            | CoreClass::NilClass
            | CoreClass::TrueClass
            | CoreClass::FalseClass
            | CoreClass::String
            | CoreClass::Symbol
            | CoreClass::Array
            | CoreClass::Hash
            | CoreClass::Range
            | CoreClass::Proc
            | CoreClass::Fiber
            | CoreClass::Enumerator
            | CoreClass::Yielder
            | CoreClass::Exception => Some(CoreClass::Object),
            CoreClass::Class => Some(CoreClass::Module),
            CoreClass::Integer => Some(CoreClass::Numeric),
            CoreClass::ScriptError
            | CoreClass::SystemExit
            | CoreClass::SystemStackError
            | CoreClass::StandardError => Some(CoreClass::Exception),
            CoreClass::NotImplementedError => Some(CoreClass::ScriptError),
            CoreClass::ArgumentError
            | CoreClass::FiberError
            | CoreClass::IndexError
            | CoreClass::LocalJumpError
            | CoreClass::NameError
            | CoreClass::RangeError
            | CoreClass::RuntimeError
            | CoreClass::TypeError
            | CoreClass::ZeroDivisionError => Some(CoreClass::StandardError),
            CoreClass::KeyError | CoreClass::StopIteration => Some(CoreClass::IndexError),
            CoreClass::NoMethodError => Some(CoreClass::NameError),
        }
    }

    /// Whether it is a module.
    pub fn is_module(self) -> bool
        ensures { result ≡ table.is_module self }
    {
        matches!(
            self,
            CoreClass::Kernel | CoreClass::Comparable | CoreClass::Enumerable
        )
    }
}
