ghost use Rattle.std.specs.Prelude.{◌≡◌};

use crate::value::{ObjId, Value};

/// A way out of the constructs around a place (ISO/IEC 30170:2012, 11.5.2.4 and 11.5.3).
#[derive(Clone, Copy, Debug, PartialEq, Eq)]
pub enum Exit {
    /// An exception is raised.
    Raise(ObjId),
    /// The activation of that number ends with the value.
    Return { activation: u64, value: Value },
    /// The call whose activation has that number ends with the value.
    Break { activation: u64, value: Value },
    /// The activation of that number goes on at the place `target` of its code.
    Jump { activation: u64, target: u32 },
}

/// What a register holds: a value, or an exit that is kept while an ensure part runs.
#[derive(Clone, Copy, Debug, PartialEq, Eq)]
pub enum Slot {
    V(Value),
    E(Exit),
}

impl Slot {
    ghost use Rattle.rb_value.specs.Slot.{read};

    /// The value that the register reads as: the exception where an exit that raises is kept, and nil where
    /// another is.
    pub fn read(self) -> Value
        ensures { result ≡ read self }
    {
        match self {
            Slot::V(value) => value,
            Slot::E(Exit::Raise(exception)) => Value::Obj(exception),
            Slot::E(_) => Value::Nil,
        }
    }
}
