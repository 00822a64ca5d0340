//! What a core method gives or raises.
use crate::core_class::CoreClass;
use crate::value::{ObjId, Value};

/// An exception that is to be made: its class, a String that is its message, and its detail: the name of a NameError
/// or NoMethodError, the status of a SystemExit, the result of a StopIteration, and else nil.
#[derive(Clone, Copy, Debug, PartialEq, Eq)]
pub struct Failure {
    pub class: CoreClass,
    pub message: ObjId,
    pub detail: Value,
}

/// What a core method gives or raises.
#[derive(Clone, Copy, Debug, PartialEq, Eq)]
pub enum Outcome {
    Value(Value),
    Raise(Failure),
}
