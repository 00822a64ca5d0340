//! What a core method gives.
use def_core::Cause;
use rb_base::{Bytes, List};
use rb_value::{ObjId, RangeContents, Value};
use row_answer::Plain;

/// What a core method gives: what belongs to every store; a value of its store; a new object; a value with the receiver, a
/// String or an Array, changed in place; or a cause to raise.
#[derive(Drop)]
pub enum Answer {
    Plain(Plain),
    Value(Value),
    /// A new Array.
    Items(List<Value>),
    /// A new Range of the class.
    Range {
        class: ObjId,
        contents: RangeContents,
    },
    /// A new String of the class.
    String {
        class: ObjId,
        bytes: Bytes,
    },
    /// A value, and the receiver, a String, gets these bytes in place of its own.
    Put {
        bytes: Bytes,
        given: Value,
    },
    /// The receiver, an Array, with these elements after its own.
    Push(List<Value>),
    /// The receiver, an Array, with these elements in place of its own.
    Replace(List<Value>),
    Fail(Cause),
}
