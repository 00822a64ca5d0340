//! What a call gives or raises.
use rb_value::{ObjId, Value};

/// The value that a form or an instruction gives, or the exception that it raises.
#[derive(Clone, Copy, Debug, PartialEq, Eq)]
pub enum Given {
    Gives(Value),
    Raises(ObjId),
}
