//! What a visit of items wants next.
use def_core::Cause;
use rb_value::{ObjId, Value};
use rows_items::core_calls::Beat;

/// What a visit wants next: it ends, fails, raises, calls its block, or asks a value for its method with an argument.
#[derive(Clone, Copy, Debug)]
pub(crate) enum Wish {
    Ends(Value),
    Fails(Cause),
    Raises(ObjId),
    Calls(Beat),
    Asks { receiver: Value, argument: Value },
}
