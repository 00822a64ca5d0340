//! What a core method that calls others wants next.
use def_core::Cause;
use rb_value::{ObjId, SymId, Value};

/// What an iteration wants next, and where it stands then: it finishes with a value, fails or raises; it calls a method,
/// which has to be public or not, or a Proc; it writes or reads a line; it resumes a fiber, or yields to the one that
/// resumed this one. The answer to a line that is read is a String or nil.
#[derive(Drop)]
pub enum Plan<S> {
    Finishes(Value),
    Fails(Cause),
    Raises(ObjId),
    Sends {
        then: S,
        receiver: Value,
        name: SymId,
        args: Vec<Value>,
        block: Option<ObjId>,
        public: bool,
    },
    Calls {
        then: S,
        callee: ObjId,
        args: Vec<Value>,
        block: Option<ObjId>,
    },
    Writes {
        then: S,
        bytes: Vec<u8>,
    },
    Reads {
        then: S,
    },
    Resumes {
        then: S,
        fiber: ObjId,
        args: Vec<Value>,
    },
    Yields {
        then: S,
        args: Vec<Value>,
    },
}
