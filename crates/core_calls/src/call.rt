//! A call of a core method.
use rb_value::{ObjId, Value};

/// The receiver, the arguments and the block of a call.
#[derive(Clone, Copy, Debug)]
pub struct Call<'a> {
    pub receiver: Value,
    pub args: &'a [Value],
    pub block: Option<ObjId>,
}
