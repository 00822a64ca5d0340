//! Calls of a block that a core method makes again and again.
ghost use Rattle.std.specs.Prelude.{◌≡◌, IfOk};
ghost use Rattle.core_calls.specs.Passing.{args_of};

use rb_value::{ObjId, Value};
use std::alloc::{AllocError, Global};

/// Up to two values that a block is called with.
#[derive(Clone, Copy, Debug, PartialEq, Eq)]
pub enum Passed {
    Nothing,
    One(Value),
    Two(Value, Value),
}

/// The call of a block that an iteration wants next, which then stands where it shall go on: a plan without a move of
/// the iteration.
#[derive(Clone, Copy, Debug, PartialEq, Eq)]
pub struct Beat {
    pub callee: ObjId,
    pub passed: Passed,
}

impl Passed {
    /// The values as arguments.
    pub fn args(self, alloc: Global) -> Result<Vec<Value>, AllocError>
        ensures { IfOk result (λ args. args.items ≡ args_of self) }
    {
        match self {
            Passed::Nothing => Ok(Vec::new(alloc)),
            Passed::One(value) => Vec::from_slice(alloc, &[value]),
            Passed::Two(first, second) => Vec::from_slice(alloc, &[first, second]),
        }
    }
}
