//! The arguments of a call.
ghost use Rattle.std.specs.Prelude.{◌≡◌, ◌==◌, [], ◌∷◌, ◌++◌, length, IfOk, OnOk, OnErr};

use crate::value::Value;
use smallvec::SmallVec;
use std::alloc::{AllocError, Global};
use std::marker::Model;

/// The arguments of a call, seen as their list. Up to six need no memory.
#[derive(Drop)]
pub struct Args {
    values: SmallVec<Value, 6>,
}

impl Model for Args {
    ghost use Rattle.std.specs.Prelude as prelude;
    ghost use Rattle.rb_value.specs.declared.value.Value.{Value as Element};

    ghost Value = { prelude.List Element };

    ghost view = { λ a. a.values.items };
}

impl Args {
    /// No arguments. It takes no memory.
    pub fn new(alloc: Global) -> Args
        ensures { result ≡ [] }
    {
        Args {
            values: SmallVec::new(alloc),
        }
    }

    /// The arguments of that list.
    pub fn from_slice(alloc: Global, values: &[Value]) -> Result<Args, AllocError>
        ensures { IfOk result (λ args. args ≡ values.now) }
    {
        Ok(Args {
            values: SmallVec::from_slice(alloc, values)?,
        })
    }

    /// Puts one more at the end. Where memory runs out all is as before.
    pub fn push(&mut self, value: Value) -> Result<(), AllocError>
        ensures ok { OnOk result (self.new ≡ self.old ++ value ∷ []) }
        ensures err { OnErr result (self.new ≡ self.old) }
    {
        self.values.push(value)?;
        Ok(())
    }

    /// The arguments as a slice.
    pub fn as_slice(&self) -> &[Value]
        ensures { result.now ≡ self.now }
    {
        self.values.as_slice()
    }

    /// How many there are.
    pub fn len(&self) -> usize
        ensures { result ≡ length self.now }
    {
        self.as_slice().len()
    }

    /// Whether there are none.
    pub fn is_empty(&self) -> bool
        ensures { result ≡ (length self.now == 0) }
    {
        self.len() == 0
    }
}
