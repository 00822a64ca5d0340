//! Activations.
ghost use Rattle.std.specs.Prelude.{◌≡◌};
ghost use Rattle.run_calls.specs.Activations as activations;

use rb_value::{ObjId, SymId, Value};

/// What an activation runs.
#[derive(Clone, Copy, Debug, PartialEq, Eq)]
pub enum Runs {
    MainProgram,
    MethodBody,
    /// The body of this Proc, which doesn't count its arguments.
    BlockBody(ObjId),
    /// The body of a lambda, or of a block that was made a method: return and break end the activation itself.
    LambdaBody,
    ClassBody,
}

/// An activation: what it runs, the value of `self`, the class that has the method in whose text the body stands and
/// the name by which that method was called, the activation that a return ends, the list of classes around the text,
/// and the Proc that a yield calls.
#[derive(Clone, Copy, Debug, PartialEq, Eq)]
pub struct Activation {
    pub runs: Runs,
    pub receiver: Value,
    pub owner: Option<ObjId>,
    pub name: Option<SymId>,
    pub home: u64,
    pub classes: u64,
    pub block: Option<ObjId>,
}

impl Activation {
    /// An activation of no text, whose `self` is nil.
    pub fn outside() -> Activation
        ensures { result ≡ activations.outside }
    {
        Activation {
            runs: Runs::MainProgram,
            receiver: Value::Nil,
            owner: None,
            name: None,
            home: 0,
            classes: 0,
            block: None,
        }
    }
}
