//! What Procs hold.
ghost use Rattle.std.specs.Prelude.{◌≡◌};
ghost use Rattle.rb_value.specs.Sending.{sent_to, break_target};

use crate::method::Shape;
use crate::value::{ObjId, SymId, Value};
use rb_base::List;

/// What became of a block literal (ISO/IEC 30170:2012, 11.3.3): a `break` in it ends the call whose block it is.
#[derive(Clone, Copy, Debug, PartialEq, Eq)]
pub enum Sending {
    /// It isn't the block of a call yet, or is a lambda.
    Unsent,
    /// It was the block of a call that opened no activation.
    Sent,
    /// It was the block of the call that opened the activation of that number.
    SentTo { activation: u64 },
}

impl Sending {
    /// The same, as the block of a call that opened that activation, or none. Only the first call counts.
    pub fn sent_to(self, activation: Option<u64>) -> Sending
        ensures { result ≡ sent_to self activation }
    {
        match self {
            Sending::Unsent => match activation {
                Some(activation) => Sending::SentTo { activation },
                None => Sending::Sent,
            },
            Sending::Sent => Sending::Sent,
            Sending::SentTo { activation } => Sending::SentTo { activation },
        }
    }

    /// The number of the activation that a `break` ends.
    pub fn break_target(self) -> Option<u64>
        ensures { result ≡ break_target self }
    {
        match self {
            Sending::Unsent => None,
            Sending::Sent => None,
            Sending::SentTo { activation } => Some(activation),
        }
    }
}

/// The contents of a Proc with a body of code.
#[derive(Debug, Drop)]
pub struct ProcContents {
    /// The number of the body, depth first.
    pub code: u32,
    pub shape: Shape,
    /// The numbers of the scopes around the body, innermost first.
    pub scopes: List<u64>,
    /// The value of `self` in the body.
    pub receiver: Value,
    /// The class that has the method in whose text the body stands.
    pub owner: Option<ObjId>,
    /// The name by which that method was called.
    pub name: Option<SymId>,
    /// The number of the list of classes around the text.
    pub classes: u64,
    /// The number of the activation that a `return` ends.
    pub home: u64,
    /// Whether it was the block of a call, and what a `break` ends.
    pub sending: Sending,
    /// The Proc that a `yield` calls.
    pub block: Option<ObjId>,
    pub lambda: bool,
}
