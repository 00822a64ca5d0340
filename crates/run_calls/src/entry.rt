//! What a call enters.
ghost use Rattle.std.specs.Prelude.{◌≡◌};
ghost use Rattle.run_calls.specs.Entering as entering;

use crate::activation::Activation;
use core_iter::core_calls::Call;
use core_iter::heap::Given;
use core_iter::run_rows::StarRow;
use def_core::BindKind;
use rb_value::{ObjId, SymId, Value};

/// A body to enter: its number, the innermost of the scopes around it, the activation that is opened, and what it is
/// given: the arguments of the call, after a name where `method_missing` takes the call, and the block.
#[derive(Clone, Copy, Debug)]
pub struct Opening {
    pub body: u32,
    pub outer: Option<u64>,
    pub activation: Activation,
    pub name_first: Option<SymId>,
    pub block: Option<ObjId>,
    pub binds: BindKind,
}

/// An iteration to begin: its row, the receiver, and what it is given.
#[derive(Clone, Copy, Debug)]
pub struct Beginning {
    pub row: StarRow,
    pub receiver: Value,
    pub name_first: Option<SymId>,
    pub block: Option<ObjId>,
}

/// What a call enters: nothing, where its outcome is there at once, a body, or an iteration.
#[derive(Clone, Copy, Debug)]
pub enum Entry {
    Answers(Given),
    Enters(Opening),
    Begins(Beginning),
}

/// A call by a name, and the number of the activation that it may open.
#[derive(Clone, Copy, Debug)]
pub struct Request<'a> {
    pub name: SymId,
    pub call: Call<'a>,
    pub next: u64,
}

impl Entry {
    /// The same, where what is entered is given a name before the arguments.
    pub(crate) fn after(self, name: SymId) -> Entry
        ensures { result ≡ entering.after_name name self }
    {
        match self {
            Entry::Answers(given) => Entry::Answers(given),
            Entry::Enters(opening) => Entry::Enters(Opening {
                name_first: Some(name),
                ..opening
            }),
            Entry::Begins(beginning) => Entry::Begins(Beginning {
                name_first: Some(name),
                ..beginning
            }),
        }
    }
}
