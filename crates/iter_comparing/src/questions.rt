//! What a work wants next.
ghost use Rattle.std.specs.Prelude.{◌≡◌};
ghost use Rattle.iter_comparing.specs.Questions as questions;

use def_core::Cause;
use rb_value::Value;

/// What a work wants next: it ends with a value, fails, or asks a value, with an argument or without.
#[derive(Clone, Copy, Debug)]
pub enum Question {
    Ends(Value),
    Fails(Cause),
    Asks {
        receiver: Value,
        argument: Option<Value>,
    },
}

impl Question {
    /// Asks a value whether it is another, or how it stands to it.
    pub(crate) fn compare(receiver: Value, argument: Value) -> Question
        ensures { result ≡ questions.compare receiver argument }
    {
        Question::Asks {
            receiver,
            argument: Some(argument),
        }
    }

    /// Asks a value what stands for it in a text.
    pub(crate) fn show(receiver: Value) -> Question
        ensures { result ≡ questions.show receiver }
    {
        Question::Asks {
            receiver,
            argument: None,
        }
    }
}
