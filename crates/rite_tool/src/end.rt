//! How a call of the program comes out.
ghost use Rattle.std.specs.Prelude.{◌≡◌};
ghost use Rattle.rite_tool.specs.Status.{status_of};

use rb_refusal::Refusal;

/// How a call of the program comes out.
#[derive(Clone, Copy, Debug, PartialEq, Eq)]
pub enum End {
    /// It ended with this status.
    Ended(u8),
    /// An exception wasn't caught; its class and message went to the error stream.
    Uncaught,
    /// The words are no command.
    Usage,
    Refused(Refusal),
    /// The turns that were allowed are made, and the program goes on.
    Spent,
    NoMemory,
    /// A call on the source of input failed.
    InputFault,
    /// A call on the output or the error stream failed.
    OutputFault,
    /// A load or a store of a file failed.
    FileFault,
}

impl End {
    /// The status that the process ends with.
    pub fn status(self) -> u8
        ensures { result ≡ status_of self }
    {
        match self {
            End::Ended(status) => status,
            End::Uncaught => 1,
            End::Usage => 120,
            End::Refused(_) => 121,
            End::Spent => 122,
            End::NoMemory => 123,
            End::InputFault => 124,
            End::OutputFault => 125,
            End::FileFault => 126,
        }
    }
}
