ghost use Rattle.std.specs.Prelude.{◌≡◌};

use path_value::Failure;
use rb_base::Failed;
use std::alloc::AllocError;

/// How a run of at most so many turns came out: it goes on, ended with a status, or an exception wasn't caught.
#[derive(Clone, Copy, Debug, PartialEq, Eq)]
pub enum Ran {
    Spent,
    Ended(u8),
    Uncaught(Failure),
}

/// Why a run stopped before that: memory ran out, or a call on the sink failed.
#[derive(Clone, Copy, Debug, PartialEq, Eq)]
pub enum RunFault {
    NoMemory,
    OutputFault,
}

impl From<AllocError> for RunFault {
    ghost use Rattle.path_machine.specs.declared.ran.RunFault.TheVariants.{NoMemory};

    ghost from_gives = { λ _ e. e ≡ NoMemory };

    fn from(_: AllocError) -> RunFault {
        RunFault::NoMemory
    }
}

impl From<Failed> for RunFault {
    ghost use Rattle.path_machine.specs.declared.ran.RunFault.TheVariants.{OutputFault};

    ghost from_gives = { λ _ e. e ≡ OutputFault };

    fn from(_: Failed) -> RunFault {
        RunFault::OutputFault
    }
}
