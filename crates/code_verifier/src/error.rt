ghost use Rattle.std.specs.Prelude.{◌≡◌};
ghost use Rattle.code_verifier.specs.declared.error.VerifyError.TheVariants.{NoMemory};

use rb_refusal::Refusal;
use rite_code::Cause;
use std::alloc::AllocError;

/// Why code isn't verified: the first check that fails, in the order of docs/formats.md, with the number of the
/// body and the place in its code; or that memory ran out.
#[derive(Clone, Copy, Debug, PartialEq, Eq)]
pub enum VerifyError {
    Bad { irep: u32, at: u32, cause: Cause },
    NoMemory,
}

impl VerifyError {
    ghost use Rattle.code_verifier.specs.Refusal.{refusal_of};

    /// Why the code is refused. None where memory ran out.
    pub fn refusal(self) -> Option<Refusal>
        ensures { result ≡ refusal_of self }
    {
        match self {
            VerifyError::Bad { irep, at, cause } => Some(Refusal::Bad { irep, at, cause }),
            VerifyError::NoMemory => None,
        }
    }
}

impl From<AllocError> for VerifyError {
    ghost from_gives = { λ _ e. e ≡ NoMemory };

    fn from(_refused: AllocError) -> VerifyError {
        VerifyError::NoMemory
    }
}
