ghost use Rattle.std.specs.Prelude.{◌≡◌};
ghost use Rattle.rite_file.specs.declared.error.LoadError.TheVariants.{NoMemory};

use rb_refusal::Refusal;
use std::alloc::{AllocError, AllocFailed};

/// Why bytes aren't loaded: the first check that they fail, or that memory ran out. Places are counted in bytes
/// from the start of the file.
#[derive(Clone, Copy, Debug, PartialEq, Eq)]
pub enum LoadError {
    /// They don't begin with `RITE0300`.
    NotRite,
    /// The compiler's name isn't `RBWN`, or its version is neither `0001` nor `0002`.
    Foreign { name: [u8; 4] },
    /// They end at this place, within the header or before the size that it names.
    Truncated { at: u64 },
    /// The section at this place is wrong, or the file goes on or ends there.
    BadSection { at: u64 },
    /// The field of a record at this place is wrong or passes the section's end.
    BadRecord { at: u64 },
    /// Memory ran out.
    NoMemory,
}

impl LoadError {
    ghost use Rattle.rite_file.specs.Refusal.{refusal_of};

    /// Why the file is refused. None where memory ran out.
    pub fn refusal(self) -> Option<Refusal>
        ensures { result ≡ refusal_of self }
    {
        match self {
            LoadError::NotRite => Some(Refusal::NotRite),
            LoadError::Foreign { name } => Some(Refusal::Foreign { name }),
            LoadError::Truncated { at } => Some(Refusal::Truncated { at }),
            LoadError::BadSection { at } => Some(Refusal::BadSection { at }),
            LoadError::BadRecord { at } => Some(Refusal::BadRecord { at }),
            LoadError::NoMemory => None,
        }
    }
}

impl From<AllocError> for LoadError {
    ghost from_gives = { λ _ e. e ≡ NoMemory };

    fn from(_refused: AllocError) -> LoadError {
        LoadError::NoMemory
    }
}

impl<T: Drop> From<AllocFailed<T>> for LoadError {
    ghost from_gives = { λ _ e. e ≡ NoMemory };

    fn from(_refused: AllocFailed<T>) -> LoadError {
        LoadError::NoMemory
    }
}
