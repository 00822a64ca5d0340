ghost use Rattle.std.specs.Prelude.{◌≡◌};
ghost use Rattle.rb_lower.specs.declared.error.LowerError.TheVariants.{NoMemory};

use rb_syntax::Outside;
use std::alloc::AllocError;

/// Why a tree has no core.
#[derive(Clone, Copy, Debug, PartialEq, Eq)]
pub enum LowerError {
    /// A construct outside the language, with the place of the word that names it.
    Outside { what: Outside, at: u32 },
    /// Memory ran out.
    NoMemory,
}

impl From<AllocError> for LowerError {
    ghost from_gives = { λ _ e. e ≡ NoMemory };

    fn from(_e: AllocError) -> LowerError {
        LowerError::NoMemory
    }
}
