ghost use Rattle.std.specs.Prelude.{◌≡◌};
ghost use Rattle.lexer_steps.specs.declared.error.LexError.TheVariants.{NoMemory};

use std::alloc::{AllocError, AllocFailed};

/// Why there are no tokens.
#[derive(Clone, Copy, Debug, PartialEq, Eq)]
pub enum LexError {
    /// The text can't be read as tokens. `at` is a byte offset, at most the text's length.
    Syntax { at: u32 },
    NoMemory,
}

impl From<AllocError> for LexError {
    ghost from_gives = { λ _ e. e ≡ NoMemory };

    fn from(_e: AllocError) -> LexError {
        LexError::NoMemory
    }
}

impl<T: Drop> From<AllocFailed<T>> for LexError {
    ghost from_gives = { λ _ e. e ≡ NoMemory };

    fn from(_e: AllocFailed<T>) -> LexError {
        LexError::NoMemory
    }
}
