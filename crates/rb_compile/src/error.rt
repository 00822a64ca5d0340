ghost use Rattle.std.specs.Prelude.{◌≡◌};
ghost use Rattle.rb_compile.specs.declared.error.CompileError.TheVariants.{NoMemory};
ghost use Rattle.rb_compile.specs.Errors.{front_error};

use rb_front::FrontError;
use rb_refusal::Refusal;
use rb_syntax::{Count, Outside};
use std::alloc::AllocError;

/// Why a text isn't compiled. `at` is a place in the text, at most its length.
#[derive(Clone, Copy, Debug, PartialEq, Eq)]
pub enum CompileError {
    /// The text has more than 16,777,216 bytes, or a count of its code exceeds its limit.
    TooLarge { what: Count, count: u64 },
    /// The text has no tokens, or these have no tree, or a word stands where it may not.
    Syntax { at: u32 },
    /// The tokens are more than 256 deep.
    TooDeep,
    /// A construct outside the language, with the place of the word that names it; or one that isn't built.
    Outside { what: Outside, at: u32 },
    /// Memory ran out.
    NoMemory,
}

impl CompileError {
    ghost use Rattle.rb_compile.specs.Refusal.{refusal_of};

    /// Why the source is refused. None where memory ran out.
    pub fn refusal(self) -> Option<Refusal>
        ensures { result ≡ refusal_of self }
    {
        match self {
            CompileError::TooLarge { what, count } => Some(Refusal::TooLarge { what, count }),
            CompileError::Syntax { at } => Some(Refusal::Syntax { at }),
            CompileError::TooDeep => Some(Refusal::TooDeep),
            CompileError::Outside { what, at } => Some(Refusal::Outside { what, at }),
            CompileError::NoMemory => None,
        }
    }
}

impl From<FrontError> for CompileError {
    ghost from_gives = { λ e c. c ≡ front_error e };

    fn from(error: FrontError) -> CompileError {
        match error {
            FrontError::TooLong => CompileError::TooLarge {
                what: Count::Source,
                count: 16_777_217,
            },
            FrontError::Syntax { at } => CompileError::Syntax { at },
            FrontError::TooDeep => CompileError::TooDeep,
            FrontError::Outside { what, at } => CompileError::Outside { what, at },
            FrontError::NoMemory => CompileError::NoMemory,
        }
    }
}

impl From<AllocError> for CompileError {
    ghost from_gives = { λ _ c. c ≡ NoMemory };

    fn from(_refused: AllocError) -> CompileError {
        CompileError::NoMemory
    }
}
