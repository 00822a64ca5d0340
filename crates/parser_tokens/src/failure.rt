ghost use Rattle.std.specs.Prelude.{◌≡◌, length};
ghost use Rattle.parser_tokens.specs.declared.failure.Failure.TheVariants.{NoMemory};

use rb_syntax::Token;
use std::alloc::{AllocError, AllocFailed};

/// Why a rule read nothing: the front isn't of the rule, up to how many tokens are left, or memory ran out.
#[derive(Clone, Copy, Debug, PartialEq, Eq)]
pub enum Failure {
    Syntax { left: usize },
    NoMemory,
}

impl From<AllocError> for Failure {
    ghost from_gives = { λ _ e. e ≡ NoMemory };

    fn from(_refused: AllocError) -> Failure {
        Failure::NoMemory
    }
}

impl<T: Drop> From<AllocFailed<T>> for Failure {
    ghost from_gives = { λ _ e. e ≡ NoMemory };

    fn from(_refused: AllocFailed<T>) -> Failure {
        Failure::NoMemory
    }
}

/// A failure at the front of these tokens.
pub fn syntax(tokens: &[Token]) -> Failure
    ensures { result ≡ Failure.Syntax (length tokens.now) }
{
    Failure::Syntax { left: tokens.len() }
}
