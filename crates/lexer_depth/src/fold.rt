//! How deep tokens are.
ghost use Rattle.std.specs.Prelude.{◌≡◌, min};
ghost use Rattle.lexer_depth.specs.Levels.{deep};

use crate::effect::{effect_of, is_word};
use crate::stack::{Stack, TOO_DEEP};
use rb_syntax::Token;

/// How deep the tokens are, or 257 where they are deeper than 256.
///
/// An open bracket and an opening keyword start a level within the level that they stand in. A level's value is
/// the greatest sum of how many operators, dots, modifiers, indexes and chained names one of its statements has and
/// of how deep the levels within that statement are. It takes no memory.
#[tactic(auto, unfolding(crate::specs::Levels::deep))]
pub fn depth(tokens: &[Token]) -> u32
    ensures { result ≡ min (deep tokens.now) 257 }
{
    let mut stack = Stack::new();
    let mut after_word = false;
    'tokens: for token in tokens {
        match stack.apply(effect_of(token, after_word)) {
            Some(()) => {}
            None => return TOO_DEEP,
        }
        after_word = is_word(token);
    }
    stack.finish()
}
