//! Literals outside the language, up to their closing delimiter.
ghost use Rattle.std.specs.Prelude.{◌≡◌, ◌≤◌, ◌<◌, length, drop, false, IfOk, IfErr, IfSome};
ghost use Rattle.lexer_steps.specs.LexError.{Gives, IsWithin};
ghost use Rattle.lexer_steps.specs.State.{state_of};
ghost use Rattle.lexer_steps.specs.Closed as closed;

use crate::error::LexError;
use crate::scan::option_end;
use crate::signs::closing;
use crate::state::Lexer;
use lexer_tables::Context;
use rb_syntax::{Outside, TokenKind};

/// The place after the delimiter that closes what `open` opened before `from`; a backslash takes the next byte.
#[tactic(auto, unfolding(crate::specs::Closed::closed_end))]
fn closed_end(text: &[u8], from: usize, opener: u8, closer: u8) -> Option<usize>
    requires { from ≤ length text.now }
    ensures forward { IfSome result (λ e. from < e) }
    ensures within { IfSome result (λ e. e ≤ length text.now) }
    ensures value { result ≡ closed.closed_end opener closer false 0 from (drop from text.now) }
{
    let mut at = from;
    let mut escaped = false;
    let mut depth: usize = 0;
    'bytes: while at < text.len() {
        let byte = text[at];
        if escaped {
            escaped = false;
        } else if byte == b'\\' {
            escaped = true;
        } else if byte == closer {
            if depth == 0 {
                return Some(at + 1);
            }
            depth -= 1;
        } else if byte == opener {
            depth += 1;
        }
        at += 1;
    }
    None
}

/// A literal outside the language whose contents begin at `from` after the delimiter `open`. Letters after a
/// regular expression belong to it.
#[tactic(auto, unfolding(crate::specs::Closed::outside_step))]
pub fn outside_step(
    lexer: &mut Lexer,
    text: &[u8],
    at: usize,
    from: usize,
    opener: u8,
    what: Outside,
) -> Result<usize, LexError>
    requires forward { at < from }
    requires within { from ≤ length text.now }
    requires small { length text.now < 4294967296 }
    ensures within { IfOk result (λ e. (at < e) × (e ≤ length text.now)) }
    ensures value { Gives (λ e. (state_of lexer.new, e)) result (closed.outside_step text.now at from opener what
        (state_of lexer.old)) }
    ensures fault { IfErr result (λ e. IsWithin (length text.now) e) }
{
    let Some(end) = closed_end(text, from, opener, closing(opener)) else {
        return Err(LexError::Syntax { at: at as u32 });
    };
    lexer.push(at, TokenKind::Outside(what), Context::Operand)?;
    if opener == b'/' {
        Ok(option_end(text, end))
    } else {
        Ok(end)
    }
}
