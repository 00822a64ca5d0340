//! One step of reading: outside of literals, and in what the place is inside of.
ghost use Rattle.std.specs.Prelude.{◌≡◌, ◌≤◌, ◌<◌, length, IfOk, IfErr};
ghost use Rattle.lexer_steps.specs.LexError.{Gives, IsWithin};
ghost use Rattle.lexer_steps.specs.State.{state_of, top};
ghost use Rattle.rb_lexer.specs.Code as code;

use crate::strings::{body_step, text_step, words_step};
use lexer_steps::error::LexError;
use lexer_steps::mode::Mode;
use lexer_steps::names::{
    is_end_marker, operator_end, push_operator, push_wide, variable_step, word_step,
};
use lexer_steps::signs::sign_step;
use lexer_steps::state::Lexer;
use lexer_steps::trivia::{is_trivia, trivia_step};
use lexer_tables::bytes::{is_name_start, is_wide};
use std::alloc::Global;

/// A word, or the line that ends the text.
fn word_or_end_step(
    alloc: Global,
    lexer: &mut Lexer,
    text: &[u8],
    at: usize,
) -> Result<usize, LexError>
    requires place { at < length text.now }
    requires small { length text.now < 4294967296 }
    ensures within { IfOk result (λ e. (at < e) × (e ≤ length text.now)) }
    ensures value { Gives (λ e. (state_of lexer.new, e)) result
        (code.word_or_end_step text.now at (state_of lexer.old)) }
    ensures fault { IfErr result (λ e. IsWithin (length text.now) e) }
{
    if is_end_marker(text, at) {
        Ok(text.len())
    } else {
        word_step(alloc, lexer, text, at)
    }
}

/// A variable, the name of an operator's method where a name is wanted, or a sign.
#[tactic(auto, unfolding(crate::specs::Code::other_step))]
fn other_step(alloc: Global, lexer: &mut Lexer, text: &[u8], at: usize) -> Result<usize, LexError>
    requires place { at < length text.now }
    requires small { length text.now < 4294967296 }
    ensures within { IfOk result (λ e. (at < e) × (e ≤ length text.now)) }
    ensures value { Gives (λ e. (state_of lexer.new, e)) result (code.other_step text.now at (state_of lexer.old)) }
    ensures fault { IfErr result (λ e. IsWithin (length text.now) e) }
{
    let first = text[at];
    if first == b'@' || first == b'$' {
        return variable_step(alloc, lexer, text, at);
    }
    if lexer.context.wants_name() {
        let end = operator_end(text, at);
        if end != at {
            return push_operator(alloc, lexer, text, at, end);
        }
    }
    sign_step(alloc, lexer, text, at)
}

/// A step outside of literals.
#[tactic(auto, unfolding(crate::specs::Code::code_step))]
fn code_step(alloc: Global, lexer: &mut Lexer, text: &[u8], at: usize) -> Result<usize, LexError>
    requires place { at < length text.now }
    requires small { length text.now < 4294967296 }
    ensures within { IfOk result (λ e. (at < e) × (e ≤ length text.now)) }
    ensures value { Gives (λ e. (state_of lexer.new, e)) result (code.code_step text.now at (state_of lexer.old)) }
    ensures fault { IfErr result (λ e. IsWithin (length text.now) e) }
{
    if is_trivia(text, at) {
        return trivia_step(lexer, text, at);
    }
    let first = text[at];
    if is_name_start(first) {
        word_or_end_step(alloc, lexer, text, at)
    } else if is_wide(first) {
        push_wide(lexer, text, at, at)
    } else {
        other_step(alloc, lexer, text, at)
    }
}

/// A step in what the place is inside of.
pub fn step(alloc: Global, lexer: &mut Lexer, text: &[u8], at: usize) -> Result<usize, LexError>
    requires place { at < length text.now }
    requires small { length text.now < 4294967296 }
    ensures within { IfOk result (λ e. (at < e) × (e ≤ length text.now)) }
    ensures value { Gives (λ e. (state_of lexer.new, e)) result (code.step_in (top (state_of lexer.old)) text.now at
        (state_of lexer.old)) }
    ensures fault { IfErr result (λ e. IsWithin (length text.now) e) }
{
    match lexer.top() {
        Some(Mode::Text(literal)) => text_step(alloc, lexer, literal, text, at),
        Some(Mode::Words(literal)) => words_step(alloc, lexer, literal, text, at),
        Some(Mode::Body(double)) => body_step(alloc, lexer, double, text, at),
        _ => code_step(alloc, lexer, text, at),
    }
}
