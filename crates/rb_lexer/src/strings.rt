//! The insides of literals.
ghost use Rattle.std.specs.Prelude.{◌≡◌, ◌≤◌, ◌<◌, ◌+◌, length, IfOk, IfErr};
ghost use Rattle.lexer_steps.specs.declared.error.LexError.TheVariants.{NoMemory};
ghost use Rattle.lexer_steps.specs.LexError.{Gives, IsWithin};
ghost use Rattle.lexer_steps.specs.State.{state_of};
ghost use Rattle.rb_lexer.specs.Strings as strings;

use lexer_literals::{Escape, full_escape, plain_escape, word_escape};
use lexer_steps::error::LexError;
use lexer_steps::mode::{Literal, Mode};
use lexer_steps::names::{begins_variable, is_colon, variable_step};
use lexer_steps::scan::byte_at;
use lexer_steps::state::Lexer;
use lexer_tables::Context;
use lexer_tables::bytes::is_white;
use rb_syntax::{Outside, TokenKind};
use std::alloc::Global;

/// A byte that stands for itself, or the one after a backslash.
fn byte_step(lexer: &mut Lexer, at: usize, byte: u8, end: usize) -> Result<usize, LexError>
    requires { at < 4294967296 }
    ensures place { IfOk result (λ e. e ≡ end) }
    ensures value { Gives (λ e. (state_of lexer.new, e)) result (strings.byte_step at byte end (state_of lexer.old)) }
    ensures fault { IfErr result (λ e. e ≡ NoMemory) }
{
    lexer.add_byte(at, byte)?;
    Ok(end)
}

/// What the escape at a place stands for.
fn add_escape(lexer: &mut Lexer, at: usize, escape: Escape) -> Result<usize, LexError>
    requires { at < 4294967296 }
    ensures place { IfOk result (λ e. e ≡ escape.end) }
    ensures value { Gives (λ e. (state_of lexer.new, e)) result (strings.add_escape escape at (state_of lexer.old)) }
    ensures fault { IfErr result (λ e. e ≡ NoMemory) }
{
    lexer.add_escaped(at, escape.stands_for)?;
    Ok(escape.end)
}

/// An escape after the backslash at a place.
#[tactic(auto, unfolding(crate::specs::Strings::escape_step))]
fn escape_step(lexer: &mut Lexer, text: &[u8], at: usize) -> Result<usize, LexError>
    requires place { at < length text.now }
    requires small { length text.now < 4294967296 }
    ensures within { IfOk result (λ e. (at < e) × (e ≤ length text.now)) }
    ensures value { Gives (λ e. (state_of lexer.new, e)) result (strings.escape_step text.now at (state_of lexer.old)) }
    ensures fault { IfErr result (λ e. IsWithin (length text.now) e) }
{
    match full_escape(text, at + 1) {
        Ok(escape) => add_escape(lexer, at, escape),
        Err(fault) => Err(LexError::Syntax {
            at: fault.at as u32,
        }),
    }
}

/// The `#{` at a place.
fn open_interpolation(alloc: Global, lexer: &mut Lexer, at: usize) -> Result<usize, LexError>
    requires { at < 4294967294 }
    ensures place { IfOk result (λ e. e ≡ at + 2) }
    ensures value { Gives (λ e. (state_of lexer.new, e)) result (strings.open_interpolation at (state_of lexer.old)) }
    ensures fault { IfErr result (λ e. e ≡ NoMemory) }
{
    lexer.flush(alloc)?;
    lexer.push(at, TokenKind::InterpolationBegin, Context::Start)?;
    lexer.enter_interpolation()?;
    Ok(at + 2)
}

/// A `#`: an interpolation of statements or of a variable, or the byte.
#[tactic(auto, unfolding(crate::specs::Strings::hash_step))]
fn hash_step(alloc: Global, lexer: &mut Lexer, text: &[u8], at: usize) -> Result<usize, LexError>
    requires place { at < length text.now }
    requires small { length text.now < 4294967296 }
    ensures within { IfOk result (λ e. (at < e) × (e ≤ length text.now)) }
    ensures value { Gives (λ e. (state_of lexer.new, e)) result (strings.hash_step text.now at (state_of lexer.old)) }
    ensures fault { IfErr result (λ e. IsWithin (length text.now) e) }
{
    let next = byte_at(text, at + 1);
    if next == b'{' {
        open_interpolation(alloc, lexer, at)
    } else if begins_variable(text, at + 1) {
        lexer.flush(alloc)?;
        variable_step(alloc, lexer, text, at + 1)
    } else {
        byte_step(lexer, at, text[at], at + 1)
    }
}

/// A byte of a literal with escapes and interpolation that is no delimiter.
#[tactic(auto, unfolding(crate::specs::Strings::double_step))]
fn double_step(alloc: Global, lexer: &mut Lexer, text: &[u8], at: usize) -> Result<usize, LexError>
    requires place { at < length text.now }
    requires small { length text.now < 4294967296 }
    ensures within { IfOk result (λ e. (at < e) × (e ≤ length text.now)) }
    ensures value { Gives (λ e. (state_of lexer.new, e)) result (strings.double_step text.now at (state_of lexer.old)) }
    ensures fault { IfErr result (λ e. IsWithin (length text.now) e) }
{
    match text[at] {
        b'\\' => escape_step(lexer, text, at),
        b'#' => hash_step(alloc, lexer, text, at),
        byte => byte_step(lexer, at, byte, at + 1),
    }
}

/// The end of a string at a place; a colon after it makes it a key.
#[tactic(auto, unfolding(crate::specs::Strings::end_step))]
fn end_step(
    alloc: Global,
    lexer: &mut Lexer,
    key: Option<u32>,
    text: &[u8],
    at: usize,
) -> Result<usize, LexError>
    requires place { at < length text.now }
    requires small { length text.now < 4294967296 }
    ensures within { IfOk result (λ e. (at < e) × (e ≤ length text.now)) }
    ensures value { Gives (λ e. (state_of lexer.new, e)) result
        (strings.end_step key text.now at (state_of lexer.old)) }
    ensures fault { IfErr result (λ e. IsWithin (length text.now) e) }
{
    lexer.flush(alloc)?;
    if let Some(begin) = key {
        if is_colon(text, at + 1) {
            let kind = TokenKind::Outside(Outside::QuotedLabel);
            lexer.push(begin as usize, kind, Context::Value)?;
            lexer.leave();
            return Ok(at + 2);
        }
    }
    lexer.push(at, TokenKind::LiteralEnd, Context::Operand)?;
    lexer.leave();
    Ok(at + 1)
}

/// The literal with so many open delimiters.
fn with_depth(literal: Literal, depth: usize) -> Literal
    ensures { result ≡ strings.with_depth literal depth }
{
    Literal {
        delimiters: literal.delimiters,
        depth,
        double: literal.double,
        key: literal.key,
    }
}

/// A delimiter at a place that nests.
fn nest_step(lexer: &mut Lexer, mode: Mode, at: usize, byte: u8) -> Result<usize, LexError>
    requires { at < 4294967295 }
    ensures place { IfOk result (λ e. e ≡ at + 1) }
    ensures value { Gives (λ e. (state_of lexer.new, e)) result (strings.nest_step mode at byte (state_of lexer.old)) }
    ensures fault { IfErr result (λ e. e ≡ NoMemory) }
{
    lexer.leave();
    lexer.enter(mode)?;
    byte_step(lexer, at, byte, at + 1)
}

/// One open delimiter more; memory runs out where their number does not fit.
fn deeper(literal: Literal) -> Result<Literal, LexError>
    ensures value { Gives (λ d. d) result (strings.deeper literal) }
    ensures fault { IfErr result (λ e. e ≡ NoMemory) }
{
    match literal.depth.checked_add(1) {
        Some(depth) => Ok(with_depth(literal, depth)),
        None => Err(LexError::NoMemory),
    }
}

/// A step in a string.
#[tactic(auto, unfolding(crate::specs::Strings::text_step, crate::specs::Strings::single_step))]
pub fn text_step(
    alloc: Global,
    lexer: &mut Lexer,
    literal: Literal,
    text: &[u8],
    at: usize,
) -> Result<usize, LexError>
    requires place { at < length text.now }
    requires small { length text.now < 4294967296 }
    ensures within { IfOk result (λ e. (at < e) × (e ≤ length text.now)) }
    ensures value { Gives (λ e. (state_of lexer.new, e)) result
        (strings.text_step literal text.now at (state_of lexer.old)) }
    ensures fault { IfErr result (λ e. IsWithin (length text.now) e) }
{
    let byte = text[at];
    if byte == literal.delimiters.close {
        if literal.depth == 0 {
            return end_step(alloc, lexer, literal.key, text, at);
        }
        let mode = Mode::Text(with_depth(literal, literal.depth - 1));
        return nest_step(lexer, mode, at, byte);
    }
    if byte == literal.delimiters.open {
        let mode = Mode::Text(deeper(literal)?);
        return nest_step(lexer, mode, at, byte);
    }
    if literal.double {
        double_step(alloc, lexer, text, at)
    } else if byte == b'\\' {
        let escape = plain_escape(text, at + 1, literal.delimiters);
        add_escape(lexer, at, escape)
    } else {
        byte_step(lexer, at, byte, at + 1)
    }
}

/// A step in a list of words.
#[tactic(auto, unfolding(crate::specs::Strings::words_step, crate::specs::Strings::word_byte_step))]
pub fn words_step(
    alloc: Global,
    lexer: &mut Lexer,
    literal: Literal,
    text: &[u8],
    at: usize,
) -> Result<usize, LexError>
    requires place { at < length text.now }
    requires small { length text.now < 4294967296 }
    ensures within { IfOk result (λ e. (at < e) × (e ≤ length text.now)) }
    ensures value { Gives (λ e. (state_of lexer.new, e)) result
        (strings.words_step literal text.now at (state_of lexer.old)) }
    ensures fault { IfErr result (λ e. IsWithin (length text.now) e) }
{
    let byte = text[at];
    if is_white(byte) {
        lexer.flush_word(alloc)?;
        return Ok(at + 1);
    }
    if byte == literal.delimiters.close {
        if literal.depth == 0 {
            return words_end_step(alloc, lexer, at);
        }
        let mode = Mode::Words(with_depth(literal, literal.depth - 1));
        return nest_step(lexer, mode, at, byte);
    }
    if byte == literal.delimiters.open {
        let mode = Mode::Words(deeper(literal)?);
        return nest_step(lexer, mode, at, byte);
    }
    if byte != b'\\' {
        return byte_step(lexer, at, byte, at + 1);
    }
    let escape = word_escape(text, at + 1, literal.delimiters);
    add_escape(lexer, at, escape)
}

/// The end of a list of words.
fn words_end_step(alloc: Global, lexer: &mut Lexer, at: usize) -> Result<usize, LexError>
    requires { at < 4294967295 }
    ensures place { IfOk result (λ e. e ≡ at + 1) }
    ensures value { Gives (λ e. (state_of lexer.new, e)) result (strings.words_end_step at (state_of lexer.old)) }
    ensures fault { IfErr result (λ e. e ≡ NoMemory) }
{
    lexer.flush_word(alloc)?;
    lexer.push(at, TokenKind::LiteralEnd, Context::Operand)?;
    lexer.leave();
    Ok(at + 1)
}

/// A step in the body of a heredoc.
#[tactic(auto, unfolding(crate::specs::Strings::body_step))]
pub fn body_step(
    alloc: Global,
    lexer: &mut Lexer,
    double: bool,
    text: &[u8],
    at: usize,
) -> Result<usize, LexError>
    requires place { at < length text.now }
    requires small { length text.now < 4294967296 }
    ensures within { IfOk result (λ e. (at < e) × (e ≤ length text.now)) }
    ensures value { Gives (λ e. (state_of lexer.new, e)) result
        (strings.body_step double text.now at (state_of lexer.old)) }
    ensures fault { IfErr result (λ e. IsWithin (length text.now) e) }
{
    if double {
        double_step(alloc, lexer, text, at)
    } else {
        byte_step(lexer, at, text[at], at + 1)
    }
}
