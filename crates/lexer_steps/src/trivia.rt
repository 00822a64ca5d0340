//! White space, comments and the ends of lines.
ghost use Rattle.std.specs.Prelude.{◌≡◌, ◌≤◌, ◌<◌, false, length, drop, slice_index, IfOk, IfErr, IfSome};
ghost use Rattle.lexer_steps.specs.LexError.{Gives, IsWithin};
ghost use Rattle.lexer_steps.specs.State.{state_of};
ghost use Rattle.lexer_steps.specs.Trivia as trivia;

use crate::error::LexError;
use crate::scan::{byte_at, comment_end, line_end};
use crate::state::Lexer;
use lexer_tables::bytes::{is_blank, is_name_start, is_white};
use lexer_tables::{Context, operator_name};
use rb_syntax::TokenKind;

/// Where a place without tokens lies.
#[derive(Clone, Copy, Debug, PartialEq, Eq)]
pub enum Between {
    /// At the beginning of a line.
    Fresh,
    /// After white space of a line.
    Inside,
    /// In a comment.
    Comment,
    /// At the beginning of a line of a comment of whole lines.
    BlockLine,
    /// In such a line.
    Block,
    /// At a token.
    Token,
}

fn is_token(between: Between) -> bool
    ensures { result ≡ trivia.is_token between }
{
    between == Between::Token
}

/// Whether a comment of whole lines begins at a place that begins a line.
fn begins_block(text: &[u8], at: usize) -> bool
    requires { at ≤ length text.now }
    ensures { result ≡ trivia.begins_block (drop at text.now) }
{
    text[at..].starts_with(b"=begin")
}

/// Whether the last line of such a comment begins at a place.
fn ends_block(text: &[u8], at: usize) -> bool
    requires { at ≤ length text.now }
    ensures { result ≡ trivia.ends_block (drop at text.now) }
{
    text[at..].starts_with(b"=end")
}

/// Whether a place begins a line.
pub fn begins_line(text: &[u8], at: usize) -> bool
    ensures { result ≡ trivia.begins_line text.now at }
{
    at == 0 || byte_at(text, at - 1) == b'\n'
}

/// Whether a comment of whole lines begins at a place.
pub fn is_block(text: &[u8], at: usize) -> bool
    requires { at ≤ length text.now }
    ensures { result ≡ trivia.is_block text.now at }
{
    begins_line(text, at) && begins_block(text, at)
}

/// Where the line begins that ends a comment of whole lines, from a place within its first line; None where
/// there is none.
#[tactic(auto, unfolding(crate::specs::Trivia::block_end))]
fn block_end(text: &[u8], from: usize) -> Option<usize>
    requires { from ≤ length text.now }
    ensures forward { IfSome result (λ end. from ≤ end) }
    ensures within { IfSome result (λ end. end ≤ length text.now) }
    ensures value { result ≡ trivia.block_end from false (drop from text.now) }
{
    let mut at = from;
    let mut fresh = false;
    'bytes: while at < text.len() {
        if fresh && ends_block(text, at) {
            return Some(at);
        }
        fresh = text[at] == b'\n';
        at += 1;
    }
    None
}

/// What a byte makes of where a place lies.
#[tactic(auto, unfolding(crate::specs::Trivia::passing))]
fn passing(between: Between, text: &[u8], at: usize) -> Between
    requires { at < length text.now }
    ensures { result ≡ trivia.passing between (drop at text.now) (slice_index text.now at) }
{
    let byte = text[at];
    match between {
        Between::Fresh => {
            if begins_block(text, at) {
                Between::Block
            } else {
                passing_space(byte)
            }
        }
        Between::Inside => passing_space(byte),
        Between::Comment => passing_comment(byte),
        Between::BlockLine => {
            if ends_block(text, at) {
                Between::Comment
            } else {
                passing_line(byte)
            }
        }
        Between::Block => passing_line(byte),
        Between::Token => Between::Token,
    }
}

fn passing_space(byte: u8) -> Between
    ensures { result ≡ trivia.passing_space byte }
{
    if byte == b'\n' {
        Between::Fresh
    } else if byte == b'#' {
        Between::Comment
    } else if is_blank(byte) {
        Between::Inside
    } else {
        Between::Token
    }
}

fn passing_comment(byte: u8) -> Between
    ensures { result ≡ trivia.passing_comment byte }
{
    if byte == 0 {
        Between::Token
    } else if byte == b'\n' {
        Between::Fresh
    } else {
        Between::Comment
    }
}

fn passing_line(byte: u8) -> Between
    ensures { result ≡ trivia.passing_line byte }
{
    if byte == b'\n' {
        Between::BlockLine
    } else {
        Between::Block
    }
}

/// Where the next token begins after white space and comments, from a place that lies so.
#[tactic(auto, unfolding(crate::specs::Trivia::next_token))]
fn next_token(text: &[u8], from: usize, start: Between) -> usize
    requires { from ≤ length text.now }
    ensures forward { from ≤ result }
    ensures within { result ≤ length text.now }
    ensures value { result ≡ trivia.next_token from start (drop from text.now) }
{
    let mut at = from;
    let mut between = start;
    'bytes: while at < text.len() {
        between = passing(between, text, at);
        if is_token(between) {
            break;
        }
        at += 1;
    }
    at
}

/// Whether a name begins at a place, or that of an operator's method.
fn begins_name(text: &[u8], at: usize) -> bool
    requires { at ≤ length text.now }
    ensures { result ≡ trivia.begins_name text.now at }
{
    let first = byte_at(text, at);
    is_name_start(first) || operator_name(first, byte_at(text, at + 1), byte_at(text, at + 2)) > 0
}

/// Whether a single dot stands at a place, and a name behind it and what is no token.
fn is_dot(text: &[u8], at: usize) -> bool
    ensures value { result ≡ trivia.is_dot text.now at }
{
    byte_at(text, at) == b'.' && begins_name(text, next_token(text, at + 1, Between::Inside))
}

/// The end of a line, after which the next line begins at `next`.
#[tactic(auto, unfolding(crate::specs::Trivia::newline_step))]
pub fn newline_step(
    lexer: &mut Lexer,
    text: &[u8],
    at: usize,
    next: usize,
) -> Result<usize, LexError>
    requires next { next ≤ length text.now }
    requires small { at < 4294967296 }
    ensures within { IfOk result (λ end. (next ≤ end) × (end ≤ length text.now)) }
    ensures value { Gives (λ end. (state_of lexer.new, end)) result
        (trivia.newline_step text.now at next (state_of lexer.old)) }
    ensures fault { IfErr result (λ e. IsWithin (length text.now) e) }
{
    let mut end = next;
    if lexer.context.can_end() {
        let token = next_token(text, next, Between::Fresh);
        if is_dot(text, token) {
            end = token;
        } else {
            lexer.push(at, TokenKind::Newline, Context::Start)?;
        }
    }
    lexer.pass_line();
    Ok(end)
}

/// Whether white space or a comment stands at a place.
pub fn is_trivia(text: &[u8], at: usize) -> bool
    requires { at < length text.now }
    ensures { result ≡ trivia.is_trivia text.now at }
{
    let byte = text[at];
    is_white(byte) || byte == b'#' || byte == b'\\' || is_block(text, at)
}

/// White space or a comment.
#[tactic(auto, unfolding(crate::specs::Trivia::trivia_step))]
pub fn trivia_step(lexer: &mut Lexer, text: &[u8], at: usize) -> Result<usize, LexError>
    requires place { at < length text.now }
    requires small { length text.now < 4294967296 }
    ensures within { IfOk result (λ end. (at < end) × (end ≤ length text.now)) }
    ensures value { Gives (λ end. (state_of lexer.new, end)) result
        (trivia.trivia_step text.now at (state_of lexer.old)) }
    ensures fault { IfErr result (λ e. IsWithin (length text.now) e) }
{
    match text[at] {
        b'\n' => newline_step(lexer, text, at, at + 1),
        b'#' => {
            lexer.pass_space();
            Ok(comment_end(text, at + 1))
        }
        b'\\' => {
            if byte_at(text, at + 1) != b'\n' {
                return Err(LexError::Syntax { at: at as u32 });
            }
            lexer.pass_line();
            Ok(at + 2)
        }
        b'=' => {
            let Some(end) = block_end(text, at + 1) else {
                return Err(LexError::Syntax { at: at as u32 });
            };
            lexer.pass_line();
            Ok(line_end(text, end))
        }
        _ => {
            lexer.pass_space();
            Ok(at + 1)
        }
    }
}
