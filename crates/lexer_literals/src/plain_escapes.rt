//! Escapes of literals without interpolation.
ghost use Rattle.std.specs.Prelude.{◌≡◌, ◌≤◌, length};
ghost use Rattle.lexer_literals.specs.PlainEscapes.{byte_escape, is_word_space, is_mark, plain_escape_at, word_escape_at};

use crate::escaped::{Escape, Escaped};

/// The bytes that open and close a literal; the two are one byte but for brackets.
#[derive(Clone, Copy, Debug, PartialEq, Eq)]
pub struct Delimiters {
    pub open: u8,
    pub close: u8,
}

/// The escape of a literal as `'..'` or `%q(..)` after the backslash before `at`, a byte offset: a delimiter
/// and a backslash stand for themselves. Before any other byte, and at the text's end, the backslash stands for
/// itself, and the byte is none of the escape.
#[tactic(auto, unfolding(crate::specs::PlainEscapes::plain_escape_at))]
pub fn plain_escape(text: &[u8], at: usize, delimiters: Delimiters) -> Escape
    requires { at ≤ length text.now }
    ensures value { result ≡ plain_escape_at text.now at delimiters }
    ensures forward { at ≤ result.end }
    ensures within { result.end ≤ length text.now }
{
    match text.get(at) {
        Some(byte) if is_mark(*byte, delimiters) => byte_escape(at + 1, *byte),
        _ => byte_escape(at, b'\\'),
    }
}

/// The same of a list of words as `%w(..)` or `%i(..)`, where white space stands for itself, too.
#[tactic(auto, unfolding(crate::specs::PlainEscapes::word_escape_at))]
pub fn word_escape(text: &[u8], at: usize, delimiters: Delimiters) -> Escape
    requires { at ≤ length text.now }
    ensures value { result ≡ word_escape_at text.now at delimiters }
    ensures forward { at ≤ result.end }
    ensures within { result.end ≤ length text.now }
{
    match text.get(at) {
        Some(byte) if is_word_space(*byte) => byte_escape(at + 1, *byte),
        _ => plain_escape(text, at, delimiters),
    }
}

/// Whether the byte is white space between words: space, tab, newline or carriage return.
pub fn is_word_space(byte: u8) -> bool
    ensures { result ≡ is_word_space byte }
{
    byte == b' ' || byte == b'\t' || byte == b'\n' || byte == b'\r'
}

/// Whether the byte is a delimiter or a backslash.
fn is_mark(byte: u8, delimiters: Delimiters) -> bool
    ensures { result ≡ is_mark byte delimiters }
{
    byte == delimiters.open || byte == delimiters.close || byte == b'\\'
}

fn byte_escape(end: usize, byte: u8) -> Escape
    ensures { result ≡ byte_escape end byte }
{
    Escape {
        end,
        stands_for: Escaped::Byte(byte),
    }
}
