//! Heads of heredocs.
ghost use Rattle.std.specs.Prelude.{◌≡◌, ◌≤◌, ◌<◌, ◌+◌, length, drop, IfSome};
ghost use Rattle.lexer_steps.specs.State.{state_of};
ghost use Rattle.rb_lexer.specs.Heads as heads;

use lexer_steps::scan::{byte_at, name_end};
use lexer_steps::state::Lexer;
use lexer_tables::bytes::{is_capital, is_name_start};

/// A head of a heredoc in the text.
#[derive(Clone, Copy, Debug, PartialEq, Eq)]
pub struct HeadPlace {
    /// Where its identifier begins and ends.
    pub from: usize,
    pub to: usize,
    /// The place after the head.
    pub end: usize,
    /// The byte after `<<`.
    pub dash: u8,
    /// The quote before the identifier, or the first byte of one without quotes.
    pub first: u8,
}

/// Where the identifier in quotes ends: at the quote or the end of the line.
#[tactic(auto, unfolding(crate::specs::Heads::quoted_end))]
fn quoted_end(text: &[u8], from: usize, quote: u8) -> usize
    requires { from ≤ length text.now }
    ensures forward { from ≤ result }
    ensures within { result ≤ length text.now }
    ensures value { result ≡ heads.quoted_end quote from (drop from text.now) }
{
    let mut at = from;
    'bytes: while at < text.len() && !ends_quoted(text[at], quote) {
        at += 1;
    }
    at
}

fn ends_quoted(byte: u8, quote: u8) -> bool
    ensures { result ≡ heads.ends_quoted quote byte }
{
    byte == quote || byte == b'\n'
}

fn is_quote(byte: u8) -> bool
    ensures { result ≡ heads.is_quote byte }
{
    byte == b'"' || byte == b'\''
}

/// Whether white space may stand before the identifier in the line that ends the body, by the byte after `<<`.
pub fn is_indented(dash: u8) -> bool
    ensures { result ≡ heads.is_indented dash }
{
    dash == b'-' || dash == b'~'
}

/// The head whose `<<` stands at a place.
#[tactic(auto, unfolding(crate::specs::Heads::head_at))]
fn head_at(text: &[u8], at: usize) -> Option<HeadPlace>
    requires { at + 1 < length text.now }
    ensures value { result ≡ heads.head_at text.now at }
    ensures order { IfSome result (λ h. (h.from ≤ h.to) × (h.to ≤ h.end) × (at + 2 < h.end)) }
    ensures within { IfSome result (λ h. h.end ≤ length text.now) }
{
    let dash = byte_at(text, at + 2);
    let start = if is_indented(dash) { at + 3 } else { at + 2 };
    let first = byte_at(text, start);
    if is_quote(first) {
        let to = quoted_end(text, start + 1, first);
        if byte_at(text, to) != first {
            return None;
        }
        Some(HeadPlace {
            from: start + 1,
            to,
            end: to + 1,
            dash,
            first,
        })
    } else if is_name_start(first) {
        let to = name_end(text, start + 1);
        Some(HeadPlace {
            from: start,
            to,
            end: to,
            dash,
            first,
        })
    } else {
        None
    }
}

/// Whether a head begins a heredoc after an identifier and white space.
fn is_plain_head(head: HeadPlace) -> bool
    ensures { result ≡ heads.is_plain_head head }
{
    is_quote(head.first) || is_capital(head.first) || head.dash == b'~'
}

/// The head of a heredoc that begins at a place.
#[tactic(auto, unfolding(crate::specs::Heads::begins_heredoc))]
pub fn begins_heredoc(lexer: &Lexer, text: &[u8], at: usize) -> Option<HeadPlace>
    requires { at < length text.now }
    ensures value { result ≡ heads.begins_heredoc text.now at (state_of lexer.now) }
    ensures order { IfSome result (λ h. (h.from ≤ h.to) × (h.to ≤ h.end) × (at + 2 < h.end)) }
    ensures within { IfSome result (λ h. h.end ≤ length text.now) }
{
    if text[at] != b'<' || byte_at(text, at + 1) != b'<' || lexer.context.wants_name() {
        return None;
    }
    let head = head_at(text, at)?;
    if lexer.context.expects_value() {
        return Some(head);
    }
    if lexer.context.is_name() && lexer.space && is_plain_head(head) {
        return Some(head);
    }
    None
}
