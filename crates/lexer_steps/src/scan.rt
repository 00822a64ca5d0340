//! Where runs of bytes end.
ghost use Rattle.std.specs.Prelude.{◌≡◌, ◌≤◌, ◌<◌, length, drop, slice_index};
ghost use Rattle.lexer_steps.specs.Scan as scan;

use lexer_tables::bytes::{is_digit, is_name_byte, is_name_start, is_wide};

/// The byte at a place, or 0 past the end.
pub fn byte_at(text: &[u8], at: usize) -> u8
    ensures value { result ≡ slice_index text.now at }
    ensures within { 0 < result → at < length text.now }
{
    match text.get(at) {
        Some(byte) => *byte,
        None => 0,
    }
}

/// The bytes of a run.
#[derive(Clone, Copy, Debug, PartialEq, Eq)]
pub enum Run {
    /// Letters, digits and `_`.
    Name,
    /// Those and bytes past ASCII.
    WideName,
    /// Decimal digits.
    Digits,
    /// Small letters.
    Options,
    /// All but a newline and a zero byte.
    Comment,
}

fn is_wide_name_byte(byte: u8) -> bool
    ensures { result ≡ scan.is_wide_name_byte byte }
{
    is_name_byte(byte) || is_wide(byte)
}

fn ends_comment(byte: u8) -> bool
    ensures { result ≡ scan.ends_comment byte }
{
    byte == b'\n' || byte == 0
}

/// Whether a byte belongs to a run.
fn belongs(run: Run, byte: u8) -> bool
    ensures { result ≡ scan.belongs run byte }
{
    match run {
        Run::Name => is_name_byte(byte),
        Run::WideName => is_wide_name_byte(byte),
        Run::Digits => is_digit(byte),
        Run::Options => byte.is_ascii_lowercase(),
        Run::Comment => !ends_comment(byte),
    }
}

/// Where a run ends.
#[tactic(auto, unfolding(crate::specs::Scan::run_end))]
fn run_end(run: Run, text: &[u8], from: usize) -> usize
    requires { from ≤ length text.now }
    ensures forward { from ≤ result }
    ensures within { result ≤ length text.now }
    ensures value { result ≡ scan.run_end (scan.belongs run) from (drop from text.now) }
{
    let mut at = from;
    'bytes: while at < text.len() && belongs(run, text[at]) {
        at += 1;
    }
    at
}

/// Where letters, digits and `_` end.
#[tactic(auto, unfolding(crate::specs::Scan::name_end))]
pub fn name_end(text: &[u8], from: usize) -> usize
    requires { from ≤ length text.now }
    ensures forward { from ≤ result }
    ensures within { result ≤ length text.now }
    ensures value { result ≡ scan.name_end from (drop from text.now) }
{
    run_end(Run::Name, text, from)
}

/// Where letters, digits, `_` and bytes past ASCII end.
#[tactic(auto, unfolding(crate::specs::Scan::wide_end))]
pub fn wide_end(text: &[u8], from: usize) -> usize
    requires { from ≤ length text.now }
    ensures forward { from ≤ result }
    ensures within { result ≤ length text.now }
    ensures value { result ≡ scan.wide_end from (drop from text.now) }
{
    run_end(Run::WideName, text, from)
}

/// Where decimal digits end.
#[tactic(auto, unfolding(crate::specs::Scan::digit_end))]
pub fn digit_end(text: &[u8], from: usize) -> usize
    requires { from ≤ length text.now }
    ensures forward { from ≤ result }
    ensures within { result ≤ length text.now }
    ensures value { result ≡ scan.digit_end from (drop from text.now) }
{
    run_end(Run::Digits, text, from)
}

/// Where small letters end.
#[tactic(auto, unfolding(crate::specs::Scan::option_end))]
pub fn option_end(text: &[u8], from: usize) -> usize
    requires { from ≤ length text.now }
    ensures forward { from ≤ result }
    ensures within { result ≤ length text.now }
    ensures value { result ≡ scan.option_end from (drop from text.now) }
{
    run_end(Run::Options, text, from)
}

/// Where a comment ends: at a newline or a zero byte.
#[tactic(auto, unfolding(crate::specs::Scan::comment_end))]
pub fn comment_end(text: &[u8], from: usize) -> usize
    requires { from ≤ length text.now }
    ensures forward { from ≤ result }
    ensures within { result ≤ length text.now }
    ensures value { result ≡ scan.comment_end from (drop from text.now) }
{
    run_end(Run::Comment, text, from)
}

/// Where the line ends: after its newline, or at the text's end.
#[tactic(auto, unfolding(crate::specs::Scan::line_end))]
pub fn line_end(text: &[u8], from: usize) -> usize
    requires { from ≤ length text.now }
    ensures forward { from ≤ result }
    ensures within { result ≤ length text.now }
    ensures value { result ≡ scan.line_end from (drop from text.now) }
{
    let mut at = from;
    'bytes: while at < text.len() {
        if text[at] == b'\n' {
            return at + 1;
        }
        at += 1;
    }
    at
}

/// Where a name's mark ends: a `?` or `!` belongs to the name unless a `=` follows that is no part of `==` or `=>`.
#[tactic(auto, unfolding(crate::specs::Scan::mark_end))]
pub fn mark_end(text: &[u8], at: usize) -> usize
    requires { at ≤ length text.now }
    ensures forward { at ≤ result }
    ensures within { result ≤ length text.now }
    ensures value { result ≡ scan.mark_end text.now at }
{
    let mark = byte_at(text, at);
    if mark != b'?' && mark != b'!' {
        return at;
    }
    let after = byte_at(text, at + 2);
    if byte_at(text, at + 1) != b'=' || after == b'=' || after == b'>' {
        at + 1
    } else {
        at
    }
}

/// Where a name after `def` ends, with its `=`.
#[tactic(auto, unfolding(crate::specs::Scan::def_end))]
pub fn def_end(text: &[u8], at: usize) -> usize
    requires { at ≤ length text.now }
    ensures forward { at ≤ result }
    ensures within { result ≤ length text.now }
    ensures value { result ≡ scan.def_end text.now at }
{
    let next = byte_at(text, at + 1);
    if byte_at(text, at) == b'='
        && (next == b'(' || next == b' ' && is_name_start(byte_at(text, at + 2)))
    {
        at + 1
    } else {
        at
    }
}

/// Where the name of a symbol ends, with its mark or its `=`.
#[tactic(auto, unfolding(crate::specs::Scan::symbol_end))]
pub fn symbol_end(text: &[u8], at: usize) -> usize
    requires { at ≤ length text.now }
    ensures forward { at ≤ result }
    ensures within { result ≤ length text.now }
    ensures value { result ≡ scan.symbol_end text.now at }
{
    if byte_at(text, at) != b'=' {
        return mark_end(text, at);
    }
    let next = byte_at(text, at + 1);
    if next == b'=' || next == b'~' || next == b'>' {
        at
    } else {
        at + 1
    }
}
