//! Control and meta characters.
ghost use Rattle.std.specs.Prelude.{◌≡◌, ◌≤◌, ◌<◌, length, IfOk, IfErr, IfSome};
ghost use Rattle.lexer_literals.specs.Modified as modified;

use crate::bytes::byte_at;
use crate::escaped::{Escape, Escaped};
use crate::escapes::plain_character;
use crate::fault::Fault;

/// What the letters after a backslash make of the character after them.
#[derive(Clone, Copy, Debug, PartialEq, Eq)]
pub enum Modifier {
    /// `c` or `C-`
    Control,
    /// `M-`
    Meta,
}

impl Modifier {
    ghost use Rattle.std.specs.Prelude.{◌≡◌};
    ghost use Rattle.lexer_literals.specs.Modified as modified;

    /// The byte of a control character has its bits 5 and 6 cleared, that of a meta character its bit 7 set.
    fn change(self, byte: u8) -> u8
        ensures { result ≡ modified.changed self byte }
    {
        match self {
            Modifier::Control => byte % 32 + byte / 128 * 128,
            Modifier::Meta => byte % 128 + 128,
        }
    }

    /// The same of a character that is no escape; `?` as a control character is 0x7F.
    fn change_byte(self, byte: u8) -> u8
        ensures { result ≡ modified.changed_byte self byte }
    {
        if self == Modifier::Control && byte == b'?' {
            127
        } else {
            self.change(byte)
        }
    }
}

/// What the letters at a place, after a backslash, make of the character after them.
fn modifier_at(text: &[u8], at: usize) -> Option<Modifier>
    requires { at ≤ length text.now }
    ensures value { result ≡ modified.modifier_at text.now at }
    ensures within { IfSome result (λ m. modified.modifier_end text.now at ≤ length text.now) }
{
    let first = byte_at(text, at);
    if first == b'c' {
        return Some(Modifier::Control);
    }
    if byte_at(text, at + 1) != b'-' {
        return None;
    }
    match first {
        b'C' => Some(Modifier::Control),
        b'M' => Some(Modifier::Meta),
        _ => None,
    }
}

/// The place after those letters.
fn modifier_end(text: &[u8], at: usize) -> usize
    requires { modified.modifier_end text.now at ≤ length text.now }
    ensures { result ≡ modified.modifier_end text.now at }
{
    if byte_at(text, at) == b'c' {
        at + 1
    } else {
        at + 2
    }
}

/// The character at a place that is no escape.
fn changed(modifier: Modifier, text: &[u8], at: usize) -> Result<Escape, Fault>
    requires { at ≤ length text.now }
    ensures value { result ≡ modified.changed_at modifier text.now at }
    ensures forward { IfOk result (λ e. at ≤ e.end) }
    ensures within { IfOk result (λ e. e.end ≤ length text.now) }
    ensures fault { IfErr result (λ f. f.at ≤ length text.now) }
{
    match text.get(at) {
        Some(byte) if *byte <= 127 => Ok(Escape {
            end: at + 1,
            stands_for: Escaped::Byte(modifier.change_byte(*byte)),
        }),
        _ => Err(Fault { at }),
    }
}

/// The escape that begins at the backslash at a place, after the letters; a character of more than a byte is a fault
/// there.
fn changed_escape(modifier: Modifier, at: usize, escape: Escape) -> Result<Escape, Fault>
    ensures { result ≡ modified.changed_escape modifier at escape.stands_for escape.end }
{
    let byte = match escape.stands_for {
        Escaped::Nothing => b'\n',
        Escaped::Byte(byte) => byte,
        Escaped::Character(_) => return Err(Fault { at }),
    };
    Ok(Escape {
        end: escape.end,
        stands_for: Escaped::Byte(modifier.change(byte)),
    })
}

/// The character after the letters: a byte, or an escape that begins with no such letters.
#[tactic(auto, unfolding(crate::specs::Modified::once_at))]
fn once(modifier: Modifier, text: &[u8], at: usize) -> Result<Escape, Fault>
    requires { at ≤ length text.now }
    ensures value { result ≡ modified.once_at modifier text.now at }
    ensures forward { IfOk result (λ e. at ≤ e.end) }
    ensures within { IfOk result (λ e. e.end ≤ length text.now) }
    ensures fault { IfErr result (λ f. f.at ≤ length text.now) }
{
    if byte_at(text, at) != b'\\' {
        return changed(modifier, text, at);
    }
    changed_escape(modifier, at, plain_character(text, at + 1)?)
}

/// The escape after a backslash within those letters; they may stand there once more, if they are the other ones.
#[tactic(auto, unfolding(crate::specs::Modified::within_at))]
fn escape_within(modifier: Modifier, text: &[u8], at: usize) -> Result<Escape, Fault>
    requires { at ≤ length text.now }
    ensures value { result ≡ modified.within_at modifier text.now at }
    ensures forward { IfOk result (λ e. at ≤ e.end) }
    ensures within { IfOk result (λ e. e.end ≤ length text.now) }
    ensures fault { IfErr result (λ f. f.at ≤ length text.now) }
{
    match modifier_at(text, at) {
        None => plain_character(text, at),
        Some(inner) => {
            if inner == modifier {
                Err(Fault { at })
            } else {
                once(inner, text, modifier_end(text, at))
            }
        }
    }
}

/// The character after the first of the letters.
#[tactic(auto, unfolding(crate::specs::Modified::twice_at))]
fn twice(modifier: Modifier, text: &[u8], at: usize) -> Result<Escape, Fault>
    requires { at ≤ length text.now }
    ensures value { result ≡ modified.twice_at modifier text.now at }
    ensures forward { IfOk result (λ e. at ≤ e.end) }
    ensures within { IfOk result (λ e. e.end ≤ length text.now) }
    ensures fault { IfErr result (λ f. f.at ≤ length text.now) }
{
    if byte_at(text, at) != b'\\' {
        return changed(modifier, text, at);
    }
    changed_escape(modifier, at, escape_within(modifier, text, at + 1)?)
}

/// The escape of a literal as `".."` after the backslash before `at`, a byte offset. `cX` and `C-X` are the control
/// character of X, `M-X` is the meta character; X is a byte of ASCII or an escape of one byte, maybe one of the other of
/// the two. What other letters and digits stand for is said at [`plain_character`].
///
/// A fault where there is none, or where such letters have no character.
#[tactic(auto, unfolding(crate::specs::Modified::full_escape_at))]
pub fn full_escape(text: &[u8], at: usize) -> Result<Escape, Fault>
    requires { at ≤ length text.now }
    ensures value { result ≡ modified.full_escape_at text.now at }
    ensures forward { IfOk result (λ e. at ≤ e.end) }
    ensures within { IfOk result (λ e. e.end ≤ length text.now) }
    ensures fault { IfErr result (λ f. f.at ≤ length text.now) }
{
    match modifier_at(text, at) {
        Some(modifier) => twice(modifier, text, modifier_end(text, at)),
        None => plain_character(text, at),
    }
}
