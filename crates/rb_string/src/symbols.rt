//! Symbols as a program would write them (ISO/IEC 30170:2012, 15.2.11).
ghost use Rattle.std.specs.Prelude.{◌≡◌, IfOk};
ghost use Rattle.std.specs.List.{list_any, prefix_len};
ghost use Rattle.std.specs.Str.{bytes_eq};
ghost use Rattle.rb_string.specs.Symbols as names;

use crate::failure::StringFailure;
use crate::inspection::quoted;
use crate::making::joined;
use crate::part::{byte_or_zero, rest};
use crate::stripping::without_last;
use rb_base::Bytes;
use std::alloc::{AllocError, Global};

/// The names of methods that are operators.
const OPERATORS: [&[u8]; 28] = [
    b"!", b"!=", b"!~", b"%", b"&", b"*", b"**", b"+", b"+@", b"-", b"-@", b"/", b"<", b"<<",
    b"<=", b"<=>", b"==", b"===", b"=~", b">", b">=", b">>", b"[]", b"[]=", b"^", b"`", b"|", b"~",
];

/// Whether a name may begin with the byte: a letter or `_`.
fn begins_name(byte: u8) -> bool
    ensures { result ≡ names.begins_name byte }
{
    byte.is_ascii_alphabetic() || byte == b'_'
}

/// Whether a name may go on with the byte: a letter, a digit or `_`.
fn is_name_byte(byte: u8) -> bool
    ensures { result ≡ names.is_name_byte byte }
{
    begins_name(byte) || byte.is_ascii_digit()
}

/// How many bytes at the start may stand in a name.
fn name_length(text: &[u8]) -> usize
    ensures { result ≡ prefix_len names.is_name_byte text.now }
{
    let mut end = 0;
    'bytes: while end < text.len() {
        if !is_name_byte(text[end]) {
            break;
        }
        end += 1;
    }
    end
}

/// Whether the text is a name.
fn is_name(text: &[u8]) -> bool
    ensures { result ≡ names.is_name text.now }
{
    begins_name(byte_or_zero(text, 0)) && name_length(text) == text.len()
}

/// The text without the mark of a method at its end: `?`, `!` or `=`.
fn without_mark(text: &[u8]) -> &[u8]
    ensures { result.now ≡ names.without_mark text.now }
{
    let last = byte_or_zero(text, text.len().saturating_sub(1));
    if last == b'?' || last == b'!' || last == b'=' {
        without_last(text, 1)
    } else {
        text
    }
}

/// Whether the text is one of these names.
fn is_among(text: &[u8], operators: &[&[u8]]) -> bool
    ensures { result ≡ list_any (λ name. bytes_eq text.now name.now) operators.now }
{
    operators.iter().any(|name| text == *name)
}

/// Whether the text is an operator.
#[tactic(auto, unfolding(crate::specs::Symbols::operators))]
fn is_operator(text: &[u8]) -> bool
    ensures { result ≡ names.is_operator text.now }
{
    is_among(text, &OPERATORS)
}

/// Whether the text is the name of an instance variable or of a global one.
fn is_variable(text: &[u8]) -> bool
    ensures { result ≡ names.is_variable text.now }
{
    let first = byte_or_zero(text, 0);
    (first == b'@' || first == b'$') && is_name(rest(text, 1))
}

/// Whether a symbol of that name is written without quotes.
fn is_plain(text: &[u8]) -> bool
    ensures { result ≡ names.is_plain text.now }
{
    is_name(without_mark(text)) || is_operator(text) || is_variable(text)
}

/// `symbol.inspect` by its name: the name behind a colon, in quotes and with escapes unless a program could write it
/// without. A failure where the result is too long.
pub fn inspected(alloc: Global, text: &[u8]) -> Result<Result<Bytes, StringFailure>, AllocError>
    ensures { IfOk result (λ r. r ≡ names.inspected text.now) }
{
    if is_plain(text) {
        joined(alloc, b":", text, b"")
    } else {
        quoted(alloc, b":\"", text)
    }
}
