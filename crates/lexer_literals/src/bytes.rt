//! Kinds of bytes.
ghost use Rattle.std.specs.Prelude.{◌≡◌, ◌<◌, length, slice_index};
ghost use Rattle.lexer_literals.specs.Kinds.{is_digit, digit_value, goes_on};

/// The byte at a place, or 0 past the end.
pub(crate) fn byte_at(text: &[u8], at: usize) -> u8
    ensures value { result ≡ slice_index text.now at }
    ensures within { 0 < result → at < length text.now }
{
    match text.get(at) {
        Some(byte) => *byte,
        None => 0,
    }
}

/// Whether the byte is a decimal digit.
pub(crate) fn is_digit(byte: u8) -> bool
    ensures { result ≡ is_digit byte }
{
    byte.is_ascii_digit()
}

/// The value of a digit in bases up to 16, and 255 for any other byte.
pub(crate) fn digit_value(byte: u8) -> u8
    ensures { result ≡ digit_value byte }
{
    match byte {
        b'0'..=b'9' => byte - b'0',
        b'a'..=b'f' => byte - b'a' + 10,
        b'A'..=b'F' => byte - b'A' + 10,
        _ => 255,
    }
}

/// Whether the byte would make a longer name of a letter before it: a letter, `_` or a byte past 0x7F.
pub(crate) fn goes_on(byte: u8) -> bool
    ensures { result ≡ goes_on byte }
{
    byte.is_ascii_alphabetic() || byte == b'_' || byte > 0x7F
}
