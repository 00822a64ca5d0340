//! Classes of bytes.
ghost use Rattle.std.specs.Prelude.{◌≡◌};
ghost use Rattle.lexer_tables.specs.ByteClass as class;

/// Space, tab or carriage return.
pub fn is_blank(b: u8) -> bool
    ensures { result ≡ class.is_blank b }
{
    b == b' ' || b == b'\t' || b == b'\r'
}

/// A blank or a newline.
pub fn is_white(b: u8) -> bool
    ensures { result ≡ class.is_white b }
{
    is_blank(b) || b == b'\n'
}

/// A decimal digit.
pub fn is_digit(b: u8) -> bool
    ensures { result ≡ class.is_digit b }
{
    b.is_ascii_digit()
}

/// A capital letter.
pub fn is_capital(b: u8) -> bool
    ensures { result ≡ class.is_capital b }
{
    b.is_ascii_uppercase()
}

/// A letter.
pub fn is_letter(b: u8) -> bool
    ensures { result ≡ class.is_letter b }
{
    b.is_ascii_alphabetic()
}

/// A letter or `_`: what a name begins with.
pub fn is_name_start(b: u8) -> bool
    ensures { result ≡ class.is_name_start b }
{
    is_letter(b) || b == b'_'
}

/// A letter, a digit or `_`: what a name goes on with.
pub fn is_name_byte(b: u8) -> bool
    ensures { result ≡ class.is_name_byte b }
{
    is_name_start(b) || is_digit(b)
}

/// A byte past ASCII.
pub fn is_wide(b: u8) -> bool
    ensures { result ≡ class.is_wide b }
{
    b > 127
}

/// A byte of ASCII that prints and is no letter, digit, space or `_`.
pub fn is_punctuation(b: u8) -> bool
    ensures { result ≡ class.is_punctuation b }
{
    b > 32 && b < 127 && !is_name_byte(b)
}
