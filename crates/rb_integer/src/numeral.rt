//! The texts of Integers (ISO/IEC 30170:2012, 15.2.8), and their one-byte Strings.
ghost use Rattle.std.specs.Prelude as prelude;
ghost use Rattle.std.specs.Prelude.{◌≡◌, ◌<◌, ◌≤◌, ◌++◌, ℕ, ℤ, FitsSigned, false, length};
ghost use Rattle.std.specs.Int.{w64};
ghost use Rattle.std.specs.Int.Digits.{digits_of};
ghost use Rattle.std.specs.Fmt.{signed_decimal, digit_glyph};
ghost use Rattle.rb_integer.specs.Numeral as numbers;

use crate::failure::IntegerFailure;
use crate::text::Text;
use itoa::Buffer;

/// The letter of a digit.
fn letter(digit: u8) -> u8
    requires { digit < 36 }
    ensures { result ≡ digit_glyph false digit }
{
    if digit < 10 {
        b'0' + digit
    } else {
        b'a' + (digit - 10)
    }
}

/// A sign, if there is one, and the digits of a number, none for 0.
fn spelled(sign: &[u8], number: u64, base: u64) -> Text
    requires sign { length sign.now ≤ 1 }
    requires lowest { 2 ≤ base }
    requires highest { base ≤ 36 }
    ensures { result ≡ sign.now ++ numbers.letters base number }
{
    let mut bytes = [0u8; 64];
    let mut start = 64;
    let mut left = number;
    'digits: while left != 0 {
        start -= 1;
        bytes[start] = letter((left % base) as u8);
        left /= base;
    }
    Text::joined(sign, &bytes[start..])
}

/// The numeral of a number in a base from 2 to 36.
fn numeral(number: i64, base: u64) -> Text
    requires lowest { 2 ≤ base }
    requires highest { base ≤ 36 }
    ensures { result ≡ numbers.numeral base number }
{
    if number == 0 {
        Text::joined(b"0", b"")
    } else if number < 0 {
        spelled(b"-", number.unsigned_abs(), base)
    } else {
        spelled(b"", number.unsigned_abs(), base)
    }
}

/// `number.to_s` without a base, and `number.inspect`: decimal digits, after a sign below 0.
pub fn decimal(number: i64) -> Text
    ensures value { result ≡ signed_decimal number }
    ensures short { length result ≤ 20 }
{
    let mut buffer = Buffer::new();
    Text::joined(buffer.format(number).as_bytes(), b"")
}

/// `number.to_s(base)`: digits in 0 to 9 and small letters, after a sign below 0. A failure where the base isn't from
/// 2 to 36.
#[tactic(auto, using(crate::proofs::Letters::decimal_numeral))]
pub fn to_text(number: i64, base: i64) -> Result<Text, IntegerFailure>
    ensures { result ≡ numbers.text number base }
{
    if base == 10 {
        Ok(decimal(number))
    } else if base < 2 || 36 < base {
        Err(IntegerFailure::BadBase)
    } else {
        Ok(numeral(number, base as u64))
    }
}

/// `number.chr`: the byte of a number from 0 to 255. A failure for any other.
pub fn character(number: i64) -> Result<u8, IntegerFailure>
    ensures { result ≡ numbers.character number }
{
    if number < 0 || 255 < number {
        Err(IntegerFailure::OutsideCharacters(number))
    } else {
        Ok(number as u8)
    }
}

/// What numerals are: the digits of a number above 0 are the one list of digits below the base that has its value and
/// doesn't begin with 0, and a numeral in base 10 is the decimal one.
pub fn laws_of_numerals()
    ensures digits { (base n : ℕ) → 2 ≤ base → 0 < n → numbers.IsDigitsOf base n (digits_of base n) }
    ensures only { (base n : ℕ) (ds : prelude.List ℕ) → 2 ≤ base → numbers.IsDigitsOf base n ds
        → digits_of base n ≡ ds }
    ensures ten { (z : ℤ) → FitsSigned w64 z → numbers.numeral 10 z ≡ signed_decimal z }
{}
