//! A line of a listing, in a buffer of its own.
ghost use Rattle.std.specs.Prelude.{◌≡◌, ◌+◌, ◌<◌, ◌≤◌, [], ◌∷◌, ◌++◌, length, decimal};
ghost use Rattle.std.specs.Fmt.{signed_decimal};

use itoa::write_digits;
use std::marker::Model;

/// How many bytes a line has at most.
pub const CAPACITY: usize = 128;

/// A text that is put together from its end to its front, as the digits of a number are found.
#[derive(Drop)]
pub struct Line {
    bytes: [u8; CAPACITY],
    start: usize,
}

impl Model for Line {
    ghost use Rattle.std.specs.Prelude.{ℕ, ◌≤◌, List, drop};

    ghost Value = { List ℕ };

    ghost view = { λ l. drop l.start l.bytes };

    ghost invariant = { λ l. l.start ≤ 128 };
}

impl Line {
    /// A text with nothing in it.
    pub fn new() -> Line
        ensures { result ≡ [] }
    {
        Line {
            bytes: [0; CAPACITY],
            start: CAPACITY,
        }
    }

    /// The bytes of the text.
    #[inline]
    pub fn as_slice(&self) -> &[u8]
        ensures { result.now ≡ self.now }
    {
        &self.bytes[self.start..]
    }

    /// Lets go of all bytes.
    #[inline]
    pub fn clear(&mut self)
        ensures { self.new ≡ [] }
    {
        self.start = CAPACITY;
    }

    /// Puts a byte in front.
    #[inline]
    pub fn put_byte(&mut self, byte: u8)
        requires { length self.old < 128 }
        ensures { self.new ≡ byte ∷ self.old }
    {
        self.start -= 1;
        self.bytes[self.start] = byte;
    }

    /// Puts bytes in front.
    #[inline]
    pub fn put_bytes(&mut self, bytes: &[u8])
        requires { length bytes.now + length self.old ≤ 128 }
        ensures { self.new ≡ bytes.now ++ self.old }
    {
        let end = self.start;
        self.start = end - bytes.len();
        self.bytes[self.start..end].copy_from_slice(bytes);
    }

    /// Puts a number in front, and answers how many digits it has.
    #[inline]
    pub fn put_decimal(&mut self, number: u64) -> usize
        requires { 20 + length self.old ≤ 128 }
        ensures text { self.new ≡ decimal number ++ self.old }
        ensures digits { result ≡ length (decimal number) }
        ensures few { result ≤ 20 }
    {
        let end = self.start;
        self.start = write_digits(number, &mut self.bytes, end);
        end - self.start
    }

    /// Puts a number and its sign in front.
    #[inline]
    pub fn put_signed(&mut self, number: i64)
        requires { 20 + length self.old ≤ 128 }
        ensures text { self.new ≡ signed_decimal number ++ self.old }
        ensures short { length self.new ≤ 20 + length self.old }
    {
        self.start = write_digits(number.unsigned_abs(), &mut self.bytes, self.start);
        if number < 0 {
            self.put_byte(b'-');
        }
    }
}
