//! A text that grows piece by piece.
ghost use Rattle.std.specs.Prelude.{◌≡◌, ◌++◌, IfOk, decimal};
ghost use Rattle.std.specs.Fmt.{signed_decimal};

use itoa::Buffer;
use rb_base::Bytes;
use std::alloc::{AllocError, Global};
use std::marker::Model;

/// A text of bytes, seen as their list.
#[derive(Drop)]
pub(crate) struct Text {
    bytes: Vec<u8>,
}

impl Model for Text {
    ghost use Rattle.std.specs.Prelude as prelude;

    ghost Value = { prelude.List prelude.ℕ };

    ghost view = { λ t. t.bytes.items };
}

impl Text {
    /// A copy of the bytes.
    pub(crate) fn of(alloc: Global, bytes: &[u8]) -> Result<Text, AllocError>
        ensures { IfOk result (λ text. text ≡ bytes.now) }
    {
        Ok(Text {
            bytes: Vec::from_slice(alloc, bytes)?,
        })
    }

    /// The text with the bytes after it.
    pub(crate) fn with(self, bytes: &[u8]) -> Result<Text, AllocError>
        ensures { IfOk result (λ text. text ≡ self ++ bytes.now) }
    {
        let mut text = self;
        text.bytes.extend_from_slice(bytes)?;
        Ok(text)
    }

    /// The text with the decimal digits of a number after it.
    pub(crate) fn with_number(self, number: u64) -> Result<Text, AllocError>
        ensures { IfOk result (λ text. text ≡ self ++ decimal number) }
    {
        let mut buffer = Buffer::new();
        self.with(buffer.format(number).as_bytes())
    }

    /// The text with the decimal digits of a number after it, and before them a sign where it is below 0.
    pub(crate) fn with_signed(self, number: i64) -> Result<Text, AllocError>
        ensures { IfOk result (λ text. text ≡ self ++ signed_decimal number) }
    {
        let mut buffer = Buffer::new();
        self.with(buffer.format(number).as_bytes())
    }

    /// The bytes of the text. It takes no memory.
    pub(crate) fn into_bytes(self) -> Bytes
        ensures { result ≡ self }
    {
        Bytes::from_vec(self.bytes)
    }
}
