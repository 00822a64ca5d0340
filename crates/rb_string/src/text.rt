//! Short texts in a buffer of their own.
ghost use Rattle.std.specs.Prelude.{◌≡◌, ◌+◌, ◌≤◌, ◌++◌, length};
ghost use Rattle.arrayvec.specs.ArrayVec.{array_vec_len};

use arrayvec::ArrayVec;
use std::marker::Model;

/// Enough for a sign and 64 digits.
pub(crate) const CAPACITY: usize = 65;

/// A text of at most 65 bytes, seen as their list.
#[derive(Drop)]
pub struct Text {
    bytes: ArrayVec<u8, CAPACITY>,
}

impl Model for Text {
    ghost use Rattle.std.specs.Prelude as prelude;

    ghost Value = { prelude.List prelude.ℕ };

    ghost view = { λ t. t.bytes.items };
}

impl Text {
    /// The two parts, one after the other.
    pub(crate) fn joined(first: &[u8], second: &[u8]) -> Text
        requires { length first.now + length second.now ≤ 65 }
        ensures { result ≡ first.now ++ second.now }
    {
        let mut bytes = ArrayVec::new();
        let _ = bytes.try_extend_from_slice(first);
        let _ = bytes.try_extend_from_slice(second);
        Text { bytes }
    }

    /// The bytes of the text.
    pub fn as_slice(&self) -> &[u8]
        ensures { result.now ≡ self.now }
    {
        self.bytes.as_slice()
    }
}
