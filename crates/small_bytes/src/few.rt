//! A text of few bytes.
ghost use Rattle.std.specs.Prelude.{◌≡◌, ◌≤◌, ◌+◌, ◌-◌, [], ◌++◌, length};

use std::marker::Model;

/// How many bytes a short text has at most.
pub const MOST: usize = 30;

/// A text of at most [`MOST`] bytes, seen as their list. It takes no memory but its own place.
#[derive(Drop)]
pub struct FewBytes {
    len: u8,
    bytes: [u8; MOST],
}

impl Model for FewBytes {
    ghost use Rattle.std.specs.Prelude as prelude;
    ghost use Rattle.std.specs.Prelude.{◌≤◌};

    ghost Value = { prelude.List prelude.ℕ };

    ghost view = { λ few. prelude.take few.len few.bytes };

    ghost invariant = { λ few. few.len ≤ 30 };
}

impl FewBytes {
    /// The empty text.
    pub fn new() -> FewBytes
        ensures { result ≡ [] }
    {
        FewBytes {
            len: 0,
            bytes: [0; MOST],
        }
    }

    /// The bytes as a slice.
    pub fn as_slice(&self) -> &[u8]
        ensures now { result.now ≡ self.now }
        ensures few { length self.now ≤ 30 }
    {
        &self.bytes[..usize::from(self.len)]
    }

    /// How many more bytes there is room for.
    pub fn room(&self) -> usize
        ensures { result + length self.now ≡ 30 }
    {
        MOST - usize::from(self.len)
    }

    /// Puts bytes at the end, for which there is room.
    pub fn append(&mut self, more: &[u8])
        requires { length self.old + length more.now ≤ 30 }
        ensures { self.new ≡ self.old ++ more.now }
    {
        let start = usize::from(self.len);
        let end = start + more.len();
        self.bytes[start..end].copy_from_slice(more);
        self.len = end as u8;
    }
}
