//! What an escape stands for.
ghost use Rattle.std.specs.Prelude.{◌≡◌, ◌++◌, OnOk};
ghost use Rattle.lexer_literals.specs.Escaping.{bytes_of};

use std::alloc::AllocError;

/// What an escape stands for: nothing, a byte, or a character, written as UTF-8.
#[derive(Clone, Copy, Debug, PartialEq, Eq)]
pub enum Escaped {
    Nothing,
    Byte(u8),
    Character(char),
}

/// The place after an escape, and what it stands for.
#[derive(Clone, Copy, Debug, PartialEq, Eq)]
pub struct Escape {
    pub end: usize,
    pub stands_for: Escaped,
}

impl Escaped {
    /// Puts the bytes at the end of the vector.
    pub fn push_to(self, bytes: &mut Vec<u8>) -> Result<(), AllocError>
        ensures { OnOk result (bytes.new.items ≡ bytes.old.items ++ bytes_of self) }
    {
        match self {
            Escaped::Nothing => Ok(()),
            Escaped::Byte(byte) => Ok(bytes.push(byte)?),
            Escaped::Character(character) => {
                let mut buffer = [0; 4];
                bytes.extend_from_slice(character.encode_utf8(&mut buffer).as_bytes())
            }
        }
    }
}
