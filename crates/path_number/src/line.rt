//! What `puts` writes for a value.
ghost use Rattle.std.specs.Prelude.{◌≡◌, ◌+◌, ◌<◌, ◌++◌, [], ◌∷◌, length, take};
ghost use Rattle.path_core.specs.Rows.{text_of, line_of};

use itoa::Buffer;
use path_value::Value;
use std::marker::Model;

/// Enough for the longest text of an Integer and a newline.
const CAPACITY: usize = 48;

/// A line of text in a buffer of its own, seen as its bytes.
#[derive(Drop)]
pub struct Line {
    bytes: [u8; CAPACITY],
    end: usize,
}

impl Model for Line {
    ghost use Rattle.std.specs.Prelude as prelude;
    ghost use Rattle.std.specs.Prelude.{◌≤◌};

    ghost Value = { prelude.List prelude.ℕ };

    ghost view = { λ l. prelude.take l.end l.bytes };

    ghost invariant = { λ l. l.end ≤ 48 };
}

/// The line of a text.
fn ended(text: &[u8]) -> Line
    requires { length text.now < 41 }
    ensures { result ≡ text.now ++ 10 ∷ [] }
{
    let mut bytes = [0; CAPACITY];
    let end = text.len();
    bytes[..end].copy_from_slice(text);
    bytes[end] = b'\n';
    Line {
        bytes,
        end: end + 1,
    }
}

impl Line {
    /// What `puts` writes for the value.
    pub fn of(value: Value) -> Line
        ensures { result ≡ line_of value }
    {
        match value {
            Value::Nil => ended(b""),
            Value::True => ended(b"true"),
            Value::False => ended(b"false"),
            Value::Int(number) => {
                let mut buffer = Buffer::new();
                ended(buffer.format(number).as_bytes())
            }
        }
    }

    /// The bytes of the line.
    pub fn as_slice(&self) -> &[u8]
        ensures { result.now ≡ self.now }
    {
        &self.bytes[..self.end]
    }
}
