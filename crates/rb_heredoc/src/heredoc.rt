//! Heads of heredocs, and the bodies that belong to them.

use rb_base::{Bytes, List};

/// The head of a heredoc: its identifier, whether white space may stand before the identifier in the line that
/// ends the body (`<<-`), and whether the body has neither escapes nor interpolation.
#[derive(Debug, Drop)]
pub struct Head {
    pub id: Bytes,
    pub indented: bool,
    pub raw: bool,
}

/// The bodies of the heads of one line, in the order of the heads, each with the newline of its last line; and
/// the place after the line that ends the last of them.
#[derive(Debug, Drop)]
pub struct Bodies {
    pub pieces: List<Bytes>,
    pub next: usize,
}
