//! Lines of the input.

use crate::machine::StepFault;
use rb_base::Source;
use std::alloc::{AllocError, Global};

/// How long a line may be.
pub const LONGEST_LINE: usize = 1 << 28;

/// How many bytes are asked for at once.
const PIECE: usize = 1024;

/// What was read ahead of the lines that were taken, and whether the end of the input was met.
#[derive(Drop)]
pub struct Lines {
    ahead: Vec<u8>,
    taken: usize,
    ended: bool,
}

/// What a read comes to: a line with its newline, or what is left; the end; or a line that is too long, whose first
/// bytes are gone.
#[derive(Drop)]
pub enum Line {
    Text(Vec<u8>),
    End,
    TooLong,
}

/// The bytes between two places; none where they aren't there.
fn between(bytes: &[u8], from: usize, end: usize) -> &[u8] {
    match bytes.get(from..end) {
        Some(part) => part,
        None => &[],
    }
}

impl Lines {
    /// Nothing was read ahead. It takes no memory.
    pub fn new(alloc: Global) -> Lines {
        Lines {
            ahead: Vec::new(alloc),
            taken: 0,
            ended: false,
        }
    }

    /// Where the next line ends among the bytes ahead, of which none before a place is its newline; nothing where its
    /// newline isn't there.
    fn line_end(&self, from: usize) -> Option<usize> {
        'bytes: for at in from..self.ahead.len() {
            if self.ahead.get(at) == Some(&b'\n') {
                return Some(at.saturating_add(1));
            }
        }
        None
    }

    /// Reads more bytes, and notes where the input ends.
    fn fill<S: Source>(&mut self, input: &mut S) -> Result<(), StepFault> {
        let mut piece = [0u8; PIECE];
        let count = match input.read(&mut piece) {
            Ok(count) => count,
            Err(_) => return Err(StepFault::InputFault),
        };
        if count == 0 {
            self.ended = true;
            return Ok(());
        }
        self.ahead.extend_from_slice(between(&piece, 0, count))?;
        Ok(())
    }

    /// The bytes that were taken go, where they are many or all.
    fn forget(&mut self, alloc: Global) -> Result<(), AllocError> {
        let count = self.ahead.len();
        if self.taken >= count {
            self.ahead.clear();
            self.taken = 0;
        } else if self.taken >= PIECE {
            self.ahead = Vec::from_slice(alloc, between(&self.ahead, self.taken, count))?;
            self.taken = 0;
        }
        Ok(())
    }

    /// Takes the bytes up to a place.
    fn take_to(&mut self, alloc: Global, end: usize) -> Result<Line, AllocError> {
        if end.saturating_sub(self.taken) > LONGEST_LINE {
            self.taken = self.taken.saturating_add(LONGEST_LINE);
            return Ok(Line::TooLong);
        }
        let text = Vec::from_slice(alloc, between(&self.ahead, self.taken, end))?;
        self.taken = end;
        Ok(Line::Text(text))
    }

    /// The next line. What was read ahead stays for the next ones.
    pub fn next<S: Source>(&mut self, alloc: Global, input: &mut S) -> Result<Line, StepFault> {
        self.forget(alloc)?;
        let mut from = self.taken;
        'pieces: for _ in 0..LONGEST_LINE {
            if let Some(end) = self.line_end(from) {
                return Ok(self.take_to(alloc, end)?);
            }
            from = self.ahead.len();
            if self.ended || from.saturating_sub(self.taken) > LONGEST_LINE {
                break 'pieces;
            }
            self.fill(input)?;
        }
        let end = self.ahead.len();
        if end <= self.taken {
            return Ok(Line::End);
        }
        Ok(self.take_to(alloc, end)?)
    }
}
