//! A run of a text in memory: no file is read or written, the input is empty, and the output is kept.

ghost use Rattle.std.specs.Prelude.{◌≡◌, MatchOption};
ghost use Rattle.rb_exec.specs.InMemory.{IsPlayed, IsTextRun, GoesFirst, faultless};

use crate::running::{Played, run_code};
use code_verifier::Verified;
use file_maker::{Made, make_file};
use rb_base::{Buffered, MemorySink, MemorySource};
use std::alloc::{AllocError, Global};

/// How a run comes out whose input and output are in memory. No call on these fails, but for memory that runs out.
fn faultless(played: Played) -> Played
    ensures { result ≡ faultless played }
{
    match played {
        Played::FileFault | Played::InputFault | Played::OutputFault => Played::NoMemory,
        Played::Ended(_)
        | Played::Uncaught(_)
        | Played::Spent
        | Played::Refused(_)
        | Played::NoMemory => played,
    }
}

/// Runs verified code over an empty input, for as many turns as can be asked for.
fn run_alone(alloc: Global, code: Verified, out: &mut Buffered<MemorySink>) -> Played
    ensures { IsPlayed result }
{
    let mut input = MemorySource::new(Vec::new(alloc), Vec::new(alloc));
    faultless(run_code(alloc, code, u64::MAX, &mut input, out).0)
}

/// Compiles the text and runs the code of its file into `out`. None where the text goes the first path.
fn play_text(alloc: Global, text: &[u8], out: &mut Buffered<MemorySink>) -> Option<Played>
    ensures { MatchOption result (GoesFirst text.now) (IsTextRun text.now) }
{
    match make_file(alloc, text) {
        Ok(Made::FirstPath) => None,
        Ok(Made::Refused(refusal)) => Some(Played::Refused(refusal)),
        Ok(Made::File(_bytes, code)) => Some(run_alone(alloc, code, out)),
        Err(AllocError) => Some(Played::NoMemory),
    }
}

/// Compiles the text and runs the code of its file, over an empty input, for as many turns as can be asked for. Gives
/// how it comes out, and the output with what it wrote. None where the text goes the first path: the front refuses it,
/// or it has no form beyond those of that path.
pub fn run_text(alloc: Global, text: &[u8]) -> Option<(Played, MemorySink)>
    ensures { MatchOption result (GoesFirst text.now) (λ ran. IsTextRun text.now ran.0) }
{
    let mut out = Buffered::new(MemorySink::new(alloc, usize::MAX, Vec::new(alloc)));
    let played = play_text(alloc, text, &mut out)?;
    Some((played, out.into_inner()))
}
