//! The file of a source, a run of a source over its file, and a run of a file.

ghost use Rattle.std.specs.Prelude.{◌≡◌};
ghost use Rattle.rb_exec.specs.Built.{Builds, Executes, Runs};
ghost use Rattle.rb_exec.specs.Without.{without_code};

use crate::running::{Counts, Played, run_code};
use file_maker::{NotMade, OfFiles, load_file, store_file};
use rb_base::{Buffered, Files, Sink, Source};
use std::alloc::Global;

/// How a program comes out of which there is no code.
fn without_code(cause: NotMade) -> Played
    ensures { result ≡ without_code cause }
{
    match cause {
        NotMade::Refused(refusal) => Played::Refused(refusal),
        NotMade::FileFault => Played::FileFault,
        NotMade::NoMemory => Played::NoMemory,
    }
}

/// Compiles the source in the file `source` and puts its code into the file `file`. Nothing is done where the source
/// goes the first path: it can't be read, the front refuses it, or it has no form beyond those of that path. It is
/// refused for its first count past the limit and for nothing else. Every other file is as before, and `file` too where
/// nothing is stored.
pub fn build<F: Files>(alloc: Global, files: &mut F, source: &str, file: &str) -> Option<Played>
    ensures { Builds (⟦<F as OfFiles>⟧.told files.old) (⟦<F as OfFiles>⟧.told files.new) source.now file.now result }
{
    match store_file(alloc, files, source, file)? {
        Ok(_code) => Some(Played::Ended(0)),
        Err(cause) => Some(without_code(cause)),
    }
}

/// Compiles the source in the file `source`, puts its code into the file `file`, and runs it for at most `steps` turns.
/// Nothing is done where the source goes the first path, as in [`build`].
#[tactic(auto, using(crate::proofs::Executed::ran))]
pub fn exec<F: Files, S: Source, O: Sink + Drop>(
    alloc: Global,
    files: &mut F,
    input: &mut S,
    out: &mut Buffered<O>,
    steps: u64,
    source: &str,
    file: &str,
) -> Option<Played>
    ensures { Executes (⟦<F as OfFiles>⟧.told files.old) (⟦<F as OfFiles>⟧.told files.new) source.now file.now result }
{
    match store_file(alloc, files, source, file)? {
        Ok(code) => Some(run_code(alloc, code, steps, input, out).0),
        Err(cause) => Some(without_code(cause)),
    }
}

/// Runs the code in the file `file` for at most `steps` turns, and counts.
pub fn run<F: Files, S: Source, O: Sink + Drop>(
    alloc: Global,
    files: &mut F,
    input: &mut S,
    out: &mut Buffered<O>,
    steps: u64,
    file: &str,
) -> (Played, Counts)
    ensures { Runs (⟦<F as OfFiles>⟧.told files.old) (⟦<F as OfFiles>⟧.told files.new) file.now result.0 }
{
    match load_file(alloc, files, file) {
        Ok(code) => run_code(alloc, code, steps, input, out),
        Err(cause) => (without_code(cause), Counts::default()),
    }
}
