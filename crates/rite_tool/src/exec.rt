//! The command exec: from a source over its file to a run.
ghost use Rattle.std.specs.Prelude.{◌≡◌, OnErr};
ghost use Rattle.rite_tool.specs.Running.{Execs};

use crate::building::make;
use crate::stop::Stop;
use crate::told::OfSink;
use file_maker::OfFiles;
use path_machine::{Ran, RunFault};
use rb_base::{Files, Sink};
use std::alloc::Global;

/// Compiles the source in the file `source`, puts its code into the file `file`, and runs it for at most `steps`
/// turns.
pub fn exec<F: Files, O: Sink>(
    alloc: Global,
    files: &mut F,
    out: &mut O,
    steps: u64,
    source: &str,
    file: &str,
) -> Result<Result<Ran, RunFault>, Stop>
    ensures execs { Execs (⟦<F as OfFiles>⟧.told files.old) (⟦<F as OfFiles>⟧.told files.new)
        (⟦<O as OfSink>⟧.told out.old) (⟦<O as OfSink>⟧.told out.new) steps source.now file.now result }
    ensures untouched { OnErr result (out.new ≡ out.old) }
{
    let verified = make(alloc, files, source, file)?;
    Ok(path_machine::run(alloc, verified.code(), steps, out))
}
