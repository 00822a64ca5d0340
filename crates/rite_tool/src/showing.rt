//! The commands list and info: what a file holds.
ghost use Rattle.std.specs.Prelude.{◌≡◌, OnErr};
ghost use Rattle.rite_tool.specs.Showing.{Loads, Shows, listed};
ghost use Rattle.code_listing.specs.Info.{info_of};

use crate::stop::Stop;
use crate::told::OfSink;
use code_listing::InfoFault;
use file_maker::{FILE_LIMIT, OfFiles};
use rb_base::{Failed, Files, Sink};
use rite_code::Code;
use std::alloc::Global;

/// Writes the bodies of the file, instruction by instruction. The code isn't verified.
pub fn list<F: Files, O: Sink>(
    alloc: Global,
    files: &mut F,
    out: &mut O,
    file: &str,
) -> Result<Result<(), Failed>, Stop>
    ensures shows { Shows listed (⟦<F as OfFiles>⟧.told files.old) (⟦<F as OfFiles>⟧.told files.new)
        (⟦<O as OfSink>⟧.told out.old) (⟦<O as OfSink>⟧.told out.new) file.now result }
    ensures untouched { OnErr result (out.new ≡ out.old) }
{
    let code = load(alloc, files, file)?;
    Ok(code_listing::list(&code, out))
}

/// Writes the header of the file and its sections.
pub fn info<F: Files, O: Sink>(
    alloc: Global,
    files: &mut F,
    out: &mut O,
    file: &str,
) -> Result<Result<(), Failed>, Stop>
    ensures shows { Shows info_of (⟦<F as OfFiles>⟧.told files.old) (⟦<F as OfFiles>⟧.told files.new)
        (⟦<O as OfSink>⟧.told out.old) (⟦<O as OfSink>⟧.told out.new) file.now result }
    ensures untouched { OnErr result (out.new ≡ out.old) }
{
    let bytes = files.load(alloc, file, FILE_LIMIT)?;
    match code_listing::info(&bytes, out) {
        Ok(()) => Ok(Ok(())),
        Err(InfoFault::Failed) => Ok(Err(Failed)),
        Err(InfoFault::Refused(error)) => Err(Stop::from(error)),
    }
}

// The program of a file.
fn load<F: Files>(alloc: Global, files: &mut F, file: &str) -> Result<Code, Stop>
    ensures { Loads (⟦<F as OfFiles>⟧.told files.old) (⟦<F as OfFiles>⟧.told files.new) file.now result }
{
    let bytes = files.load(alloc, file, FILE_LIMIT)?;
    let code = rite_file::load(alloc, &bytes)?;
    Ok(code)
}
