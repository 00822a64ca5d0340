//! From a source to its file: the command build, and the first half of exec.
ghost use Rattle.std.specs.Prelude.{◌≡◌};
ghost use Rattle.rite_code.specs.Code.{Program, IsWhole};
ghost use Rattle.rite_file.specs.File.{Spells};
ghost use Rattle.code_verifier.specs.Verified.{IsVerified};
ghost use Rattle.rite_tool.specs.Making.{Builds, Makes, Prepares, Stores, EncodesAs, Checks};

use crate::stop::Stop;
use code_verifier::Verified;
use file_maker::{OfFiles, SOURCE_LIMIT};
use rb_base::Files;
use rb_compile::CompileError;
use std::alloc::Global;

/// Compiles the source in the file `source` and puts its code into the file `file`.
pub fn build<F: Files>(alloc: Global, files: &mut F, source: &str, file: &str) -> Result<(), Stop>
    ensures { Builds (⟦<F as OfFiles>⟧.told files.old) (⟦<F as OfFiles>⟧.told files.new) source.now file.now result }
{
    let bytes = prepare(alloc, files, source)?;
    store(files, file, &bytes)
}

/// Compiles the source in the file `source` and puts its code into the file `file`. The program is what the bytes
/// of that file give back.
pub fn make<F: Files>(
    alloc: Global,
    files: &mut F,
    source: &str,
    file: &str,
) -> Result<Verified, Stop>
    ensures { Makes (⟦<F as OfFiles>⟧.told files.old) (⟦<F as OfFiles>⟧.told files.new) source.now file.now result }
{
    let bytes = prepare(alloc, files, source)?;
    let verified = check(alloc, &bytes)?;
    store(files, file, &bytes)?;
    Ok(verified)
}

// The bytes of the file of the source.
fn prepare<F: Files>(alloc: Global, files: &mut F, source: &str) -> Result<Vec<u8>, Stop>
    ensures { Prepares (⟦<F as OfFiles>⟧.told files.old) (⟦<F as OfFiles>⟧.told files.new) source.now result }
{
    let text = files.load(alloc, source, SOURCE_LIMIT)?;
    let bytes = encode(alloc, &text)?;
    Ok(bytes)
}

fn store<F: Files>(files: &mut F, file: &str, bytes: &[u8]) -> Result<(), Stop>
    ensures { Stores (⟦<F as OfFiles>⟧.told files.old) (⟦<F as OfFiles>⟧.told files.new) file.now bytes.now result }
{
    files.store(file, bytes)?;
    Ok(())
}

// The bytes of the file of a text.
fn encode(alloc: Global, text: &[u8]) -> Result<Vec<u8>, CompileError>
    ensures { EncodesAs text.now result }
{
    let code = rb_compile::compile(alloc, text)?;
    let bytes = rite_file::write(alloc, &code)?;
    Ok(bytes)
}

/// The program of these bytes, loaded and verified. No file of a verified program is refused.
pub fn check(alloc: Global, bytes: &[u8]) -> Result<Verified, Stop>
    ensures { (p : Program) → IsWhole p → IsVerified p → Spells bytes.now p → Checks p result }
{
    let code = rite_file::load(alloc, bytes)?;
    let verified = code_verifier::verify(alloc, code)?;
    Ok(verified)
}
