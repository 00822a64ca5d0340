//! Files of code that are stored and loaded.
ghost use Rattle.file_maker.specs.Storing.{Stores, Loads};

use crate::checking::check_file;
use crate::disk::OfFiles;
use crate::made::Made;
use crate::making::make_file;
use code_verifier::Verified;
use rb_base::{FileError, Files};
use rb_refusal::Refusal;
use std::alloc::{AllocError, Global};

/// One byte more than the longest source has.
pub const SOURCE_LIMIT: usize = 16_777_217;

/// One byte more than the longest file has.
pub const FILE_LIMIT: usize = 4_294_967_296;

/// Why there is no code: the source or the file is refused, a file can't be read or written, or memory ran out.
#[derive(Clone, Copy, Debug, PartialEq, Eq)]
pub enum NotMade {
    Refused(Refusal),
    FileFault,
    NoMemory,
}

/// Stores the file of the source in the file `source` in the file `file`, and gives its code. None where the source goes
/// the first path, or can't be read. Every other file is as before, and `file` too where nothing is stored; only where the
/// store fails is it unknown.
pub fn store_file<F: Files>(
    alloc: Global,
    files: &mut F,
    source: &str,
    file: &str,
) -> Option<Result<Verified, NotMade>>
    ensures { Stores (⟦<F as OfFiles>⟧.told files.old) (⟦<F as OfFiles>⟧.told files.new) source.now file.now result }
{
    let Ok(text) = files.load(alloc, source, SOURCE_LIMIT) else {
        return None;
    };
    match make_file(alloc, &text) {
        Ok(Made::FirstPath) => None,
        Ok(Made::Refused(refusal)) => Some(Err(NotMade::Refused(refusal))),
        Ok(Made::File(bytes, code)) => Some(match files.store(file, &bytes) {
            Ok(()) => Ok(code),
            Err(_) => Err(NotMade::FileFault),
        }),
        Err(AllocError) => Some(Err(NotMade::NoMemory)),
    }
}

/// The code of the file `file`. Every file is as before.
pub fn load_file<F: Files>(alloc: Global, files: &mut F, file: &str) -> Result<Verified, NotMade>
    ensures { Loads (⟦<F as OfFiles>⟧.told files.old) (⟦<F as OfFiles>⟧.told files.new) file.now result }
{
    let bytes = match files.load(alloc, file, FILE_LIMIT) {
        Ok(bytes) => bytes,
        Err(FileError::Failed) => return Err(NotMade::FileFault),
        Err(FileError::NoMemory) => return Err(NotMade::NoMemory),
    };
    match check_file(alloc, &bytes) {
        Ok(Ok(code)) => Ok(code),
        Ok(Err(refusal)) => Err(NotMade::Refused(refusal)),
        Err(AllocError) => Err(NotMade::NoMemory),
    }
}
