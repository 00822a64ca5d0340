//! Why a command stops before anything is run or shown.
ghost use Rattle.std.specs.Prelude.{◌≡◌};
ghost use Rattle.rb_compile.specs.Refusal as sources;
ghost use Rattle.rite_file.specs.Refusal as files;
ghost use Rattle.code_verifier.specs.Refusal as programs;
ghost use Rattle.rite_tool.specs.Stops.{of_refusal, of_file_error};
ghost use Rattle.rite_tool.specs.declared.stop.Stop.TheVariants as stops;

use code_verifier::VerifyError;
use rb_base::{Failed, FileError};
use rb_compile::CompileError;
use rb_refusal::Refusal;
use rite_file::LoadError;

/// Why a command stops before anything is run or shown.
#[derive(Clone, Copy, Debug, PartialEq, Eq)]
pub enum Stop {
    /// The source or the file is refused.
    Refused(Refusal),
    /// A load or a store of a file failed.
    FileFault,
    NoMemory,
}

impl Stop {
    /// For a refusal, or memory that ran out where there is none.
    fn of_refusal(refusal: Option<Refusal>) -> Stop
        ensures { result ≡ of_refusal refusal }
    {
        match refusal {
            Some(refusal) => Stop::Refused(refusal),
            None => Stop::NoMemory,
        }
    }
}

impl From<CompileError> for Stop {
    ghost from_gives = { λ error stop. stop ≡ of_refusal (sources.refusal_of error) };

    fn from(error: CompileError) -> Stop {
        Stop::of_refusal(error.refusal())
    }
}

impl From<LoadError> for Stop {
    ghost from_gives = { λ error stop. stop ≡ of_refusal (files.refusal_of error) };

    fn from(error: LoadError) -> Stop {
        Stop::of_refusal(error.refusal())
    }
}

impl From<VerifyError> for Stop {
    ghost from_gives = { λ error stop. stop ≡ of_refusal (programs.refusal_of error) };

    fn from(error: VerifyError) -> Stop {
        Stop::of_refusal(error.refusal())
    }
}

impl From<FileError> for Stop {
    ghost from_gives = { λ error stop. stop ≡ of_file_error error };

    fn from(error: FileError) -> Stop {
        match error {
            FileError::Failed => Stop::FileFault,
            FileError::NoMemory => Stop::NoMemory,
        }
    }
}

impl From<Failed> for Stop {
    ghost from_gives = { λ _ stop. stop ≡ stops.FileFault };

    fn from(_failed: Failed) -> Stop {
        Stop::FileFault
    }
}
