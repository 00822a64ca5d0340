use rb_base::Failed;
use rite_file::LoadError;

/// Why what a file is wasn't told.
#[derive(Clone, Copy, Debug, PartialEq, Eq)]
pub enum InfoFault {
    /// The bytes are no file, or a section of them doesn't fit.
    Refused(LoadError),
    /// A call of the sink failed.
    Failed,
}

impl From<LoadError> for InfoFault {
    ghost use Rattle.std.specs.Prelude.{◌≡◌};
    ghost use Rattle.code_listing.specs.declared.info_fault.InfoFault.TheVariants.{Refused};

    ghost from_gives = { λ cause e. e ≡ Refused cause };

    fn from(cause: LoadError) -> InfoFault {
        InfoFault::Refused(cause)
    }
}

impl From<Failed> for InfoFault {
    ghost use Rattle.std.specs.Prelude.{◌≡◌};
    ghost use Rattle.code_listing.specs.declared.info_fault.InfoFault.TheVariants as faults;

    ghost from_gives = { λ _ e. e ≡ faults.Failed };

    fn from(_failed: Failed) -> InfoFault {
        InfoFault::Failed
    }
}
