//! The code of a file.
ghost use Rattle.std.specs.Prelude.{◌≡◌, Some, IfOk, MatchResult};
ghost use Rattle.file_maker.specs.Making.{IsChecked};

use code_verifier::{Verified, verify};
use rb_refusal::Refusal;
use rite_file::load;
use std::alloc::{AllocError, Global};

/// A refusal, or memory that ran out where there is none.
fn refused(refusal: Option<Refusal>) -> Result<Result<Verified, Refusal>, AllocError>
    ensures { IfOk result (λ answer. MatchResult answer (λ _. ⊥) (λ cause. refusal ≡ Some cause)) }
{
    match refusal {
        Some(refusal) => Ok(Err(refusal)),
        None => Err(AllocError),
    }
}

/// The verified code of the bytes of a file, or why they are refused: they spell no code, or a check of the verifier
/// fails. The error is that memory ran out.
pub fn check_file(alloc: Global, bytes: &[u8]) -> Result<Result<Verified, Refusal>, AllocError>
    ensures { IfOk result (IsChecked bytes.now) }
{
    let code = match load(alloc, bytes) {
        Ok(code) => code,
        Err(error) => return refused(error.refusal()),
    };
    match verify(alloc, code) {
        Ok(verified) => Ok(Ok(verified)),
        Err(error) => refused(error.refusal()),
    }
}
