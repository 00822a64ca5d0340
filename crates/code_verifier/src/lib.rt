//! The verifier: code that passes it can't go wrong later. Each check, in the order in which it is made, stands in
//! specs/Checks.antt and in docs/formats.md.
//!
//! Types: [`Verified`], [`VerifyError`]. Call: [`verify`]. Law: [`every_check_holds`].
#![tactic(auto)]

ghost use Rattle.std.specs.Prelude.{◌≡◌, IfOk, IfErr};
ghost use Rattle.code_verifier.specs.Checks.{first_bad};
ghost use Rattle.code_verifier.specs.Verified.{IsVerified, IsFault};

mod bodies;
mod causes;
mod checks;
pub mod error;
pub mod laws;
mod needs;
mod plain;
mod unread;
pub mod verified;

use crate::bodies::check_bodies;
use code_outline::outline;
pub use error::VerifyError;
pub use laws::every_check_holds;
use rite_code::Code;
use std::alloc::Global;
pub use verified::Verified;

/// The same code, where no check fails. `Bad` is the first check that fails: bodies in their order, in each its
/// instructions by their places, the place where reading ends, then its catch entries. `NoMemory` where memory
/// runs out.
pub fn verify(alloc: Global, code: Code) -> Result<Verified, VerifyError>
    ensures verified { IfOk result (λ v. (v ≡ code) × IsVerified code) }
    ensures bad { IfErr result (IsFault (first_bad code)) }
{
    let found = outline(alloc, &code)?;
    check_bodies(alloc, &code, &found)?;
    Ok(Verified::new(code))
}
