//! What the instructions of a body are, and who makes each body of a program. The layout of a body has its
//! instructions, as far as they can be read, the place of each, and the index of the instruction at each place. The
//! outline of a program has for each body the first instruction that uses it, and the body around each block and lambda;
//! it keeps nothing of single instructions, so a layout is made of one body where it is needed, and let go.
//!
//! Types: [`Standing`], [`Indices`], [`Layout`], [`Purpose`], [`Maker`], [`Outline`]. Calls: [`laying::layout`],
//! [`outline`] and [`use_in`]. Law: [`laws_of_outlines`].
#![tactic(auto)]

ghost use Rattle.std.specs.Prelude.{ℕ, IfOk};
ghost use Rattle.std.specs.Prelude as prelude;
ghost use Rattle.rite_code.specs.Code.{Program};
ghost use Rattle.code_outline.specs.Laws.{Lays, Nests};
ghost use Rattle.code_outline.specs.Outlined.{AreMakers, Outlines};

pub mod indices;
pub mod laying;
pub mod layout;
pub mod maker;
mod making;
mod scoping;

use crate::making::put_makers;
use crate::scoping::scopes_of;
pub use indices::Indices;
pub use layout::{Layout, Outline, Standing};
pub use maker::{Maker, Purpose};
pub use making::use_in;
use rb_base::List;
use rite_code::Code;
use std::alloc::{AllocError, Global};

/// The maker of each body, in the order of the bodies.
fn makers_of(alloc: Global, code: &Code) -> Result<List<Option<Maker>>, AllocError>
    ensures { IfOk result (λ makers. AreMakers code.now makers) }
{
    let bodies = code.bodies();
    let mut makers = vec![in alloc; None; bodies.len()]?;
    for (number, body) in bodies.iter().enumerate() {
        put_makers(&mut makers, code.version(), number as u32, body);
    }
    Ok(List::from_vec(makers))
}

/// The maker of each body and the body around each, in the order of the bodies. An `Err` only where memory runs out.
pub fn outline(alloc: Global, code: &Code) -> Result<Outline, AllocError>
    ensures { IfOk result (λ o. Outlines code.now o) }
{
    let makers = makers_of(alloc, code)?;
    let scopes = scopes_of(alloc, makers.as_slice())?;
    Ok(Outline { makers, scopes })
}

/// What every layout and every program keeps: instructions stand one after the other and are found by their
/// places, and makers, scopes and children are bodies of the program.
pub fn laws_of_outlines()
    ensures lays { (version : ℕ) (code : prelude.List ℕ) → Lays version code }
    ensures nests { (p : Program) → Nests p }
{}

#[cfg(test)]
mod tests;
