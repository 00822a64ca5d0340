//! From the tree of a source to its core, by the table of lowering (docs/core.md; the table is a definition of
//! lower_table). The first construct outside the language is sought before anything is made; what is left is total.
//! Which construct is refused stands in specs/Refusal.antt.
//!
//! Type: [`LowerError`]. Call: [`lower`].
#![tactic(auto)]

pub mod error;

ghost use Rattle.std.specs.Prelude.{◌≡◌, None, IfOk, IfErr};
ghost use Rattle.ir_core.specs.View.{body_view};
ghost use Rattle.parser_tree.specs.View.{view};
ghost use Rattle.lower_outside.specs.Search.{found};
ghost use Rattle.lower_table.specs.Lowering.{program};
ghost use Rattle.rb_lower.specs.Refusal.{Refuses};

pub use error::LowerError;
use ir_core::Program;
use lower_outside::first_outside;
use lower_table::functions::lower_plain;
use parser_tree::Source;
use std::alloc::Global;

/// The core of a source. `Outside` comes exactly where its tree has a construct outside the language; it is the one
/// with the least place, and of those with one place the first in the text.
pub fn lower(alloc: Global, source: &Source) -> Result<Program, LowerError>
    ensures lowered { IfOk result (λ c. body_view c ≡ program source.now.locals (view source.now.body)) }
    ensures accepted { IfOk result (λ _. found None (view source.now.body) ≡ None) }
    ensures refused { IfErr result (Refuses (found None (view source.now.body))) }
{
    match first_outside(&source.body) {
        Some(found) => Err(LowerError::Outside {
            what: found.what,
            at: found.at,
        }),
        None => {
            let program = lower_plain(alloc, source)?;
            Ok(program)
        }
    }
}
