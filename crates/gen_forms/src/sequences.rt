//! Forms in turn.
ghost use Rattle.std.specs.Prelude.{◌≡◌, OnOk};
ghost use Rattle.ir_core.specs.PartsBy as by;
ghost use Rattle.gen_parts.specs.Emission.{with_piece, here};
ghost use Rattle.gen_forms.specs.Gen as gens;
ghost use Rattle.gen_forms.specs.Around.{context_of};

use crate::context::Context;
use crate::emits::{Emits, Emitted};
use gen_parts::Emitter;
use rite_code::Operation;

/// Forms in turn, each with its value in the same register.
#[tactic(auto, using(gen_parts::proofs::Laws::piece_laws, crate::proofs::Items::turn_laws))]
pub fn others_in_turn<'s, T: Emits>(
    code: &mut Emitter,
    context: &Context<'_, 's>,
    a: u16,
    list: &'s Vec<Box<T>>,
) -> Emitted
    ensures { OnOk result (code.new ≡ with_piece code.old
        (gens.others_in_turn (context_of context.now) (here code.old) a (by.cores_by T.form list.now.items))) }
{
    for core in list {
        core.emit(code, context, a)?;
    }
    Ok(())
}

/// Forms in turn, and nil where there is none.
#[tactic(auto, using(gen_parts::proofs::Laws::piece_laws, crate::proofs::Items::list_laws))]
pub fn in_turn<'s, T: Emits>(
    code: &mut Emitter,
    context: &Context<'_, 's>,
    a: u16,
    list: &'s Vec<Box<T>>,
) -> Emitted
    ensures { OnOk result (code.new ≡ with_piece code.old
        (gens.in_turn (context_of context.now) (here code.old) a (by.cores_by T.form list.now.items))) }
{
    if list.is_empty() {
        code.does(Operation::LoadNil { a })
    } else {
        others_in_turn(code, context, a, list)
    }
}
