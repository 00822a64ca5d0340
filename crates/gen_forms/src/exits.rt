//! What leaves a body or a loop.
ghost use Rattle.std.specs.Prelude.{◌≡◌, OnOk};
ghost use Rattle.ir_core.specs.CoreForm as form;
ghost use Rattle.ir_core.specs.PartsBy as by;
ghost use Rattle.gen_parts.specs.Emission.{with_piece, here};
ghost use Rattle.gen_forms.specs.Gen as gens;
ghost use Rattle.gen_forms.specs.Gen.{gen};
ghost use Rattle.gen_forms.specs.Around.{context_of};

use crate::context::{Context, Loop};
use crate::emits::{Emits, Emitted};
use gen_parts::{Emitter, Line};
use rite_code::Operation;
use scope_resolver::BodyKind;

/// The instruction of a return: in a block it leaves another activation.
fn return_by(kind: BodyKind, a: u16) -> Operation
    ensures { result ≡ gens.return_by kind a }
{
    match kind {
        BodyKind::Block => Operation::ReturnBlk { a },
        BodyKind::Main | BodyKind::Method | BodyKind::Class => Operation::Return { a },
    }
}

/// What a break does once its value is there.
fn break_by(code: &mut Emitter, around: Option<Loop>, a: u16) -> Emitted
    ensures { OnOk result (code.new ≡ with_piece code.old (gens.break_by around a)) }
{
    match around {
        Some(around) => {
            code.does(Operation::Move {
                a: around.value,
                b: a,
            })?;
            code.put(Line::Leave { to: around.out })
        }
        None => code.does(Operation::Break { a }),
    }
}

/// What a next does once its value is there.
fn next_by(code: &mut Emitter, around: Option<Loop>, a: u16) -> Emitted
    ensures { OnOk result (code.new ≡ with_piece code.old (gens.next_by around a)) }
{
    match around {
        Some(around) => code.put(Line::Leave { to: around.round }),
        None => code.does(Operation::Return { a }),
    }
}

/// A return: from the method around, which in a block is another activation.
pub fn return_value<'s, T: Emits>(
    code: &mut Emitter,
    context: &Context<'_, 's>,
    a: u16,
    value: &'s Box<T>,
) -> Emitted
    ensures { OnOk result (code.new ≡ with_piece code.old (gen (context_of context.now) (here code.old) a
        (form.return_form (by.core_by T.form value.now)))) }
{
    value.emit(code, context, a)?;
    code.does(return_by(context.kind, a))
}

/// A break: out of the loop around, or of the call that the block was given to.
pub fn break_with<'s, T: Emits>(
    code: &mut Emitter,
    context: &Context<'_, 's>,
    a: u16,
    value: &'s Box<T>,
) -> Emitted
    ensures { OnOk result (code.new ≡ with_piece code.old (gen (context_of context.now) (here code.old) a
        (form.break_form (by.core_by T.form value.now)))) }
{
    value.emit(code, context, a)?;
    break_by(code, context.around, a)
}

/// A next: to the next round of the loop around, or to the end of the block.
pub fn next_with<'s, T: Emits>(
    code: &mut Emitter,
    context: &Context<'_, 's>,
    a: u16,
    value: &'s Box<T>,
) -> Emitted
    ensures { OnOk result (code.new ≡ with_piece code.old (gen (context_of context.now) (here code.old) a
        (form.next_form (by.core_by T.form value.now)))) }
{
    value.emit(code, context, a)?;
    next_by(code, context.around, a)
}

/// A retry: to the beginning of the body that the clause is of.
pub fn retry(code: &mut Emitter, context: &Context, a: u16) -> Emitted
    ensures { OnOk result (code.new ≡ with_piece code.old (gen (context_of context.now) (here code.old) a form.retry)) }
{
    code.put(Line::Leave {
        to: context.body_start,
    })
}
