//! What has code.
ghost use Rattle.std.specs.Prelude.{◌≡◌, ◌++◌, OnOk, IfOk};
ghost use Rattle.ir_core.specs.CoreForm.{CoreForm};
ghost use Rattle.ir_core.specs.PartsBy as by;
ghost use Rattle.ir_walk.specs.Width.{width as width_of};
ghost use Rattle.ir_counts.specs.Counts.{form_tally};
ghost use Rattle.gen_parts.specs.Emission.{with_piece, here};
ghost use Rattle.gen_parts.specs.Pieces.{◌⊕◌, does};
ghost use Rattle.gen_forms.specs.Gen as gens;
ghost use Rattle.gen_forms.specs.Gen.{gen, in_turn, starts as starts_of};
ghost use Rattle.gen_forms.specs.Open.{forms_in};
ghost use Rattle.gen_forms.specs.Around.{context_of};

use crate::context::Context;
use gen_parts::Emitter;
use ir_counts::Tally;
use rite_code::Operation;
use std::alloc::{AllocError, Global};

/// Nothing, where there was memory for the code.
pub type Emitted = Result<(), AllocError>;

/// What has code: a core that stands for a form.
pub trait Emits {
    ghost form: { Self → CoreForm };

    /// Takes the code of the form, which leaves its value in the register.
    fn emit<'s>(&'s self, code: &mut Emitter, context: &Context<'_, 's>, register: u16) -> Emitted
        ensures { OnOk result (code.new ≡
            with_piece code.old (gen (context_of context.now) (here code.old) register (form self.now))) };

    /// Takes the code of a sequence of forms. The lines where the first so many of them begin are put behind others;
    /// past the last form these are where the forms end. Any other form stands for none.
    fn emit_started<'s>(
        &'s self,
        code: &mut Emitter,
        context: &Context<'_, 's>,
        register: u16,
        count: usize,
        starts: &mut Vec<u32>,
    ) -> Emitted
        ensures code { OnOk result (code.new ≡ with_piece code.old
            (in_turn (context_of context.now) (here code.old) register (forms_in (form self.now)))) }
        ensures starts { OnOk result (starts.new.items ≡ starts.old.items
            ++ starts_of (context_of context.now) (here code.old) register count (forms_in (form self.now))) };

    /// The tally of a body with this form.
    fn tally<'a>(&'a self, alloc: Global) -> Result<Tally<'a>, AllocError>
        ensures { IfOk result (λ t. t ≡ form_tally (form self.now)) };

    /// How many registers the form takes.
    fn width(&self, alloc: Global) -> Result<u64, AllocError>
        ensures { IfOk result (λ w. w ≡ width_of (form self.now)) };
}

/// A form, then an instruction.
pub fn then_do<'s, T: Emits>(
    code: &mut Emitter,
    context: &Context<'_, 's>,
    register: u16,
    core: &'s Box<T>,
    operation: Operation,
) -> Emitted
    ensures { OnOk result (code.new ≡ with_piece code.old
        (gen (context_of context.now) (here code.old) register (by.core_by T.form core.now) ⊕ does operation)) }
{
    core.emit(code, context, register)?;
    code.does(operation)
}

/// A form that may be there.
pub fn emit_optional<'s, T: Emits>(
    code: &mut Emitter,
    context: &Context<'_, 's>,
    register: u16,
    core: &'s Option<Box<T>>,
) -> Emitted
    ensures { OnOk result (code.new ≡ with_piece code.old
        (gens.gen_maybe (context_of context.now) (here code.old) register (by.boxed_by T.form core.now))) }
{
    match core {
        Some(core) => core.emit(code, context, register),
        None => Ok(()),
    }
}
