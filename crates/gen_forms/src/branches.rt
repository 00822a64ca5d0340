//! Conditions.
ghost use Rattle.std.specs.Prelude.{◌≡◌, ◌++◌, OnOk, IfOk};
ghost use Rattle.ir_core.specs.CoreForm as form;
ghost use Rattle.ir_core.specs.PartsBy as by;
ghost use Rattle.gen_parts.specs.Emission.{with_piece, here};
ghost use Rattle.gen_forms.specs.Gen.{gen};
ghost use Rattle.gen_forms.specs.Open as opened;
ghost use Rattle.gen_forms.specs.Around.{context_of};

use crate::context::Context;
use crate::emits::{Emits, Emitted};
use gen_parts::{Emitter, Held};
use rb_syntax::Branch;
use std::alloc::AllocError;

/// The first form, and the second unless a jump over it is taken.
fn first_or_second<'s, T: Emits>(
    code: &mut Emitter,
    context: &Context<'_, 's>,
    a: u16,
    first: &'s Box<T>,
    second: &'s Box<T>,
    over: Held,
) -> Emitted
    ensures { OnOk result (code.new ≡ with_piece code.old (opened.first_or_second over (context_of context.now)
        (here code.old) a (by.core_by T.form first.now) (by.core_by T.form second.now))) }
{
    first.emit(code, context, a)?;
    let line = code.hold(over)?;
    second.emit(code, context, a)?;
    code.land(line, over)
}

/// The second form where the first is true.
pub fn and<'s, T: Emits>(
    code: &mut Emitter,
    context: &Context<'_, 's>,
    a: u16,
    first: &'s Box<T>,
    second: &'s Box<T>,
) -> Emitted
    ensures { OnOk result (code.new ≡ with_piece code.old (gen (context_of context.now) (here code.old) a
        (form.and_form (by.core_by T.form first.now) (by.core_by T.form second.now)))) }
{
    first_or_second(code, context, a, first, second, Held::JumpNot(a))
}

/// The second form where the first isn't true.
pub fn or<'s, T: Emits>(
    code: &mut Emitter,
    context: &Context<'_, 's>,
    a: u16,
    first: &'s Box<T>,
    second: &'s Box<T>,
) -> Emitted
    ensures { OnOk result (code.new ≡ with_piece code.old (gen (context_of context.now) (here code.old) a
        (form.or_form (by.core_by T.form first.now) (by.core_by T.form second.now)))) }
{
    first_or_second(code, context, a, first, second, Held::JumpIf(a))
}

/// A branch. Gives the line of the jump that leads out of it, to line 0 yet.
fn branch<'s, T: Emits>(
    code: &mut Emitter,
    context: &Context<'_, 's>,
    a: u16,
    branch: &'s Branch<Box<T>>,
) -> Result<u32, AllocError>
    ensures code { OnOk result (code.new ≡ with_piece code.old
        (opened.branch_to 0 (context_of context.now) (here code.old) a
        (by.core_by T.form branch.now.test) (by.core_by T.form branch.now.body))) }
    ensures out { IfOk result (λ n. n ≡ (opened.branch_out (context_of context.now) (here code.old) a
        (by.core_by T.form branch.now.test) (by.core_by T.form branch.now.body)).line) }
{
    branch.test.emit(code, context, a)?;
    let over = code.hold(Held::JumpNot(a))?;
    branch.body.emit(code, context, a)?;
    let out = code.hold(Held::Jump)?;
    code.land(over, Held::JumpNot(a))?;
    Ok(out)
}

/// The branches, whose jumps out lead to line 0 yet; the lines of these are put behind others.
#[tactic(auto, using(gen_parts::proofs::Laws::piece_laws, crate::proofs::Items::turn_laws))]
fn branches<'s, T: Emits>(
    code: &mut Emitter,
    context: &Context<'_, 's>,
    a: u16,
    list: &'s Vec<Branch<Box<T>>>,
    outs: &mut Vec<u32>,
) -> Emitted
    ensures code { OnOk result (code.new ≡ with_piece code.old
        (opened.branches_to 0 (context_of context.now) (here code.old) a (by.branches_by T.form list.now.items))) }
    ensures outs { OnOk result (outs.new.items ≡ outs.old.items
        ++ opened.branch_outs (context_of context.now) (here code.old) a (by.branches_by T.form list.now.items)) }
{
    for each in list {
        let out = branch(code, context, a, each)?;
        outs.push(out)?;
    }
    Ok(())
}

/// The first branch whose test is true, and else the last form.
#[tactic(auto, using(gen_parts::proofs::Laws::piece_laws, crate::proofs::Landings::landing_laws))]
pub fn choose<'s, T: Emits>(
    code: &mut Emitter,
    context: &Context<'_, 's>,
    a: u16,
    list: &'s Vec<Branch<Box<T>>>,
    otherwise: &'s Box<T>,
) -> Emitted
    ensures { OnOk result (code.new ≡ with_piece code.old (gen (context_of context.now) (here code.old) a
        (form.cond (by.branches_by T.form list.now.items) (by.core_by T.form otherwise.now)))) }
{
    let mut outs = Vec::new(context.alloc);
    branches(code, context, a, list, &mut outs)?;
    otherwise.emit(code, context, a)?;
    code.land_each(&outs, Held::Jump)
}
