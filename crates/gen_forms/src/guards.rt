//! Bodies with rescue clauses and ensure parts.
ghost use Rattle.std.specs.Prelude.{◌≡◌, ◌++◌, true, OnOk, IfOk};
ghost use Rattle.ir_core.specs.CoreForm as form;
ghost use Rattle.ir_core.specs.PartsBy as by;
ghost use Rattle.gen_parts.specs.Pieces.{past};
ghost use Rattle.gen_parts.specs.Emission.{with_piece, here};
ghost use Rattle.gen_forms.specs.Gen as gens;
ghost use Rattle.gen_forms.specs.Gen.{gen};
ghost use Rattle.gen_forms.specs.Open as opened;
ghost use Rattle.gen_forms.specs.Around.{context_of};

use crate::context::Context;
use crate::emits::{Emits, Emitted, emit_optional};
use crate::numbers::after;
use gen_parts::{Catch, Emitter, Held};
use ir_core::{BeginForm, Clause};
use rite_code::Operation;
use std::alloc::AllocError;

/// A class that a clause names, and whether it takes the exception.
fn test_class<'s, T: Emits>(
    code: &mut Emitter,
    context: &Context<'_, 's>,
    a: u16,
    class: &'s Box<T>,
) -> Emitted
    ensures { OnOk result (code.new ≡ with_piece code.old
        (opened.test_one (context_of context.now) (here code.old) a (by.core_by T.form class.now))) }
{
    let exception = after(a, 1)?;
    let register = after(a, 2)?;
    class.emit(code, context, register)?;
    code.does(Operation::Rescue {
        a: exception,
        b: register,
    })
}

/// The classes of a clause behind the first. The lines of the jumps behind those that take the exception are put
/// behind others.
fn test_others<'s, T: Emits>(
    code: &mut Emitter,
    context: &Context<'_, 's>,
    a: u16,
    classes: &'s [Box<T>],
    outs: &mut Vec<u32>,
) -> Emitted
    ensures code { OnOk result (code.new ≡ with_piece code.old
        (opened.tests_to 0 (context_of context.now) (here code.old) a (by.cores_by T.form classes.now))) }
    ensures outs { OnOk result (outs.new.items ≡ outs.old.items
        ++ opened.test_outs (context_of context.now) (here code.old) a (by.cores_by T.form classes.now)) }
{
    let register = after(a, 2)?;
    for class in classes {
        let out = code.hold(Held::JumpIf(register))?;
        outs.push(out)?;
        test_class(code, context, a, class)?;
    }
    Ok(())
}

/// Whether the exception is of one of the classes of a clause, StandardError where it has none.
#[tactic(auto, using(gen_parts::proofs::Laws::piece_laws, crate::proofs::Landings::landing_laws))]
fn test_classes<'s, T: Emits>(
    code: &mut Emitter,
    context: &Context<'_, 's>,
    a: u16,
    classes: &'s [Box<T>],
) -> Emitted
    ensures { OnOk result (code.new ≡ with_piece code.old
        (gens.test_classes (context_of context.now) (here code.old) a (by.cores_by T.form classes.now))) }
{
    match classes.split_first() {
        Some((first, others)) => {
            let mut outs = Vec::new(context.alloc);
            test_class(code, context, a, first)?;
            test_others(code, context, a, others, &mut outs)?;
            code.land_each(&outs, Held::JumpIf(after(a, 2)?))
        }
        None => test_standard(code, a),
    }
}

fn test_standard(code: &mut Emitter, a: u16) -> Emitted
    ensures { OnOk result (code.new ≡ with_piece code.old (gens.test_standard a)) }
{
    let exception = after(a, 1)?;
    let register = after(a, 2)?;
    code.does(Operation::OClass { a: register, b: 1 })?;
    code.does(Operation::Rescue {
        a: exception,
        b: register,
    })
}

/// A clause. Gives the line of the jump that leads out of it, to line 0 yet.
fn clause<'s, T: Emits>(
    code: &mut Emitter,
    context: &Context<'_, 's>,
    a: u16,
    clause: &'s Clause<Box<T>>,
) -> Result<u32, AllocError>
    ensures code { OnOk result (code.new ≡ with_piece code.old
        (opened.clause_to 0 (context_of context.now) (here code.old) a
        (by.cores_by T.form clause.now.classes.items) (by.boxed_by T.form clause.now.target)
        (by.core_by T.form clause.now.body))) }
    ensures out { IfOk result (λ n. n ≡ (opened.clause_out (context_of context.now) (here code.old) a
        (by.cores_by T.form clause.now.classes.items) (by.boxed_by T.form clause.now.target)
        (by.core_by T.form clause.now.body)).line) }
{
    let register = after(a, 2)?;
    test_classes(code, context, a, clause.classes.as_slice())?;
    let over = code.hold(Held::JumpNot(register))?;
    emit_optional(code, context, register, &clause.target)?;
    clause.body.emit(code, context, a)?;
    let out = code.hold(Held::Jump)?;
    code.land(over, Held::JumpNot(register))?;
    Ok(out)
}

fn clauses<'s, T: Emits>(
    code: &mut Emitter,
    context: &Context<'_, 's>,
    a: u16,
    list: &'s [Clause<Box<T>>],
    outs: &mut Vec<u32>,
) -> Emitted
    ensures code { OnOk result (code.new ≡ with_piece code.old
        (opened.clauses_to 0 (context_of context.now) (here code.old) a (by.clauses_by T.form list.now))) }
    ensures outs { OnOk result (outs.new.items ≡ outs.old.items
        ++ opened.clause_outs (context_of context.now) (here code.old) a (by.clauses_by T.form list.now)) }
{
    for each in list {
        let out = clause(code, context, a, each)?;
        outs.push(out)?;
    }
    Ok(())
}

/// The first clause that takes the exception; where none does it goes on.
#[tactic(auto, using(gen_parts::proofs::Laws::piece_laws, crate::proofs::Landings::landing_laws))]
fn handle<'s, T: Emits>(
    code: &mut Emitter,
    context: &Context<'_, 's>,
    a: u16,
    list: &'s [Clause<Box<T>>],
) -> Emitted
    ensures { OnOk result (code.new ≡ with_piece code.old
        (gens.handle (context_of context.now) (here code.old) a (by.clauses_by T.form list.now))) }
{
    let mut outs = Vec::new(context.alloc);
    clauses(code, context, a, list, &mut outs)?;
    code.does(Operation::RaiseIf { a: after(a, 1)? })?;
    code.land_each(&outs, Held::Jump)
}

/// The body of a begin form, and what is done where nothing was raised. Gives the line where the body ends.
fn body_and_otherwise<'s, T: Emits>(
    code: &mut Emitter,
    context: &Context<'_, 's>,
    a: u16,
    begin: &'s BeginForm<Box<T>>,
) -> Result<u32, AllocError>
    ensures code { OnOk result (code.new ≡ with_piece code.old (opened.body_and_otherwise (context_of context.now)
        (here code.old) a (by.core_by T.form begin.now.body) (by.boxed_by T.form begin.now.otherwise))) }
    ensures end { IfOk result (λ n. n ≡ (past (here code.old)
        (gen (context_of context.now) (here code.old) a (by.core_by T.form begin.now.body))).line) }
{
    begin.body.emit(code, context, a)?;
    let end = code.next_line()?;
    emit_optional(code, context, a, &begin.otherwise)?;
    Ok(end)
}

/// A body with clauses, and what they do with an exception.
fn with_clauses<'s, T: Emits>(
    code: &mut Emitter,
    context: &Context<'_, 's>,
    a: u16,
    begin: &'s BeginForm<Box<T>>,
) -> Emitted
    ensures { OnOk result (code.new ≡ with_piece code.old (opened.rescued_if true (context_of context.now)
        (here code.old) a (by.core_by T.form begin.now.body) (by.clauses_by T.form begin.now.clauses.items)
        (by.boxed_by T.form begin.now.otherwise))) }
{
    let start = code.next_line()?;
    let entry = code.hold_catch()?;
    let end = body_and_otherwise(code, context, a, begin)?;
    let over = code.hold(Held::Jump)?;
    let target = code.next_line()?;
    code.land_catch(
        entry,
        Catch {
            rescue: true,
            begin: start,
            end,
            target,
        },
    );
    let exception = after(a, 1)?;
    code.does(Operation::Except { a: exception })?;
    let inside = context.within_clause(exception, start);
    handle(code, &inside, a, begin.clauses.as_slice())?;
    code.land(over, Held::Jump)
}

/// A body, and where it has clauses what they do with an exception.
fn rescued_by<'s, T: Emits>(
    code: &mut Emitter,
    context: &Context<'_, 's>,
    a: u16,
    begin: &'s BeginForm<Box<T>>,
    has_clauses: bool,
) -> Emitted
    ensures { OnOk result (code.new ≡ with_piece code.old (opened.rescued_if has_clauses (context_of context.now)
        (here code.old) a (by.core_by T.form begin.now.body) (by.clauses_by T.form begin.now.clauses.items)
        (by.boxed_by T.form begin.now.otherwise))) }
{
    if has_clauses {
        return with_clauses(code, context, a, begin);
    }
    body_and_otherwise(code, context, a, begin)?;
    Ok(())
}

/// A body with clauses.
#[tactic(auto, using(gen_parts::proofs::Laws::piece_laws, crate::proofs::Items::list_laws))]
fn rescued<'s, T: Emits>(
    code: &mut Emitter,
    context: &Context<'_, 's>,
    a: u16,
    begin: &'s BeginForm<Box<T>>,
) -> Emitted
    ensures { OnOk result (code.new ≡ with_piece code.old (opened.rescued (context_of context.now) (here code.old) a
        (by.core_by T.form begin.now.body) (by.clauses_by T.form begin.now.clauses.items)
        (by.boxed_by T.form begin.now.otherwise))) }
{
    rescued_by(code, context, a, begin, !begin.clauses.is_empty())
}

/// A begin form.
pub fn guarded<'s, T: Emits>(
    code: &mut Emitter,
    context: &Context<'_, 's>,
    a: u16,
    begin: &'s BeginForm<Box<T>>,
) -> Emitted
    ensures { OnOk result (code.new ≡ with_piece code.old
        (gen (context_of context.now) (here code.old) a (by.begin_by T.form begin.now))) }
{
    match &begin.ensure {
        Some(last) => ensured(code, context, a, begin, last),
        None => rescued(code, context, a, begin),
    }
}

/// A begin form with an ensure part. The exit that came, if one did, is kept in the register behind that of the value.
fn ensured<'s, T: Emits>(
    code: &mut Emitter,
    context: &Context<'_, 's>,
    a: u16,
    begin: &'s BeginForm<Box<T>>,
    last: &'s Box<T>,
) -> Emitted
    ensures { OnOk result (code.new ≡ with_piece code.old (gen (context_of context.now) (here code.old) a
        (form.begin_form (by.core_by T.form begin.now.body) (by.clauses_by T.form begin.now.clauses.items)
        (by.boxed_by T.form begin.now.otherwise) (form.there (by.core_by T.form last.now))))) }
{
    let exit = after(a, 1)?;
    let start = code.next_line()?;
    let entry = code.hold_catch()?;
    rescued(code, context, a, begin)?;
    let end = code.next_line()?;
    code.land_catch(
        entry,
        Catch {
            rescue: false,
            begin: start,
            end,
            target: end,
        },
    );
    code.does(Operation::Except { a: exit })?;
    last.emit(code, context, after(a, 2)?)?;
    code.does(Operation::RaiseIf { a: exit })
}
