//! Locals, names and forms with one part.
ghost use Rattle.std.specs.Prelude.{◌≡◌, OnOk};
ghost use Rattle.ir_core.specs.CoreForm as form;
ghost use Rattle.ir_core.specs.PartsBy as by;
ghost use Rattle.ir_core.specs.View.{local_of};
ghost use Rattle.gen_parts.specs.Emission.{with_piece, here};
ghost use Rattle.gen_forms.specs.Gen.{gen};
ghost use Rattle.gen_forms.specs.Open as opened;
ghost use Rattle.gen_forms.specs.Around.{context_of};

use crate::context::{Context, load_integer, read, symbol, text_entry, write};
use crate::emits::{Emits, Emitted, then_do};
use crate::numbers::after;
use gen_parts::Emitter;
use ir_core::Local;
use rb_base::Bytes;
use rite_code::Operation;
use scope_resolver::{own_place, place_of};

pub fn integer(code: &mut Emitter, context: &Context, a: u16, value: i64) -> Emitted
    ensures { OnOk result (code.new ≡ with_piece code.old
        (gen (context_of context.now) (here code.old) a (form.int value))) }
{
    code.does(load_integer(context, a, value)?)
}

pub fn string(code: &mut Emitter, context: &Context, a: u16, text: &Bytes) -> Emitted
    ensures { OnOk result (code.new ≡ with_piece code.old
        (gen (context_of context.now) (here code.old) a (form.str text.now))) }
{
    let b = text_entry(context, text.as_slice())?;
    code.does(Operation::String { a, b })
}

pub fn local(code: &mut Emitter, context: &Context, a: u16, x: &Local) -> Emitted
    ensures { OnOk result (code.new ≡ with_piece code.old
        (gen (context_of context.now) (here code.old) a (form.local (local_of x.now)))) }
{
    code.does(read(a, place_of(context.scopes, x)?)?)
}

pub fn own(code: &mut Emitter, context: &Context, a: u16, x: &Local) -> Emitted
    ensures { OnOk result (code.new ≡ with_piece code.old
        (gen (context_of context.now) (here code.old) a (form.own (local_of x.now)))) }
{
    code.does(read(a, own_place(context.scopes, x)?)?)
}

/// The exception that a clause took.
pub fn exception(code: &mut Emitter, context: &Context, a: u16) -> Emitted
    ensures { OnOk result (code.new ≡ with_piece code.old
        (gen (context_of context.now) (here code.old) a form.exception)) }
{
    code.does(Operation::Move {
        a,
        b: context.caught,
    })
}

pub fn set_local<'s, T: Emits>(
    code: &mut Emitter,
    context: &Context<'_, 's>,
    a: u16,
    x: &Local,
    value: &'s Box<T>,
) -> Emitted
    ensures { OnOk result (code.new ≡ with_piece code.old (gen (context_of context.now) (here code.old) a
        (form.set_local (local_of x.now) (by.core_by T.form value.now)))) }
{
    let operation = write(a, place_of(context.scopes, x)?)?;
    then_do(code, context, a, value, operation)
}

pub fn top_constant(code: &mut Emitter, context: &Context, a: u16, name: &Bytes) -> Emitted
    ensures { OnOk result (code.new ≡ with_piece code.old
        (gen (context_of context.now) (here code.old) a (form.top_constant name.now))) }
{
    let b = symbol(context, name)?;
    code.does(Operation::OClass { a, b: 0 })?;
    code.does(Operation::GetMCnst { a, b })
}

/// Two values in neighbouring registers.
pub fn two<'s, T: Emits>(
    code: &mut Emitter,
    context: &Context<'_, 's>,
    a: u16,
    first: &'s Box<T>,
    second: &'s Box<T>,
) -> Emitted
    ensures { OnOk result (code.new ≡ with_piece code.old (opened.gen_two (context_of context.now) (here code.old) a
        (by.core_by T.form first.now) (by.core_by T.form second.now))) }
{
    first.emit(code, context, a)?;
    second.emit(code, context, after(a, 1)?)
}

pub fn set_in_constant<'s, T: Emits>(
    code: &mut Emitter,
    context: &Context<'_, 's>,
    a: u16,
    scope: &'s Box<T>,
    name: &Bytes,
    value: &'s Box<T>,
) -> Emitted
    ensures { OnOk result (code.new ≡ with_piece code.old (gen (context_of context.now) (here code.old) a
        (form.set_in_constant (by.core_by T.form scope.now) name.now (by.core_by T.form value.now)))) }
{
    two(code, context, a, scope, value)?;
    let b = symbol(context, name)?;
    code.does(Operation::SetMCnst { a, b })
}

pub fn range<'s, T: Emits>(
    code: &mut Emitter,
    context: &Context<'_, 's>,
    a: u16,
    from: &'s Box<T>,
    to: &'s Box<T>,
    exclusive: bool,
) -> Emitted
    ensures { OnOk result (code.new ≡ with_piece code.old (gen (context_of context.now) (here code.old) a
        (form.range (by.core_by T.form from.now) (by.core_by T.form to.now) exclusive))) }
{
    two(code, context, a, from, to)?;
    if exclusive {
        code.does(Operation::RangeExc { a })
    } else {
        code.does(Operation::RangeInc { a })
    }
}

/// An instruction, then nil.
pub fn then_nil(code: &mut Emitter, a: u16, operation: Operation) -> Emitted
    ensures { OnOk result (code.new ≡ with_piece code.old (opened.then_nil a operation)) }
{
    code.does(operation)?;
    code.does(Operation::LoadNil { a })
}
