//! Symbols, and variables, constants and methods by their names.
ghost use Rattle.std.specs.Prelude.{◌≡◌, OnOk};
ghost use Rattle.ir_core.specs.CoreForm as form;
ghost use Rattle.ir_core.specs.PartsBy as by;
ghost use Rattle.gen_parts.specs.Emission.{with_piece, here};
ghost use Rattle.gen_forms.specs.Gen.{gen};
ghost use Rattle.gen_forms.specs.Around.{context_of};

use crate::context::{Context, symbol};
use crate::emits::{Emits, Emitted, then_do};
use crate::leaves::then_nil;
use gen_parts::Emitter;
use rb_base::Bytes;
use rite_code::Operation;

/// A symbol.
pub fn symbol_value(code: &mut Emitter, context: &Context, a: u16, name: &Bytes) -> Emitted
    ensures { OnOk result (code.new ≡ with_piece code.old
        (gen (context_of context.now) (here code.old) a (form.sym name.now))) }
{
    let b = symbol(context, name)?;
    code.does(Operation::LoadSym { a, b })
}

/// An instance variable.
pub fn instance_variable(code: &mut Emitter, context: &Context, a: u16, name: &Bytes) -> Emitted
    ensures { OnOk result (code.new ≡ with_piece code.old
        (gen (context_of context.now) (here code.old) a (form.ivar name.now))) }
{
    let b = symbol(context, name)?;
    code.does(Operation::GetIv { a, b })
}

/// An instance variable is set.
pub fn set_instance_variable<'s, T: Emits>(
    code: &mut Emitter,
    context: &Context<'_, 's>,
    a: u16,
    name: &Bytes,
    value: &'s Box<T>,
) -> Emitted
    ensures { OnOk result (code.new ≡ with_piece code.old (gen (context_of context.now) (here code.old) a
        (form.set_ivar name.now (by.core_by T.form value.now)))) }
{
    let b = symbol(context, name)?;
    then_do(code, context, a, value, Operation::SetIv { a, b })
}

/// A global variable.
pub fn global_variable(code: &mut Emitter, context: &Context, a: u16, name: &Bytes) -> Emitted
    ensures { OnOk result (code.new ≡ with_piece code.old
        (gen (context_of context.now) (here code.old) a (form.gvar name.now))) }
{
    let b = symbol(context, name)?;
    code.does(Operation::GetGv { a, b })
}

/// A global variable is set.
pub fn set_global_variable<'s, T: Emits>(
    code: &mut Emitter,
    context: &Context<'_, 's>,
    a: u16,
    name: &Bytes,
    value: &'s Box<T>,
) -> Emitted
    ensures { OnOk result (code.new ≡ with_piece code.old (gen (context_of context.now) (here code.old) a
        (form.set_gvar name.now (by.core_by T.form value.now)))) }
{
    let b = symbol(context, name)?;
    then_do(code, context, a, value, Operation::SetGv { a, b })
}

/// A constant.
pub fn constant(code: &mut Emitter, context: &Context, a: u16, name: &Bytes) -> Emitted
    ensures { OnOk result (code.new ≡ with_piece code.old
        (gen (context_of context.now) (here code.old) a (form.constant name.now))) }
{
    let b = symbol(context, name)?;
    code.does(Operation::GetConst { a, b })
}

/// A constant in a class or module, which is the value.
pub fn constant_in<'s, T: Emits>(
    code: &mut Emitter,
    context: &Context<'_, 's>,
    a: u16,
    name: &Bytes,
    value: &'s Box<T>,
) -> Emitted
    ensures { OnOk result (code.new ≡ with_piece code.old (gen (context_of context.now) (here code.old) a
        (form.in_constant (by.core_by T.form value.now) name.now))) }
{
    let b = symbol(context, name)?;
    then_do(code, context, a, value, Operation::GetMCnst { a, b })
}

/// A constant is set.
pub fn set_constant<'s, T: Emits>(
    code: &mut Emitter,
    context: &Context<'_, 's>,
    a: u16,
    name: &Bytes,
    value: &'s Box<T>,
) -> Emitted
    ensures { OnOk result (code.new ≡ with_piece code.old (gen (context_of context.now) (here code.old) a
        (form.set_constant name.now (by.core_by T.form value.now)))) }
{
    let b = symbol(context, name)?;
    then_do(code, context, a, value, Operation::SetConst { a, b })
}

/// A second name of a method.
pub fn alias(code: &mut Emitter, context: &Context, a: u16, new: &Bytes, old: &Bytes) -> Emitted
    ensures { OnOk result (code.new ≡ with_piece code.old
        (gen (context_of context.now) (here code.old) a (form.alias_form new.now old.now))) }
{
    let first = symbol(context, new)?;
    let second = symbol(context, old)?;
    then_nil(
        code,
        a,
        Operation::Alias {
            a: first,
            b: second,
        },
    )
}

/// A method is undefined.
pub fn undef(code: &mut Emitter, context: &Context, a: u16, name: &Bytes) -> Emitted
    ensures { OnOk result (code.new ≡ with_piece code.old
        (gen (context_of context.now) (here code.old) a (form.undef_form name.now))) }
{
    let method = symbol(context, name)?;
    then_nil(code, a, Operation::Undef { a: method })
}
