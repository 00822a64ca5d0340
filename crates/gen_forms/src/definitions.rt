//! Definitions of methods, classes and modules.
ghost use Rattle.std.specs.Prelude.{◌≡◌, OnOk};
ghost use Rattle.ir_core.specs.PartsBy as by;
ghost use Rattle.gen_parts.specs.Emission.{with_piece, here};
ghost use Rattle.gen_forms.specs.Gen as gens;
ghost use Rattle.gen_forms.specs.Making as makes;
ghost use Rattle.gen_forms.specs.Around.{context_of};

use crate::bodies::{Maker, define, make};
use crate::context::{Context, symbol};
use crate::emits::{Emits, Emitted, then_do};
use crate::numbers::after;
use gen_parts::Emitter;
use ir_core::Body;
use rb_base::Bytes;
use rite_code::Operation;

/// A method.
pub fn method<'s, T: Emits>(
    code: &mut Emitter,
    context: &Context<'_, 's>,
    a: u16,
    name: &Bytes,
    body: &'s Box<Body<Box<T>>>,
) -> Emitted
    ensures { OnOk result (code.new ≡ with_piece code.old (makes.method_made (context_of context.now)
        (here code.old) a name.now (by.body_by T.form body.now.value))) }
{
    code.does(Operation::TClass { a })?;
    define(code, context, a, name, body)
}

/// A method of one object.
pub fn define_on<'s, T: Emits>(
    code: &mut Emitter,
    context: &Context<'_, 's>,
    a: u16,
    core: &'s Box<T>,
    name: &Bytes,
    body: &'s Box<Body<Box<T>>>,
) -> Emitted
    ensures { OnOk result (code.new ≡ with_piece code.old (makes.singleton_made (context_of context.now)
        (here code.old) a (by.core_by T.form core.now) name.now (by.body_by T.form body.now.value))) }
{
    then_do(code, context, a, core, Operation::SClass { a })?;
    define(code, context, a, name, body)
}

/// The scope that a class or module is defined in.
fn scope<'s, T: Emits>(
    code: &mut Emitter,
    context: &Context<'_, 's>,
    a: u16,
    core: &'s Option<Box<T>>,
) -> Emitted
    ensures { OnOk result (code.new ≡ with_piece code.old
        (gens.gen_scope (context_of context.now) (here code.old) a (by.boxed_by T.form core.now))) }
{
    match core {
        Some(core) => core.emit(code, context, a),
        None => code.does(Operation::TClass { a }),
    }
}

/// The superclass that a class names, or nil.
fn parent<'s, T: Emits>(
    code: &mut Emitter,
    context: &Context<'_, 's>,
    a: u16,
    core: &'s Option<Box<T>>,
) -> Emitted
    ensures { OnOk result (code.new ≡ with_piece code.old
        (gens.gen_parent (context_of context.now) (here code.old) a (by.boxed_by T.form core.now))) }
{
    match core {
        Some(core) => core.emit(code, context, a),
        None => code.does(Operation::LoadNil { a }),
    }
}

/// A class and its body.
pub fn class<'s, T: Emits>(
    code: &mut Emitter,
    context: &Context<'_, 's>,
    a: u16,
    around: &'s Option<Box<T>>,
    name: &Bytes,
    superclass: &'s Option<Box<T>>,
    body: &'s Box<Body<Box<T>>>,
) -> Emitted
    ensures { OnOk result (code.new ≡ with_piece code.old (makes.class_made (context_of context.now) (here code.old)
        a (by.boxed_by T.form around.now) name.now (by.boxed_by T.form superclass.now)
        (by.body_by T.form body.now.value))) }
{
    let b = symbol(context, name)?;
    scope(code, context, a, around)?;
    let next = after(a, 1)?;
    parent(code, context, next, superclass)?;
    code.does(Operation::Class { a, b })?;
    make(code, context, a, Maker::Class, body)
}

/// A module and its body.
pub fn module<'s, T: Emits>(
    code: &mut Emitter,
    context: &Context<'_, 's>,
    a: u16,
    around: &'s Option<Box<T>>,
    name: &Bytes,
    body: &'s Box<Body<Box<T>>>,
) -> Emitted
    ensures { OnOk result (code.new ≡ with_piece code.old (makes.module_made (context_of context.now) (here code.old)
        a (by.boxed_by T.form around.now) name.now (by.body_by T.form body.now.value))) }
{
    let b = symbol(context, name)?;
    scope(code, context, a, around)?;
    code.does(Operation::Module { a, b })?;
    make(code, context, a, Maker::Class, body)
}

/// The singleton class of a value and its body.
pub fn singleton_class<'s, T: Emits>(
    code: &mut Emitter,
    context: &Context<'_, 's>,
    a: u16,
    core: &'s Box<T>,
    body: &'s Box<Body<Box<T>>>,
) -> Emitted
    ensures { OnOk result (code.new ≡ with_piece code.old (makes.opened_made (context_of context.now) (here code.old)
        a (by.core_by T.form core.now) (by.body_by T.form body.now.value))) }
{
    then_do(code, context, a, core, Operation::SClass { a })?;
    make(code, context, a, Maker::Class, body)
}
