//! `defined?`.
ghost use Rattle.std.specs.Option.{option_copied};
ghost use Rattle.std.specs.Prelude.{◌≡◌, OnOk, IfOk};
ghost use Rattle.ir_core.specs.CoreForm as form;
ghost use Rattle.ir_core.specs.PartsBy as by;
ghost use Rattle.gen_parts.specs.Pieces.{does};
ghost use Rattle.gen_parts.specs.Emission.{with_piece, here};
ghost use Rattle.gen_forms.specs.Gen as gens;
ghost use Rattle.gen_forms.specs.Gen.{gen};
ghost use Rattle.gen_forms.specs.Around.{context_of};

use crate::context::{Context, symbol, text_entry};
use crate::emits::{Emits, Emitted};
use gen_parts::Emitter;
use rb_base::Bytes;
use rb_syntax::DefinedKind;
use rite_code::Operation;
use std::alloc::AllocError;

/// The text that is told without looking. None where the machine looks.
fn told(kind: DefinedKind) -> Option<&'static [u8]>
    ensures { option_copied result ≡ gens.told kind }
{
    match kind {
        DefinedKind::Expression => Some(b"expression"),
        DefinedKind::LocalVariable => Some(b"local-variable"),
        DefinedKind::SelfReference => Some(b"self"),
        DefinedKind::Assignment => Some(b"assignment"),
        DefinedKind::InstanceVariable
        | DefinedKind::GlobalVariable
        | DefinedKind::Constant
        | DefinedKind::Method
        | DefinedKind::Yield
        | DefinedKind::Super => None,
    }
}

/// What the machine looks for, without and with a value to look in.
fn question(kind: DefinedKind, has: bool) -> u16
    ensures { result ≡ gens.question kind has }
{
    match kind {
        DefinedKind::GlobalVariable => 1,
        DefinedKind::Constant => { if has { 3 } else { 2 } }
        DefinedKind::Method => { if has { 5 } else { 4 } }
        DefinedKind::Yield => 6,
        DefinedKind::Super => 7,
        DefinedKind::InstanceVariable
        | DefinedKind::Expression
        | DefinedKind::LocalVariable
        | DefinedKind::SelfReference
        | DefinedKind::Assignment => 0,
    }
}

/// The number of the name that is looked for, 0 where there is none.
fn asked_symbol(context: &Context, kind: DefinedKind, name: &Bytes) -> Result<u16, AllocError>
    ensures { IfOk result (λ n. n ≡ gens.asked_symbol (context_of context.now) kind name.now) }
{
    match kind {
        DefinedKind::InstanceVariable
        | DefinedKind::GlobalVariable
        | DefinedKind::Constant
        | DefinedKind::Method => symbol(context, name),
        DefinedKind::Yield
        | DefinedKind::Super
        | DefinedKind::Expression
        | DefinedKind::LocalVariable
        | DefinedKind::SelfReference
        | DefinedKind::Assignment => Ok(0),
    }
}

/// The instruction that asks, or the one of the text that is told.
#[tactic(auto, unfolding(crate::specs::Gen::ask))]
fn ask(
    context: &Context,
    kind: DefinedKind,
    name: &Bytes,
    has: bool,
    a: u16,
    text: Option<&'static [u8]>,
) -> Result<Operation, AllocError>
    ensures { IfOk result (λ o. o ≡ gens.ask (context_of context.now) kind name.now has a (option_copied text.entry)) }
{
    match text {
        Some(text) => {
            let b = text_entry(context, text)?;
            Ok(Operation::String { a, b })
        }
        None => {
            let c = asked_symbol(context, kind, name)?;
            Ok(Operation::Defined {
                a,
                b: question(kind, has),
                c,
            })
        }
    }
}

/// Asks whether something is defined, without or with a value to look in.
fn answer(
    code: &mut Emitter,
    context: &Context,
    kind: DefinedKind,
    name: &Bytes,
    has: bool,
    a: u16,
) -> Emitted
    ensures { OnOk result (code.new ≡ with_piece code.old
        (does (gens.ask (context_of context.now) kind name.now has a (gens.told kind)))) }
{
    code.does(ask(context, kind, name, has, a, told(kind))?)
}

/// Whether something is defined: a text of what it is, or nil.
pub fn defined<'s, T: Emits>(
    code: &mut Emitter,
    context: &Context<'_, 's>,
    a: u16,
    kind: DefinedKind,
    name: &Bytes,
    core: &'s Option<Box<T>>,
) -> Emitted
    ensures { OnOk result (code.new ≡ with_piece code.old (gen (context_of context.now) (here code.old) a
        (form.defined kind name.now (by.boxed_by T.form core.now)))) }
{
    match core {
        Some(core) => {
            core.emit(code, context, a)?;
            answer(code, context, kind, name, true, a)
        }
        None => answer(code, context, kind, name, false, a),
    }
}
