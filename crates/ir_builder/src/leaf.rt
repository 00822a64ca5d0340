//! Cores that hold a name or bytes, alone or with one value.
ghost use Rattle.std.specs.Prelude.{◌≡◌, IfOk, map};
ghost use Rattle.ir_core.specs.CoreForm as form;
ghost use Rattle.ir_core.specs.CoreForm.{forms};
ghost use Rattle.ir_core.specs.View.{core_view, local_of, term_view};
ghost use Rattle.ir_core.specs.Parts as part;
ghost use Rattle.ir_core.specs.Forms as built;
ghost use Rattle.ir_builder.specs.Forms as lowered;

use crate::control::sequence;
use ir_core::{Core, Local, Term};
use rb_base::Bytes;
use rb_syntax::Item;
use std::alloc::{AllocError, Global};

/// `nil`
pub fn nil(alloc: Global) -> Result<Core, AllocError>
    ensures { IfOk result (λ c. core_view c ≡ form.nil) }
{
    Term::Nil.into_core(alloc)
}

/// A String of these bytes.
pub fn string(alloc: Global, bytes: &[u8]) -> Result<Core, AllocError>
    ensures { IfOk result (λ c. core_view c ≡ form.str bytes.now) }
{
    let bytes = Bytes::from_slice(alloc, bytes)?;
    Term::Str(bytes).into_core(alloc)
}

/// A Symbol.
pub fn symbol(alloc: Global, name: &[u8]) -> Result<Core, AllocError>
    ensures { IfOk result (λ c. core_view c ≡ form.sym name.now) }
{
    let name = Bytes::from_slice(alloc, name)?;
    Term::Sym(name).into_core(alloc)
}

/// What a local variable holds.
pub fn local(alloc: Global, variable: Local) -> Result<Core, AllocError>
    ensures { IfOk result (λ c. core_view c ≡ form.local (local_of variable)) }
{
    Term::Local(variable).into_core(alloc)
}

/// What a parameter of the method around the text holds.
pub fn own(alloc: Global, variable: Local) -> Result<Core, AllocError>
    ensures { IfOk result (λ c. core_view c ≡ form.own (local_of variable)) }
{
    Term::Own(variable).into_core(alloc)
}

/// The store of a value in a local variable.
pub fn set_local(alloc: Global, variable: Local, value: Core) -> Result<Core, AllocError>
    ensures { IfOk result (λ c. core_view c ≡ form.set_local (local_of variable) (core_view value)) }
{
    Term::SetLocal(variable, value).into_core(alloc)
}

/// A local variable of the source.
pub fn named(alloc: Global, name: &[u8]) -> Result<Local, AllocError>
    ensures { IfOk result (λ l. local_of l ≡ form.named name.now) }
{
    Ok(Local::Named(Bytes::from_slice(alloc, name)?))
}

/// The same local variable.
pub fn same_local(alloc: Global, variable: &Local) -> Result<Local, AllocError>
    ensures { IfOk result (λ l. local_of l ≡ local_of variable.now) }
{
    match variable {
        Local::Named(name) => named(alloc, name.as_slice()),
        Local::Hidden(number) => Ok(Local::Hidden(*number)),
        Local::Pattern(place) => Ok(Local::Pattern(*place)),
        Local::Rest => Ok(Local::Rest),
    }
}

/// What an instance variable holds.
pub fn instance_variable(alloc: Global, name: &[u8]) -> Result<Core, AllocError>
    ensures { IfOk result (λ c. core_view c ≡ form.ivar name.now) }
{
    let name = Bytes::from_slice(alloc, name)?;
    Term::Ivar(name).into_core(alloc)
}

/// The store of a value in an instance variable.
pub fn set_instance_variable(alloc: Global, name: &[u8], value: Core) -> Result<Core, AllocError>
    ensures { IfOk result (λ c. core_view c ≡ form.set_ivar name.now (core_view value)) }
{
    let name = Bytes::from_slice(alloc, name)?;
    Term::SetIvar(name, value).into_core(alloc)
}

/// What a global variable holds.
pub fn global_variable(alloc: Global, name: &[u8]) -> Result<Core, AllocError>
    ensures { IfOk result (λ c. core_view c ≡ form.gvar name.now) }
{
    let name = Bytes::from_slice(alloc, name)?;
    Term::Gvar(name).into_core(alloc)
}

/// The store of a value in a global variable.
pub fn set_global_variable(alloc: Global, name: &[u8], value: Core) -> Result<Core, AllocError>
    ensures { IfOk result (λ c. core_view c ≡ form.set_gvar name.now (core_view value)) }
{
    let name = Bytes::from_slice(alloc, name)?;
    Term::SetGvar(name, value).into_core(alloc)
}

/// The value of a constant.
pub fn constant(alloc: Global, name: &[u8]) -> Result<Core, AllocError>
    ensures { IfOk result (λ c. core_view c ≡ form.constant name.now) }
{
    let name = Bytes::from_slice(alloc, name)?;
    Term::Const(name).into_core(alloc)
}

/// The assignment of a constant.
pub fn set_constant(alloc: Global, name: &[u8], value: Core) -> Result<Core, AllocError>
    ensures { IfOk result (λ c. core_view c ≡ form.set_constant name.now (core_view value)) }
{
    let name = Bytes::from_slice(alloc, name)?;
    Term::SetConst(name, value).into_core(alloc)
}

/// The value of a constant of Object.
pub fn top_constant(alloc: Global, name: &[u8]) -> Result<Core, AllocError>
    ensures { IfOk result (λ c. core_view c ≡ form.top_constant name.now) }
{
    let name = Bytes::from_slice(alloc, name)?;
    Term::TopConst(name).into_core(alloc)
}

/// The value of a constant of a class or module.
pub fn scoped_constant(alloc: Global, scope: Core, name: &[u8]) -> Result<Core, AllocError>
    ensures { IfOk result (λ c. core_view c ≡ form.in_constant (core_view scope) name.now) }
{
    let name = Bytes::from_slice(alloc, name)?;
    Term::InConst(scope, name).into_core(alloc)
}

/// The assignment of a constant of a class or module.
pub fn set_scoped_constant(
    alloc: Global,
    scope: Core,
    name: &[u8],
    value: Core,
) -> Result<Core, AllocError>
    ensures { IfOk result (λ c. core_view c ≡ form.set_in_constant (core_view scope) name.now (core_view value)) }
{
    let name = Bytes::from_slice(alloc, name)?;
    Term::SetInConst(scope, name, value).into_core(alloc)
}

/// The class Object.
pub fn object(alloc: Global) -> Result<Core, AllocError>
    ensures { IfOk result (λ c. core_view c ≡ lowered.object) }
{
    top_constant(alloc, b"Object")
}

/// `alias` of the new name and the old one.
pub fn alias(alloc: Global, new_name: &[u8], old_name: &[u8]) -> Result<Core, AllocError>
    ensures { IfOk result (λ c. core_view c ≡ form.alias_form new_name.now old_name.now) }
{
    let new_name = Bytes::from_slice(alloc, new_name)?;
    let old_name = Bytes::from_slice(alloc, old_name)?;
    Term::Alias(new_name, old_name).into_core(alloc)
}

fn undef_one(alloc: Global, name: &[u8]) -> Result<Core, AllocError>
    ensures { IfOk result (λ c. core_view c ≡ form.undef_form name.now) }
{
    let name = Bytes::from_slice(alloc, name)?;
    Term::Undef(name).into_core(alloc)
}

/// `undef` of some names.
pub fn undef(alloc: Global, names: &[Bytes]) -> Result<Core, AllocError>
    ensures { IfOk result (λ c. core_view c ≡ built.sequence (forms (map form.undef_form names.now))) }
{
    let mut statements = Vec::new(alloc);
    for name in names {
        let statement = undef_one(alloc, name.as_slice())?;
        statements.push(statement)?;
    }
    sequence(alloc, statements)
}

/// The term of an Array of items.
#[tactic(auto, using(ir_core::proofs::Views::core_views))]
fn array_term(items: Vec<Item<Core>>) -> Term
    ensures { term_view result ≡ form.array (part.items items.items) }
{
    Term::Array(items)
}

/// An Array of items.
pub fn array(alloc: Global, items: Vec<Item<Core>>) -> Result<Core, AllocError>
    ensures { IfOk result (λ c. core_view c ≡ form.array (part.items items.items)) }
{
    array_term(items).into_core(alloc)
}

/// An Array of Strings.
#[tactic(auto, using(ir_core::proofs::Lists::item_turns))]
pub fn word_array(alloc: Global, words: &[Bytes]) -> Result<Core, AllocError>
    ensures { IfOk result (λ c. core_view c ≡ form.array (lowered.plain_items (map form.str words.now))) }
{
    let mut items = Vec::new(alloc);
    for word in words {
        let word = string(alloc, word.as_slice())?;
        items.push(Item::Plain(word))?;
    }
    array(alloc, items)
}

/// An Array of Symbols.
#[tactic(auto, using(ir_core::proofs::Lists::item_turns))]
pub fn symbol_array(alloc: Global, names: &[Bytes]) -> Result<Core, AllocError>
    ensures { IfOk result (λ c. core_view c ≡ form.array (lowered.plain_items (map form.sym names.now))) }
{
    let mut items = Vec::new(alloc);
    for name in names {
        let name = symbol(alloc, name.as_slice())?;
        items.push(Item::Plain(name))?;
    }
    array(alloc, items)
}
