//! The slots of a body, found by their locals.
ghost use Rattle.std.specs.Prelude.{◌≡◌, ◌+◌, ◌∷◌, ◌++◌, [], length, IfOk, OnOk};
ghost use Rattle.ir_core.specs.View.{local_of, locals_of, maybe_local, parameters_of};
ghost use Rattle.scope_resolver.specs.Layout as layout;
ghost use Rattle.scope_resolver.specs.Registers as registers;
ghost use Rattle.scope_resolver.specs.Scope.{slots_at};

use crate::body_kind::BodyKind;
use crate::registers::Registers;
use crate::scope::{Scope, has_parameters, seek_scope, slot_count};
use crate::seek::{Search, Sought};
use crate::sums::add;
use ir_core::{Local, Parameters};
use std::alloc::{AllocError, Global};
use std::marker::Model;
use std::rc::Rc;

/// A body with fewer slots is searched from the first on.
const FEW: u64 = 16;

/// The slots of a body, found by their locals.
#[derive(Drop)]
pub struct SlotTable<'a> {
    scope: Scope<'a>,
    /// The register after the last slot.
    past: u64,
    /// The registers of the names, where there are many slots.
    named: Option<Rc<Registers<'a>>>,
}

impl<'a> Model for SlotTable<'a> {
    ghost use Rattle.std.specs.Prelude as prelude;
    ghost use Rattle.std.specs.Prelude.{◌≡◌, ◌+◌};
    ghost use Rattle.scope_resolver.specs.Layout as layout;
    ghost use Rattle.scope_resolver.specs.Registers as registers;
    ghost use Rattle.scope_resolver.specs.Scope.{slots_at};

    ghost Value = { layout.Slots };

    ghost view = { λ t. slots_at t.scope };

    ghost invariant = { λ t. (t.past ≡ 1 + prelude.length (slots_at t.scope))
        × prelude.IfSome t.named (λ named. named.value ≡ registers.with_slots prelude.[] (slots_at t.scope) 1) };
}

/// Names the register of a local.
fn name_one<'a>(
    named: &mut Registers<'a>,
    local: &'a Local,
    register: u64,
) -> Result<(), AllocError>
    ensures { OnOk result (named.new ≡ registers.with_local named.old (local_of local.now) register) }
{
    match local {
        Local::Named(name) => named.add(name.as_slice(), register),
        Local::Hidden(_) | Local::Pattern(_) | Local::Rest => Ok(()),
    }
}

/// Names the registers of some locals from one on, and gives the one after them.
#[tactic(auto, using(crate::proofs::Named::slot_laws))]
fn name_all<'a>(
    named: &mut Registers<'a>,
    locals: &'a [Local],
    from: u64,
) -> Result<u64, AllocError>
    ensures named { OnOk result (named.new ≡
        registers.with_slots named.old (layout.named_slots (locals_of locals.now)) from) }
    ensures past { IfOk result (λ n. n ≡ from + length locals.now) }
{
    let mut register = from;
    for local in locals {
        name_one(named, local, register)?;
        register = add(register, 1)?;
    }
    Ok(register)
}

/// The same for a local that may be there.
fn name_optional<'a>(
    named: &mut Registers<'a>,
    local: &'a Option<Local>,
    from: u64,
) -> Result<u64, AllocError>
    ensures named { OnOk result (named.new ≡
        registers.with_slots named.old (layout.named_slots (maybe_local local.now)) from) }
    ensures past { IfOk result (λ n. n ≡ from + length (maybe_local local.now)) }
{
    match local {
        Some(local) => {
            name_one(named, local, from)?;
            add(from, 1)
        }
        None => Ok(from),
    }
}

/// The same for the register of the block.
fn name_block<'a>(
    named: &mut Registers<'a>,
    block: &'a Option<Local>,
    from: u64,
) -> Result<u64, AllocError>
    ensures named { OnOk result (named.new ≡
        registers.with_slots named.old (layout.block_slot (maybe_local block.now)) from) }
    ensures past { IfOk result (λ n. n ≡ from + 1) }
{
    if let Some(local) = block {
        name_one(named, local, from)?;
    }
    add(from, 1)
}

/// The same for the parameters of a body.
#[tactic(auto, using(crate::proofs::Named::slot_laws))]
fn name_parameters<'a>(
    named: &mut Registers<'a>,
    parameters: &'a Parameters,
    from: u64,
) -> Result<u64, AllocError>
    ensures named { OnOk result (named.new ≡
        registers.with_slots named.old (layout.parameter_slots (parameters_of parameters.now)) from) }
    ensures past { IfOk result (λ n. n ≡ from + length (layout.parameter_slots (parameters_of parameters.now))) }
{
    let required = name_all(named, parameters.required.as_slice(), from)?;
    let optional = name_all(named, parameters.optional.as_slice(), required)?;
    let rest = name_optional(named, &parameters.rest, optional)?;
    let post = name_all(named, parameters.post.as_slice(), rest)?;
    name_block(named, &parameters.block, post)
}

/// The registers of the names of a body.
#[tactic(auto, using(crate::proofs::Named::slot_laws))]
fn names_of<'a>(alloc: Global, scope: Scope<'a>) -> Result<Registers<'a>, AllocError>
    ensures { IfOk result (λ named. named ≡ registers.with_slots [] (slots_at scope.entry) 1) }
{
    let mut named = Registers::new(alloc);
    let from = if has_parameters(scope.kind) {
        name_parameters(&mut named, scope.parameters, 1)?
    } else {
        1
    };
    name_all(&mut named, scope.locals, from)?;
    Ok(named)
}

/// How a search comes out: at a register, or past them all.
fn search_at(register: Option<u64>, past: u64) -> Search
    ensures { result ≡ registers.search_at register past }
{
    match register {
        Some(register) => Search::Found(register),
        None => Search::Past(past),
    }
}

impl<'a> SlotTable<'a> {
    /// The slots of a body. Where they are few it takes no memory.
    pub fn new(alloc: Global, scope: Scope<'a>) -> Result<SlotTable<'a>, AllocError>
        ensures { IfOk result (λ table. table ≡ slots_at scope.entry) }
    {
        let count = slot_count(&scope)?;
        let named = if count < FEW {
            None
        } else {
            Some(Rc::new(alloc, names_of(alloc, scope)?)?)
        };
        let past = add(1, count)?;
        Ok(SlotTable { scope, past, named })
    }

    /// How many slots there are.
    pub fn len(&self) -> u64
        ensures { result ≡ length self.now }
    {
        self.past - 1
    }

    /// Looks for a local among the slots, from register 1 on. Past is what comes after them.
    #[tactic(auto, using(crate::proofs::Named::found))]
    pub fn find(&self, local: &Local) -> Sought
        ensures { IfOk result (λ s. s ≡ layout.seek (local_of local.now) self.now (layout.past 1)) }
    {
        match (&self.named, local) {
            (Some(named), Local::Named(name)) => {
                Ok(search_at(named.get(name.as_slice()), self.past))
            }
            _ => seek_scope(local, &self.scope),
        }
    }
}

/// The same slots again.
fn share<'a>(table: &SlotTable<'a>) -> Result<SlotTable<'a>, AllocError>
    ensures { IfOk result (λ copy. copy ≡ table.now) }
{
    let named = match &table.named {
        Some(named) => Some(named.clone()?),
        None => None,
    };
    Ok(SlotTable {
        scope: table.scope,
        past: table.past,
        named,
    })
}

/// Adds the slots of the bodies around.
fn share_all<'a>(list: &mut Vec<SlotTable<'a>>, around: &[SlotTable<'a>]) -> Result<(), AllocError>
    ensures { OnOk result (list.new.items ≡ list.old.items ++ around.now) }
{
    for table in around {
        list.push(share(table)?)?;
    }
    Ok(())
}

/// The slots that the forms in a body see, the innermost body's first: the body's own, and where it is a block those of
/// the bodies around it.
pub fn scopes_within<'a>(
    alloc: Global,
    kind: BodyKind,
    own: SlotTable<'a>,
    around: &[SlotTable<'a>],
) -> Result<Vec<SlotTable<'a>>, AllocError>
    ensures { IfOk result (λ list. list.items ≡ own.entry ∷ layout.seen_around kind around.now) }
{
    let mut list = Vec::new(alloc);
    list.push(own)?;
    match kind {
        BodyKind::Block => share_all(&mut list, around)?,
        BodyKind::Main | BodyKind::Method | BodyKind::Class => {}
    }
    Ok(list)
}
