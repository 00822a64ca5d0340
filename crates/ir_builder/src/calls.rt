//! Calls, and what is asked by `defined?`.
ghost use Rattle.std.specs.Prelude.{◌≡◌, IfOk, codes, map};
ghost use Rattle.ir_builder.specs.Forms.{map_item};
ghost use Rattle.ir_core.specs.CoreForm as form;
ghost use Rattle.ir_core.specs.View.{core_view, local_of, term_view};
ghost use Rattle.ir_core.specs.Parts as part;
ghost use Rattle.ir_core.specs.Forms.{send_form, asks_form, asks_of_form};
ghost use Rattle.ir_builder.specs.Forms as lowered;

use crate::control::{choice, nil_on_error};
use crate::leaf::{object, own, same_local};
use ir_core::{Core, Local, Receiver, Term};
use rb_base::Bytes;
use rb_syntax::{DefinedKind, Item};
use std::alloc::{AllocError, Global};

#[tactic(auto, using(ir_core::proofs::Views::core_views))]
fn call_term(
    receiver: Receiver<Core>,
    name: Bytes,
    items: Vec<Item<Core>>,
    block: Option<Core>,
) -> Term
    ensures { term_view result ≡ form.call (part.receiver_form receiver) name (part.items items.items)
        (part.boxed block) }
{
    match block {
        None => Term::Call {
            receiver,
            name,
            items,
        },
        Some(block) => Term::BlockCall {
            receiver,
            name,
            items,
            block,
        },
    }
}

/// The call of a method.
pub fn call(
    alloc: Global,
    receiver: Receiver<Core>,
    name: &[u8],
    items: Vec<Item<Core>>,
    block: Option<Core>,
) -> Result<Core, AllocError>
    ensures { IfOk result (λ c. core_view c ≡ form.call (part.receiver_form receiver) name.now (part.items items.items)
        (part.boxed block)) }
{
    let name = Bytes::from_slice(alloc, name)?;
    call_term(receiver, name, items, block).into_core(alloc)
}

/// The call of a method on a value, without a block.
pub fn send(
    alloc: Global,
    receiver: Core,
    name: &[u8],
    items: Vec<Item<Core>>,
) -> Result<Core, AllocError>
    ensures { IfOk result (λ c. core_view c ≡ send_form (core_view receiver) name.now (part.items items.items)) }
{
    call(alloc, Receiver::To(receiver), name, items, None)
}

/// The call of a method on a value, without arguments.
pub fn send_alone(alloc: Global, receiver: Core, name: &[u8]) -> Result<Core, AllocError>
    ensures { IfOk result (λ c. core_view c ≡ send_form (core_view receiver) name.now form.no_items) }
{
    send(alloc, receiver, name, Vec::new(alloc))
}

/// A list of one item.
pub fn one_item(alloc: Global, value: Core) -> Result<Vec<Item<Core>>, AllocError>
    ensures { IfOk result (λ v. part.items v.items ≡ form.one_item (core_view value)) }
{
    let mut items = Vec::new(alloc);
    items.push(Item::Plain(value))?;
    Ok(items)
}

/// The call of a method on a value with one argument.
pub fn send_one(alloc: Global, receiver: Core, name: &[u8], value: Core) -> Result<Core, AllocError>
    ensures { IfOk result (λ c. core_view c ≡ send_form (core_view receiver) name.now (form.one_item (core_view value))) }
{
    let items = one_item(alloc, value)?;
    send(alloc, receiver, name, items)
}

/// The text of a value.
pub fn text_item(alloc: Global, value: Core) -> Result<Core, AllocError>
    ensures { IfOk result (λ c. core_view c ≡ send_form (core_view value) (codes "to_s") form.no_items) }
{
    send_alone(alloc, value, b"to_s")
}

#[tactic(auto, using(ir_core::proofs::Views::core_views))]
fn asks_term(kind: DefinedKind, name: Bytes, receiver: Option<Core>) -> Term
    ensures { term_view result ≡ form.defined kind name (part.boxed receiver) }
{
    Term::Defined(kind, name, receiver)
}

/// A question about a name, of what a value has or of what stands alone.
pub fn asks_about(
    alloc: Global,
    kind: DefinedKind,
    name: &[u8],
    receiver: Option<Core>,
) -> Result<Core, AllocError>
    ensures { IfOk result (λ c. core_view c ≡ form.defined kind name.now (part.boxed receiver)) }
{
    let name = Bytes::from_slice(alloc, name)?;
    asks_term(kind, name, receiver).into_core(alloc)
}

/// A question of `defined?` without receiver; the name is empty for a kind that has none.
pub fn asks(alloc: Global, kind: DefinedKind, name: &[u8]) -> Result<Core, AllocError>
    ensures { IfOk result (λ c. core_view c ≡ asks_form kind name.now) }
{
    asks_about(alloc, kind, name, None)
}

/// A question of `defined?` about what a value has; it is nil where the value raises a StandardError.
pub fn asks_of(
    alloc: Global,
    kind: DefinedKind,
    name: &[u8],
    receiver: Core,
) -> Result<Core, AllocError>
    ensures { IfOk result (λ c. core_view c ≡ asks_of_form kind name.now (core_view receiver)) }
{
    let asked = asks_about(alloc, kind, name, Some(receiver))?;
    nil_on_error(alloc, asked)
}

/// A question of `defined?` about a constant of Object.
pub fn asks_of_object(alloc: Global, name: &[u8]) -> Result<Core, AllocError>
    ensures { IfOk result (λ c. core_view c ≡ lowered.asks_of_object name.now) }
{
    let object = object(alloc)?;
    asks_about(alloc, DefinedKind::Constant, name, Some(object))
}

/// Whether the method was given a block.
pub fn has_block(alloc: Global) -> Result<Core, AllocError>
    ensures { IfOk result (λ c. core_view c ≡ lowered.has_block) }
{
    let asked = asks(alloc, DefinedKind::Yield, b"")?;
    let given = Term::True.into_core(alloc)?;
    let absent = Term::False.into_core(alloc)?;
    choice(alloc, asked, given, absent)
}

fn passed_item(alloc: Global, item: &Item<Local>) -> Result<Item<Core>, AllocError>
    ensures { IfOk result (λ i. (is : form.Items) → part.item_then i is ≡ lowered.passed_item (map_item local_of item.now)
        is) }
{
    match item {
        Item::Plain(variable) => {
            let variable = same_local(alloc, variable)?;
            Ok(Item::Plain(own(alloc, variable)?))
        }
        Item::Splat(variable) => {
            let variable = same_local(alloc, variable)?;
            Ok(Item::Splat(own(alloc, variable)?))
        }
    }
}

/// What a `super` without arguments passes.
#[tactic(auto, using(ir_core::proofs::Lists::item_turns))]
pub fn passed_items(alloc: Global, passed: &[Item<Local>]) -> Result<Vec<Item<Core>>, AllocError>
    ensures { IfOk result (λ v. part.items v.items ≡ lowered.passed_items (map (map_item local_of) passed.now)) }
{
    let mut items = Vec::new(alloc);
    for item in passed {
        let item = passed_item(alloc, item)?;
        items.push(item)?;
    }
    Ok(items)
}

#[tactic(auto, using(ir_core::proofs::Views::core_views))]
fn super_term(items: Vec<Item<Core>>, block: Option<Core>) -> Term
    ensures { term_view result ≡ form.super_form (part.items items.items) (part.boxed block) }
{
    Term::Super(items, block)
}

/// The call of the method that this one hides.
pub fn super_call(
    alloc: Global,
    items: Vec<Item<Core>>,
    block: Option<Core>,
) -> Result<Core, AllocError>
    ensures { IfOk result (λ c. core_view c ≡ form.super_form (part.items items.items) (part.boxed block)) }
{
    super_term(items, block).into_core(alloc)
}

#[tactic(auto, using(ir_core::proofs::Views::core_views))]
fn yield_term(items: Vec<Item<Core>>) -> Term
    ensures { term_view result ≡ form.yield_form (part.items items.items) }
{
    Term::Yield(items)
}

/// The call of the method's block.
pub fn yield_call(alloc: Global, items: Vec<Item<Core>>) -> Result<Core, AllocError>
    ensures { IfOk result (λ c. core_view c ≡ form.yield_form (part.items items.items)) }
{
    yield_term(items).into_core(alloc)
}
