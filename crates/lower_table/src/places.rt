//! Assignments to an element or an attribute of a value, plain and abbreviated: the value and the items of the index are
//! kept in hidden locals, so that each is evaluated once.
ghost use Rattle.std.specs.Prelude.{◌≡◌, ◌+◌, ◌++◌, IfOk, codes};
ghost use Rattle.parser_tree.specs.Node as node;
ghost use Rattle.ir_core.specs.View.{core_view};
ghost use Rattle.ir_core.specs.CoreForm as form;
ghost use Rattle.ir_core.specs.Parts as part;
ghost use Rattle.ir_builder.specs.Forms as lowered;
ghost use Rattle.lower_table.specs.Lowering as table;
ghost use Rattle.ir_core.specs.PartsBy.{is_plain};
ghost use Rattle.lower_table.specs.Kept.{index_kept};
ghost use Rattle.lower_table.specs.Parts as read;
ghost use Rattle.parser_tree.specs.PartsBy.{boxed_by, item_by, items_by, tree_by};

use crate::jumps::lower_single;
use crate::lower::{Lower, deeper};
use ir_builder::calls::send;
use ir_builder::control::seq;
use ir_builder::hidden::{keep, local_number, stored};
use ir_builder::leaf::set_scoped_constant;
use ir_core::{Core, Local};
use rb_syntax::Item;
use std::alloc::{AllocError, Global};

/// The name of the method that sets an attribute.
fn setter(alloc: Global, name: &[u8]) -> Result<Vec<u8>, AllocError>
    ensures { IfOk result (λ v. v.items ≡ name.now ++ codes "=") }
{
    let mut setter = Vec::from_slice(alloc, name)?;
    setter.extend_from_slice(b"=")?;
    Ok(setter)
}

/// The store of a value in an attribute of what hidden local `depth` holds.
pub fn attribute_store(
    alloc: Global,
    depth: usize,
    name: &[u8],
    value: Core,
) -> Result<Vec<Core>, AllocError>
    ensures { IfOk result (λ v. part.cores v.items ≡ table.attribute_store depth name.now (core_view value)) }
{
    let number = deeper(depth, 1)?;
    let setter = setter(alloc, name)?;
    stored(alloc, depth, &setter, Vec::new(alloc), number, value)
}

/// Forms after one that is kept in hidden local `depth`.
pub fn after_kept(
    alloc: Global,
    depth: usize,
    kept: Core,
    rest: Vec<Core>,
) -> Result<Core, AllocError>
    ensures { IfOk result (λ c. core_view c ≡
        form.seq (form.more (lowered.keep depth (core_view kept)) (part.cores rest.items))) }
{
    let kept = keep(alloc, depth, kept)?;
    let mut rest = rest;
    let mut statements = Vec::new(alloc);
    statements.push(kept)?;
    statements.append(&mut rest)?;
    seq(alloc, statements)
}

/// `o.x = v`
pub fn store_attribute<T: Lower>(
    alloc: Global,
    passed: &[Item<Local>],
    depth: usize,
    receiver: &Option<Box<T>>,
    name: &[u8],
    value: Core,
) -> Result<Core, AllocError>
    ensures { IfOk result (λ c. core_view c ≡
        table.attribute_set depth name.now (table.maybe (table.passes passed.now) (depth + 2) (boxed_by T.node receiver.now))
        (core_view value)) }
{
    match receiver {
        None => Ok(value),
        Some(receiver) => {
            let inner = deeper(depth, 2)?;
            let receiver = receiver.lower(alloc, passed, inner)?;
            let stores = attribute_store(alloc, depth, name, value)?;
            after_kept(alloc, depth, receiver, stores)
        }
    }
}

/// `e::C = v`
pub fn store_scoped<T: Lower>(
    alloc: Global,
    passed: &[Item<Local>],
    depth: usize,
    scope: &Box<T>,
    name: &[u8],
    value: Core,
) -> Result<Core, AllocError>
    ensures { IfOk result (λ c. core_view c ≡
        form.set_in_constant (table.core (table.passes passed.now) depth (tree_by T.node scope.now)) name.now (core_view value)) }
{
    let scope = scope.lower(alloc, passed, depth)?;
    set_scoped_constant(alloc, scope, name, value)
}

/// The hidden locals of an index.
#[tactic(auto, using(crate::proofs::Counts::counted))]
pub fn index_width<T: Lower>(items: &Vec<Item<Box<T>>>) -> Result<usize, AllocError>
    ensures { IfOk result (λ n. n ≡ read.count (items_by T.node items.now.items) + 2) }
{
    deeper(items.len(), 2)
}

/// After the hidden locals of an index and its receiver, which begin at `depth`.
#[tactic(auto, using(crate::proofs::Counts::counted))]
fn index_end<T: Lower>(depth: usize, items: &Vec<Item<Box<T>>>) -> Result<usize, AllocError>
    ensures { IfOk result (λ n. n ≡ depth + 1 + read.count (items_by T.node items.now.items)) }
{
    let first = deeper(depth, 1)?;
    deeper(first, items.len())
}

/// An item of an index, read from the hidden local that keeps it.
fn kept_item<T: Lower>(
    alloc: Global,
    number: usize,
    item: &Item<Box<T>>,
) -> Result<Item<Core>, AllocError>
    ensures kind { IfOk result (λ i. is_plain i ≡ read.is_tree (item_by T.node item.now)) }
    ensures core { IfOk result (λ i. part.value_of i ≡ lowered.local_number number) }
{
    let value = local_number(alloc, number)?;
    match item {
        Item::Plain(_) => Ok(Item::Plain(value)),
        Item::Splat(_) => Ok(Item::Splat(value)),
    }
}

/// The items of an index, read from the hidden locals from `first` on.
#[tactic(auto, using(ir_core::proofs::Lists::item_puts))]
fn kept_items<T: Lower>(
    alloc: Global,
    first: usize,
    items: &[Item<Box<T>>],
) -> Result<Vec<Item<Core>>, AllocError>
    ensures { IfOk result (λ v. part.items v.items ≡ table.kept first (items_by T.node items.now)) }
{
    let mut all = Vec::new(alloc);
    let mut number = first;
    for item in items {
        let kept = kept_item(alloc, number, item)?;
        all.push(kept)?;
        number = deeper(number, 1)?;
    }
    Ok(all)
}

/// The forms that keep the items of an index in hidden locals from `first` on; a splat is kept as one Array.
#[tactic(auto, using(ir_core::proofs::Lists::form_turns))]
fn keep_items<T: Lower>(
    alloc: Global,
    passed: &[Item<Local>],
    depth: usize,
    first: usize,
    items: &[Item<Box<T>>],
) -> Result<Vec<Core>, AllocError>
    ensures { IfOk result (λ v. part.cores v.items ≡
        table.keeps (table.passes passed.now) depth first (items_by T.node items.now)) }
{
    let mut all = Vec::new(alloc);
    let mut number = first;
    for item in items {
        let value = lower_single(alloc, passed, depth, item)?;
        let kept = keep(alloc, number, value)?;
        all.push(kept)?;
        number = deeper(number, 1)?;
    }
    Ok(all)
}

/// The forms that keep the receiver and the items of an index in hidden locals from `depth` on.
pub fn keep_index<T: Lower>(
    alloc: Global,
    passed: &[Item<Local>],
    depth: usize,
    receiver: &Box<T>,
    items: &Vec<Item<Box<T>>>,
) -> Result<Vec<Core>, AllocError>
    ensures { IfOk result (λ v. part.cores v.items ≡
        index_kept (table.passes passed.now) depth (tree_by T.node receiver.now) (items_by T.node items.now.items)) }
{
    let width = index_width(items)?;
    let inner = deeper(depth, width)?;
    let first = deeper(depth, 1)?;
    let receiver = receiver.lower(alloc, passed, inner)?;
    let receiver = keep(alloc, depth, receiver)?;
    let mut kept = keep_items(alloc, passed, inner, first, items)?;
    let mut statements = Vec::new(alloc);
    statements.push(receiver)?;
    statements.append(&mut kept)?;
    Ok(statements)
}

/// The element that an index reads.
pub fn index_call<T: Lower>(
    alloc: Global,
    depth: usize,
    items: &Vec<Item<Box<T>>>,
) -> Result<Core, AllocError>
    ensures { IfOk result (λ c. core_view c ≡ table.index_call depth (items_by T.node items.now.items)) }
{
    let first = deeper(depth, 1)?;
    let items = kept_items(alloc, first, items)?;
    let receiver = local_number(alloc, depth)?;
    send(alloc, receiver, b"[]", items)
}

/// The store of a value at an index.
pub fn index_store<T: Lower>(
    alloc: Global,
    depth: usize,
    items: &Vec<Item<Box<T>>>,
    value: Core,
) -> Result<Vec<Core>, AllocError>
    ensures { IfOk result (λ v. part.cores v.items ≡
        table.index_store depth (items_by T.node items.now.items) (core_view value)) }
{
    let first = deeper(depth, 1)?;
    let number = index_end(depth, items)?;
    let items = kept_items(alloc, first, items)?;
    stored(alloc, depth, b"[]=", items, number, value)
}

/// `a[i] = v`
#[tactic(auto, using(crate::proofs::Pushes::appends))]
pub fn store_index<T: Lower>(
    alloc: Global,
    passed: &[Item<Local>],
    depth: usize,
    receiver: &Box<T>,
    items: &Vec<Item<Box<T>>>,
    value: Core,
) -> Result<Core, AllocError>
    ensures { IfOk result (λ c. core_view c ≡
        table.store (table.passes passed.now) depth (node.index (tree_by T.node receiver.now) (items_by T.node items.now.items))
        (core_view value)) }
{
    let mut statements = keep_index(alloc, passed, depth, receiver, items)?;
    let mut stores = index_store(alloc, depth, items, value)?;
    statements.append(&mut stores)?;
    seq(alloc, statements)
}
