//! Lists of trees, items, pairs and branches.
ghost use Rattle.std.specs.Prelude.{◌≡◌, IfOk};
ghost use Rattle.parser_tree.specs.Node as node;
ghost use Rattle.ir_core.specs.View.{core_view};
ghost use Rattle.ir_core.specs.Parts as part;
ghost use Rattle.lower_table.specs.Lowering as table;
ghost use Rattle.ir_core.specs.PartsBy.{is_plain};
ghost use Rattle.lower_table.specs.Parts.{is_tree};
ghost use Rattle.parser_tree.specs.PartsBy.{boxed_by, item_by, items_by, pairs_by, tree_by, trees_by};
ghost use Rattle.ir_core.specs.Forms as built;
ghost use Rattle.ir_core.specs.CoreForm as form;

use crate::lower::Lower;
use ir_builder::control::{hash, sequence};
use ir_builder::leaf::{array, nil};
use ir_core::{Core, Local};
use rb_syntax::{Item, Pair};
use std::alloc::{AllocError, Global};

/// The cores of trees.
#[tactic(auto, using(ir_core::proofs::Lists::form_turns))]
pub fn lower_all<T: Lower>(
    alloc: Global,
    passed: &[Item<Local>],
    depth: usize,
    trees: &Vec<Box<T>>,
) -> Result<Vec<Core>, AllocError>
    ensures { IfOk result (λ v. part.cores v.items ≡
        table.core_all (table.passes passed.now) depth (trees_by T.node trees.now.items)) }
{
    let mut all = Vec::new(alloc);
    for tree in trees {
        let core = tree.lower(alloc, passed, depth)?;
        all.push(core)?;
    }
    Ok(all)
}

/// The core of a list of statements.
pub fn lower_statements<T: Lower>(
    alloc: Global,
    passed: &[Item<Local>],
    depth: usize,
    trees: &Vec<Box<T>>,
) -> Result<Core, AllocError>
    ensures { IfOk result (λ c. core_view c ≡
        table.core (table.passes passed.now) depth (node.statements (trees_by T.node trees.now.items))) }
{
    let statements = lower_all(alloc, passed, depth, trees)?;
    sequence(alloc, statements)
}

/// The core of an item.
pub fn lower_item<T: Lower>(
    alloc: Global,
    passed: &[Item<Local>],
    depth: usize,
    item: &Item<Box<T>>,
) -> Result<Item<Core>, AllocError>
    ensures kind { IfOk result (λ i. is_plain i ≡ is_tree (item_by T.node item.now)) }
    ensures core { IfOk result (λ i. part.value_of i ≡
        table.core (table.passes passed.now) depth (item_by T.node item.now)) }
{
    match item {
        Item::Plain(e) => {
            let core = e.lower(alloc, passed, depth)?;
            Ok(Item::Plain(core))
        }
        Item::Splat(e) => {
            let core = e.lower(alloc, passed, depth)?;
            Ok(Item::Splat(core))
        }
    }
}

/// The cores of items.
#[tactic(auto, using(ir_core::proofs::Lists::item_puts))]
pub fn lower_items<T: Lower>(
    alloc: Global,
    passed: &[Item<Local>],
    depth: usize,
    items: &Vec<Item<Box<T>>>,
) -> Result<Vec<Item<Core>>, AllocError>
    ensures { IfOk result (λ v. part.items v.items ≡
        table.items (table.passes passed.now) depth (items_by T.node items.now.items)) }
{
    let mut all = Vec::new(alloc);
    for item in items {
        let core = lower_item(alloc, passed, depth, item)?;
        all.push(core)?;
    }
    Ok(all)
}

/// The core of an Array.
pub fn lower_array<T: Lower>(
    alloc: Global,
    passed: &[Item<Local>],
    depth: usize,
    items: &Vec<Item<Box<T>>>,
) -> Result<Core, AllocError>
    ensures { IfOk result (λ c. core_view c ≡
        table.core (table.passes passed.now) depth (node.array (items_by T.node items.now.items))) }
{
    let items = lower_items(alloc, passed, depth, items)?;
    array(alloc, items)
}

/// The core of a key and a value.
fn lower_pair<T: Lower>(
    alloc: Global,
    passed: &[Item<Local>],
    depth: usize,
    pair: &Pair<Box<T>>,
) -> Result<Pair<Core>, AllocError>
    ensures key { IfOk result (λ p. core_view p.key ≡
        table.core (table.passes passed.now) depth (tree_by T.node pair.now.key)) }
    ensures value { IfOk result (λ p. core_view p.value ≡
        table.core (table.passes passed.now) depth (tree_by T.node pair.now.value)) }
{
    let key = pair.key.lower(alloc, passed, depth)?;
    let value = pair.value.lower(alloc, passed, depth)?;
    Ok(Pair { key, value })
}

#[tactic(auto, using(ir_core::proofs::Lists::pair_turns))]
fn lower_pairs<T: Lower>(
    alloc: Global,
    passed: &[Item<Local>],
    depth: usize,
    pairs: &Vec<Pair<Box<T>>>,
) -> Result<Vec<Pair<Core>>, AllocError>
    ensures { IfOk result (λ v. part.pairs v.items ≡
        table.pairs (table.passes passed.now) depth (pairs_by T.node pairs.now.items)) }
{
    let mut all = Vec::new(alloc);
    for pair in pairs {
        let core = lower_pair(alloc, passed, depth, pair)?;
        all.push(core)?;
    }
    Ok(all)
}

/// The core of a Hash.
pub fn lower_hash<T: Lower>(
    alloc: Global,
    passed: &[Item<Local>],
    depth: usize,
    pairs: &Vec<Pair<Box<T>>>,
) -> Result<Core, AllocError>
    ensures { IfOk result (λ c. core_view c ≡
        table.core (table.passes passed.now) depth (node.hash (pairs_by T.node pairs.now.items))) }
{
    let pairs = lower_pairs(alloc, passed, depth, pairs)?;
    hash(alloc, pairs)
}

/// The core of a tree that may be there.
pub fn lower_maybe<T: Lower>(
    alloc: Global,
    passed: &[Item<Local>],
    depth: usize,
    tree: &Option<Box<T>>,
) -> Result<Option<Core>, AllocError>
    ensures { IfOk result (λ o. part.boxed o ≡
        table.maybe (table.passes passed.now) depth (boxed_by T.node tree.now)) }
{
    match tree {
        None => Ok(None),
        Some(tree) => {
            let core = tree.lower(alloc, passed, depth)?;
            Ok(Some(core))
        }
    }
}

/// The core of a tree that may be there, and nil where there is none.
pub fn lower_or_nil<T: Lower>(
    alloc: Global,
    passed: &[Item<Local>],
    depth: usize,
    tree: &Option<Box<T>>,
) -> Result<Core, AllocError>
    ensures { IfOk result (λ c. core_view c ≡
        built.first_or form.nil (table.core_all (table.passes passed.now) depth (boxed_by T.node tree.now))) }
{
    match tree {
        None => nil(alloc),
        Some(tree) => tree.lower(alloc, passed, depth),
    }
}
