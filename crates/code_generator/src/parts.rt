//! The trees of cores by the trees of their parts.
ghost use Rattle.std.specs.Prelude.{◌≡◌, IfOk};
ghost use Rattle.ir_core.specs.CoreForm as core;
ghost use Rattle.ir_core.specs.View.{local_of};
ghost use Rattle.ir_core.specs.PartsBy as by;
ghost use Rattle.code_generator.specs.Built.{all_items, all_of, cond_of, form_of, if_few, lines_of, loop_of, read_of, set_of};
ghost use Rattle.code_generator.specs.Emission.{form_in, forms_in, item_form_by};

use crate::formed::{Formed, Made};
use crate::node;
use crate::tree::Tree;
use ir_core::{Local, Receiver};
use rb_base::Bytes;
use rb_syntax::{Branch, Item};
use std::alloc::{AllocError, Global};

/// The most branches of a choice.
const BRANCHES: usize = 1000;

/// The read of a local of the source.
pub fn local_tree(alloc: Global, variable: &Local) -> Made
    ensures { IfOk result (λ tree. read_of (local_of variable.now) ≡ form_in tree) }
{
    match variable {
        Local::Named(name) => {
            let name = Bytes::from_slice(alloc, name.as_slice())?;
            Ok(Some(Tree::Local(name)))
        }
        Local::Hidden(_) | Local::Pattern(_) | Local::Rest => Ok(None),
    }
}

/// The assignment of a value to a local of the source.
pub fn set_tree<T: Formed>(alloc: Global, variable: &Local, value: &Box<T>) -> Made
    ensures { IfOk result (λ tree.
        set_of (local_of variable.now) (form_of (by.core_by T.core value.now)) ≡ form_in tree) }
{
    match variable {
        Local::Named(name) => {
            let value = value.tree(alloc)?;
            node::set_local(alloc, name, value)
        }
        Local::Hidden(_) | Local::Pattern(_) | Local::Rest => Ok(None),
    }
}

/// The trees of cores, where each is a form of the language.
fn trees<T: Formed>(alloc: Global, list: &Vec<Box<T>>) -> Result<Option<Vec<Tree>>, AllocError>
    ensures { IfOk result (λ trees. all_of (by.cores_by T.core list.now.items) ≡ forms_in trees) }
{
    let mut trees = Vec::new(alloc);
    for core in list {
        match core.tree(alloc)? {
            Some(tree) => trees.push(tree)?,
            None => return Ok(None),
        }
    }
    Ok(Some(trees))
}

/// Lines in order.
pub fn seq_tree<T: Formed>(alloc: Global, list: &Vec<Box<T>>) -> Made
    ensures { IfOk result (λ tree. lines_of (all_of (by.cores_by T.core list.now.items)) ≡ form_in tree) }
{
    let lines = trees(alloc, list)?;
    Ok(node::seq(lines))
}

/// The tree of an item; the elements of a value are no form of the language.
fn item_tree<T: Formed>(alloc: Global, item: &Item<Box<T>>) -> Made
    ensures { IfOk result (λ tree. item_form_by T.core item.now ≡ form_in tree) }
{
    match item {
        Item::Plain(core) => core.tree(alloc),
        Item::Splat(_) => Ok(None),
    }
}

/// The trees of items, where each is a form of the language.
fn item_trees<T: Formed>(
    alloc: Global,
    items: &Vec<Item<Box<T>>>,
) -> Result<Option<Vec<Tree>>, AllocError>
    ensures { IfOk result (λ trees. all_items (by.items_by T.core items.now.items) ≡ forms_in trees) }
{
    let mut trees = Vec::new(alloc);
    for item in items {
        match item_tree(alloc, item)? {
            Some(tree) => trees.push(tree)?,
            None => return Ok(None),
        }
    }
    Ok(Some(trees))
}

/// The call of an operator, or of a method on self, without a block.
pub fn call_tree<T: Formed>(
    alloc: Global,
    receiver: &Receiver<Box<T>>,
    name: &Bytes,
    items: &Vec<Item<Box<T>>>,
) -> Made
    ensures { IfOk result (λ tree. form_of (core.call (by.receiver_by T.core receiver.now) name.now
        (by.items_by T.core items.now.items) core.absent) ≡ form_in tree) }
{
    match receiver {
        Receiver::To(a) => {
            let a = a.tree(alloc)?;
            let items = item_trees(alloc, items)?;
            node::operate(alloc, a, name.as_slice(), items)
        }
        Receiver::OnSelf => {
            let items = item_trees(alloc, items)?;
            node::puts(alloc, name.as_slice(), items)
        }
        Receiver::Bare => Ok(None),
    }
}

/// The choice by branches, made from the last to the first.
fn cond_tree<T: Formed>(alloc: Global, branches: &Vec<Branch<Box<T>>>, otherwise: &Box<T>) -> Made
    ensures { IfOk result (λ tree.
        cond_of (by.branches_by T.core branches.now.items) (form_of (by.core_by T.core otherwise.now)) ≡ form_in tree) }
{
    let mut tree = otherwise.tree(alloc)?;
    let mut left = branches.len();
    'branches: while left > 0 {
        left -= 1;
        let branch = &branches[left];
        let test = branch.test.tree(alloc)?;
        let body = branch.body.tree(alloc)?;
        tree = node::cond(alloc, test, body, tree)?;
    }
    Ok(tree)
}

/// The choice by branches, where there are not too many: a choice by many of them is as deep as it is long.
#[tactic(auto, using(crate::proofs::Choices::many_are_none))]
pub fn choice_tree<T: Formed>(
    alloc: Global,
    branches: &Vec<Branch<Box<T>>>,
    otherwise: &Box<T>,
) -> Made
    ensures { IfOk result (λ tree. if_few (by.branches_by T.core branches.now.items)
        (cond_of (by.branches_by T.core branches.now.items) (form_of (by.core_by T.core otherwise.now)))
        ≡ form_in tree) }
{
    if branches.len() > BRANCHES {
        return Ok(None);
    }
    cond_tree(alloc, branches, otherwise)
}

/// The loop while a test holds, where it is asked first.
pub fn while_tree<T: Formed>(alloc: Global, body_first: bool, test: &Box<T>, body: &Box<T>) -> Made
    ensures { IfOk result (λ tree.
        loop_of body_first (form_of (by.core_by T.core test.now)) (form_of (by.core_by T.core body.now))
        ≡ form_in tree) }
{
    if body_first {
        return Ok(None);
    }
    let test = test.tree(alloc)?;
    let body = body.tree(alloc)?;
    node::while_loop(alloc, test, body)
}
