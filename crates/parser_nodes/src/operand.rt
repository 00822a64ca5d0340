//! What is called, before its arguments and its block are read.
ghost use Rattle.std.specs.Prelude.{◌≡◌, ◌++◌, map, IfOk, OnOk};
ghost use Rattle.parser_tree.specs.Node as node;
ghost use Rattle.parser_tree.specs.Node.{nodes};
ghost use Rattle.parser_tree.specs.View.{form_view, view};
ghost use Rattle.parser_nodes.specs.Nodes.{views, boxed_view};
ghost use Rattle.parser_nodes.specs.Listed.{item_view, items_view};
ghost use Rattle.parser_nodes.specs.Calls as made;

use crate::nodes::{Shape, shape_of};
use parser_ahead::names::Names;
use parser_tree::{Arguments, Definition, Tree, TreeForm};
use rb_base::Bytes;
use rb_syntax::{Item, Outside};
use std::alloc::{AllocError, Global};

/// What is called, without arguments and a block.
#[derive(Drop)]
pub enum Callee {
    /// A name alone. One with a mark behind it is no identifier.
    Name {
        name: Bytes,
        identifier: bool,
    },
    /// A name behind `.` or `::`.
    Method {
        receiver: Tree,
        name: Bytes,
        scoped: bool,
    },
    Super {
        at: u32,
    },
    /// A name behind `&.`, or one that isn't of ASCII.
    Outside {
        what: Outside,
        at: u32,
        parts: Vec<Tree>,
    },
}

/// A primary with its postfixes.
#[derive(Drop)]
pub enum Operand {
    Whole(Tree),
    /// A name that may begin a command.
    Callee(Callee),
}

/// The tree of an item.
fn item_tree(item: Item<Tree>) -> Tree
    ensures { view result ≡ made.item_part (item_view item) }
{
    match item {
        Item::Plain(tree) => tree,
        Item::Splat(tree) => tree,
    }
}

/// Puts the trees of items at the end.
#[tactic(auto, using(crate::proofs::Lists::list_laws))]
fn add_items(parts: &mut Vec<Tree>, items: Vec<Item<Tree>>) -> Result<(), AllocError>
    ensures { OnOk result (views parts.new ≡ views parts.old ++ map made.item_part (items_view items)) }
{
    for item in items {
        parts.push(item_tree(item))?;
    }
    Ok(())
}

/// Puts a tree that may be there at the end.
#[tactic(auto, using(crate::proofs::Lists::list_laws))]
fn add_maybe(parts: &mut Vec<Tree>, tree: Option<Tree>) -> Result<(), AllocError>
    ensures { OnOk result (views parts.new ≡ views parts.old ++ made.list_of (boxed_view tree)) }
{
    match tree {
        None => Ok(()),
        Some(tree) => {
            parts.push(tree)?;
            Ok(())
        }
    }
}

/// Puts the trees of arguments at the end.
#[tactic(auto, using(crate::proofs::Lists::list_laws))]
fn add_arguments(
    parts: &mut Vec<Tree>,
    arguments: Option<Arguments<Tree>>,
) -> Result<(), AllocError>
    ensures { OnOk result (views parts.new ≡ views parts.old ++ made.given_parts (made.given_view arguments)) }
{
    match arguments {
        None => Ok(()),
        Some(arguments) => {
            let Arguments { items, block } = arguments;
            add_items(parts, items)?;
            add_maybe(parts, block)
        }
    }
}

/// Puts the body of a block at the end.
#[tactic(auto, using(crate::proofs::Lists::list_laws))]
fn add_body(parts: &mut Vec<Tree>, block: Option<Definition<Tree>>) -> Result<(), AllocError>
    ensures { OnOk result (views parts.new ≡ views parts.old ++ made.block_parts (made.given_block block)) }
{
    match block {
        None => Ok(()),
        Some(definition) => {
            parts.push(definition.body)?;
            Ok(())
        }
    }
}

/// A construct outside the language with these parts.
#[tactic(auto, using(parser_tree::proofs::Views::views))]
fn outside_form(what: Outside, at: u32, parts: Vec<Tree>) -> TreeForm
    ensures { form_view result ≡ node.outside what at (nodes (views parts)) }
{
    TreeForm::Outside { what, at, parts }
}

/// A call outside the language, with the trees of its arguments and its block.
fn outside_call(
    alloc: Global,
    what: Outside,
    at: u32,
    parts: Vec<Tree>,
    arguments: Option<Arguments<Tree>>,
    block: Option<Definition<Tree>>,
) -> Result<Tree, AllocError>
    ensures { IfOk result (λ t. view t ≡ made.outside_call what at (views parts) (made.given_view arguments)
        (made.given_block block)) }
{
    let mut parts = parts;
    add_arguments(&mut parts, arguments)?;
    add_body(&mut parts, block)?;
    outside_form(what, at, parts).into_tree(alloc)
}

/// A call of a name without a receiver.
fn name_call(
    name: Bytes,
    arguments: Option<Arguments<Tree>>,
    block: Option<Definition<Tree>>,
) -> TreeForm
    ensures { form_view result ≡ node.call node.none name (made.given_node (made.given_view arguments))
        (made.block_node (made.given_block block)) }
{
    TreeForm::Call {
        receiver: None,
        name,
        arguments,
        block,
    }
}

/// A call of a name on a receiver.
fn method_call(
    receiver: Tree,
    name: Bytes,
    arguments: Option<Arguments<Tree>>,
    block: Option<Definition<Tree>>,
) -> TreeForm
    ensures { form_view result ≡ node.call (node.one (view receiver)) name (made.given_node (made.given_view arguments))
        (made.block_node (made.given_block block)) }
{
    TreeForm::Call {
        receiver: Some(receiver),
        name,
        arguments,
        block,
    }
}

/// A call of the superclass's method.
fn super_call(
    arguments: Option<Arguments<Tree>>,
    block: Option<Definition<Tree>>,
    at: u32,
) -> TreeForm
    ensures { form_view result ≡ node.super_node at (made.given_node (made.given_view arguments))
        (made.block_node (made.given_block block)) }
{
    TreeForm::Super {
        arguments,
        block,
        at,
    }
}

/// The tree of a call.
pub fn call_tree(
    alloc: Global,
    callee: Callee,
    arguments: Option<Arguments<Tree>>,
    block: Option<Definition<Tree>>,
) -> Result<Tree, AllocError>
    ensures { IfOk result (λ t. view t ≡ made.call_node (made.callee_view callee) (made.given_view arguments)
        (made.given_block block)) }
{
    match callee {
        Callee::Name { name, .. } => name_call(name, arguments, block).into_tree(alloc),
        Callee::Method { receiver, name, .. } => {
            method_call(receiver, name, arguments, block).into_tree(alloc)
        }
        Callee::Super { at } => super_call(arguments, block, at).into_tree(alloc),
        Callee::Outside { what, at, parts } => outside_call(
            alloc, what, at, parts, arguments, block,
        ),
    }
}

/// The tree of an operand; a name alone is called without arguments.
pub fn operand_tree(alloc: Global, operand: Operand) -> Result<Tree, AllocError>
    ensures { IfOk result (λ t. view t ≡ made.operand_node (made.operand_view operand)) }
{
    match operand {
        Operand::Whole(tree) => Ok(tree),
        Operand::Callee(callee) => call_tree(alloc, callee, None, None),
    }
}

fn is_target_callee(callee: &Callee) -> bool
    ensures { result ≡ made.is_target_callee (made.callee_view callee.now) }
{
    match callee {
        Callee::Name { identifier, .. } => *identifier,
        Callee::Method { scoped, .. } => !*scoped,
        Callee::Super { .. } => false,
        Callee::Outside { .. } => true,
    }
}

/// Whether an operand is a target of an assignment.
pub fn is_target(operand: &Operand) -> bool
    ensures { result ≡ made.is_target (made.operand_view operand.now) }
{
    match operand {
        Operand::Whole(tree) => matches!(shape_of(tree), Shape::Target),
        Operand::Callee(callee) => is_target_callee(callee),
    }
}

/// A name alone is a local from here on.
fn learn_target(alloc: Global, names: &mut Names, callee: &Callee) -> Result<(), AllocError>
    ensures { OnOk result (names.new ≡ made.learned_callee (made.callee_view callee.now) names.old) }
{
    match callee {
        Callee::Name { name, .. } => names.learn(alloc, name.as_slice()),
        Callee::Method { .. } => Ok(()),
        Callee::Super { .. } => Ok(()),
        Callee::Outside { .. } => Ok(()),
    }
}

fn target_callee(alloc: Global, callee: Callee) -> Result<Tree, AllocError>
    ensures { IfOk result (λ t. view t ≡ made.target_callee (made.callee_view callee)) }
{
    match callee {
        Callee::Name { name, .. } => TreeForm::Local(name).into_tree(alloc),
        Callee::Method { receiver, name, .. } => method_call(receiver, name, None, None).into_tree(
            alloc,
        ),
        Callee::Super { at } => super_call(None, None, at).into_tree(alloc),
        Callee::Outside { what, at, parts } => outside_form(what, at, parts).into_tree(alloc),
    }
}

/// The tree of a target ([`is_target`]). A name alone is a local from here on.
pub fn target_tree(alloc: Global, names: &mut Names, operand: Operand) -> Result<Tree, AllocError>
    ensures value { IfOk result (λ t. view t ≡ made.target_node (made.operand_view operand)) }
    ensures names { OnOk result (names.new ≡ made.target_names (made.operand_view operand) names.old) }
{
    match operand {
        Operand::Whole(tree) => Ok(tree),
        Operand::Callee(callee) => {
            learn_target(alloc, names, &callee)?;
            target_callee(alloc, callee)
        }
    }
}
