//! The parts of a list of arguments or of elements.
ghost use Rattle.std.specs.Prelude.{◌≡◌, IfOk, OnOk};
ghost use Rattle.parser_tree.specs.Node as node;
ghost use Rattle.parser_tree.specs.View.{form_view, items_of, view};
ghost use Rattle.parser_nodes.specs.Listed as made;
ghost use Rattle.parser_nodes.specs.Nodes.{boxed_view};

use parser_tokens::starts::Jump;
use parser_tree::{Arguments, Tree, TreeForm};
use rb_syntax::{Item, Pair};
use std::alloc::{AllocError, Global};

/// A part of a list.
#[derive(Drop)]
pub enum Part {
    /// A command, which is the whole of its list.
    Command(Tree),
    Plain(Tree),
    /// `*e`
    Splat(Tree),
    Pair(Tree, Tree),
    /// `&e`
    Block(Tree),
}

/// The parts of a list that were read. `comma` says that the last of them has a comma behind it.
#[derive(Drop)]
pub struct Listed {
    pub items: Vec<Item<Tree>>,
    pub pairs: Vec<Pair<Tree>>,
    pub block: Option<Tree>,
    pub command: bool,
    pub comma: bool,
}

impl Listed {
    pub fn new(alloc: Global) -> Listed
        ensures { made.listed_view result ≡ made.nothing_listed }
    {
        Listed {
            items: Vec::new(alloc),
            pairs: Vec::new(alloc),
            block: None,
            command: false,
            comma: false,
        }
    }

    /// Whether nothing follows `&`.
    pub fn has_no_block(&self) -> bool
        ensures { result ≡ made.is_none (boxed_view self.now.block) }
    {
        match &self.block {
            Some(_) => false,
            None => true,
        }
    }

    /// Whether this part may follow: items, then pairs, then what follows `&`, and a command alone.
    #[tactic(auto, using(crate::proofs::Lists::list_laws))]
    pub fn may_follow(&self, part: &Part) -> bool
        ensures { result ≡ made.may_follow (made.part_view part.now) (made.listed_view self.now) }
    {
        if self.command || self.block.is_some() {
            return false;
        }
        match part {
            Part::Command(_) => self.items.is_empty() && self.pairs.is_empty(),
            Part::Plain(_) | Part::Splat(_) => self.pairs.is_empty(),
            Part::Pair(_, _) | Part::Block(_) => true,
        }
    }

    /// Puts a part at the end.
    #[tactic(auto, using(crate::proofs::Lists::list_laws))]
    pub fn put(&mut self, part: Part) -> Result<(), AllocError>
        ensures { OnOk result (made.listed_view self.new ≡ made.put (made.part_view part) (made.listed_view self.old)) }
    {
        match part {
            Part::Command(tree) => {
                self.command = true;
                self.items.push(Item::Plain(tree))?;
            }
            Part::Plain(tree) => self.items.push(Item::Plain(tree))?,
            Part::Splat(tree) => self.items.push(Item::Splat(tree))?,
            Part::Pair(key, value) => self.pairs.push(Pair { key, value })?,
            Part::Block(tree) => self.block = Some(tree),
        }
        Ok(())
    }

    /// The arguments: the pairs are one Hash, the last item.
    #[tactic(auto, using(crate::proofs::Lists::argument_laws))]
    pub fn into_arguments(self, alloc: Global) -> Result<Arguments<Tree>, AllocError>
        ensures { IfOk result (λ a. made.arguments_view a ≡ made.arguments_node (made.listed_view self)) }
    {
        let Listed {
            items,
            pairs,
            block,
            command: _,
            comma: _,
        } = self;
        let mut items = items;
        if !pairs.is_empty() {
            let hash = TreeForm::Hash(pairs).into_tree(alloc)?;
            items.push(Item::Plain(hash))?;
        }
        Ok(Arguments { items, block })
    }
}

/// What was read: a value that may be an operand, a command, or what is a whole statement.
#[derive(Clone, Copy, Debug, PartialEq, Eq)]
pub enum Sort {
    Argument,
    Command,
    Statement,
}

/// A tree and what it was read as.
#[derive(Drop)]
pub struct Phrase {
    pub tree: Tree,
    pub sort: Sort,
}

/// Whether a list may stand on the right side of an assignment: items alone, or a command.
#[tactic(auto, using(crate::proofs::Lists::list_laws))]
pub fn is_right_side(listed: &Listed) -> bool
    ensures { result ≡ made.is_right_side (made.listed_view listed.now) }
{
    !listed.items.is_empty() && listed.pairs.is_empty() && listed.block.is_none() && !listed.comma
}

/// The tree of a list in brackets.
#[tactic(auto, using(crate::proofs::Lists::item_trees))]
pub fn array_tree(alloc: Global, items: Vec<Item<Tree>>) -> Result<Tree, AllocError>
    ensures { IfOk result (λ t. view t ≡ node.array (items_of (made.items_view items))) }
{
    TreeForm::Array(items).into_tree(alloc)
}

/// The right side of an assignment: several items, or one with a star, are an Array.
#[tactic(auto, using(crate::proofs::Lists::list_laws))]
pub fn right_side(alloc: Global, listed: Listed) -> Result<Phrase, AllocError>
    ensures { IfOk result (λ p. made.phrase_view p ≡ made.right_side (made.listed_view listed)) }
{
    let Listed {
        items,
        pairs: _,
        block: _,
        command,
        comma: _,
    } = listed;
    let mut items = items;
    if let [Item::Plain(_)] = items.as_slice() {
        if let Some(Item::Plain(tree)) = items.pop() {
            let sort = if command {
                Sort::Command
            } else {
                Sort::Argument
            };
            return Ok(Phrase { tree, sort });
        }
    }
    let tree = array_tree(alloc, items)?;
    Ok(Phrase {
        tree,
        sort: Sort::Statement,
    })
}

#[tactic(auto, using(crate::proofs::Lists::item_trees))]
fn yield_form(items: Vec<Item<Tree>>, at: u32) -> TreeForm
    ensures { form_view result ≡ node.yield_node at (items_of (made.items_view items)) }
{
    TreeForm::Yield { items, at }
}

/// The tree of `yield` with a list, or alone.
pub fn yield_tree(alloc: Global, items: Vec<Item<Tree>>, at: u32) -> Result<Tree, AllocError>
    ensures { IfOk result (λ t. view t ≡ node.yield_node at (items_of (made.items_view items))) }
{
    yield_form(items, at).into_tree(alloc)
}

/// The form of a jump with a list, or alone.
#[tactic(auto, using(crate::proofs::Lists::item_trees))]
fn jump_form(jump: Jump, items: Vec<Item<Tree>>, at: u32) -> TreeForm
    ensures { form_view result ≡ made.jump_node jump at (made.items_view items) }
{
    match jump {
        Jump::Return => TreeForm::Return { items, at },
        Jump::Break => TreeForm::Break { items, at },
        Jump::Next => TreeForm::Next { items, at },
    }
}

/// The tree of a jump with a list, or alone.
pub fn jump_tree(
    alloc: Global,
    jump: Jump,
    items: Vec<Item<Tree>>,
    at: u32,
) -> Result<Tree, AllocError>
    ensures { IfOk result (λ t. view t ≡ made.jump_node jump at (made.items_view items)) }
{
    jump_form(jump, items, at).into_tree(alloc)
}
