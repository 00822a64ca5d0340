//! The targets of a multiple assignment (ISO/IEC 30170:2012, 11.4.2.4).
ghost use Rattle.std.specs.Prelude.{◌≡◌, OnOk};
ghost use Rattle.parser_tree.specs.View.{view};
ghost use Rattle.parser_tree.specs.Parts as parts;
ghost use Rattle.parser_tree.specs.Parts.{targets_node};
ghost use Rattle.parser_form_nodes.specs.Targets as made;

use parser_tree::{TargetList, Tree, TreeForm};
use std::alloc::{AllocError, Global};

/// A target, targets in parentheses, or what has a star.
#[derive(Drop)]
pub enum Target {
    One(Tree),
    Group(TargetList<Tree>),
    Star(Option<Tree>),
}

/// The targets that were read. `several` says that a comma, a star or a group is among them, and `commas` that a comma
/// is.
#[derive(Drop)]
pub struct Targets {
    pub list: TargetList<Tree>,
    pub several: bool,
    pub commas: bool,
}

/// Puts a target behind those of the list: behind the star where there is one.
fn put_tree(list: &mut TargetList<Tree>, tree: Tree) -> Result<(), AllocError>
    ensures { OnOk result (made.target_list_view list.new
        ≡ made.with_target (view tree) (made.target_list_view list.old)) }
{
    if list.star {
        list.after.push(tree)?;
    } else {
        list.before.push(tree)?;
    }
    Ok(())
}

/// Puts a star and its target, or a star alone.
fn put_star(list: &mut TargetList<Tree>, tree: Option<Tree>)
    ensures { made.target_list_view list.new
        ≡ made.with_star (made.option_view tree) (made.target_list_view list.old) }
{
    list.star = true;
    if let Some(tree) = tree {
        list.rest = Some(tree);
    }
}

fn is_several(target: &Target) -> bool
    ensures { result ≡ made.is_several (made.target_view target.now) }
{
    match target {
        Target::One(_) => false,
        Target::Group(_) | Target::Star(_) => true,
    }
}

/// Puts a target of any kind.
#[tactic(auto, using(parser_tree::proofs::Views::views))]
fn put_target(alloc: Global, list: &mut TargetList<Tree>, target: Target) -> Result<(), AllocError>
    ensures { OnOk result (made.target_list_view list.new
        ≡ made.put_list (made.target_view target) (made.target_list_view list.old)) }
{
    match target {
        Target::One(tree) => put_tree(list, tree),
        Target::Group(group) => put_tree(list, TreeForm::Targets(group).into_tree(alloc)?),
        Target::Star(tree) => {
            put_star(list, tree);
            Ok(())
        }
    }
}

/// Whether a tree is a group of targets.
#[tactic(auto, using(parser_tree::proofs::Views::views), unfolding(parser_tree::specs::Parts::is_group))]
fn is_group(tree: &Tree) -> bool
    ensures { result ≡ parts.is_group (view tree.now) }
{
    matches!(&**tree, TreeForm::Targets(_))
}

/// The targets, or those of the group that is the only one.
fn alone(list: TargetList<Tree>) -> TargetList<Tree>
    ensures { targets_node result ≡ made.alone_node (made.target_list_view list) }
{
    let mut list = list;
    if list.before.len() != 1 || !is_group(&list.before[0]) {
        return list;
    }
    match list.before.pop() {
        Some(only) => match Box::into_inner(only).into_targets() {
            Some(group) => group,
            None => list,
        },
        None => list,
    }
}

impl Targets {
    ghost use Rattle.std.specs.Prelude.{◌≡◌, OnOk};
    ghost use Rattle.parser_tree.specs.Parts.{targets_node};
    ghost use Rattle.parser_form_nodes.specs.Targets as made;

    /// No targets. It takes no memory.
    pub fn new(alloc: Global) -> Targets
        ensures { made.targets_view result ≡ made.no_targets }
    {
        Targets {
            list: TargetList {
                before: Vec::new(alloc),
                star: false,
                rest: None,
                after: Vec::new(alloc),
            },
            several: false,
            commas: false,
        }
    }

    /// Whether this target may follow: there is at most one star.
    pub fn may_follow(&self, target: &Target) -> bool
        ensures { result ≡ made.may_follow (made.target_view target.now) (made.targets_view self.now) }
    {
        match target {
            Target::One(_) | Target::Group(_) => true,
            Target::Star(_) => !self.list.star,
        }
    }

    /// Puts a target at the end, with a comma behind it or none.
    pub fn put(&mut self, alloc: Global, target: Target, comma: bool) -> Result<(), AllocError>
        ensures { OnOk result (made.targets_view self.new
            ≡ made.put (made.target_view target) comma (made.targets_view self.old)) }
    {
        let more = is_several(&target) || comma;
        put_target(alloc, &mut self.list, target)?;
        self.several = self.several || more;
        self.commas = self.commas || comma;
        Ok(())
    }

    /// The targets of an assignment; a group alone stands for its own.
    pub fn into_list(self) -> TargetList<Tree>
        ensures { targets_node result ≡ made.targets_list (made.targets_view self) }
    {
        let Targets {
            list,
            several: _,
            commas,
        } = self;
        if commas || list.star {
            list
        } else {
            alone(list)
        }
    }
}
