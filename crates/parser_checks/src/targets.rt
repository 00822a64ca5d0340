//! Targets: whether a constant is among them, and the names that they bind.
ghost use Rattle.std.specs.Prelude.{◌≡◌, ◌++◌, OnOk};
ghost use Rattle.parser_tree.specs.PartsBy.{boxed_by, targets_by, trees_by};
ghost use Rattle.parser_checks.specs.Doubled.{all_bound, bound};
ghost use Rattle.parser_checks.specs.Places as places;

use crate::placed::Placed;
use parser_tree::TargetList;
use rb_base::{Bytes, List};
use std::alloc::{AllocError, Global};

/// Whether a constant is among some targets.
pub fn any_constant<T: Placed>(trees: &Vec<Box<T>>) -> bool
    ensures { result ≡ places.any_constant (trees_by T.node trees.now.items) }
{
    for tree in trees {
        if tree.names_constant() {
            return true;
        }
    }
    false
}

/// Whether there is a target, and a constant is among it.
pub fn is_constant<T: Placed>(tree: &Option<Box<T>>) -> bool
    ensures { result ≡ places.any_constant (boxed_by T.node tree.now) }
{
    match tree {
        Some(tree) => tree.names_constant(),
        None => false,
    }
}

/// Whether a constant is among the targets of a list.
pub fn has_constant<T: Placed>(list: &TargetList<Box<T>>) -> bool
    ensures { result ≡ places.names_constant (targets_by T.node list.now) }
{
    any_constant(&list.before) || is_constant(&list.rest) || any_constant(&list.after)
}

/// Puts the names that some targets bind after others.
#[tactic(auto, using(crate::proofs::Names::name_laws))]
pub fn all_names<T: Placed>(
    trees: &Vec<Box<T>>,
    alloc: Global,
    names: &mut List<Bytes>,
) -> Result<(), AllocError>
    ensures { OnOk result (names.new ≡ names.old ++ all_bound (trees_by T.node trees.now.items)) }
{
    for tree in trees {
        tree.bound_names(alloc, names)?;
    }
    Ok(())
}

/// Puts the names that a target binds, if there is one, after others.
#[tactic(auto, using(crate::proofs::Names::name_laws))]
pub fn star_names<T: Placed>(
    tree: &Option<Box<T>>,
    alloc: Global,
    names: &mut List<Bytes>,
) -> Result<(), AllocError>
    ensures { OnOk result (names.new ≡ names.old ++ all_bound (boxed_by T.node tree.now)) }
{
    match tree {
        Some(tree) => tree.bound_names(alloc, names),
        None => Ok(()),
    }
}

/// Puts the names that the targets of a list bind after others.
#[tactic(auto, using(crate::proofs::Names::name_laws))]
pub fn list_names<T: Placed>(
    list: &TargetList<Box<T>>,
    alloc: Global,
    names: &mut List<Bytes>,
) -> Result<(), AllocError>
    ensures { OnOk result (names.new ≡ names.old ++ bound (targets_by T.node list.now)) }
{
    all_names(&list.before, alloc, names)?;
    star_names(&list.rest, alloc, names)?;
    all_names(&list.after, alloc, names)
}
