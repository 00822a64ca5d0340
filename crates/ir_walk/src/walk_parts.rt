//! Walks over the parts of a core.
ghost use Rattle.std.specs.Prelude.{◌≡◌, OnOk};
ghost use Rattle.ir_core.specs.PartsBy as by;
ghost use Rattle.ir_walk.specs.Steps.{step, steps};
ghost use Rattle.ir_walk.specs.Walk as walks;

use crate::extent::Extent;
use crate::step::Step;
use crate::trail::{enter, leave};
use crate::walked::{Noted, Walked};
use ir_core::{Clause, Receiver};
use rb_syntax::{Branch, Item, Pair};

/// A body within, by its beginning and its form, where the walk goes into it.
pub fn walk_inside<'a, T: Walked>(
    extent: Extent,
    trail: &mut Vec<Step<'a>>,
    beginning: Step<'a>,
    core: &'a Box<T>,
) -> Noted
    ensures { OnOk result (steps trail.new.items ≡ walks.inside_body extent (steps trail.old.items)
        (step beginning.entry) (by.core_by T.form core.now)) }
{
    if extent.enters_bodies() {
        enter(trail, beginning)?;
        core.walk(extent, trail)?;
        leave(trail)
    } else {
        Ok(())
    }
}

pub fn walk_receiver<'a, T: Walked>(
    extent: Extent,
    trail: &mut Vec<Step<'a>>,
    receiver: &'a Receiver<Box<T>>,
) -> Noted
    ensures { OnOk result (steps trail.new.items ≡ walks.walked_receiver extent (steps trail.old.items)
        (by.receiver_by T.form receiver.now)) }
{
    match receiver {
        Receiver::To(core) => core.walk(extent, trail),
        Receiver::OnSelf | Receiver::Bare => Ok(()),
    }
}

pub fn walk_optional<'a, T: Walked>(
    extent: Extent,
    trail: &mut Vec<Step<'a>>,
    core: &'a Option<Box<T>>,
) -> Noted
    ensures { OnOk result (steps trail.new.items ≡ walks.walked_maybe extent (steps trail.old.items)
        (by.boxed_by T.form core.now)) }
{
    match core {
        Some(core) => core.walk(extent, trail),
        None => Ok(()),
    }
}

pub fn walk_all<'a, T: Walked>(
    extent: Extent,
    trail: &mut Vec<Step<'a>>,
    list: &'a Vec<Box<T>>,
) -> Noted
    ensures { OnOk result (steps trail.new.items ≡ walks.walked_all extent (steps trail.old.items)
        (by.cores_by T.form list.now.items)) }
{
    for core in list {
        core.walk(extent, trail)?;
    }
    Ok(())
}

fn walk_item<'a, T: Walked>(
    extent: Extent,
    trail: &mut Vec<Step<'a>>,
    item: &'a Item<Box<T>>,
) -> Noted
    ensures { OnOk result (steps trail.new.items ≡ walks.walked extent (steps trail.old.items)
        (by.value_by T.form item.now)) }
{
    match item {
        Item::Plain(core) | Item::Splat(core) => core.walk(extent, trail),
    }
}

#[tactic(auto, using(crate::proofs::Items::item_laws))]
pub fn walk_items<'a, T: Walked>(
    extent: Extent,
    trail: &mut Vec<Step<'a>>,
    items: &'a Vec<Item<Box<T>>>,
) -> Noted
    ensures { OnOk result (steps trail.new.items ≡ walks.walked_items extent (steps trail.old.items)
        (by.items_by T.form items.now.items)) }
{
    for item in items {
        walk_item(extent, trail, item)?;
    }
    Ok(())
}

fn walk_pair<'a, T: Walked>(
    extent: Extent,
    trail: &mut Vec<Step<'a>>,
    pair: &'a Pair<Box<T>>,
) -> Noted
    ensures { OnOk result (steps trail.new.items ≡ walks.walked extent
        (walks.walked extent (steps trail.old.items) (by.core_by T.form pair.now.key)) (by.core_by T.form pair.now.value)) }
{
    pair.key.walk(extent, trail)?;
    pair.value.walk(extent, trail)
}

pub fn walk_pairs<'a, T: Walked>(
    extent: Extent,
    trail: &mut Vec<Step<'a>>,
    pairs: &'a Vec<Pair<Box<T>>>,
) -> Noted
    ensures { OnOk result (steps trail.new.items ≡ walks.walked_pairs extent (steps trail.old.items)
        (by.pairs_by T.form pairs.now.items)) }
{
    for pair in pairs {
        walk_pair(extent, trail, pair)?;
    }
    Ok(())
}

fn walk_branch<'a, T: Walked>(
    extent: Extent,
    trail: &mut Vec<Step<'a>>,
    branch: &'a Branch<Box<T>>,
) -> Noted
    ensures { OnOk result (steps trail.new.items ≡ walks.walked extent
        (walks.walked extent (steps trail.old.items) (by.core_by T.form branch.now.test))
        (by.core_by T.form branch.now.body)) }
{
    branch.test.walk(extent, trail)?;
    branch.body.walk(extent, trail)
}

pub fn walk_branches<'a, T: Walked>(
    extent: Extent,
    trail: &mut Vec<Step<'a>>,
    branches: &'a Vec<Branch<Box<T>>>,
) -> Noted
    ensures { OnOk result (steps trail.new.items ≡ walks.walked_branches extent (steps trail.old.items)
        (by.branches_by T.form branches.now.items)) }
{
    for branch in branches {
        walk_branch(extent, trail, branch)?;
    }
    Ok(())
}

fn walk_clause<'a, T: Walked>(
    extent: Extent,
    trail: &mut Vec<Step<'a>>,
    clause: &'a Clause<Box<T>>,
) -> Noted
    ensures { OnOk result (steps trail.new.items ≡ walks.walked extent (walks.walked_maybe extent
        (walks.walked_all extent (steps trail.old.items) (by.cores_by T.form clause.now.classes.items))
        (by.boxed_by T.form clause.now.target)) (by.core_by T.form clause.now.body)) }
{
    walk_all(extent, trail, &clause.classes)?;
    walk_optional(extent, trail, &clause.target)?;
    clause.body.walk(extent, trail)
}

pub fn walk_clauses<'a, T: Walked>(
    extent: Extent,
    trail: &mut Vec<Step<'a>>,
    clauses: &'a Vec<Clause<Box<T>>>,
) -> Noted
    ensures { OnOk result (steps trail.new.items ≡ walks.walked_clauses extent (steps trail.old.items)
        (by.clauses_by T.form clauses.now.items)) }
{
    for clause in clauses {
        walk_clause(extent, trail, clause)?;
    }
    Ok(())
}
