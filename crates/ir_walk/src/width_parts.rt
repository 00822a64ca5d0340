//! The widths of the parts of a core. Each function that is called `add` puts some after others.
ghost use Rattle.std.specs.Prelude.{◌≡◌, ◌++◌, ◌∷◌, [], max, OnOk, IfOk};
ghost use Rattle.ir_core.specs.PartsBy as by;
ghost use Rattle.ir_walk.specs.Width as widths;

use crate::measured::Measured;
use ir_core::{Clause, Receiver};
use rb_syntax::{Branch, Item, Pair};
use std::alloc::{AllocError, Global};
use std::cmp::max;

/// The width of a core or of a part.
pub type Measure = Result<u64, AllocError>;

/// Nothing, where there was memory for what was put after others.
pub type Added = Result<(), AllocError>;

pub fn receiver_width<T: Measured>(alloc: Global, receiver: &Receiver<Box<T>>) -> Measure
    ensures { IfOk result (λ w. w ≡ widths.receiver_width (by.receiver_by T.form receiver.now)) }
{
    match receiver {
        Receiver::To(core) => core.width(alloc),
        Receiver::OnSelf | Receiver::Bare => Ok(3),
    }
}

/// The width of a core, and that of a leaf where there is none.
pub fn optional_width<T: Measured>(alloc: Global, core: &Option<Box<T>>) -> Measure
    ensures { IfOk result (λ w. w ≡ widths.or_leaf (widths.maybe_widths (by.boxed_by T.form core.now))) }
{
    match core {
        Some(core) => core.width(alloc),
        None => Ok(3),
    }
}

fn item_width<T: Measured>(alloc: Global, item: &Item<Box<T>>) -> Measure
    ensures { IfOk result (λ w. w ≡ widths.width (by.value_by T.form item.now)) }
{
    match item {
        Item::Plain(core) | Item::Splat(core) => core.width(alloc),
    }
}

fn pair_width<T: Measured>(alloc: Global, pair: &Pair<Box<T>>) -> Measure
    ensures { IfOk result (λ w. w ≡
        max (widths.width (by.core_by T.form pair.now.key)) (widths.width (by.core_by T.form pair.now.value))) }
{
    let key = pair.key.width(alloc)?;
    let value = pair.value.width(alloc)?;
    Ok(max(key, value))
}

fn branch_width<T: Measured>(alloc: Global, branch: &Branch<Box<T>>) -> Measure
    ensures { IfOk result (λ w. w ≡
        max (widths.width (by.core_by T.form branch.now.test)) (widths.width (by.core_by T.form branch.now.body))) }
{
    let test = branch.test.width(alloc)?;
    let body = branch.body.width(alloc)?;
    Ok(max(test, body))
}

/// The greatest of the widths of some cores, 0 where there is none.
fn greatest_width<T: Measured>(alloc: Global, list: &Vec<Box<T>>) -> Measure
    ensures { IfOk result (λ w. w ≡ widths.greatest (widths.widths (by.cores_by T.form list.now.items))) }
{
    let mut most = 0;
    for core in list {
        let width = core.width(alloc)?;
        most = max(most, width);
    }
    Ok(most)
}

/// The greater of a number and the width of a core that may be there.
fn greatest_with<T: Measured>(alloc: Global, most: u64, core: &Option<Box<T>>) -> Measure
    ensures { IfOk result (λ w. w ≡ widths.greatest_of most (widths.maybe_widths (by.boxed_by T.form core.now))) }
{
    match core {
        Some(core) => {
            let width = core.width(alloc)?;
            Ok(max(most, width))
        }
        None => Ok(most),
    }
}

fn clause_width<T: Measured>(alloc: Global, clause: &Clause<Box<T>>) -> Measure
    ensures { IfOk result (λ w. w ≡ max (widths.greatest_of (widths.greatest
        (widths.widths (by.cores_by T.form clause.now.classes.items))) (widths.maybe_widths (by.boxed_by T.form clause.now.target)))
        (widths.width (by.core_by T.form clause.now.body))) }
{
    let classes = greatest_width(alloc, &clause.classes)?;
    let most = greatest_with(alloc, classes, &clause.target)?;
    let body = clause.body.width(alloc)?;
    Ok(max(most, body))
}

/// Puts one after others.
fn put(all: &mut Vec<u64>, width: u64) -> Added
    ensures { OnOk result (all.new.items ≡ all.old.items ++ width ∷ []) }
{
    all.push(width)?;
    Ok(())
}

#[tactic(auto, using(crate::proofs::Widths::append_laws))]
pub fn add_optional<T: Measured>(alloc: Global, all: &mut Vec<u64>, core: &Option<Box<T>>) -> Added
    ensures { OnOk result (all.new.items ≡ all.old.items ++ widths.maybe_widths (by.boxed_by T.form core.now)) }
{
    match core {
        Some(core) => put(all, core.width(alloc)?),
        None => Ok(()),
    }
}

#[tactic(auto, using(crate::proofs::Widths::append_laws))]
pub fn add_all<T: Measured>(alloc: Global, all: &mut Vec<u64>, list: &Vec<Box<T>>) -> Added
    ensures { OnOk result (all.new.items ≡ all.old.items ++ widths.widths (by.cores_by T.form list.now.items)) }
{
    for core in list {
        put(all, core.width(alloc)?)?;
    }
    Ok(())
}

#[tactic(auto, using(crate::proofs::Widths::item_laws))]
pub fn add_items<T: Measured>(alloc: Global, all: &mut Vec<u64>, items: &Vec<Item<Box<T>>>) -> Added
    ensures { OnOk result (all.new.items ≡ all.old.items ++ widths.item_widths (by.items_by T.form items.now.items)) }
{
    for item in items {
        put(all, item_width(alloc, item)?)?;
    }
    Ok(())
}

#[tactic(auto, using(crate::proofs::Widths::append_laws))]
pub fn add_pairs<T: Measured>(alloc: Global, all: &mut Vec<u64>, pairs: &Vec<Pair<Box<T>>>) -> Added
    ensures { OnOk result (all.new.items ≡ all.old.items ++ widths.pair_widths (by.pairs_by T.form pairs.now.items)) }
{
    for pair in pairs {
        put(all, pair_width(alloc, pair)?)?;
    }
    Ok(())
}

#[tactic(auto, using(crate::proofs::Widths::append_laws))]
pub fn add_branches<T: Measured>(
    alloc: Global,
    all: &mut Vec<u64>,
    branches: &Vec<Branch<Box<T>>>,
) -> Added
    ensures { OnOk result (all.new.items ≡ all.old.items ++ widths.branch_widths (by.branches_by T.form branches.now.items)) }
{
    for branch in branches {
        put(all, branch_width(alloc, branch)?)?;
    }
    Ok(())
}

#[tactic(auto, using(crate::proofs::Widths::append_laws))]
pub fn add_clauses<T: Measured>(
    alloc: Global,
    all: &mut Vec<u64>,
    clauses: &Vec<Clause<Box<T>>>,
) -> Added
    ensures { OnOk result (all.new.items ≡ all.old.items ++ widths.clause_widths (by.clauses_by T.form clauses.now.items)) }
{
    for clause in clauses {
        put(all, clause_width(alloc, clause)?)?;
    }
    Ok(())
}
