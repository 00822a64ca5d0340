//! The widths of cores, by their parts.
ghost use Rattle.std.specs.Prelude.{◌≡◌, ◌++◌, ◌∷◌, [], IfOk};
ghost use Rattle.ir_core.specs.PartsBy as by;
ghost use Rattle.ir_walk.specs.Width as widths;

use crate::measured::Measured;
use crate::sums::{in_order, in_turn, into_one, of_call};
use crate::width_parts::{
    Measure, add_all, add_branches, add_clauses, add_items, add_optional, add_pairs,
    optional_width, receiver_width,
};
use ir_core::{BeginForm, Receiver};
use rb_syntax::{Branch, Item, Pair};
use std::alloc::Global;

/// One part.
pub fn one<T: Measured>(alloc: Global, core: &Box<T>) -> Measure
    ensures { IfOk result (λ w. w ≡ widths.in_order (widths.width (by.core_by T.form core.now) ∷ [])) }
{
    let width = core.width(alloc)?;
    in_order(&[width])
}

/// One part and a function after it.
pub fn one_and_leaf<T: Measured>(alloc: Global, core: &Box<T>) -> Measure
    ensures { IfOk result (λ w. w ≡ widths.in_order (widths.width (by.core_by T.form core.now) ∷ 3 ∷ [])) }
{
    let width = core.width(alloc)?;
    in_order(&[width, 3])
}

/// Two parts, one after the other.
pub fn two<T: Measured>(alloc: Global, left: &Box<T>, right: &Box<T>) -> Measure
    ensures { IfOk result (λ w. w ≡ widths.in_order
        (widths.width (by.core_by T.form left.now) ∷ widths.width (by.core_by T.form right.now) ∷ [])) }
{
    let left = left.width(alloc)?;
    let right = right.width(alloc)?;
    in_order(&[left, right])
}

/// Two parts, one after the other.
pub fn while_width<T: Measured>(alloc: Global, test: &Box<T>, body: &Box<T>) -> Measure
    ensures { IfOk result (λ w. w ≡ widths.in_turn
        (widths.width (by.core_by T.form test.now) ∷ widths.width (by.core_by T.form body.now) ∷ [])) }
{
    let test = test.width(alloc)?;
    let body = body.width(alloc)?;
    in_turn(&[test, body])
}

pub fn array_width<T: Measured>(alloc: Global, items: &Vec<Item<Box<T>>>) -> Measure
    ensures { IfOk result (λ w. w ≡ widths.into_one (widths.item_widths (by.items_by T.form items.now.items))) }
{
    let mut all = Vec::new(alloc);
    add_items(alloc, &mut all, items)?;
    into_one(&all)
}

pub fn hash_width<T: Measured>(alloc: Global, pairs: &Vec<Pair<Box<T>>>) -> Measure
    ensures { IfOk result (λ w. w ≡ widths.into_one (widths.pair_widths (by.pairs_by T.form pairs.now.items))) }
{
    let mut all = Vec::new(alloc);
    add_pairs(alloc, &mut all, pairs)?;
    into_one(&all)
}

pub fn text_width<T: Measured>(alloc: Global, list: &Vec<Box<T>>) -> Measure
    ensures { IfOk result (λ w. w ≡ widths.into_one (widths.widths (by.cores_by T.form list.now.items))) }
{
    let mut all = Vec::new(alloc);
    add_all(alloc, &mut all, list)?;
    into_one(&all)
}

pub fn seq_width<T: Measured>(alloc: Global, list: &Vec<Box<T>>) -> Measure
    ensures { IfOk result (λ w. w ≡ widths.in_turn (widths.widths (by.cores_by T.form list.now.items))) }
{
    let mut all = Vec::new(alloc);
    add_all(alloc, &mut all, list)?;
    in_turn(&all)
}

pub fn cond_width<T: Measured>(
    alloc: Global,
    branches: &Vec<Branch<Box<T>>>,
    otherwise: &Box<T>,
) -> Measure
    ensures { IfOk result (λ w. w ≡ widths.in_turn
        (widths.branch_widths (by.branches_by T.form branches.now.items)
        ++ widths.width (by.core_by T.form otherwise.now) ∷ [])) }
{
    let mut all = Vec::new(alloc);
    add_branches(alloc, &mut all, branches)?;
    all.push(otherwise.width(alloc)?)?;
    in_turn(&all)
}

/// A call without a block, by whether it has a splat.
#[tactic(auto, using(crate::proofs::Widths::append_laws))]
pub fn plain_call_width<T: Measured>(
    alloc: Global,
    splat: bool,
    receiver: &Receiver<Box<T>>,
    items: &Vec<Item<Box<T>>>,
) -> Measure
    ensures { IfOk result (λ w. w ≡ widths.of_call splat
        ((widths.receiver_width (by.receiver_by T.form receiver.now)
        ∷ widths.item_widths (by.items_by T.form items.now.items)) ++ [])) }
{
    let mut all = Vec::new(alloc);
    all.push(receiver_width(alloc, receiver)?)?;
    add_items(alloc, &mut all, items)?;
    of_call(splat, &all)
}

/// A call with a block, by whether it has a splat.
pub fn call_width<T: Measured>(
    alloc: Global,
    splat: bool,
    receiver: &Receiver<Box<T>>,
    items: &Vec<Item<Box<T>>>,
    block: &Box<T>,
) -> Measure
    ensures { IfOk result (λ w. w ≡ widths.of_call splat
        ((widths.receiver_width (by.receiver_by T.form receiver.now)
        ∷ widths.item_widths (by.items_by T.form items.now.items))
        ++ widths.width (by.core_by T.form block.now) ∷ [])) }
{
    let mut all = Vec::new(alloc);
    all.push(receiver_width(alloc, receiver)?)?;
    add_items(alloc, &mut all, items)?;
    all.push(block.width(alloc)?)?;
    of_call(splat, &all)
}

/// A yield, after the Proc that is called.
pub fn yield_width<T: Measured>(alloc: Global, splat: bool, items: &Vec<Item<Box<T>>>) -> Measure
    ensures { IfOk result (λ w. w ≡ widths.of_call splat (3 ∷ widths.item_widths (by.items_by T.form items.now.items))) }
{
    let mut all = Vec::new(alloc);
    all.push(3)?;
    add_items(alloc, &mut all, items)?;
    of_call(splat, &all)
}

/// A super, after self.
pub fn super_width<T: Measured>(
    alloc: Global,
    splat: bool,
    items: &Vec<Item<Box<T>>>,
    block: &Option<Box<T>>,
) -> Measure
    ensures { IfOk result (λ w. w ≡ widths.of_call splat
        ((3 ∷ widths.item_widths (by.items_by T.form items.now.items)) ++ widths.maybe_widths (by.boxed_by T.form block.now))) }
{
    let mut all = Vec::new(alloc);
    all.push(3)?;
    add_items(alloc, &mut all, items)?;
    add_optional(alloc, &mut all, block)?;
    of_call(splat, &all)
}

pub fn begin_width<T: Measured>(alloc: Global, begin: &BeginForm<Box<T>>) -> Measure
    ensures { IfOk result (λ w. w ≡ widths.width (by.begin_by T.form begin.now)) }
{
    let mut all = Vec::new(alloc);
    all.push(begin.body.width(alloc)?)?;
    add_clauses(alloc, &mut all, &begin.clauses)?;
    add_optional(alloc, &mut all, &begin.otherwise)?;
    add_optional(alloc, &mut all, &begin.ensure)?;
    in_turn(&all)
}

/// The scope and the parent of a class.
pub fn class_width<T: Measured>(
    alloc: Global,
    scope: &Option<Box<T>>,
    parent: &Option<Box<T>>,
) -> Measure
    ensures { IfOk result (λ w. w ≡ widths.in_order
        (widths.or_leaf (widths.maybe_widths (by.boxed_by T.form scope.now)) ∷ widths.or_leaf
        (widths.maybe_widths (by.boxed_by T.form parent.now)) ∷ [])) }
{
    let scope = optional_width(alloc, scope)?;
    let parent = optional_width(alloc, parent)?;
    in_order(&[scope, parent])
}

/// The scope of a module.
pub fn module_width<T: Measured>(alloc: Global, scope: &Option<Box<T>>) -> Measure
    ensures { IfOk result (λ w. w ≡ widths.in_order
        (widths.or_leaf (widths.maybe_widths (by.boxed_by T.form scope.now)) ∷ [])) }
{
    let scope = optional_width(alloc, scope)?;
    in_order(&[scope])
}

/// The part of a `defined?`.
pub fn defined_width<T: Measured>(alloc: Global, receiver: &Option<Box<T>>) -> Measure
    ensures { IfOk result (λ w. w ≡ widths.in_order (widths.maybe_widths (by.boxed_by T.form receiver.now))) }
{
    let mut all = Vec::new(alloc);
    add_optional(alloc, &mut all, receiver)?;
    in_order(&all)
}
