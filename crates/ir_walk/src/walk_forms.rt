//! Walks over cores with several parts.
ghost use Rattle.std.specs.Prelude.{◌≡◌, OnOk};
ghost use Rattle.ir_core.specs.PartsBy as by;
ghost use Rattle.ir_walk.specs.Steps.{step, steps};
ghost use Rattle.ir_walk.specs.Walk as walks;

use crate::extent::Extent;
use crate::step::Step;
use crate::walk_parts::{
    walk_branches, walk_clauses, walk_inside, walk_items, walk_optional, walk_receiver,
};
use crate::walked::{Noted, Walked};
use ir_core::{BeginForm, Receiver};
use rb_syntax::{Branch, Item};

/// Two cores.
pub fn walk_two<'a, T: Walked>(
    extent: Extent,
    trail: &mut Vec<Step<'a>>,
    left: &'a Box<T>,
    right: &'a Box<T>,
) -> Noted
    ensures { OnOk result (steps trail.new.items ≡ walks.walked extent
        (walks.walked extent (steps trail.old.items) (by.core_by T.form left.now)) (by.core_by T.form right.now)) }
{
    left.walk(extent, trail)?;
    right.walk(extent, trail)
}

pub fn walk_cond<'a, T: Walked>(
    extent: Extent,
    trail: &mut Vec<Step<'a>>,
    branches: &'a Vec<Branch<Box<T>>>,
    otherwise: &'a Box<T>,
) -> Noted
    ensures { OnOk result (steps trail.new.items ≡ walks.walked extent
        (walks.walked_branches extent (steps trail.old.items) (by.branches_by T.form branches.now.items))
        (by.core_by T.form otherwise.now)) }
{
    walk_branches(extent, trail, branches)?;
    otherwise.walk(extent, trail)
}

/// A call with a block.
pub fn walk_call<'a, T: Walked>(
    extent: Extent,
    trail: &mut Vec<Step<'a>>,
    receiver: &'a Receiver<Box<T>>,
    items: &'a Vec<Item<Box<T>>>,
    block: &'a Box<T>,
) -> Noted
    ensures { OnOk result (steps trail.new.items ≡ walks.walked extent
        (walks.walked_items extent (walks.walked_receiver extent (steps trail.old.items)
        (by.receiver_by T.form receiver.now)) (by.items_by T.form items.now.items)) (by.core_by T.form block.now)) }
{
    walk_plain_call(extent, trail, receiver, items)?;
    block.walk(extent, trail)
}

/// A call without a block.
pub fn walk_plain_call<'a, T: Walked>(
    extent: Extent,
    trail: &mut Vec<Step<'a>>,
    receiver: &'a Receiver<Box<T>>,
    items: &'a Vec<Item<Box<T>>>,
) -> Noted
    ensures { OnOk result (steps trail.new.items ≡ walks.walked_items extent
        (walks.walked_receiver extent (steps trail.old.items) (by.receiver_by T.form receiver.now))
        (by.items_by T.form items.now.items)) }
{
    walk_receiver(extent, trail, receiver)?;
    walk_items(extent, trail, items)
}

pub fn walk_super<'a, T: Walked>(
    extent: Extent,
    trail: &mut Vec<Step<'a>>,
    items: &'a Vec<Item<Box<T>>>,
    block: &'a Option<Box<T>>,
) -> Noted
    ensures { OnOk result (steps trail.new.items ≡ walks.walked_maybe extent
        (walks.walked_items extent (steps trail.old.items) (by.items_by T.form items.now.items))
        (by.boxed_by T.form block.now)) }
{
    walk_items(extent, trail, items)?;
    walk_optional(extent, trail, block)
}

pub fn walk_begin<'a, T: Walked>(
    extent: Extent,
    trail: &mut Vec<Step<'a>>,
    begin: &'a BeginForm<Box<T>>,
) -> Noted
    ensures { OnOk result (steps trail.new.items ≡ walks.walked_maybe extent
        (walks.walked_maybe extent (walks.walked_clauses extent
        (walks.walked extent (steps trail.old.items) (by.core_by T.form begin.now.body))
        (by.clauses_by T.form begin.now.clauses.items)) (by.boxed_by T.form begin.now.otherwise))
        (by.boxed_by T.form begin.now.ensure)) }
{
    begin.body.walk(extent, trail)?;
    walk_clauses(extent, trail, &begin.clauses)?;
    walk_optional(extent, trail, &begin.otherwise)?;
    walk_optional(extent, trail, &begin.ensure)
}

/// A core, and a body of it: that of a method or of its singleton class.
pub fn walk_core_and_body<'a, T: Walked>(
    extent: Extent,
    trail: &mut Vec<Step<'a>>,
    core: &'a Box<T>,
    beginning: Step<'a>,
    form: &'a Box<T>,
) -> Noted
    ensures { OnOk result (steps trail.new.items ≡ walks.inside_body extent
        (walks.walked extent (steps trail.old.items) (by.core_by T.form core.now)) (step beginning.entry)
        (by.core_by T.form form.now)) }
{
    core.walk(extent, trail)?;
    walk_inside(extent, trail, beginning, form)
}

/// The scope and the parent of a class, and what stands in it.
pub fn walk_class<'a, T: Walked>(
    extent: Extent,
    trail: &mut Vec<Step<'a>>,
    scope: &'a Option<Box<T>>,
    parent: &'a Option<Box<T>>,
    beginning: Step<'a>,
    form: &'a Box<T>,
) -> Noted
    ensures { OnOk result (steps trail.new.items ≡ walks.inside_body extent
        (walks.walked_maybe extent (walks.walked_maybe extent (steps trail.old.items) (by.boxed_by T.form scope.now))
        (by.boxed_by T.form parent.now)) (step beginning.entry) (by.core_by T.form form.now)) }
{
    walk_optional(extent, trail, scope)?;
    walk_optional(extent, trail, parent)?;
    walk_inside(extent, trail, beginning, form)
}

/// The scope of a module, and what stands in it.
pub fn walk_module<'a, T: Walked>(
    extent: Extent,
    trail: &mut Vec<Step<'a>>,
    scope: &'a Option<Box<T>>,
    beginning: Step<'a>,
    form: &'a Box<T>,
) -> Noted
    ensures { OnOk result (steps trail.new.items ≡ walks.inside_body extent
        (walks.walked_maybe extent (steps trail.old.items) (by.boxed_by T.form scope.now)) (step beginning.entry)
        (by.core_by T.form form.now)) }
{
    walk_optional(extent, trail, scope)?;
    walk_inside(extent, trail, beginning, form)
}
