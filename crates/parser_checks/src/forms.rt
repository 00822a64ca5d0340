//! The forms of trees with several parts.
ghost use Rattle.parser_tree.specs.Node as node;
ghost use Rattle.parser_tree.specs.PartsBy as by;
ghost use Rattle.parser_checks.specs.Places.{Walks, walk, walk_all, walk_assign, walk_call, walk_class, walk_define, walk_jump, walk_module, walk_outside, walk_singleton, walk_two};

use crate::context::Context;
use crate::found::{Found, noted};
use crate::parts::{
    check_all, check_arguments, check_block, check_branches, check_definition, check_items,
    check_maybe, check_rescues, check_scope, check_whens,
};
use crate::placed::{Check, Placed};
use crate::targets::{any_constant, has_constant};
use parser_tree::{Arguments, Definition, RescueBody, Scope, TargetList, WhenClause};
use rb_syntax::{Branch, Item, Outside};

/// Two trees.
pub fn check_two<T: Placed>(left: &Box<T>, right: &Box<T>, context: Context, best: Found) -> Check
    ensures { Walks result (walk_two context.around (by.tree_by T.node left.now) (by.tree_by T.node right.now) best) }
{
    let best = left.check(context, best)?;
    right.check(context, best)
}

pub fn check_if<T: Placed>(
    branches: &Vec<Branch<Box<T>>>,
    otherwise: &Option<Box<T>>,
    context: Context,
    best: Found,
) -> Check
    ensures { Walks result (walk context.around
        (node.if_node (by.branches_by T.node branches.now.items) (by.boxed_by T.node otherwise.now)) best) }
{
    let best = check_branches(branches, context, best)?;
    check_maybe(otherwise, context, best)
}

pub fn check_unless<T: Placed>(
    test: &Box<T>,
    body: &Box<T>,
    otherwise: &Option<Box<T>>,
    context: Context,
    best: Found,
) -> Check
    ensures { Walks result (walk context.around
        (node.unless_node (by.tree_by T.node test.now) (by.tree_by T.node body.now)
        (by.boxed_by T.node otherwise.now)) best) }
{
    let best = test.check(context, best)?;
    let best = body.check(context, best)?;
    check_maybe(otherwise, context, best)
}

pub fn check_for<T: Placed>(
    targets: &Vec<Box<T>>,
    items: &Box<T>,
    body: &Box<T>,
    context: Context,
    best: Found,
) -> Check
    ensures { Walks result (walk context.around
        (node.for_node (by.trees_by T.node targets.now.items) (by.tree_by T.node items.now)
        (by.tree_by T.node body.now)) best) }
{
    let best = items.check(context, best)?;
    let best = context.assigns(any_constant(targets), best);
    let inside = context.inside_for();
    let best = check_all(targets, inside, best)?;
    body.check(inside, best)
}

pub fn check_case<T: Placed>(
    subject: &Option<Box<T>>,
    clauses: &Vec<WhenClause<Box<T>>>,
    otherwise: &Option<Box<T>>,
    context: Context,
    best: Found,
) -> Check
    ensures { Walks result (walk context.around
        (node.case_node (by.boxed_by T.node subject.now) (by.whens_by T.node clauses.now.items)
        (by.boxed_by T.node otherwise.now)) best) }
{
    let best = check_maybe(subject, context, best)?;
    let best = check_whens(clauses, context, best)?;
    check_maybe(otherwise, context, best)
}

pub fn check_begin<T: Placed>(body: &RescueBody<Box<T>>, context: Context, best: Found) -> Check
    ensures { Walks result (walk context.around (by.begin_by T.node body.now) best) }
{
    let best = body.body.check(context, best)?;
    let best = check_rescues(&body.clauses, context, best)?;
    let best = check_maybe(&body.otherwise, context, best)?;
    check_maybe(&body.ensure, context, best)
}

pub fn check_rescued<T: Placed>(
    value: &Box<T>,
    other: &Box<T>,
    context: Context,
    best: Found,
) -> Check
    ensures { Walks result (walk context.around
        (node.rescue_modifier (by.tree_by T.node value.now) (by.tree_by T.node other.now)) best) }
{
    let best = value.check(context, best)?;
    other.check(context.inside_clause(), best)
}

pub fn check_call<T: Placed>(
    receiver: &Option<Box<T>>,
    passed: &Option<Arguments<Box<T>>>,
    block: &Option<Definition<Box<T>>>,
    context: Context,
    best: Found,
) -> Check
    ensures { Walks result (walk_call context.around
        (by.boxed_by T.node receiver.now) (by.arguments_by T.node passed.now) (by.block_by T.node block.now)
        best) }
{
    let best = check_maybe(receiver, context, best)?;
    let best = check_arguments(passed, context, best)?;
    check_block(block, context.inside_block(), best)
}

pub fn check_index<T: Placed>(
    of: &Box<T>,
    items: &Vec<Item<Box<T>>>,
    context: Context,
    best: Found,
) -> Check
    ensures { Walks result (walk context.around
        (node.index (by.tree_by T.node of.now) (by.items_by T.node items.now.items)) best) }
{
    let best = of.check(context, best)?;
    check_items(items, context, best)
}

/// `super`, whose word is at `at`.
pub fn check_super<T: Placed>(
    at: u32,
    passed: &Option<Arguments<Box<T>>>,
    block: &Option<Definition<Box<T>>>,
    context: Context,
    best: Found,
) -> Check
    ensures { Walks result (walk context.around
        (node.super_node at (by.arguments_by T.node passed.now) (by.block_by T.node block.now)) best) }
{
    let best = noted(context.around.in_method, at, best);
    let best = check_arguments(passed, context, best)?;
    check_block(block, context.inside_block(), best)
}

/// The items of `yield` or of a jump, whose word is at `at`, where it may stand.
pub fn check_jump<T: Placed>(
    may: bool,
    at: u32,
    items: &Vec<Item<Box<T>>>,
    context: Context,
    best: Found,
) -> Check
    ensures { Walks result (walk_jump may at context.around (by.items_by T.node items.now.items) best) }
{
    let best = noted(may, at, best);
    check_items(items, context, best)
}

pub fn check_assign<T: Placed>(
    target: &Box<T>,
    value: &Box<T>,
    context: Context,
    best: Found,
) -> Check
    ensures { Walks result (walk_assign context.around
        (by.tree_by T.node target.now) (by.tree_by T.node value.now) best) }
{
    let best = context.assigns(target.names_constant(), best);
    let best = target.check(context, best)?;
    value.check(context, best)
}

/// The targets of a list.
pub fn check_targets<T: Placed>(list: &TargetList<Box<T>>, context: Context, best: Found) -> Check
    ensures { Walks result (walk context.around (by.targets_by T.node list.now) best) }
{
    let best = check_all(&list.before, context, best)?;
    let best = check_maybe(&list.rest, context, best)?;
    check_all(&list.after, context, best)
}

pub fn check_multiple<T: Placed>(
    list: &TargetList<Box<T>>,
    value: &Box<T>,
    context: Context,
    best: Found,
) -> Check
    ensures { Walks result (walk context.around
        (node.multiple_assign (by.targets_by T.node list.now) (by.tree_by T.node value.now)) best) }
{
    let best = context.assigns(has_constant(list), best);
    let best = check_targets(list, context, best)?;
    value.check(context, best)
}

/// A method; the receiver of a singleton stands outside of it.
pub fn check_define<T: Placed>(
    singleton: &Option<Box<T>>,
    definition: &Definition<Box<T>>,
    context: Context,
    best: Found,
) -> Check
    ensures { Walks result (walk_define context.around
        (by.boxed_by T.node singleton.now) (by.definition_by T.node definition.now) best) }
{
    let best = check_maybe(singleton, context, best)?;
    check_definition(definition, context.inside_method(definition.at), best)
}

pub fn check_class<T: Placed>(
    scope: &Scope<Box<T>>,
    parent: &Option<Box<T>>,
    body: &Box<T>,
    context: Context,
    best: Found,
) -> Check
    ensures { Walks result (walk_class context.around
        (by.scope_by T.node scope.now) (by.boxed_by T.node parent.now) (by.tree_by T.node body.now) best) }
{
    let best = context.opens_class(best);
    let best = check_scope(scope, context, best)?;
    let best = check_maybe(parent, context, best)?;
    body.check(context.inside_class(), best)
}

pub fn check_module<T: Placed>(
    scope: &Scope<Box<T>>,
    body: &Box<T>,
    context: Context,
    best: Found,
) -> Check
    ensures { Walks result (walk_module context.around
        (by.scope_by T.node scope.now) (by.tree_by T.node body.now) best) }
{
    let best = context.opens_class(best);
    let best = check_scope(scope, context, best)?;
    body.check(context.inside_class(), best)
}

/// The singleton class of a value, which stands outside of it.
pub fn check_singleton<T: Placed>(
    of: &Box<T>,
    body: &Box<T>,
    context: Context,
    best: Found,
) -> Check
    ensures { Walks result (walk_singleton context.around
        (by.tree_by T.node of.now) (by.tree_by T.node body.now) best) }
{
    let best = of.check(context, best)?;
    body.check(context.inside_class(), best)
}

/// A construct outside the language at `at`; a method that is written as one expression is a method.
pub fn check_outside<T: Placed>(
    what: Outside,
    at: u32,
    parts: &Vec<Box<T>>,
    context: Context,
    best: Found,
) -> Check
    ensures { Walks result (walk_outside what at context.around (by.trees_by T.node parts.now.items) best) }
{
    match what {
        Outside::EndlessMethod => check_all(parts, context.inside_method(at), best),
        _ => check_all(parts, context, best),
    }
}
