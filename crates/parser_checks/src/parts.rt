//! The parts of trees.
ghost use Rattle.parser_tree.specs.PartsBy as by;
ghost use Rattle.parser_checks.specs.Places.{Walks, walk, walk_all};

use crate::context::Context;
use crate::doubled::parameters_differ;
use crate::found::{Found, noted};
use crate::placed::{Check, Placed};
use crate::targets::is_constant;
use parser_tree::{
    Arguments, Definition, OptionalParameter, Parameter, Piece, RescueClause, Scope, WhenClause,
};
use rb_syntax::{Branch, Item, Pair};

/// Trees.
pub fn check_all<T: Placed>(trees: &Vec<Box<T>>, context: Context, best: Found) -> Check
    ensures { Walks result (walk_all context.around (by.trees_by T.node trees.now.items) best) }
{
    let mut found = best;
    for tree in trees {
        found = tree.check(context, found)?;
    }
    Ok(found)
}

/// A tree that may be there.
pub fn check_maybe<T: Placed>(tree: &Option<Box<T>>, context: Context, best: Found) -> Check
    ensures { Walks result (walk_all context.around (by.boxed_by T.node tree.now) best) }
{
    match tree {
        None => Ok(best),
        Some(tree) => tree.check(context, best),
    }
}

/// An item.
fn check_item<T: Placed>(item: &Item<Box<T>>, context: Context, best: Found) -> Check
    ensures { Walks result (walk context.around (by.item_by T.node item.now) best) }
{
    match item {
        Item::Plain(tree) | Item::Splat(tree) => tree.check(context, best),
    }
}

/// A pair.
fn check_pair<T: Placed>(pair: &Pair<Box<T>>, context: Context, best: Found) -> Check
    ensures { Walks result (walk context.around (by.pair_by T.node pair.now) best) }
{
    let best = pair.key.check(context, best)?;
    pair.value.check(context, best)
}

/// A piece of a literal.
fn check_piece<T: Placed>(piece: &Piece<Box<T>>, context: Context, best: Found) -> Check
    ensures { Walks result (walk context.around (by.piece_by T.node piece.now) best) }
{
    match piece {
        Piece::Text(_) => Ok(best),
        Piece::Interpolation(tree) => tree.check(context, best),
    }
}

/// A branch.
fn check_branch<T: Placed>(branch: &Branch<Box<T>>, context: Context, best: Found) -> Check
    ensures { Walks result (walk context.around (by.branch_by T.node branch.now) best) }
{
    let best = branch.test.check(context, best)?;
    branch.body.check(context, best)
}

/// A `when` clause.
fn check_when<T: Placed>(clause: &WhenClause<Box<T>>, context: Context, best: Found) -> Check
    ensures { Walks result (walk context.around (by.when_by T.node clause.now) best) }
{
    let best = check_all(&clause.tests, context, best)?;
    clause.body.check(context, best)
}

/// A rescue clause.
fn check_rescue<T: Placed>(clause: &RescueClause<Box<T>>, context: Context, best: Found) -> Check
    ensures { Walks result (walk context.around (by.rescue_by T.node clause.now) best) }
{
    let inside = context.inside_clause();
    let best = check_all(&clause.classes, inside, best)?;
    let best = context.assigns(is_constant(&clause.target), best);
    let best = check_maybe(&clause.target, inside, best)?;
    clause.body.check(inside, best)
}

/// A required parameter.
fn check_parameter<T: Placed>(parameter: &Parameter<Box<T>>, context: Context, best: Found) -> Check
    ensures { Walks result (walk context.around (by.parameter_by T.node parameter.now) best) }
{
    match parameter {
        Parameter::Name(_) => Ok(best),
        Parameter::Pattern(tree) => tree.check(context, best),
    }
}

/// An optional parameter.
fn check_optional<T: Placed>(
    parameter: &OptionalParameter<Box<T>>,
    context: Context,
    best: Found,
) -> Check
    ensures { Walks result (walk context.around (by.optional_by T.node parameter.now) best) }
{
    parameter.value.check(context, best)
}

pub fn check_items<T: Placed>(items: &Vec<Item<Box<T>>>, context: Context, best: Found) -> Check
    ensures { Walks result (walk_all context.around (by.items_by T.node items.now.items) best) }
{
    let mut found = best;
    for item in items {
        found = check_item(item, context, found)?;
    }
    Ok(found)
}

pub fn check_pairs<T: Placed>(pairs: &Vec<Pair<Box<T>>>, context: Context, best: Found) -> Check
    ensures { Walks result (walk_all context.around (by.pairs_by T.node pairs.now.items) best) }
{
    let mut found = best;
    for pair in pairs {
        found = check_pair(pair, context, found)?;
    }
    Ok(found)
}

pub fn check_pieces<T: Placed>(pieces: &Vec<Piece<Box<T>>>, context: Context, best: Found) -> Check
    ensures { Walks result (walk_all context.around (by.pieces_by T.node pieces.now.items) best) }
{
    let mut found = best;
    for piece in pieces {
        found = check_piece(piece, context, found)?;
    }
    Ok(found)
}

pub fn check_branches<T: Placed>(
    branches: &Vec<Branch<Box<T>>>,
    context: Context,
    best: Found,
) -> Check
    ensures { Walks result (walk_all context.around (by.branches_by T.node branches.now.items) best) }
{
    let mut found = best;
    for branch in branches {
        found = check_branch(branch, context, found)?;
    }
    Ok(found)
}

pub fn check_whens<T: Placed>(
    clauses: &Vec<WhenClause<Box<T>>>,
    context: Context,
    best: Found,
) -> Check
    ensures { Walks result (walk_all context.around (by.whens_by T.node clauses.now.items) best) }
{
    let mut found = best;
    for clause in clauses {
        found = check_when(clause, context, found)?;
    }
    Ok(found)
}

pub fn check_rescues<T: Placed>(
    clauses: &Vec<RescueClause<Box<T>>>,
    context: Context,
    best: Found,
) -> Check
    ensures { Walks result (walk_all context.around (by.rescues_by T.node clauses.now.items) best) }
{
    let mut found = best;
    for clause in clauses {
        found = check_rescue(clause, context, found)?;
    }
    Ok(found)
}

pub fn check_parameters<T: Placed>(
    parameters: &Vec<Parameter<Box<T>>>,
    context: Context,
    best: Found,
) -> Check
    ensures { Walks result (walk_all context.around (by.parameters_by T.node parameters.now.items) best) }
{
    let mut found = best;
    for parameter in parameters {
        found = check_parameter(parameter, context, found)?;
    }
    Ok(found)
}

pub fn check_optionals<T: Placed>(
    parameters: &Vec<OptionalParameter<Box<T>>>,
    context: Context,
    best: Found,
) -> Check
    ensures { Walks result (walk_all context.around (by.optionals_by T.node parameters.now.items) best) }
{
    let mut found = best;
    for parameter in parameters {
        found = check_optional(parameter, context, found)?;
    }
    Ok(found)
}

pub fn check_arguments<T: Placed>(
    passed: &Option<Arguments<Box<T>>>,
    context: Context,
    best: Found,
) -> Check
    ensures { Walks result (walk_all context.around (by.arguments_by T.node passed.now) best) }
{
    match passed {
        None => Ok(best),
        Some(passed) => {
            let best = check_items(&passed.items, context, best)?;
            check_maybe(&passed.block, context, best)
        }
    }
}

pub fn check_block<T: Placed>(
    block: &Option<Definition<Box<T>>>,
    context: Context,
    best: Found,
) -> Check
    ensures { Walks result (walk_all context.around (by.block_by T.node block.now) best) }
{
    match block {
        None => Ok(best),
        Some(definition) => check_definition(definition, context, best),
    }
}

/// The parameters and the body of a method, a block or a lambda.
pub fn check_definition<T: Placed>(
    definition: &Definition<Box<T>>,
    context: Context,
    best: Found,
) -> Check
    ensures { Walks result (walk context.around (by.definition_by T.node definition.now) best) }
{
    let differ = parameters_differ(context.alloc, &definition.parameters)?;
    let best = noted(differ, definition.at, best);
    let best = check_parameters(&definition.parameters.required, context, best)?;
    let best = check_optionals(&definition.parameters.optional, context, best)?;
    let best = check_parameters(&definition.parameters.post, context, best)?;
    let best = check_all(&definition.parameters.outside, context, best)?;
    definition.body.check(context, best)
}

/// Where the constant of a class or module stands.
pub fn check_scope<T: Placed>(scope: &Scope<Box<T>>, context: Context, best: Found) -> Check
    ensures { Walks result (walk context.around (by.scope_by T.node scope.now) best) }
{
    match scope {
        Scope::Innermost | Scope::Top => Ok(best),
        Scope::In(tree) => tree.check(context, best),
    }
}
