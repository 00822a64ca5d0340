//! The search of a tree's parts in the order of the text. Each function takes what was found before and gives
//! what is found with its own part.
ghost use Rattle.std.specs.Prelude.{◌≡◌, fold, map};
ghost use Rattle.parser_tree.specs.View.{form_view, view};
ghost use Rattle.lower_outside.specs.Search.{earlier, found, found_all};
ghost use Rattle.parser_tree.specs.Parts.{item_node, pair_node, branch_node, piece_node, boxed, arguments, parameter_node, optional_node, definition_node, block, rescue_node, begin_node, when_node, targets_node, scope_node};

use crate::construct::Found;
use parser_tree::{
    Arguments, Definition, OptionalParameter, Parameter, Piece, RescueBody, RescueClause, Scope,
    TargetList, Tree, TreeForm, WhenClause,
};
use rb_syntax::{Branch, Item, Outside, Pair};

fn earlier_of(best: Option<Found>, what: Outside, at: u32) -> Option<Found>
    ensures { result ≡ earlier best what at }
{
    match best {
        None => Some(Found { what, at }),
        Some(found) => {
            if at < found.at {
                Some(Found { what, at })
            } else {
                Some(found)
            }
        }
    }
}

/// What a tree's form holds.
#[cycle(search)]
#[tactic(auto, using(crate::proofs::Folds::views_and_folds))]
pub fn find(best: Option<Found>, form: &TreeForm) -> Option<Found>
    ensures { result ≡ found best (form_view form.now) }
{
    match form {
        TreeForm::Nil
        | TreeForm::True
        | TreeForm::False
        | TreeForm::SelfReference
        | TreeForm::Integer(_)
        | TreeForm::Symbol(_)
        | TreeForm::Words(_)
        | TreeForm::Symbols(_)
        | TreeForm::Local(_)
        | TreeForm::InstanceVariable(_)
        | TreeForm::GlobalVariable(_)
        | TreeForm::Constant(_)
        | TreeForm::TopConstant(_)
        | TreeForm::Retry { at: _ }
        | TreeForm::Alias(_, _)
        | TreeForm::Undef(_) => best,
        TreeForm::Text(pieces) | TreeForm::SymbolText(pieces) => find_pieces(best, pieces),
        TreeForm::ScopedConstant(e, _)
        | TreeForm::Not(e)
        | TreeForm::Unary(_, e)
        | TreeForm::Defined(e) => { find(best, e) }
        TreeForm::Array(items)
        | TreeForm::Yield { items, at: _ }
        | TreeForm::Return { items, at: _ }
        | TreeForm::Break { items, at: _ }
        | TreeForm::Next { items, at: _ } => find_items(best, items),
        TreeForm::Hash(pairs) => find_pairs(best, pairs),
        TreeForm::Statements(list) => find_all(best, list),
        TreeForm::Operation(a, _, b)
        | TreeForm::And(a, b)
        | TreeForm::Or(a, b)
        | TreeForm::RescueModifier(a, b)
        | TreeForm::Assign(a, b)
        | TreeForm::OperatorAssign(a, _, b) => find(find(best, a), b),
        TreeForm::SingletonClass(e, body) => find(find(best, e), &body.body),
        TreeForm::Range { from, to, .. } => find(find(best, from), to),
        TreeForm::If {
            branches,
            otherwise,
        } => find_boxed(find_branches(best, branches), otherwise),
        TreeForm::Unless {
            test,
            body,
            otherwise,
        } => find_boxed(find(find(best, test), body), otherwise),
        TreeForm::While { test, body, .. } => find(find(best, test), body),
        TreeForm::For {
            targets,
            items,
            body,
        } => find(find(find_all(best, targets), items), body),
        TreeForm::Case {
            subject,
            clauses,
            otherwise,
        } => find_boxed(find_whens(find_boxed(best, subject), clauses), otherwise),
        TreeForm::Begin(body) => find_begin(best, body),
        TreeForm::Call {
            receiver,
            arguments,
            block,
            ..
        } => find_block(find_arguments(find_boxed(best, receiver), arguments), block),
        TreeForm::Index(e, items) => find_items(find(best, e), items),
        TreeForm::Super {
            arguments,
            block,
            ..
        } => find_block(find_arguments(best, arguments), block),
        TreeForm::Lambda(definition) => find_definition(best, definition),
        TreeForm::MultipleAssign(targets, value) => find(find_targets(best, targets), value),
        TreeForm::Targets(targets) => find_targets(best, targets),
        TreeForm::Define {
            singleton,
            definition,
            ..
        } => find_definition(find_boxed(best, singleton), definition),
        TreeForm::Class {
            scope,
            parent,
            body,
            ..
        } => find(find_boxed(find_scope(best, scope), parent), &body.body),
        TreeForm::Module { scope, body, .. } => find(find_scope(best, scope), &body.body),
        TreeForm::Outside { what, at, parts } => find_all(earlier_of(best, *what, *at), parts),
    }
}

#[cycle(search)]
fn find_all(best: Option<Found>, trees: &[Tree]) -> Option<Found>
    ensures { result ≡ fold found best (map view trees.now) }
{
    let mut best = best;
    for tree in trees {
        best = find(best, tree);
    }
    best
}

#[cycle(search)]
fn find_boxed(best: Option<Found>, tree: &Option<Tree>) -> Option<Found>
    ensures { result ≡ found_all best (boxed tree.now) }
{
    match tree {
        None => best,
        Some(tree) => find(best, tree),
    }
}

#[cycle(search)]
fn find_item(best: Option<Found>, item: &Item<Tree>) -> Option<Found>
    ensures { result ≡ found best (item_node item.now) }
{
    match item {
        Item::Plain(e) | Item::Splat(e) => find(best, e),
    }
}

#[cycle(search)]
fn find_items(best: Option<Found>, items: &[Item<Tree>]) -> Option<Found>
    ensures { result ≡ fold found best (map item_node items.now) }
{
    let mut best = best;
    for item in items {
        best = find_item(best, item);
    }
    best
}

#[cycle(search)]
fn find_pairs(best: Option<Found>, pairs: &[Pair<Tree>]) -> Option<Found>
    ensures { result ≡ fold found best (map pair_node pairs.now) }
{
    let mut best = best;
    for pair in pairs {
        best = find(find(best, &pair.key), &pair.value);
    }
    best
}

#[cycle(search)]
fn find_branches(best: Option<Found>, branches: &[Branch<Tree>]) -> Option<Found>
    ensures { result ≡ fold found best (map branch_node branches.now) }
{
    let mut best = best;
    for branch in branches {
        best = find(find(best, &branch.test), &branch.body);
    }
    best
}

#[cycle(search)]
fn find_piece(best: Option<Found>, piece: &Piece<Tree>) -> Option<Found>
    ensures { result ≡ found best (piece_node piece.now) }
{
    match piece {
        Piece::Text(_) => best,
        Piece::Interpolation(e) => find(best, e),
    }
}

#[cycle(search)]
fn find_pieces(best: Option<Found>, pieces: &[Piece<Tree>]) -> Option<Found>
    ensures { result ≡ fold found best (map piece_node pieces.now) }
{
    let mut best = best;
    for piece in pieces {
        best = find_piece(best, piece);
    }
    best
}

#[cycle(search)]
#[tactic(auto, using(crate::proofs::Folds::folds))]
fn find_when(best: Option<Found>, clause: &WhenClause<Tree>) -> Option<Found>
    ensures { result ≡ found best (when_node clause.now) }
{
    find(find_all(best, &clause.tests), &clause.body)
}

#[cycle(search)]
fn find_whens(best: Option<Found>, clauses: &[WhenClause<Tree>]) -> Option<Found>
    ensures { result ≡ fold found best (map when_node clauses.now) }
{
    let mut best = best;
    for clause in clauses {
        best = find_when(best, clause);
    }
    best
}

#[cycle(search)]
#[tactic(auto, using(crate::proofs::Folds::folds))]
fn find_rescue(best: Option<Found>, clause: &RescueClause<Tree>) -> Option<Found>
    ensures { result ≡ found best (rescue_node clause.now) }
{
    let best = find_boxed(find_all(best, &clause.classes), &clause.target);
    find(best, &clause.body)
}

#[cycle(search)]
fn find_rescues(best: Option<Found>, clauses: &[RescueClause<Tree>]) -> Option<Found>
    ensures { result ≡ fold found best (map rescue_node clauses.now) }
{
    let mut best = best;
    for clause in clauses {
        best = find_rescue(best, clause);
    }
    best
}

#[cycle(search)]
#[tactic(auto, using(crate::proofs::Folds::folds))]
fn find_begin(best: Option<Found>, body: &RescueBody<Tree>) -> Option<Found>
    ensures { result ≡ found best (begin_node body.now) }
{
    let best = find_rescues(find(best, &body.body), &body.clauses);
    find_boxed(find_boxed(best, &body.otherwise), &body.ensure)
}

#[cycle(search)]
#[tactic(auto, using(crate::proofs::Folds::folds))]
fn find_arguments(best: Option<Found>, passed: &Option<Arguments<Tree>>) -> Option<Found>
    ensures { result ≡ found_all best (arguments passed.now) }
{
    match passed {
        None => best,
        Some(passed) => find_boxed(find_items(best, &passed.items), &passed.block),
    }
}

#[cycle(search)]
fn find_block(best: Option<Found>, definition: &Option<Definition<Tree>>) -> Option<Found>
    ensures { result ≡ found_all best (block definition.now) }
{
    match definition {
        None => best,
        Some(definition) => find_definition(best, definition),
    }
}

#[cycle(search)]
#[tactic(auto, using(crate::proofs::Folds::folds))]
fn find_definition(best: Option<Found>, definition: &Definition<Tree>) -> Option<Found>
    ensures { result ≡ found best (definition_node definition.now) }
{
    let parameters = &definition.parameters;
    let best = find_parameters(best, &parameters.required);
    let best = find_optional(best, &parameters.optional);
    let best = find_parameters(best, &parameters.post);
    find(find_all(best, &parameters.outside), &definition.body)
}

#[cycle(search)]
fn find_parameter(best: Option<Found>, parameter: &Parameter<Tree>) -> Option<Found>
    ensures { result ≡ found best (parameter_node parameter.now) }
{
    match parameter {
        Parameter::Name(_) => best,
        Parameter::Pattern(targets) => find(best, targets),
    }
}

#[cycle(search)]
fn find_parameters(best: Option<Found>, parameters: &[Parameter<Tree>]) -> Option<Found>
    ensures { result ≡ fold found best (map parameter_node parameters.now) }
{
    let mut best = best;
    for parameter in parameters {
        best = find_parameter(best, parameter);
    }
    best
}

#[cycle(search)]
fn find_optional(best: Option<Found>, parameters: &[OptionalParameter<Tree>]) -> Option<Found>
    ensures { result ≡ fold found best (map optional_node parameters.now) }
{
    let mut best = best;
    for parameter in parameters {
        best = find(best, &parameter.value);
    }
    best
}

#[cycle(search)]
#[tactic(auto, using(crate::proofs::Folds::folds))]
fn find_targets(best: Option<Found>, targets: &TargetList<Tree>) -> Option<Found>
    ensures { result ≡ found best (targets_node targets.now) }
{
    let best = find_boxed(find_all(best, &targets.before), &targets.rest);
    find_all(best, &targets.after)
}

#[cycle(search)]
fn find_scope(best: Option<Found>, scope: &Scope<Tree>) -> Option<Found>
    ensures { result ≡ found best (scope_node scope.now) }
{
    match scope {
        Scope::Innermost | Scope::Top => best,
        Scope::In(e) => find(best, e),
    }
}
