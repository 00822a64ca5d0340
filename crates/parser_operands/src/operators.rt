//! Operators between operands.
ghost use Rattle.std.specs.Prelude.{◌≡◌, ◌<◌, ◌≤◌, length, IfOk, IsSome};
ghost use Rattle.parser_tree.specs.View.{view};
ghost use Rattle.parser_tokens.specs.Tokens as front;
ghost use Rattle.parser_nodes.specs.Calls.{operand_view};
ghost use Rattle.parser_forms.specs.Reading.{Reads, Shortens};
ghost use Rattle.parser_operands.specs.Operators as rules;

use crate::operands::operand;
use parser_ahead::names::Names;
use parser_ahead::primary::DoOwner;
use parser_forms::{Inner, Read};
use parser_nodes::nodes::{assignment_tree, choice_tree, infix_tree, rescued_tree};
use parser_nodes::operand::{Operand, is_target, operand_tree, target_tree};
use parser_tokens::expect::{Wanted, expect};
use parser_tokens::failure::syntax;
use parser_tokens::operators::{Assignment, assignment_at, clashes, infix_at};
use parser_tokens::starts::modifier_at;
use parser_tokens::tokens::{first, place_at, skip};
use parser_tokens::word::{Modifier, Word};
use parser_tree::Tree;
use rb_syntax::{Punctuator, Token};
use std::alloc::Global;

/// Whether this is the modifier `rescue`.
pub fn is_rescue(modifier: Option<Modifier>) -> bool
    ensures { result ≡ rules.is_rescue modifier }
{
    match modifier {
        Some(Modifier::Rescue) => true,
        Some(Modifier::If | Modifier::Unless | Modifier::While | Modifier::Until) => false,
        None => false,
    }
}

/// The assignment at the front, if the operand is a target.
fn assignment_to(operand: &Operand, tokens: &[Token]) -> Option<Assignment>
    ensures value { result ≡ rules.assignment_to (operand_view operand.now) tokens.now }
    ensures there { IsSome result → length (front.behind tokens.now) < length tokens.now }
{
    if is_target(operand) {
        assignment_at(tokens)
    } else {
        None
    }
}

/// The value that a modifier `rescue` stands for where the value before it fails.
pub fn rescued<'a, I: Inner>(
    inner: &I,
    alloc: Global,
    names: &mut Names,
    tree: Tree,
    tokens: &'a [Token],
    owner: DoOwner,
) -> Read<'a, Tree>
    ensures value { Reads view result names.new
        (rules.rescued (I.inside inner.now) (view tree) names.old tokens.now owner) }
    ensures within { IfOk result (λ p. length p.1.now ≤ length tokens.now) }
{
    let (other, rest) = inner.argument(alloc, names, skip(tokens), owner)?;
    Ok((rescued_tree(alloc, tree, other)?, rest))
}

/// A value without a command that is assigned, with the modifier `rescue` that is of it.
fn assigned_value<'a, I: Inner>(
    inner: &I,
    alloc: Global,
    names: &mut Names,
    tokens: &'a [Token],
    owner: DoOwner,
) -> Read<'a, Tree>
    ensures value { Reads view result names.new
        (rules.assigned_value (I.inside inner.now) names.old tokens.now owner) }
    ensures within { IfOk result (λ p. length p.1.now ≤ length tokens.now) }
{
    let (tree, rest) = inner.argument(alloc, names, tokens, owner)?;
    if is_rescue(modifier_at(rest)) {
        rescued(inner, alloc, names, tree, rest, owner)
    } else {
        Ok((tree, rest))
    }
}

/// An assignment of such a value, behind its sign.
#[tactic(auto, unfolding(crate::specs::Operators::assigned))]
fn assigned<'a, I: Inner>(
    inner: &I,
    alloc: Global,
    names: &mut Names,
    target: Tree,
    assignment: Assignment,
    tokens: &'a [Token],
    owner: DoOwner,
) -> Read<'a, Tree>
    ensures value { Reads view result names.new
        (rules.assigned (I.inside inner.now) (view target) names.old assignment tokens.now owner) }
    ensures within { IfOk result (λ p. length p.1.now ≤ length tokens.now) }
{
    let (value, rest) = assigned_value(inner, alloc, names, tokens, owner)?;
    Ok((assignment_tree(alloc, assignment, target, value)?, rest))
}

/// The operators at most as loose as `loosest` behind a left operand.
#[tactic(auto, using(crate::proofs::Turns::operator_turns))]
fn operators<'a, I: Inner>(
    inner: &I,
    alloc: Global,
    names: &mut Names,
    left: Tree,
    tokens: &'a [Token],
    loosest: u8,
    owner: DoOwner,
) -> Read<'a, Tree>
    ensures value { Reads view result names.new
        (rules.operators (I.inside inner.now) (view left) names.old tokens.now loosest owner) }
    ensures within { IfOk result (λ p. length p.1.now ≤ length tokens.now) }
{
    let mut left = left;
    let mut rest = tokens;
    'operators: while let Some(sign) = infix_at(rest, loosest) {
        let at = place_at(rest);
        let behind = skip(rest);
        let level = sign.right_level();
        let (right, after) = inner.operation(alloc, names, behind, level, owner)?;
        if clashes(sign, after) {
            return Err(syntax(after));
        }
        left = infix_tree(alloc, sign, at, left, right)?;
        rest = after;
    }
    Ok((left, rest))
}

/// Operands with operators at most as loose as `loosest` between them. An assignment takes all that follows, so it is
/// the last operand.
#[tactic(auto, unfolding(crate::specs::Operators::operation))]
pub fn operation<'a, I: Inner>(
    inner: &I,
    alloc: Global,
    names: &mut Names,
    tokens: &'a [Token],
    loosest: u8,
    owner: DoOwner,
) -> Read<'a, Tree>
    ensures value { Reads view result names.new
        (rules.operation (I.inside inner.now) names.old tokens.now loosest owner) }
    ensures shorter { Shortens tokens.now result }
{
    let (left, rest) = operand(inner, alloc, names, tokens, false, owner)?;
    match assignment_to(&left, rest) {
        Some(assignment) => {
            let target = target_tree(alloc, names, left)?;
            assigned(inner, alloc, names, target, assignment, skip(rest), owner)
        }
        None => {
            let left = operand_tree(alloc, left)?;
            operators(inner, alloc, names, left, rest, loosest, owner)
        }
    }
}

/// What stands behind the `?` of a conditional.
fn choice<'a, I: Inner>(
    inner: &I,
    alloc: Global,
    names: &mut Names,
    test: Tree,
    tokens: &'a [Token],
    owner: DoOwner,
) -> Read<'a, Tree>
    ensures value { Reads view result names.new
        (rules.choice (I.inside inner.now) (view test) names.old tokens.now owner) }
    ensures shorter { Shortens tokens.now result }
{
    let (yes, rest) = inner.argument(alloc, names, tokens, owner)?;
    let rest = expect(rest, Wanted::Colon)?;
    let (no, rest) = inner.argument(alloc, names, rest, owner)?;
    Ok((choice_tree(alloc, test, yes, no)?, rest))
}

/// The operators of every level behind a left operand, and a conditional.
#[tactic(auto, unfolding(crate::specs::Operators::value_from))]
pub fn value_from<'a, I: Inner>(
    inner: &I,
    alloc: Global,
    names: &mut Names,
    left: Tree,
    tokens: &'a [Token],
    owner: DoOwner,
) -> Read<'a, Tree>
    ensures value { Reads view result names.new
        (rules.value_from (I.inside inner.now) (view left) names.old tokens.now owner) }
    ensures within { IfOk result (λ p. length p.1.now ≤ length tokens.now) }
{
    let (test, rest) = operators(inner, alloc, names, left, tokens, 13, owner)?;
    match first(rest) {
        Word::Mark(Punctuator::Question) => choice(inner, alloc, names, test, skip(rest), owner),
        _ => Ok((test, rest)),
    }
}
