//! Phrases: commands, assignments, and operators with their operands.
ghost use Rattle.std.specs.Prelude.{◌≡◌, ◌≢◌, ◌<◌, ◌≤◌, length, IfOk};
ghost use Rattle.parser_tree.specs.View.{form_view, view};
ghost use Rattle.parser_tokens.specs.Operators as assigning;
ghost use Rattle.parser_tokens.specs.Tokens as front;
ghost use Rattle.parser_ahead.specs.Primary as begins;
ghost use Rattle.parser_nodes.specs.Calls.{operand_view};
ghost use Rattle.parser_nodes.specs.Listed.{phrase_view};
ghost use Rattle.parser_form_nodes.specs.Targets.{targets_view};
ghost use Rattle.parser_forms.specs.Reading.{Reads, Shortens};
ghost use Rattle.parser_phrases.specs.Phrases as rules;

use crate::commands::{command_or_value, jump_list};
use crate::targets::targets;
use parser_ahead::groups::TargetUse;
use parser_ahead::names::Names;
use parser_ahead::primary::{DoOwner, Place, Start, is_comma, start_at};
use parser_form_nodes::targets::{Target, Targets};
use parser_forms::{Inner, Read};
use parser_nodes::listed::{Phrase, Sort, is_right_side, right_side};
use parser_nodes::nodes::{assignment_tree, defined_tree, prefix_tree};
use parser_nodes::operand::{Operand, is_target, operand_tree, target_tree};
use parser_operands::operands::{begins_command, operand};
use parser_operands::operators::{is_rescue, rescued};
use parser_tokens::expect::{Wanted, expect};
use parser_tokens::failure::syntax;
use parser_tokens::operators::{Assignment, Prefix, assignment_at};
use parser_tokens::starts::modifier_at;
use parser_tokens::tokens::{place_at, skip};
use parser_tree::{Tree, TreeForm};
use rb_syntax::Token;
use std::alloc::{AllocError, Global};

/// Whether an assignment has no operator.
fn is_plain(assignment: Assignment) -> bool
    ensures { result ≡ rules.is_plain assignment }
{
    match assignment {
        Assignment::Plain => true,
        Assignment::Operation(_) => false,
    }
}

/// Whether this may be an operand.
pub fn is_argument(sort: Sort) -> bool
    ensures { result ≡ rules.is_argument sort }
{
    match sort {
        Sort::Argument => true,
        Sort::Command | Sort::Statement => false,
    }
}

/// Whether a modifier `rescue` may be of this, where it is assigned; a list is a whole statement.
fn is_single(sort: Sort) -> bool
    ensures { result ≡ rules.is_single sort }
{
    match sort {
        Sort::Argument | Sort::Command => true,
        Sort::Statement => false,
    }
}

/// Whether the value of an assignment may be a list.
fn takes_list(assignment: Assignment, place: Place) -> bool
    ensures { result ≡ rules.takes_list assignment place }
{
    place.is_statement() && is_plain(assignment)
}

/// Whether a modifier `rescue` at the front is of the value before it, and not of the whole assignment.
fn is_rescued(sort: Sort, tokens: &[Token]) -> bool
    ensures { result ≡ rules.is_rescued sort tokens.now }
{
    is_single(sort) && is_rescue(modifier_at(tokens))
}

/// Whether the operand before these tokens is the first of several targets.
fn begins_several(place: Place, tokens: &[Token]) -> bool
    ensures { result ≡ rules.begins_several place tokens.now }
{
    place.is_statement() && is_comma(tokens)
}

/// Whether an assignment to this operand stands at the front.
fn is_assigned(operand: &Operand, tokens: &[Token]) -> bool
    ensures { result ≡ rules.is_assigned (operand_view operand.now) tokens.now }
{
    is_target(operand) && assignment_at(tokens).is_some()
}

/// Whether a command or an assignment begins with this operand.
fn is_command_there(operand: &Operand, tokens: &[Token]) -> bool
    ensures { result ≡ rules.is_command_there (operand_view operand.now) tokens.now }
{
    begins_command(operand, tokens) || is_assigned(operand, tokens)
}

/// The right side of an assignment that is a statement.
fn right_hand<'a, I: Inner>(
    inner: &I,
    alloc: Global,
    names: &mut Names,
    tokens: &'a [Token],
    owner: DoOwner,
) -> Read<'a, Phrase>
    ensures value { Reads phrase_view result names.new
        (rules.right_hand (I.inside inner.now) names.old tokens.now owner) }
    ensures within { IfOk result (λ p. length p.1.now ≤ length tokens.now) }
{
    let (listed, rest) = inner.list(alloc, names, tokens, owner)?;
    if !is_right_side(&listed) {
        return Err(syntax(tokens));
    }
    Ok((right_side(alloc, listed)?, rest))
}

/// The value of an assignment.
fn assigned_value<'a, I: Inner>(
    inner: &I,
    alloc: Global,
    names: &mut Names,
    tokens: &'a [Token],
    assignment: Assignment,
    place: Place,
    owner: DoOwner,
) -> Read<'a, Phrase>
    ensures value { Reads phrase_view result names.new
        (rules.assigned_value (I.inside inner.now) names.old tokens.now assignment place owner) }
    ensures within { IfOk result (λ p. length p.1.now ≤ length tokens.now) }
{
    if takes_list(assignment, place) {
        return right_hand(inner, alloc, names, tokens, owner);
    }
    inner.phrase(alloc, names, tokens, place.of_value(), owner)
}

/// An assigned value, with the modifier `rescue` that is of it.
fn whole_value<'a, I: Inner>(
    inner: &I,
    alloc: Global,
    names: &mut Names,
    tree: Tree,
    sort: Sort,
    tokens: &'a [Token],
    owner: DoOwner,
) -> Read<'a, Tree>
    ensures value { Reads view result names.new
        (rules.whole_value (I.inside inner.now) (view tree) sort names.old tokens.now owner) }
    ensures within { IfOk result (λ p. length p.1.now ≤ length tokens.now) }
{
    if is_rescued(sort, tokens) {
        rescued(inner, alloc, names, tree, tokens, owner)
    } else {
        Ok((tree, tokens))
    }
}

/// The value of an assignment, and the assignment.
#[tactic(auto, unfolding(crate::specs::Phrases::assign))]
fn assign<'a, I: Inner>(
    inner: &I,
    alloc: Global,
    names: &mut Names,
    target: Tree,
    assignment: Assignment,
    tokens: &'a [Token],
    place: Place,
    owner: DoOwner,
) -> Read<'a, Phrase>
    ensures value { Reads phrase_view result names.new
        (rules.assign (I.inside inner.now) (view target) names.old assignment tokens.now place owner) }
    ensures within { IfOk result (λ p. length p.1.now ≤ length tokens.now) }
{
    let (value, rest) = assigned_value(inner, alloc, names, tokens, assignment, place, owner)?;
    let Phrase { tree, sort } = value;
    let (whole, rest) = whole_value(inner, alloc, names, tree, sort, rest, owner)?;
    let tree = assignment_tree(alloc, assignment, target, whole)?;
    Ok((Phrase { tree, sort }, rest))
}

/// A multiple assignment over its parts.
#[tactic(auto, using(crate::proofs::Turns::multiple_views))]
fn multiple_form(targets: Targets, value: Tree) -> TreeForm
    ensures { form_view result ≡ rules.multiple_node (targets_view targets) (view value) }
{
    TreeForm::MultipleAssign(targets.into_list(), value)
}

/// The tree of a multiple assignment.
fn multiple_tree(alloc: Global, targets: Targets, value: Tree) -> Result<Tree, AllocError>
    ensures { IfOk result (λ t. view t ≡ rules.multiple_node (targets_view targets) (view value)) }
{
    multiple_form(targets, value).into_tree(alloc)
}

/// A multiple assignment, behind the targets that were read already.
#[tactic(auto, unfolding(crate::specs::Phrases::multiple))]
fn multiple<'a, I: Inner>(
    inner: &I,
    alloc: Global,
    names: &mut Names,
    found: Targets,
    tokens: &'a [Token],
    owner: DoOwner,
) -> Read<'a, Phrase>
    ensures value { Reads phrase_view result names.new
        (rules.multiple (I.inside inner.now) (targets_view found) names.old tokens.now owner) }
    ensures shorter { Shortens tokens.now result }
{
    let target_use = TargetUse::Assignment;
    let (targets, rest) = targets(inner, alloc, names, found, tokens, target_use)?;
    if !targets.several {
        return Err(syntax(rest));
    }
    let rest = expect(rest, Wanted::Assign)?;
    let (value, rest) = right_hand(inner, alloc, names, rest, owner)?;
    let tree = multiple_tree(alloc, targets, value.tree)?;
    let sort = Sort::Statement;
    Ok((Phrase { tree, sort }, rest))
}

/// Several targets, the first of which is an operand; the comma behind it stands at the front.
fn first_of_several<'a, I: Inner>(
    inner: &I,
    alloc: Global,
    names: &mut Names,
    operand: Operand,
    tokens: &'a [Token],
    owner: DoOwner,
) -> Read<'a, Phrase>
    ensures value { Reads phrase_view result names.new
        (rules.first_of_several (I.inside inner.now) (operand_view operand) names.old tokens.now owner) }
    ensures within { IfOk result (λ p. length p.1.now ≤ length tokens.now) }
{
    let target = target_tree(alloc, names, operand)?;
    let mut targets = Targets::new(alloc);
    targets.put(alloc, Target::One(target), true)?;
    multiple(inner, alloc, names, targets, skip(tokens), owner)
}

/// A target without an assignment: the first of several, or a command or a value.
fn unassigned<'a, I: Inner>(
    inner: &I,
    alloc: Global,
    names: &mut Names,
    operand: Operand,
    tokens: &'a [Token],
    place: Place,
    owner: DoOwner,
) -> Read<'a, Phrase>
    ensures value { Reads phrase_view result names.new
        (rules.unassigned (I.inside inner.now) (operand_view operand) names.old tokens.now place owner) }
    ensures within { IfOk result (λ p. length p.1.now ≤ length tokens.now) }
{
    if begins_several(place, tokens) {
        first_of_several(inner, alloc, names, operand, tokens, owner)
    } else {
        command_or_value(inner, alloc, names, operand, tokens, place, owner)
    }
}

/// What a target begins.
fn target_phrase<'a, I: Inner>(
    inner: &I,
    alloc: Global,
    names: &mut Names,
    operand: Operand,
    tokens: &'a [Token],
    place: Place,
    owner: DoOwner,
) -> Read<'a, Phrase>
    ensures value { Reads phrase_view result names.new
        (rules.target_phrase (I.inside inner.now) (assigning.assignment_at (front.first tokens.now))
        (operand_view operand) names.old tokens.now place owner) }
    ensures within { IfOk result (λ p. length p.1.now ≤ length tokens.now) }
{
    match assignment_at(tokens) {
        Some(assignment) => {
            let target = target_tree(alloc, names, operand)?;
            let behind = skip(tokens);
            assign(
                inner, alloc, names, target, assignment, behind, place, owner,
            )
        }
        None => unassigned(inner, alloc, names, operand, tokens, place, owner),
    }
}

/// What an operand that was read begins.
#[tactic(auto, unfolding(crate::specs::Phrases::phrase_from))]
fn phrase_from<'a, I: Inner>(
    inner: &I,
    alloc: Global,
    names: &mut Names,
    operand: Operand,
    tokens: &'a [Token],
    place: Place,
    owner: DoOwner,
) -> Read<'a, Phrase>
    ensures value { Reads phrase_view result names.new
        (rules.phrase_from (I.inside inner.now) (operand_view operand) names.old tokens.now place owner) }
    ensures within { IfOk result (λ p. length p.1.now ≤ length tokens.now) }
{
    if is_target(&operand) {
        target_phrase(inner, alloc, names, operand, tokens, place, owner)
    } else {
        command_or_value(inner, alloc, names, operand, tokens, place, owner)
    }
}

/// A command or an assignment behind a `!`; the negation may stand where that may.
fn negated_command<'a, I: Inner>(
    inner: &I,
    alloc: Global,
    names: &mut Names,
    operand: Operand,
    tokens: &'a [Token],
    owner: DoOwner,
) -> Read<'a, Phrase>
    ensures value { Reads phrase_view result names.new
        (rules.negated_command (I.inside inner.now) (operand_view operand) names.old tokens.now owner) }
    ensures within { IfOk result (λ p. length p.1.now ≤ length tokens.now) }
{
    let place = Place::Command;
    let (found, rest) = phrase_from(inner, alloc, names, operand, tokens, place, owner)?;
    let Phrase { tree, sort } = found;
    let tree = prefix_tree(alloc, Prefix::Not, tree)?;
    Ok((Phrase { tree, sort }, rest))
}

/// An operand behind a `!`, and what the negation begins.
fn negated_operand<'a, I: Inner>(
    inner: &I,
    alloc: Global,
    names: &mut Names,
    operand: Operand,
    tokens: &'a [Token],
    owner: DoOwner,
) -> Read<'a, Phrase>
    ensures value { Reads phrase_view result names.new
        (rules.negated_operand (I.inside inner.now) (operand_view operand) names.old tokens.now owner) }
    ensures within { IfOk result (λ p. length p.1.now ≤ length tokens.now) }
{
    let tree = operand_tree(alloc, operand)?;
    let whole = Operand::Whole(prefix_tree(alloc, Prefix::Not, tree)?);
    phrase_from(inner, alloc, names, whole, tokens, Place::Argument, owner)
}

/// What stands behind a `!` where a command is allowed.
#[tactic(auto, unfolding(crate::specs::Phrases::negated))]
fn negated<'a, I: Inner>(
    inner: &I,
    alloc: Global,
    names: &mut Names,
    tokens: &'a [Token],
    owner: DoOwner,
) -> Read<'a, Phrase>
    ensures value { Reads phrase_view result names.new (rules.negated (I.inside inner.now) names.old tokens.now owner) }
    ensures shorter { Shortens tokens.now result }
{
    let (left, rest) = operand(inner, alloc, names, tokens, true, owner)?;
    if is_command_there(&left, rest) {
        negated_command(inner, alloc, names, left, rest, owner)
    } else {
        negated_operand(inner, alloc, names, left, rest, owner)
    }
}

/// What begins with an operand.
fn operand_phrase<'a, I: Inner>(
    inner: &I,
    alloc: Global,
    names: &mut Names,
    tokens: &'a [Token],
    place: Place,
    owner: DoOwner,
) -> Read<'a, Phrase>
    ensures value { Reads phrase_view result names.new
        (rules.operand_phrase (I.inside inner.now) names.old tokens.now place owner) }
    ensures shorter { Shortens tokens.now result }
{
    let commands = place.allows_command();
    let (operand, rest) = operand(inner, alloc, names, tokens, commands, owner)?;
    phrase_from(inner, alloc, names, operand, rest, place, owner)
}

/// `defined?` without parentheses, behind it.
fn defined<'a, I: Inner>(
    inner: &I,
    alloc: Global,
    names: &mut Names,
    tokens: &'a [Token],
    owner: DoOwner,
) -> Read<'a, Phrase>
    ensures value { Reads phrase_view result names.new (rules.defined (I.inside inner.now) names.old tokens.now owner) }
    ensures shorter { Shortens tokens.now result }
{
    let (operand, rest) = inner.argument(alloc, names, tokens, owner)?;
    let tree = defined_tree(alloc, operand)?;
    let sort = Sort::Argument;
    Ok((Phrase { tree, sort }, rest))
}

/// What the phrase at the front begins with; all but an operand begin with a token.
#[tactic(auto, using(crate::proofs::Turns::start_there))]
fn start_of(place: Place, tokens: &[Token]) -> Start
    ensures value { result ≡ begins.start_at place tokens.now }
    ensures there { result ≢ Start.Operand → length (front.behind tokens.now) < length tokens.now }
{
    start_at(place, tokens)
}

/// A command, an assignment or a value, and at the start of a statement a multiple assignment.
#[tactic(auto, unfolding(crate::specs::Phrases::phrase_by))]
pub fn phrase<'a, I: Inner>(
    inner: &I,
    alloc: Global,
    names: &mut Names,
    tokens: &'a [Token],
    place: Place,
    owner: DoOwner,
) -> Read<'a, Phrase>
    ensures value { Reads phrase_view result names.new
        (rules.phrase (I.inside inner.now) names.old tokens.now place owner) }
    ensures shorter { Shortens tokens.now result }
{
    let at = place_at(tokens);
    let behind = skip(tokens);
    match start_of(place, tokens) {
        Start::Defined => defined(inner, alloc, names, behind, owner),
        Start::Not => negated(inner, alloc, names, behind, owner),
        Start::Jump(jump) => jump_list(inner, alloc, names, behind, Some(jump), at, owner),
        Start::Yield => jump_list(inner, alloc, names, behind, None, at, owner),
        Start::Targets => multiple(inner, alloc, names, Targets::new(alloc), tokens, owner),
        Start::Operand => operand_phrase(inner, alloc, names, tokens, place, owner),
    }
}

/// A value without a command.
pub fn argument<'a, I: Inner>(
    inner: &I,
    alloc: Global,
    names: &mut Names,
    tokens: &'a [Token],
    owner: DoOwner,
) -> Read<'a, Tree>
    ensures value { Reads view result names.new (rules.argument (I.inside inner.now) names.old tokens.now owner) }
    ensures shorter { Shortens tokens.now result }
{
    let (found, rest) = phrase(inner, alloc, names, tokens, Place::Argument, owner)?;
    Ok((found.tree, rest))
}
