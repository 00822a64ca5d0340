//! The targets of multiple assignments.
ghost use Rattle.std.specs.Prelude.{◌≡◌, ◌&&◌, ◌<◌, ◌≤◌, length, IfOk, IsTrue};
ghost use Rattle.parser_tree.specs.Node.{none, outside};
ghost use Rattle.parser_tree.specs.View.{form_view, view};
ghost use Rattle.parser_tokens.specs.Tokens as front;
ghost use Rattle.parser_ahead.specs.Groups as groups;
ghost use Rattle.parser_form_nodes.specs.Targets.{target_view, targets_view};
ghost use Rattle.parser_forms.specs.Reading.{Reads, Shortens};
ghost use Rattle.parser_phrases.specs.Targets as rules;

use parser_ahead::groups::{TargetUse, begins_target, is_nested_group};
use parser_ahead::names::Names;
use parser_ahead::primary::{DoOwner, is_comma};
use parser_form_nodes::targets::{Target, Targets};
use parser_forms::{Inner, Read};
use parser_nodes::operand::{is_target, target_tree};
use parser_operands::operands::chain;
use parser_tokens::expect::{Wanted, expect_closing};
use parser_tokens::failure::syntax;
use parser_tokens::tokens::{bytes_at, first, place_at, skip, skip_if};
use parser_tokens::word::Word;
use parser_tree::{Tree, TreeForm};
use rb_base::Bytes;
use rb_syntax::{Outside, Punctuator, Token};
use std::alloc::Global;

/// Whether a star stands at the front.
pub fn is_star(tokens: &[Token]) -> bool
    ensures value { result ≡ rules.is_star (front.first tokens.now) }
    ensures there { IsTrue result → length (front.behind tokens.now) < length tokens.now }
{
    matches!(first(tokens), Word::Mark(Punctuator::Star))
}

/// Whether the targets are those of `for`.
fn is_for(target_use: TargetUse) -> bool
    ensures { result ≡ rules.is_for target_use }
{
    match target_use {
        TargetUse::For => true,
        TargetUse::Assignment | TargetUse::Pattern => false,
    }
}

/// A construct outside the language, without parts.
#[tactic(auto, using(parser_tree::proofs::Views::views))]
fn outside_form(alloc: Global, what: Outside, at: u32) -> TreeForm
    ensures { form_view result ≡ outside what at none }
{
    let parts = Vec::new(alloc);
    TreeForm::Outside { what, at, parts }
}

/// A target of a pattern: a variable that is new. It is no parameter itself, so it is among the locals.
fn pattern<'a>(alloc: Global, names: &mut Names, tokens: &'a [Token]) -> Read<'a, Tree>
    ensures value { Reads view result names.new (rules.pattern_at (front.first tokens.now) names.old tokens.now) }
    ensures shorter { Shortens tokens.now result }
{
    match first(tokens) {
        Word::Identifier => {
            let name = bytes_at(tokens);
            names.declare(alloc, name, false)?;
            let tree = TreeForm::Local(Bytes::from_slice(alloc, name)?).into_tree(alloc)?;
            Ok((tree, skip(tokens)))
        }
        Word::Other(what) => {
            let at = place_at(tokens);
            let tree = outside_form(alloc, what, at).into_tree(alloc)?;
            Ok((tree, skip(tokens)))
        }
        _ => Err(syntax(tokens)),
    }
}

/// A place that may be assigned to.
fn place<'a, I: Inner>(
    inner: &I,
    alloc: Global,
    names: &mut Names,
    tokens: &'a [Token],
) -> Read<'a, Tree>
    ensures value { Reads view result names.new (rules.place (I.inside inner.now) names.old tokens.now) }
    ensures shorter { Shortens tokens.now result }
{
    let (operand, rest) = chain(inner, alloc, names, tokens, false, DoOwner::Call)?;
    if !is_target(&operand) {
        return Err(syntax(tokens));
    }
    Ok((target_tree(alloc, names, operand)?, rest))
}

/// A target alone.
#[tactic(auto, unfolding(crate::specs::Targets::alone))]
fn alone<'a, I: Inner>(
    inner: &I,
    alloc: Global,
    names: &mut Names,
    tokens: &'a [Token],
    target_use: TargetUse,
) -> Read<'a, Tree>
    ensures value { Reads view result names.new (rules.alone (I.inside inner.now) target_use names.old tokens.now) }
    ensures shorter { Shortens tokens.now result }
{
    match target_use {
        TargetUse::Pattern => pattern(alloc, names, tokens),
        TargetUse::Assignment | TargetUse::For => place(inner, alloc, names, tokens),
    }
}

/// A star, and its target or none.
fn starred<'a, I: Inner>(
    inner: &I,
    alloc: Global,
    names: &mut Names,
    tokens: &'a [Token],
    target_use: TargetUse,
) -> Read<'a, Target>
    ensures value { Reads target_view result names.new
        (rules.starred (I.inside inner.now) target_use names.old tokens.now) }
    ensures within { IfOk result (λ p. length p.1.now ≤ length (front.behind tokens.now)) }
{
    let behind = skip(tokens);
    if !begins_target(target_use, first(behind)) {
        return Ok((Target::Star(None), behind));
    }
    let (tree, rest) = alone(inner, alloc, names, behind, target_use)?;
    Ok((Target::Star(Some(tree)), rest))
}

/// Targets in parentheses.
fn grouped<'a, I: Inner>(
    inner: &I,
    alloc: Global,
    names: &mut Names,
    tokens: &'a [Token],
    target_use: TargetUse,
) -> Read<'a, Target>
    ensures value { Reads target_view result names.new
        (rules.grouped (I.inside inner.now) target_use names.old tokens.now) }
    ensures shorter { Shortens tokens.now result }
{
    let none = Targets::new(alloc);
    let (group, rest) = inner.targets(alloc, names, none, skip(tokens), target_use)?;
    if !group.several {
        return Err(syntax(rest));
    }
    let rest = expect_closing(rest, Wanted::CloseParenthesis)?;
    Ok((Target::Group(group.list), rest))
}

/// A target, maybe with a star, or targets in parentheses.
#[tactic(auto, unfolding(crate::specs::Targets::target))]
fn target<'a, I: Inner>(
    inner: &I,
    alloc: Global,
    names: &mut Names,
    tokens: &'a [Token],
    target_use: TargetUse,
) -> Read<'a, Target>
    ensures value { Reads target_view result names.new
        (rules.target (I.inside inner.now) target_use names.old tokens.now) }
    ensures shorter { Shortens tokens.now result }
{
    if is_star(tokens) {
        if is_for(target_use) {
            return Err(syntax(tokens));
        }
        return starred(inner, alloc, names, tokens, target_use);
    }
    if is_nested_group(target_use, tokens) {
        return grouped(inner, alloc, names, tokens, target_use);
    }
    let (tree, rest) = alone(inner, alloc, names, tokens, target_use)?;
    Ok((Target::One(tree), rest))
}

/// Puts the target at the front behind those that were found, and says whether a comma stands behind it.
#[tactic(auto, unfolding(crate::specs::Targets::next_target))]
fn next_target<'a, I: Inner>(
    inner: &I,
    alloc: Global,
    names: &mut Names,
    found: &mut Targets,
    tokens: &'a [Token],
    target_use: TargetUse,
) -> Read<'a, bool>
    ensures value { Reads (λ more. (more, targets_view found.new)) result names.new
        (rules.next_target (I.inside inner.now) target_use (targets_view found.old) names.old tokens.now) }
    ensures shorter { Shortens tokens.now result }
{
    let (target, rest) = target(inner, alloc, names, tokens, target_use)?;
    if !found.may_follow(&target) {
        return Err(syntax(tokens));
    }
    let more = is_comma(rest);
    found.put(alloc, target, more)?;
    Ok((more, skip_if(more, rest)))
}

/// Whether a target stands at the front where more may follow.
fn goes_on(more: bool, tokens: &[Token], target_use: TargetUse) -> bool
    ensures { result ≡ (more && groups.begins_target target_use (front.first tokens.now)) }
{
    more && begins_target(target_use, first(tokens))
}

/// Targets with commas between them, behind those that were found.
#[tactic(auto, using(crate::proofs::Turns::target_turns))]
pub fn targets<'a, I: Inner>(
    inner: &I,
    alloc: Global,
    names: &mut Names,
    found: Targets,
    tokens: &'a [Token],
    target_use: TargetUse,
) -> Read<'a, Targets>
    ensures value { Reads targets_view result names.new
        (rules.targets (I.inside inner.now) names.old (targets_view found) tokens.now target_use) }
    ensures within { IfOk result (λ p. length p.1.now ≤ length tokens.now) }
{
    let mut targets = found;
    let mut rest = tokens;
    let mut more = true;
    'targets: while goes_on(more, rest, target_use) {
        let (comma, after) = next_target(inner, alloc, names, &mut targets, rest, target_use)?;
        more = comma;
        rest = after;
    }
    if more && is_for(target_use) {
        return Err(syntax(rest));
    }
    Ok((targets, rest))
}
