//! Commands: names with arguments and blocks, and jumps with a list.
ghost use Rattle.std.specs.Prelude.{◌≡◌, ◌≤◌, length, IfOk};
ghost use Rattle.parser_tree.specs.Node.{yield_node};
ghost use Rattle.parser_tree.specs.View.{form_view, items_of, view};
ghost use Rattle.parser_nodes.specs.Calls.{block_view, callee_view, operand_view};
ghost use Rattle.parser_nodes.specs.Listed.{is_none, items_view, listed_view, phrase_view};
ghost use Rattle.parser_nodes.specs.Nodes.{boxed_view};
ghost use Rattle.parser_forms.specs.Reading.{Reads};
ghost use Rattle.parser_phrases.specs.Phrases as rules;

use parser_ahead::names::Names;
use parser_ahead::primary::{BlockStyle, DoOwner, Place, block_at};
use parser_forms::{Inner, Read};
use parser_nodes::listed::{Listed, Phrase, Sort, jump_tree, yield_tree};
use parser_nodes::operand::{Callee, Operand, call_tree, operand_tree};
use parser_operands::operands::{begins_command, chain_from};
use parser_operands::operators::value_from;
use parser_tokens::failure::syntax;
use parser_tokens::starts::Jump;
use parser_tree::{Arguments, Definition, Tree};
use rb_syntax::{Item, Token};
use std::alloc::{AllocError, Global};

/// Whether a command begins with this operand, where one is allowed.
fn may_command(place: Place, operand: &Operand, tokens: &[Token]) -> bool
    ensures { result ≡ rules.may_command place (operand_view operand.now) tokens.now }
{
    place.allows_command() && begins_command(operand, tokens)
}

/// A call with a list and a block.
fn blocked(
    alloc: Global,
    callee: Callee,
    listed: Listed,
    definition: Definition<Tree>,
) -> Result<Operand, AllocError>
    ensures { IfOk result (λ o. operand_view o ≡ rules.blocked (callee_view callee) (listed_view listed)
        (block_view definition)) }
{
    let arguments = listed.into_arguments(alloc)?;
    Ok(Operand::Whole(call_tree(alloc, callee, Some(arguments), Some(definition))?))
}

/// A command with a block.
fn with_block<'a, I: Inner>(
    inner: &I,
    alloc: Global,
    names: &mut Names,
    callee: Callee,
    listed: Listed,
    style: BlockStyle,
    tokens: &'a [Token],
) -> Read<'a, Operand>
    ensures value { Reads operand_view result names.new
        (rules.with_block (I.inside inner.now) style (callee_view callee) (listed_view listed) names.old tokens.now) }
    ensures within { IfOk result (λ p. length p.1.now ≤ length tokens.now) }
{
    if !listed.has_no_block() {
        return Err(syntax(tokens));
    }
    let (definition, rest) = inner.block(alloc, names, tokens, style)?;
    Ok((blocked(alloc, callee, listed, definition)?, rest))
}

/// A command with a block, and what follows it.
fn block_command<'a, I: Inner>(
    inner: &I,
    alloc: Global,
    names: &mut Names,
    callee: Callee,
    listed: Listed,
    style: BlockStyle,
    tokens: &'a [Token],
    owner: DoOwner,
) -> Read<'a, Phrase>
    ensures value { Reads phrase_view result names.new
        (rules.block_command (I.inside inner.now) style (callee_view callee) (listed_view listed) names.old tokens.now
        owner) }
    ensures within { IfOk result (λ p. length p.1.now ≤ length tokens.now) }
{
    let (call, rest) = with_block(inner, alloc, names, callee, listed, style, tokens)?;
    let (whole, rest) = chain_from(inner, alloc, names, call, rest, false, owner)?;
    let tree = operand_tree(alloc, whole)?;
    let sort = Sort::Command;
    Ok((Phrase { tree, sort }, rest))
}

/// A command without a block.
fn plain_command(alloc: Global, callee: Callee, listed: Listed) -> Result<Phrase, AllocError>
    ensures { IfOk result (λ p. phrase_view p ≡ rules.plain_command (callee_view callee) (listed_view listed)) }
{
    let arguments = listed.into_arguments(alloc)?;
    let tree = call_tree(alloc, callee, Some(arguments), None)?;
    let sort = Sort::Command;
    Ok(Phrase { tree, sort })
}

/// The arguments of a command, and its block, which is none in braces.
#[tactic(auto, unfolding(crate::specs::Phrases::command))]
fn command<'a, I: Inner>(
    inner: &I,
    alloc: Global,
    names: &mut Names,
    callee: Callee,
    tokens: &'a [Token],
    owner: DoOwner,
) -> Read<'a, Phrase>
    ensures value { Reads phrase_view result names.new
        (rules.command (I.inside inner.now) (callee_view callee) names.old tokens.now owner) }
    ensures within { IfOk result (λ p. length p.1.now ≤ length tokens.now) }
{
    let (listed, rest) = inner.list(alloc, names, tokens, owner.in_command())?;
    match block_at(owner, rest) {
        Some(BlockStyle::Do) => {
            let style = BlockStyle::Do;
            block_command(inner, alloc, names, callee, listed, style, rest, owner)
        }
        Some(BlockStyle::Brace) | None => Ok((plain_command(alloc, callee, listed)?, rest)),
    }
}

/// A value that begins with an operand.
fn value_phrase<'a, I: Inner>(
    inner: &I,
    alloc: Global,
    names: &mut Names,
    operand: Operand,
    tokens: &'a [Token],
    owner: DoOwner,
) -> Read<'a, Phrase>
    ensures value { Reads phrase_view result names.new
        (rules.value_phrase (I.inside inner.now) (operand_view operand) names.old tokens.now owner) }
    ensures within { IfOk result (λ p. length p.1.now ≤ length tokens.now) }
{
    let left = operand_tree(alloc, operand)?;
    let (tree, rest) = value_from(inner, alloc, names, left, tokens, owner)?;
    let sort = Sort::Argument;
    Ok((Phrase { tree, sort }, rest))
}

/// A command of a name, else a value.
pub(crate) fn command_or_value<'a, I: Inner>(
    inner: &I,
    alloc: Global,
    names: &mut Names,
    operand: Operand,
    tokens: &'a [Token],
    place: Place,
    owner: DoOwner,
) -> Read<'a, Phrase>
    ensures value { Reads phrase_view result names.new
        (rules.command_or_value (I.inside inner.now) (operand_view operand) names.old tokens.now place owner) }
    ensures within { IfOk result (λ p. length p.1.now ≤ length tokens.now) }
{
    let commands = may_command(place, &operand, tokens);
    match operand {
        Operand::Callee(callee) => {
            if commands {
                command(inner, alloc, names, callee, tokens, owner)
            } else {
                value_phrase(inner, alloc, names, Operand::Callee(callee), tokens, owner)
            }
        }
        Operand::Whole(tree) => {
            value_phrase(inner, alloc, names, Operand::Whole(tree), tokens, owner)
        }
    }
}

/// The items of a list, with its pairs as the last.
fn whole_items(alloc: Global, listed: Listed) -> Result<Vec<Item<Tree>>, AllocError>
    ensures { IfOk result (λ items. items_view items ≡ rules.whole_list (listed_view listed)) }
{
    let Arguments { items, block } = listed.into_arguments(alloc)?;
    drop(block);
    Ok(items)
}

/// The tree of a jump with a list, or of `yield` where there is no jump.
fn list_tree(alloc: Global, jump: Option<Jump>, listed: Listed, at: u32) -> Result<Tree, AllocError>
    ensures { IfOk result (λ t. view t ≡ rules.list_node jump at (listed_view listed)) }
{
    let items = whole_items(alloc, listed)?;
    match jump {
        Some(jump) => jump_tree(alloc, jump, items, at),
        None => yield_tree(alloc, items, at),
    }
}

/// Whom a `do` belongs to in the list behind `return`, `break`, `next` or `yield`.
fn jump_owner(jump: Option<Jump>, owner: DoOwner) -> DoOwner
    ensures { result ≡ rules.jump_owner jump owner }
{
    match jump {
        Some(_) => owner,
        None => owner.in_command(),
    }
}

/// The list behind `return`, `break`, `next`, or behind `yield` where there is no jump.
#[tactic(auto, unfolding(crate::specs::Phrases::jump_list))]
pub(crate) fn jump_list<'a, I: Inner>(
    inner: &I,
    alloc: Global,
    names: &mut Names,
    tokens: &'a [Token],
    jump: Option<Jump>,
    at: u32,
    owner: DoOwner,
) -> Read<'a, Phrase>
    ensures value { Reads phrase_view result names.new
        (rules.jump_list (I.inside inner.now) jump at names.old tokens.now owner) }
    ensures within { IfOk result (λ p. length p.1.now ≤ length tokens.now) }
{
    let (listed, rest) = inner.list(alloc, names, tokens, jump_owner(jump, owner))?;
    if !listed.has_no_block() {
        return Err(syntax(tokens));
    }
    let tree = list_tree(alloc, jump, listed, at)?;
    let sort = Sort::Command;
    Ok((Phrase { tree, sort }, rest))
}
