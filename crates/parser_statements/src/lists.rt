//! Lists of arguments and elements.
ghost use Rattle.std.specs.Prelude.{◌≡◌, ◌<◌, ◌≤◌, length, IfOk};
ghost use Rattle.parser_tree.specs.Node.{nodes, text};
ghost use Rattle.parser_tree.specs.View.{form_view, view};
ghost use Rattle.parser_forms.specs.Literals.{pieces_view};
ghost use Rattle.parser_nodes.specs.Listed.{listed_view, part_view};
ghost use Rattle.parser_nodes.specs.Listed as made;
ghost use Rattle.parser_forms.specs.Reading.{Reads, Shortens};
ghost use Rattle.parser_statements.specs.Lists as rules;

use parser_ahead::groups::is_quoted_label;
use parser_ahead::names::Names;
use parser_ahead::primary::{DoOwner, PartStart, Place, is_arrow, is_comma, part_at};
use parser_forms::literal::pieces;
use parser_forms::{Inner, Read};
use parser_nodes::listed::{Listed, Part, Phrase};
use parser_nodes::nodes::outside_tree;
use parser_phrases::phrases::{argument, is_argument, phrase};
use parser_tokens::failure::syntax;
use parser_tokens::starts::begins_value;
use parser_tokens::tokens::{bytes_at, first, place_at, skip, skip_if};
use parser_tokens::word::Word;
use parser_tree::{Piece, Tree, TreeForm};
use rb_base::Bytes;
use rb_syntax::{Outside, Token};
use std::alloc::{AllocError, Global};

/// Where a part stands: only alone it may be a command.
fn part_place(alone: bool) -> Place
    ensures { result ≡ rules.part_place alone }
{
    if alone {
        Place::Command
    } else {
        Place::Argument
    }
}

/// Whether a part begins with this word where more may follow.
fn goes_on(more: bool, word: Word) -> bool
    ensures { result ≡ rules.goes_on more word }
{
    more && begins_value(word)
}

/// Whether a comma stands behind a command.
fn clashes(comma: bool, listed: &Listed) -> bool
    ensures { result ≡ rules.clashes comma (listed_view listed.now) }
{
    comma && listed.command
}

/// A list with a comma behind its last part or none.
fn comma_behind(listed: Listed, comma: bool) -> Listed
    ensures { listed_view result ≡ made.with_comma comma (listed_view listed) }
{
    let mut grown = listed;
    grown.comma = comma;
    grown
}

/// A text over its pieces.
#[tactic(auto, using(crate::proofs::Views::text_views))]
fn text_form(list: Vec<Piece<Tree>>) -> TreeForm
    ensures { form_view result ≡ text (nodes (pieces_view list)) }
{
    TreeForm::Text(list)
}

/// A key in quotes, whose end is at `at`.
fn quoted_key(alloc: Global, at: u32, list: Vec<Piece<Tree>>) -> Result<Tree, AllocError>
    ensures { IfOk result (λ t. view t ≡ rules.quoted_key at (pieces_view list)) }
{
    let tree = text_form(list).into_tree(alloc)?;
    outside_tree(alloc, Outside::QuotedLabel, at, tree)
}

/// A key in quotes and its value.
fn quoted_pair<'a, I: Inner>(
    inner: &I,
    alloc: Global,
    names: &mut Names,
    tokens: &'a [Token],
    owner: DoOwner,
) -> Read<'a, Part>
    ensures value { Reads part_view result names.new (rules.quoted_pair (I.inside inner.now) names.old tokens.now owner) }
    ensures shorter { Shortens tokens.now result }
{
    let none = Vec::new(alloc);
    let (list, rest) = pieces(inner, alloc, names, none, skip(tokens))?;
    if !is_quoted_label(first(rest)) {
        return Err(syntax(rest));
    }
    let key = quoted_key(alloc, place_at(rest), list)?;
    let (value, rest) = argument(inner, alloc, names, skip(rest), owner)?;
    Ok((Part::Pair(key, value), rest))
}

/// A value, or a key with its value behind an arrow.
fn plain_or_pair<'a, I: Inner>(
    inner: &I,
    alloc: Global,
    names: &mut Names,
    tree: Tree,
    tokens: &'a [Token],
    owner: DoOwner,
) -> Read<'a, Part>
    ensures value { Reads part_view result names.new
        (rules.plain_or_pair (I.inside inner.now) (view tree) names.old tokens.now owner) }
    ensures within { IfOk result (λ p. length p.1.now ≤ length tokens.now) }
{
    if !is_arrow(tokens) {
        return Ok((Part::Plain(tree), tokens));
    }
    let (value, rest) = argument(inner, alloc, names, skip(tokens), owner)?;
    Ok((Part::Pair(tree, value), rest))
}

/// A command, a value, or a value that is the key of a pair.
fn value_part<'a, I: Inner>(
    inner: &I,
    alloc: Global,
    names: &mut Names,
    tokens: &'a [Token],
    alone: bool,
    owner: DoOwner,
) -> Read<'a, Part>
    ensures value { Reads part_view result names.new
        (rules.value_part (I.inside inner.now) alone names.old tokens.now owner) }
    ensures shorter { Shortens tokens.now result }
{
    let (found, rest) = phrase(inner, alloc, names, tokens, part_place(alone), owner)?;
    let Phrase { tree, sort } = found;
    if is_argument(sort) {
        plain_or_pair(inner, alloc, names, tree, rest, owner)
    } else {
        Ok((Part::Command(tree), rest))
    }
}

/// A value with two stars, as a pair.
fn double_splat<'a, I: Inner>(
    inner: &I,
    alloc: Global,
    names: &mut Names,
    tokens: &'a [Token],
    owner: DoOwner,
) -> Read<'a, Part>
    ensures value { Reads part_view result names.new
        (rules.double_splat (I.inside inner.now) names.old tokens.now owner) }
    ensures shorter { Shortens tokens.now result }
{
    let (tree, rest) = argument(inner, alloc, names, skip(tokens), owner)?;
    let key = outside_tree(alloc, Outside::DoubleSplat, place_at(tokens), tree)?;
    let nil = TreeForm::Nil.into_tree(alloc)?;
    Ok((Part::Pair(key, nil), rest))
}

/// A key with a colon and its value.
fn labelled<'a, I: Inner>(
    inner: &I,
    alloc: Global,
    names: &mut Names,
    tokens: &'a [Token],
    owner: DoOwner,
) -> Read<'a, Part>
    ensures value { Reads part_view result names.new (rules.labelled (I.inside inner.now) names.old tokens.now owner) }
    ensures shorter { Shortens tokens.now result }
{
    let key = TreeForm::Symbol(Bytes::from_slice(alloc, bytes_at(tokens))?).into_tree(alloc)?;
    let (value, rest) = argument(inner, alloc, names, skip(tokens), owner)?;
    Ok((Part::Pair(key, value), rest))
}

/// A part of a list. Only where it stands alone it may be a command.
#[tactic(auto, unfolding(crate::specs::Lists::part_by))]
fn part<'a, I: Inner>(
    inner: &I,
    alloc: Global,
    names: &mut Names,
    tokens: &'a [Token],
    alone: bool,
    owner: DoOwner,
) -> Read<'a, Part>
    ensures value { Reads part_view result names.new (rules.part (I.inside inner.now) alone names.old tokens.now owner) }
    ensures shorter { Shortens tokens.now result }
{
    match part_at(tokens) {
        PartStart::Splat => {
            let (tree, rest) = argument(inner, alloc, names, skip(tokens), owner)?;
            Ok((Part::Splat(tree), rest))
        }
        PartStart::Block => {
            let (tree, rest) = argument(inner, alloc, names, skip(tokens), owner)?;
            Ok((Part::Block(tree), rest))
        }
        PartStart::DoubleSplat => double_splat(inner, alloc, names, tokens, owner),
        PartStart::Label => labelled(inner, alloc, names, tokens, owner),
        PartStart::QuotedKey => quoted_pair(inner, alloc, names, tokens, owner),
        PartStart::Value => value_part(inner, alloc, names, tokens, alone, owner),
    }
}

/// A part behind those that were found.
fn with_part<'a, I: Inner>(
    inner: &I,
    alloc: Global,
    names: &mut Names,
    listed: Listed,
    tokens: &'a [Token],
    alone: bool,
    owner: DoOwner,
) -> Read<'a, Listed>
    ensures value { Reads listed_view result names.new
        (rules.with_part (I.inside inner.now) alone (listed_view listed) names.old tokens.now owner) }
    ensures shorter { Shortens tokens.now result }
{
    let mut grown = listed;
    let (found, rest) = part(inner, alloc, names, tokens, alone, owner)?;
    if !grown.may_follow(&found) {
        return Err(syntax(tokens));
    }
    grown.put(found)?;
    Ok((grown, rest))
}

/// A part behind those that were found, and the comma behind it, which no command has.
#[tactic(auto, unfolding(crate::specs::Lists::next_part))]
fn next_part<'a, I: Inner>(
    inner: &I,
    alloc: Global,
    names: &mut Names,
    listed: Listed,
    tokens: &'a [Token],
    alone: bool,
    owner: DoOwner,
) -> Read<'a, Listed>
    ensures value { Reads listed_view result names.new
        (rules.next_part (I.inside inner.now) alone (listed_view listed) names.old tokens.now owner) }
    ensures shorter { Shortens tokens.now result }
{
    let (grown, rest) = with_part(inner, alloc, names, listed, tokens, alone, owner)?;
    let comma = is_comma(rest);
    if clashes(comma, &grown) {
        return Err(syntax(rest));
    }
    Ok((comma_behind(grown, comma), skip_if(comma, rest)))
}

/// The parts of a list, with commas between them, up to what begins none.
#[tactic(auto, using(crate::proofs::Turns::list_turns))]
pub fn list<'a, I: Inner>(
    inner: &I,
    alloc: Global,
    names: &mut Names,
    tokens: &'a [Token],
    owner: DoOwner,
) -> Read<'a, Listed>
    ensures value { Reads listed_view result names.new (rules.list (I.inside inner.now) names.old tokens.now owner) }
    ensures within { IfOk result (λ p. length p.1.now ≤ length tokens.now) }
{
    let mut listed = Listed::new(alloc);
    let mut rest = tokens;
    let mut alone = true;
    let mut more = true;
    'parts: while goes_on(more, first(rest)) {
        let (next, after) = next_part(inner, alloc, names, listed, rest, alone, owner)?;
        alone = false;
        more = next.comma;
        listed = next;
        rest = after;
    }
    Ok((listed, rest))
}
