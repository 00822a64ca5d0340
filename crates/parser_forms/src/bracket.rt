//! Lists in brackets, and forms with sections.
ghost use Rattle.std.specs.Prelude.{◌≡◌, ◌<◌, ◌≤◌, length, IfOk};
ghost use Rattle.parser_tree.specs.Node.{yield_node};
ghost use Rattle.parser_tree.specs.View.{form_view, items_of, view};
ghost use Rattle.parser_nodes.specs.Listed.{arguments_view, is_none, items_view, listed_view};
ghost use Rattle.parser_nodes.specs.Nodes.{boxed_view};
ghost use Rattle.parser_forms.specs.Reading.{Reads, Shortens};
ghost use Rattle.parser_forms.specs.Brackets as rules;

use crate::{Inner, Read};
use parser_ahead::names::Names;
use parser_ahead::primary::DoOwner;
use parser_ahead::sections::Compound;
use parser_form_nodes::sections::{compound_tree, is_whole};
use parser_nodes::listed::{Listed, yield_tree};
use parser_tokens::expect::{Wanted, expect_closing};
use parser_tokens::failure::syntax;
use parser_tokens::starts::opens_arguments;
use parser_tokens::tokens::skip;
use parser_tree::{Arguments, Tree, TreeForm};
use rb_syntax::{Item, Token};
use std::alloc::Global;

/// The arguments behind an opening parenthesis, to behind the closing one.
pub fn call_arguments<'a, I: Inner>(
    inner: &I,
    alloc: Global,
    names: &mut Names,
    tokens: &'a [Token],
) -> Read<'a, Arguments<Tree>>
    ensures value { Reads arguments_view result names.new
        (rules.call_arguments (I.inside inner.now) names.old tokens.now) }
    ensures shorter { Shortens tokens.now result }
{
    let (listed, rest) = inner.list(alloc, names, tokens, DoOwner::Call)?;
    let rest = expect_closing(rest, Wanted::CloseParenthesis)?;
    Ok((listed.into_arguments(alloc)?, rest))
}

/// Whether the list has pairs alone.
#[tactic(auto, using(parser_nodes::proofs::Lists::empty_lists))]
fn has_pairs_alone(listed: &Listed) -> bool
    ensures { result ≡ rules.pairs_alone (listed_view listed.now) }
{
    listed.has_no_block() && listed.items.is_empty()
}

/// The elements behind an opening bracket, to behind the closing one.
pub fn elements<'a, I: Inner>(
    inner: &I,
    alloc: Global,
    names: &mut Names,
    tokens: &'a [Token],
    closing: Wanted,
) -> Read<'a, Vec<Item<Tree>>>
    ensures value { Reads items_view result names.new (rules.elements (I.inside inner.now) names.old tokens.now closing) }
    ensures shorter { Shortens tokens.now result }
{
    let (listed, rest) = inner.list(alloc, names, tokens, DoOwner::Call)?;
    if !listed.has_no_block() {
        return Err(syntax(tokens));
    }
    let rest = expect_closing(rest, closing)?;
    Ok((listed.into_arguments(alloc)?.items, rest))
}

/// The pairs behind an opening brace, to behind the closing one.
#[tactic(auto, using(parser_nodes::proofs::Lists::item_trees))]
pub fn hash<'a, I: Inner>(
    inner: &I,
    alloc: Global,
    names: &mut Names,
    tokens: &'a [Token],
) -> Read<'a, Tree>
    ensures value { Reads view result names.new (rules.hash (I.inside inner.now) names.old tokens.now) }
    ensures shorter { Shortens tokens.now result }
{
    let (listed, rest) = inner.list(alloc, names, tokens, DoOwner::Call)?;
    if !has_pairs_alone(&listed) {
        return Err(syntax(tokens));
    }
    let rest = expect_closing(rest, Wanted::CloseBrace)?;
    let tree = TreeForm::Hash(listed.pairs).into_tree(alloc)?;
    Ok((tree, rest))
}

/// A form with sections.
pub fn sectioned<'a, I: Inner>(
    inner: &I,
    alloc: Global,
    names: &mut Names,
    form: Compound,
    tokens: &'a [Token],
) -> Read<'a, Tree>
    ensures value { Reads view result names.new (rules.sectioned (I.inside inner.now) names.old form tokens.now) }
    ensures within { IfOk result (λ p. length p.1.now ≤ length tokens.now) }
{
    let (list, rest) = inner.sections(alloc, names, form, tokens)?;
    if !is_whole(form, &list) {
        return Err(syntax(rest));
    }
    Ok((compound_tree(alloc, form, list)?, rest))
}

/// The arguments of `yield` in parentheses, or none.
#[tactic(auto, using(parser_nodes::proofs::Lists::item_trees))]
pub fn yielded<'a, I: Inner>(
    inner: &I,
    alloc: Global,
    names: &mut Names,
    tokens: &'a [Token],
    at: u32,
) -> Read<'a, Tree>
    ensures value { Reads view result names.new (rules.yielded (I.inside inner.now) at names.old tokens.now) }
    ensures within { IfOk result (λ p. length p.1.now ≤ length tokens.now) }
{
    if !opens_arguments(tokens) {
        let items: Vec<Item<Tree>> = Vec::new(alloc);
        return Ok((yield_tree(alloc, items, at)?, tokens));
    }
    let behind = skip(tokens);
    let (items, rest) = elements(inner, alloc, names, behind, Wanted::CloseParenthesis)?;
    Ok((yield_tree(alloc, items, at)?, rest))
}
