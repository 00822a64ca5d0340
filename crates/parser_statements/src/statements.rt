//! Statements and expressions.
ghost use Rattle.std.specs.Prelude.{◌≡◌, ◌<◌, ◌≤◌, length, IfOk, IsTrue};
ghost use Rattle.parser_tree.specs.Node as node;
ghost use Rattle.parser_tree.specs.Node.{nodes};
ghost use Rattle.parser_tree.specs.View.{form_view, view};
ghost use Rattle.parser_tokens.specs.Tokens as front;
ghost use Rattle.parser_nodes.specs.Listed.{phrase_view};
ghost use Rattle.parser_nodes.specs.Nodes.{views};
ghost use Rattle.parser_forms.specs.Reading.{Reads, Shortens};
ghost use Rattle.parser_statements.specs.Statements as rules;

use parser_ahead::names::Names;
use parser_ahead::primary::{DoOwner, Place};
use parser_form_nodes::definitions::{alias, undef};
use parser_forms::{Inner, Read};
use parser_nodes::listed::{Phrase, Sort};
use parser_nodes::nodes::{junction_tree, modified_tree, outside_tree, prefix_tree};
use parser_phrases::phrases::phrase;
use parser_tokens::expect::{Wanted, expect, skip_separators};
use parser_tokens::failure::syntax;
use parser_tokens::operators::{Junction, Prefix, junction_at};
use parser_tokens::starts::{ends_statement, ends_statements, modifier_at};
use parser_tokens::tokens::{first, place_at, skip};
use parser_tokens::word::{Modifier, Word};
use parser_tree::{Tree, TreeForm};
use rb_syntax::{Keyword, Outside, Token};
use std::alloc::Global;

/// Whether `not` stands at the front.
fn is_not(tokens: &[Token]) -> bool
    ensures value { result ≡ rules.is_not (front.first tokens.now) }
    ensures there { IsTrue result → length (front.behind tokens.now) < length tokens.now }
{
    matches!(first(tokens), Word::Key(Keyword::Not))
}

/// Whether this is a whole statement.
fn is_statement_sort(sort: Sort) -> bool
    ensures { result ≡ rules.is_statement_sort sort }
{
    match sort {
        Sort::Statement => true,
        Sort::Command | Sort::Argument => false,
    }
}

/// A phrase with `not` before it or none.
#[tactic(auto, unfolding(crate::specs::Statements::negation))]
pub fn negation<'a, I: Inner>(
    inner: &I,
    alloc: Global,
    names: &mut Names,
    tokens: &'a [Token],
    place: Place,
    owner: DoOwner,
) -> Read<'a, Phrase>
    ensures value { Reads phrase_view result names.new
        (rules.negation (I.inside inner.now) names.old tokens.now place owner) }
    ensures shorter { Shortens tokens.now result }
{
    if !is_not(tokens) {
        return phrase(inner, alloc, names, tokens, place, owner);
    }
    let behind = skip(tokens);
    let (found, rest) = inner.negation(alloc, names, behind, Place::Command, owner)?;
    let tree = prefix_tree(alloc, Prefix::Not, found.tree)?;
    let sort = Sort::Command;
    Ok((Phrase { tree, sort }, rest))
}

/// What stands behind `and` or `or`, joined with what stands before it.
#[tactic(auto, unfolding(crate::specs::Statements::junction_with))]
fn junction_with<'a, I: Inner>(
    inner: &I,
    alloc: Global,
    names: &mut Names,
    junction: Junction,
    left: Tree,
    tokens: &'a [Token],
    owner: DoOwner,
) -> Read<'a, Tree>
    ensures value { Reads view result names.new
        (rules.junction_with (I.inside inner.now) junction (view left) names.old tokens.now owner) }
    ensures shorter { Shortens tokens.now result }
{
    let (right, rest) = negation(inner, alloc, names, skip(tokens), Place::Command, owner)?;
    let tree = junction_tree(alloc, junction, left, right.tree)?;
    Ok((tree, rest))
}

/// What stands behind the first phrase of an expression.
#[tactic(auto, using(crate::proofs::Turns::junction_turns))]
fn junctions<'a, I: Inner>(
    inner: &I,
    alloc: Global,
    names: &mut Names,
    left: Tree,
    tokens: &'a [Token],
    owner: DoOwner,
) -> Read<'a, Tree>
    ensures value { Reads view result names.new
        (rules.junctions (I.inside inner.now) (view left) names.old tokens.now owner) }
    ensures within { IfOk result (λ p. length p.1.now ≤ length tokens.now) }
{
    let mut tree = left;
    let mut rest = tokens;
    'junctions: while let Some(junction) = junction_at(rest) {
        let (next, after) = junction_with(inner, alloc, names, junction, tree, rest, owner)?;
        tree = next;
        rest = after;
    }
    Ok((tree, rest))
}

/// Phrases with `and` and `or` between them.
#[tactic(auto, unfolding(crate::specs::Statements::expression))]
pub fn expression<'a, I: Inner>(
    inner: &I,
    alloc: Global,
    names: &mut Names,
    tokens: &'a [Token],
    place: Place,
    owner: DoOwner,
) -> Read<'a, Tree>
    ensures value { Reads view result names.new (rules.expression (I.inside inner.now) names.old tokens.now place owner) }
    ensures shorter { Shortens tokens.now result }
{
    let (head, rest) = negation(inner, alloc, names, tokens, place, owner)?;
    let Phrase { tree, sort } = head;
    if is_statement_sort(sort) {
        return Ok((tree, rest));
    }
    junctions(inner, alloc, names, tree, rest, owner)
}

/// The statements in braces behind `BEGIN` or `END`.
fn braced<'a, I: Inner>(
    inner: &I,
    alloc: Global,
    names: &mut Names,
    tokens: &'a [Token],
    what: Outside,
    at: u32,
) -> Read<'a, Tree>
    ensures value { Reads view result names.new (rules.braced (I.inside inner.now) what at names.old tokens.now) }
    ensures shorter { Shortens tokens.now result }
{
    let behind = expect(tokens, Wanted::OpenBrace)?;
    let (body, rest) = inner.statements(alloc, names, behind)?;
    let rest = expect(rest, Wanted::CloseBrace)?;
    Ok((outside_tree(alloc, what, at, body)?, rest))
}

/// What a statement begins with.
#[derive(Clone, Copy)]
pub enum StatementStart {
    Alias,
    Undef,
    /// `BEGIN`
    BeginBlock,
    /// `END`
    EndBlock,
    Expression,
}

fn statement_start(word: Word) -> StatementStart
    ensures { result ≡ rules.statement_start word }
{
    match word {
        Word::Key(Keyword::Alias) => StatementStart::Alias,
        Word::Key(Keyword::Undef) => StatementStart::Undef,
        Word::Key(Keyword::BeginBlock) => StatementStart::BeginBlock,
        Word::Key(Keyword::EndBlock) => StatementStart::EndBlock,
        _ => StatementStart::Expression,
    }
}

/// What stands behind `alias`, whose place is `at`.
fn aliased<'a>(alloc: Global, names: &mut Names, at: u32, tokens: &'a [Token]) -> Read<'a, Tree>
    ensures value { Reads view result names.new (rules.aliased at names.old tokens.now) }
    ensures shorter { Shortens tokens.now result }
{
    let (tree, rest) = alias(alloc, at, tokens)?;
    Ok((tree, rest))
}

/// What stands behind `undef`.
fn undefined<'a>(alloc: Global, names: &mut Names, tokens: &'a [Token]) -> Read<'a, Tree>
    ensures value { Reads view result names.new (rules.undefined names.old tokens.now) }
    ensures shorter { Shortens tokens.now result }
{
    let (tree, rest) = undef(alloc, tokens)?;
    Ok((tree, rest))
}

/// A statement without modifiers.
#[tactic(auto, unfolding(crate::specs::Statements::base_by))]
fn base<'a, I: Inner>(
    inner: &I,
    alloc: Global,
    names: &mut Names,
    tokens: &'a [Token],
) -> Read<'a, Tree>
    ensures value { Reads view result names.new (rules.base (I.inside inner.now) names.old tokens.now) }
    ensures shorter { Shortens tokens.now result }
{
    let at = place_at(tokens);
    let behind = skip(tokens);
    match statement_start(first(tokens)) {
        StatementStart::Alias => aliased(alloc, names, at, behind),
        StatementStart::Undef => undefined(alloc, names, behind),
        StatementStart::BeginBlock => {
            braced(inner, alloc, names, behind, Outside::BeginBlock, at)
        }
        StatementStart::EndBlock => braced(inner, alloc, names, behind, Outside::EndBlock, at),
        StatementStart::Expression => {
            expression(inner, alloc, names, tokens, Place::Statement, DoOwner::Call)
        }
    }
}

/// What stands behind a modifier.
fn modifier_part<'a, I: Inner>(
    inner: &I,
    alloc: Global,
    names: &mut Names,
    tokens: &'a [Token],
    modifier: Modifier,
) -> Read<'a, Tree>
    ensures value { Reads view result names.new (rules.modifier_part (I.inside inner.now) modifier names.old tokens.now) }
    ensures shorter { Shortens tokens.now result }
{
    match modifier {
        Modifier::Rescue => base(inner, alloc, names, tokens),
        Modifier::If | Modifier::Unless | Modifier::While | Modifier::Until => {
            expression(inner, alloc, names, tokens, Place::Command, DoOwner::Call)
        }
    }
}

/// A statement with the modifier at the front.
#[tactic(auto, unfolding(crate::specs::Statements::modified))]
fn modified<'a, I: Inner>(
    inner: &I,
    alloc: Global,
    names: &mut Names,
    modifier: Modifier,
    body: Tree,
    tokens: &'a [Token],
) -> Read<'a, Tree>
    ensures value { Reads view result names.new
        (rules.modified (I.inside inner.now) modifier (view body) names.old tokens.now) }
    ensures shorter { Shortens tokens.now result }
{
    let (part, rest) = modifier_part(inner, alloc, names, skip(tokens), modifier)?;
    let tree = modified_tree(alloc, modifier, body, part)?;
    Ok((tree, rest))
}

/// The modifiers behind a statement.
#[tactic(auto, using(crate::proofs::Turns::modifier_turns))]
fn modifiers<'a, I: Inner>(
    inner: &I,
    alloc: Global,
    names: &mut Names,
    body: Tree,
    tokens: &'a [Token],
) -> Read<'a, Tree>
    ensures value { Reads view result names.new (rules.modifiers (I.inside inner.now) (view body) names.old tokens.now) }
    ensures within { IfOk result (λ p. length p.1.now ≤ length tokens.now) }
{
    let mut tree = body;
    let mut rest = tokens;
    'modifiers: while let Some(modifier) = modifier_at(rest) {
        let (next, after) = modified(inner, alloc, names, modifier, tree, rest)?;
        tree = next;
        rest = after;
    }
    Ok((tree, rest))
}

/// A statement with its modifiers.
#[tactic(auto, unfolding(crate::specs::Statements::statement))]
fn statement<'a, I: Inner>(
    inner: &I,
    alloc: Global,
    names: &mut Names,
    tokens: &'a [Token],
) -> Read<'a, Tree>
    ensures value { Reads view result names.new (rules.statement (I.inside inner.now) names.old tokens.now) }
    ensures shorter { Shortens tokens.now result }
{
    let (tree, rest) = base(inner, alloc, names, tokens)?;
    modifiers(inner, alloc, names, tree, rest)
}

/// A statement and the separators behind it.
#[tactic(auto, unfolding(crate::specs::Statements::separated))]
fn separated<'a, I: Inner>(
    inner: &I,
    alloc: Global,
    names: &mut Names,
    tokens: &'a [Token],
) -> Read<'a, Tree>
    ensures value { Reads view result names.new (rules.separated (I.inside inner.now) names.old tokens.now) }
    ensures shorter { Shortens tokens.now result }
{
    let (tree, rest) = statement(inner, alloc, names, tokens)?;
    if !ends_statement(first(rest)) {
        return Err(syntax(rest));
    }
    Ok((tree, skip_separators(rest)))
}

/// A statement behind those that were found.
#[tactic(auto, using(crate::proofs::Turns::pushes), unfolding(crate::specs::Statements::with_statement))]
fn with_statement<'a, I: Inner>(
    inner: &I,
    alloc: Global,
    names: &mut Names,
    found: Vec<Tree>,
    tokens: &'a [Token],
) -> Read<'a, Vec<Tree>>
    ensures value { Reads views result names.new
        (rules.with_statement (I.inside inner.now) (views found) names.old tokens.now) }
    ensures shorter { Shortens tokens.now result }
{
    let mut list = found;
    let (tree, rest) = separated(inner, alloc, names, tokens)?;
    list.push(tree)?;
    Ok((list, rest))
}

/// Statements, the first of which stands at the front.
#[tactic(auto, using(crate::proofs::Turns::statement_turns))]
fn statement_list<'a, I: Inner>(
    inner: &I,
    alloc: Global,
    names: &mut Names,
    tokens: &'a [Token],
) -> Read<'a, Vec<Tree>>
    ensures value { Reads views result names.new (rules.statement_list (I.inside inner.now) names.old tokens.now) }
    ensures within { IfOk result (λ p. length p.1.now ≤ length tokens.now) }
{
    let mut list = Vec::new(alloc);
    let mut rest = tokens;
    'statements: while !ends_statements(first(rest)) {
        let (grown, after) = with_statement(inner, alloc, names, list, rest)?;
        list = grown;
        rest = after;
    }
    Ok((list, rest))
}

/// Statements over their list.
#[tactic(auto, using(crate::proofs::Views::statement_views))]
fn statements_form(list: Vec<Tree>) -> TreeForm
    ensures { form_view result ≡ node.statements (nodes (views list)) }
{
    TreeForm::Statements(list)
}

/// Statements with separators between them, up to what ends them.
#[tactic(auto, unfolding(crate::specs::Statements::statements))]
pub fn statements<'a, I: Inner>(
    inner: &I,
    alloc: Global,
    names: &mut Names,
    tokens: &'a [Token],
) -> Read<'a, Tree>
    ensures value { Reads view result names.new (rules.statements (I.inside inner.now) names.old tokens.now) }
    ensures within { IfOk result (λ p. length p.1.now ≤ length tokens.now) }
{
    let (list, rest) = statement_list(inner, alloc, names, skip_separators(tokens))?;
    let tree = statements_form(list).into_tree(alloc)?;
    Ok((tree, rest))
}
