//! The sections of compound forms.
ghost use Rattle.std.specs.Prelude.{◌≡◌, [], ◌∷◌, option_map, ◌<◌, ◌≤◌, length, IfOk};
ghost use Rattle.parser_tree.specs.Node.{none};
ghost use Rattle.parser_tree.specs.View.{view};
ghost use Rattle.parser_tokens.specs.Tokens as front;
ghost use Rattle.parser_nodes.specs.Listed.{is_empty};
ghost use Rattle.parser_nodes.specs.Nodes.{views, boxed_view};
ghost use Rattle.parser_form_nodes.specs.Sections.{section_view, sections_view};
ghost use Rattle.parser_form_nodes.specs.Targets.{targets_view};
ghost use Rattle.parser_forms.specs.Reading.{Reads, Shortens};
ghost use Rattle.parser_statements.specs.Sections as rules;

use crate::statements::{expression, statements};
use parser_ahead::groups::TargetUse;
use parser_ahead::names::Names;
use parser_ahead::primary::{DoOwner, Place, is_arrow, is_comma};
use parser_ahead::sections::{Compound, SectionKind, first_section, next_section};
use parser_form_nodes::sections::{Section, pattern_heads};
use parser_form_nodes::targets::Targets;
use parser_forms::{Inner, Read};
use parser_nodes::nodes::outside_tree;
use parser_phrases::phrases::argument;
use parser_phrases::targets::{is_star, targets};
use parser_tokens::expect::{Wanted, expect, expect_do, expect_then, skip_separators};
use parser_tokens::failure::syntax;
use parser_tokens::starts::begins_value;
use parser_tokens::tokens::{first, place_at, skip};
use parser_tokens::word::Word;
use parser_tree::{Tree, TreeForm};
use rb_syntax::{Keyword, Outside, Token};
use std::alloc::{AllocError, Global};

/// Whether no subject stands behind `case`.
fn ends_subject(word: Word) -> bool
    ensures { result ≡ rules.ends_subject word }
{
    matches!(
        word,
        Word::Newline | Word::Semicolon | Word::Key(Keyword::When | Keyword::In)
    )
}

/// The headings of a clause of `case`.
fn clause_heads(
    alloc: Global,
    kind: SectionKind,
    at: u32,
    heads: Vec<Tree>,
) -> Result<Vec<Tree>, AllocError>
    ensures { IfOk result (λ v. views v ≡ rules.heads_of kind at (views heads)) }
{
    match kind {
        SectionKind::Pattern => pattern_heads(alloc, at, heads),
        _ => Ok(heads),
    }
}

/// A list of one tree.
fn one_tree(alloc: Global, tree: Tree) -> Result<Vec<Tree>, AllocError>
    ensures { IfOk result (λ v. views v ≡ view tree ∷ []) }
{
    let mut list = Vec::new(alloc);
    list.push(tree)?;
    Ok(list)
}

/// Whether there are no trees.
#[tactic(auto, using(parser_nodes::proofs::Lists::empty_lists))]
fn no_trees(list: &Vec<Tree>) -> bool
    ensures { result ≡ is_empty (views list.now) }
{
    list.is_empty()
}

/// The one tree, where there are no others.
#[tactic(auto, using(crate::proofs::Only::only_views))]
fn only_tree(list: Vec<Tree>) -> Option<Tree>
    ensures { option_map view result ≡ rules.only (views list) }
{
    let mut list = list;
    if list.len() > 1 {
        return None;
    }
    list.pop()
}

/// The targets before the star, or all where there is none.
fn targets_before(targets: Targets) -> Vec<Tree>
    ensures { views result ≡ (targets_view targets).list.before }
{
    let list = targets.list;
    list.before
}

/// The one target, where there are no others.
fn only_target(targets: Targets) -> Option<Tree>
    ensures { option_map view result ≡ rules.only_target (targets_view targets) }
{
    only_tree(targets_before(targets))
}

/// The subject of `case`.
fn subject(alloc: Global, heads: Vec<Tree>) -> Result<Section, AllocError>
    ensures { IfOk result (λ s. section_view s ≡ rules.subject (views heads)) }
{
    let body = TreeForm::Nil.into_tree(alloc)?;
    Ok(Section {
        kind: SectionKind::Subject,
        heads,
        target: None,
        body,
    })
}

/// The statements of a section behind its heading.
fn sectioned<'a, I: Inner>(
    inner: &I,
    alloc: Global,
    names: &mut Names,
    kind: SectionKind,
    heads: Vec<Tree>,
    target: Option<Tree>,
    tokens: &'a [Token],
) -> Read<'a, Section>
    ensures value { Reads section_view result names.new
        (rules.sectioned (I.inside inner.now) kind (views heads) (boxed_view target) names.old tokens.now) }
    ensures within { IfOk result (λ p. length p.1.now ≤ length tokens.now) }
{
    let (body, rest) = statements(inner, alloc, names, tokens)?;
    let section = Section {
        kind,
        heads,
        target,
        body,
    };
    Ok((section, rest))
}

/// Statements without a heading.
fn plain_section<'a, I: Inner>(
    inner: &I,
    alloc: Global,
    names: &mut Names,
    kind: SectionKind,
    tokens: &'a [Token],
) -> Read<'a, Section>
    ensures value { Reads section_view result names.new
        (rules.sectioned (I.inside inner.now) kind [] none names.old tokens.now) }
    ensures within { IfOk result (λ p. length p.1.now ≤ length tokens.now) }
{
    sectioned(inner, alloc, names, kind, Vec::new(alloc), None, tokens)
}

/// The section of a branch.
fn test_section<'a, I: Inner>(
    inner: &I,
    alloc: Global,
    names: &mut Names,
    tokens: &'a [Token],
) -> Read<'a, Section>
    ensures value { Reads section_view result names.new (rules.test_section (I.inside inner.now) names.old tokens.now) }
    ensures within { IfOk result (λ p. length p.1.now ≤ length tokens.now) }
{
    let (test, rest) = expression(inner, alloc, names, tokens, Place::Command, DoOwner::Call)?;
    let heads = one_tree(alloc, test)?;
    let rest = expect_then(rest)?;
    sectioned(inner, alloc, names, SectionKind::Test, heads, None, rest)
}

/// The section of a loop.
fn loop_section<'a, I: Inner>(
    inner: &I,
    alloc: Global,
    names: &mut Names,
    tokens: &'a [Token],
) -> Read<'a, Section>
    ensures value { Reads section_view result names.new (rules.loop_section (I.inside inner.now) names.old tokens.now) }
    ensures within { IfOk result (λ p. length p.1.now ≤ length tokens.now) }
{
    let (test, rest) = expression(inner, alloc, names, tokens, Place::Command, DoOwner::Loop)?;
    let heads = one_tree(alloc, test)?;
    let rest = expect_do(rest)?;
    sectioned(
        inner,
        alloc,
        names,
        SectionKind::LoopTest,
        heads,
        None,
        rest,
    )
}

/// What is walked over, and the body. The targets are the heads.
fn walk_items<'a, I: Inner>(
    inner: &I,
    alloc: Global,
    names: &mut Names,
    heads: Vec<Tree>,
    tokens: &'a [Token],
) -> Read<'a, Section>
    ensures value { Reads section_view result names.new
        (rules.walk_items (I.inside inner.now) (views heads) names.old tokens.now) }
    ensures within { IfOk result (λ p. length p.1.now ≤ length tokens.now) }
{
    let (items, rest) = expression(inner, alloc, names, tokens, Place::Command, DoOwner::Loop)?;
    let items = Some(items);
    let rest = expect_do(rest)?;
    sectioned(inner, alloc, names, SectionKind::Walk, heads, items, rest)
}

/// The section of `for`.
fn walk_section<'a, I: Inner>(
    inner: &I,
    alloc: Global,
    names: &mut Names,
    tokens: &'a [Token],
) -> Read<'a, Section>
    ensures value { Reads section_view result names.new (rules.walk_section (I.inside inner.now) names.old tokens.now) }
    ensures within { IfOk result (λ p. length p.1.now ≤ length tokens.now) }
{
    let none = Targets::new(alloc);
    let (found, rest) = targets(inner, alloc, names, none, tokens, TargetUse::For)?;
    let heads = targets_before(found);
    if no_trees(&heads) {
        return Err(syntax(rest));
    }
    let rest = expect(rest, Wanted::In)?;
    walk_items(inner, alloc, names, heads, rest)
}

/// The subject of `case`, or none.
fn subject_section<'a, I: Inner>(
    inner: &I,
    alloc: Global,
    names: &mut Names,
    tokens: &'a [Token],
) -> Read<'a, Section>
    ensures value { Reads section_view result names.new
        (rules.subject_section (I.inside inner.now) names.old tokens.now) }
    ensures within { IfOk result (λ p. length p.1.now ≤ length tokens.now) }
{
    if ends_subject(first(tokens)) {
        let none = Vec::new(alloc);
        return Ok((subject(alloc, none)?, skip_separators(tokens)));
    }
    let (tree, rest) = expression(inner, alloc, names, tokens, Place::Command, DoOwner::Call)?;
    let heads = one_tree(alloc, tree)?;
    Ok((subject(alloc, heads)?, skip_separators(rest)))
}

/// A value of a `when` or a `rescue`; one with a star is outside the language.
#[tactic(auto, unfolding(crate::specs::Sections::value_test))]
fn value_test<'a, I: Inner>(
    inner: &I,
    alloc: Global,
    names: &mut Names,
    tokens: &'a [Token],
) -> Read<'a, Tree>
    ensures value { Reads view result names.new (rules.value_test (I.inside inner.now) names.old tokens.now) }
    ensures shorter { Shortens tokens.now result }
{
    if !is_star(tokens) {
        return argument(inner, alloc, names, tokens, DoOwner::Call);
    }
    let (tree, rest) = argument(inner, alloc, names, skip(tokens), DoOwner::Call)?;
    let tree = outside_tree(alloc, Outside::SplatClause, place_at(tokens), tree)?;
    Ok((tree, rest))
}

/// A value behind those that were found.
#[tactic(auto, using(crate::proofs::Turns::pushes), unfolding(crate::specs::Sections::with_test))]
fn with_test<'a, I: Inner>(
    inner: &I,
    alloc: Global,
    names: &mut Names,
    found: Vec<Tree>,
    tokens: &'a [Token],
) -> Read<'a, Vec<Tree>>
    ensures value { Reads views result names.new
        (rules.with_test (I.inside inner.now) (views found) names.old tokens.now) }
    ensures shorter { Shortens tokens.now result }
{
    let mut list = found;
    let (tree, rest) = value_test(inner, alloc, names, tokens)?;
    list.push(tree)?;
    Ok((list, rest))
}

/// The values behind those that were found, each behind a comma.
#[tactic(auto, using(crate::proofs::Turns::test_turns))]
fn tests_behind<'a, I: Inner>(
    inner: &I,
    alloc: Global,
    names: &mut Names,
    found: Vec<Tree>,
    tokens: &'a [Token],
) -> Read<'a, Vec<Tree>>
    ensures value { Reads views result names.new
        (rules.tests_behind (I.inside inner.now) (views found) names.old tokens.now) }
    ensures within { IfOk result (λ p. length p.1.now ≤ length tokens.now) }
{
    let mut list = found;
    let mut rest = tokens;
    'tests: while is_comma(rest) {
        let (grown, after) = with_test(inner, alloc, names, list, skip(rest))?;
        list = grown;
        rest = after;
    }
    Ok((list, rest))
}

/// The values of a `when` or a `rescue`.
#[tactic(auto, unfolding(crate::specs::Sections::tests))]
fn tests<'a, I: Inner>(
    inner: &I,
    alloc: Global,
    names: &mut Names,
    tokens: &'a [Token],
) -> Read<'a, Vec<Tree>>
    ensures value { Reads views result names.new (rules.tests (I.inside inner.now) names.old tokens.now) }
    ensures within { IfOk result (λ p. length p.1.now ≤ length tokens.now) }
{
    let none = Vec::new(alloc);
    if !begins_value(first(tokens)) {
        return Ok((none, tokens));
    }
    let (found, rest) = with_test(inner, alloc, names, none, tokens)?;
    tests_behind(inner, alloc, names, found, rest)
}

/// A clause with these values.
fn clause<'a, I: Inner>(
    inner: &I,
    alloc: Global,
    names: &mut Names,
    kind: SectionKind,
    at: u32,
    found: Vec<Tree>,
    tokens: &'a [Token],
) -> Read<'a, Section>
    ensures value { Reads section_view result names.new
        (rules.clause (I.inside inner.now) kind at (views found) names.old tokens.now) }
    ensures within { IfOk result (λ p. length p.1.now ≤ length tokens.now) }
{
    let rest = expect_then(tokens)?;
    let heads = clause_heads(alloc, kind, at, found)?;
    sectioned(inner, alloc, names, kind, heads, None, rest)
}

/// A clause of `case`.
fn when_section<'a, I: Inner>(
    inner: &I,
    alloc: Global,
    names: &mut Names,
    kind: SectionKind,
    at: u32,
    tokens: &'a [Token],
) -> Read<'a, Section>
    ensures value { Reads section_view result names.new
        (rules.when_section (I.inside inner.now) kind at names.old tokens.now) }
    ensures within { IfOk result (λ p. length p.1.now ≤ length tokens.now) }
{
    let (found, rest) = tests(inner, alloc, names, tokens)?;
    if no_trees(&found) {
        return Err(syntax(rest));
    }
    clause(inner, alloc, names, kind, at, found, rest)
}

/// The one target of a rescue clause, before these tokens.
fn target_by<'a>(
    names: &mut Names,
    target: Option<Tree>,
    tokens: &'a [Token],
) -> Read<'a, Option<Tree>>
    ensures value { Reads boxed_view result names.new (rules.target_by (option_map view target) names.old tokens.now) }
    ensures within { IfOk result (λ p. length p.1.now ≤ length tokens.now) }
{
    match target {
        Some(tree) => Ok((Some(tree), tokens)),
        None => Err(syntax(tokens)),
    }
}

/// What the exception of a rescue clause is assigned to, or nothing.
fn rescue_target<'a, I: Inner>(
    inner: &I,
    alloc: Global,
    names: &mut Names,
    tokens: &'a [Token],
) -> Read<'a, Option<Tree>>
    ensures value { Reads boxed_view result names.new (rules.rescue_target (I.inside inner.now) names.old tokens.now) }
    ensures within { IfOk result (λ p. length p.1.now ≤ length tokens.now) }
{
    if !is_arrow(tokens) {
        return Ok((None, tokens));
    }
    let none = Targets::new(alloc);
    let (found, rest) = targets(inner, alloc, names, none, skip(tokens), TargetUse::For)?;
    target_by(names, only_target(found), rest)
}

/// A rescue clause of these classes.
fn rescue_clause<'a, I: Inner>(
    inner: &I,
    alloc: Global,
    names: &mut Names,
    heads: Vec<Tree>,
    tokens: &'a [Token],
) -> Read<'a, Section>
    ensures value { Reads section_view result names.new
        (rules.rescue_clause (I.inside inner.now) (views heads) names.old tokens.now) }
    ensures within { IfOk result (λ p. length p.1.now ≤ length tokens.now) }
{
    let (target, rest) = rescue_target(inner, alloc, names, tokens)?;
    let rest = expect_then(rest)?;
    sectioned(
        inner,
        alloc,
        names,
        SectionKind::Rescue,
        heads,
        target,
        rest,
    )
}

/// A rescue clause.
fn rescue_section<'a, I: Inner>(
    inner: &I,
    alloc: Global,
    names: &mut Names,
    tokens: &'a [Token],
) -> Read<'a, Section>
    ensures value { Reads section_view result names.new (rules.rescue_section (I.inside inner.now) names.old tokens.now) }
    ensures within { IfOk result (λ p. length p.1.now ≤ length tokens.now) }
{
    let (heads, rest) = tests(inner, alloc, names, tokens)?;
    rescue_clause(inner, alloc, names, heads, rest)
}

/// A section: its heading and its statements. `at` is the place of its word.
#[tactic(auto, unfolding(crate::specs::Sections::section))]
fn section<'a, I: Inner>(
    inner: &I,
    alloc: Global,
    names: &mut Names,
    kind: SectionKind,
    at: u32,
    tokens: &'a [Token],
) -> Read<'a, Section>
    ensures value { Reads section_view result names.new
        (rules.section (I.inside inner.now) kind at names.old tokens.now) }
    ensures within { IfOk result (λ p. length p.1.now ≤ length tokens.now) }
{
    match kind {
        SectionKind::Test => test_section(inner, alloc, names, tokens),
        SectionKind::LoopTest => loop_section(inner, alloc, names, tokens),
        SectionKind::Walk => walk_section(inner, alloc, names, tokens),
        SectionKind::Subject => subject_section(inner, alloc, names, tokens),
        SectionKind::When => { when_section(inner, alloc, names, SectionKind::When, at, tokens) }
        SectionKind::Pattern => {
            when_section(inner, alloc, names, SectionKind::Pattern, at, tokens)
        }
        SectionKind::Rescue => rescue_section(inner, alloc, names, tokens),
        SectionKind::Plain => { plain_section(inner, alloc, names, SectionKind::Plain, tokens) }
        SectionKind::Else => plain_section(inner, alloc, names, SectionKind::Else, tokens),
        SectionKind::Ensure => { plain_section(inner, alloc, names, SectionKind::Ensure, tokens) }
    }
}

/// A section behind those that were found. `at` is the place of its word.
#[tactic(auto, using(crate::proofs::Turns::pushes), unfolding(crate::specs::Sections::with_section))]
fn with_section<'a, I: Inner>(
    inner: &I,
    alloc: Global,
    names: &mut Names,
    kind: SectionKind,
    at: u32,
    found: Vec<Section>,
    tokens: &'a [Token],
) -> Read<'a, Vec<Section>>
    ensures value { Reads sections_view result names.new
        (rules.with_section (I.inside inner.now) kind at (sections_view found) names.old tokens.now) }
    ensures within { IfOk result (λ p. length p.1.now ≤ length tokens.now) }
{
    let mut list = found;
    let (read, rest) = section(inner, alloc, names, kind, at, tokens)?;
    list.push(read)?;
    Ok((list, rest))
}

/// The section whose word stands at the front, behind those that were found.
fn next_sections<'a, I: Inner>(
    inner: &I,
    alloc: Global,
    names: &mut Names,
    kind: SectionKind,
    found: Vec<Section>,
    tokens: &'a [Token],
) -> Read<'a, Vec<Section>>
    ensures value { Reads sections_view result names.new
        (rules.next_sections (I.inside inner.now) kind (sections_view found) names.old tokens.now) }
    ensures within { IfOk result (λ p. length p.1.now ≤ length (front.behind tokens.now)) }
{
    let at = place_at(tokens);
    with_section(inner, alloc, names, kind, at, found, skip(tokens))
}

/// The sections behind one of this kind and those before it.
#[tactic(auto, using(crate::proofs::Turns::section_turns))]
fn sections_behind<'a, I: Inner>(
    inner: &I,
    alloc: Global,
    names: &mut Names,
    form: Compound,
    kind: SectionKind,
    found: Vec<Section>,
    tokens: &'a [Token],
) -> Read<'a, Vec<Section>>
    ensures value { Reads sections_view result names.new
        (rules.sections_behind (I.inside inner.now) form kind (sections_view found) names.old tokens.now) }
    ensures within { IfOk result (λ p. length p.1.now ≤ length tokens.now) }
{
    let mut list = found;
    let mut before = kind;
    let mut rest = tokens;
    'sections: while let Some(next) = next_section(form, before, rest) {
        let (grown, after) = next_sections(inner, alloc, names, next, list, rest)?;
        list = grown;
        before = next;
        rest = after;
    }
    Ok((list, rest))
}

/// The sections of a form.
#[tactic(auto, unfolding(crate::specs::Sections::section_list))]
fn section_list<'a, I: Inner>(
    inner: &I,
    alloc: Global,
    names: &mut Names,
    form: Compound,
    tokens: &'a [Token],
) -> Read<'a, Vec<Section>>
    ensures value { Reads sections_view result names.new
        (rules.section_list (I.inside inner.now) names.old form tokens.now) }
    ensures within { IfOk result (λ p. length p.1.now ≤ length tokens.now) }
{
    let none = Vec::new(alloc);
    let kind = first_section(form);
    let (found, rest) = with_section(inner, alloc, names, kind, 0, none, tokens)?;
    sections_behind(inner, alloc, names, form, kind, found, rest)
}

/// The sections of a form, to behind its `end`.
pub fn sections<'a, I: Inner>(
    inner: &I,
    alloc: Global,
    names: &mut Names,
    form: Compound,
    tokens: &'a [Token],
) -> Read<'a, Vec<Section>>
    ensures value { Reads sections_view result names.new (rules.sections (I.inside inner.now) names.old form tokens.now) }
    ensures within { IfOk result (λ p. length p.1.now ≤ length tokens.now) }
{
    let (list, rest) = section_list(inner, alloc, names, form, tokens)?;
    let rest = expect(rest, Wanted::End)?;
    Ok((list, rest))
}
