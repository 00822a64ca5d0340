//! The sections of compound forms that were read, and the trees of the forms (ISO/IEC 30170:2012, 11.5.2).
ghost use Rattle.std.specs.Prelude.{◌≡◌, false, map, option_map, IfOk, OnOk};
ghost use Rattle.parser_tree.specs.Node as node;
ghost use Rattle.parser_tree.specs.Node.{nodes};
ghost use Rattle.parser_tree.specs.Parts.{begin_node, boxed, branch_node, rescue_node, when_node};
ghost use Rattle.parser_tree.specs.View.{form_view, view};
ghost use Rattle.parser_form_nodes.specs.Sections as made;

use parser_ahead::sections::{Compound, SectionKind};
use parser_nodes::nodes::condition_tree;
use parser_tree::{RescueBody, RescueClause, Tree, TreeForm, WhenClause};
use rb_syntax::{Branch, Outside};
use std::alloc::{AllocError, Global};

/// A section that was read. `heads` are the tests, values, classes or targets of its heading, and `target` is what a
/// rescue clause assigns to or what `for` walks over.
#[derive(Drop)]
pub struct Section {
    pub kind: SectionKind,
    pub heads: Vec<Tree>,
    pub target: Option<Tree>,
    pub body: Tree,
}

/// A part that stands behind all clauses.
#[derive(Clone, Copy, Debug, PartialEq, Eq)]
pub enum LastPart {
    Else,
    Ensure,
}

#[tactic(auto, unfolding(crate::specs::Sections::is_part))]
fn is_part(part: LastPart, kind: SectionKind) -> bool
    ensures { result ≡ made.is_part part kind }
{
    match part {
        LastPart::Else => matches!(kind, SectionKind::Else),
        LastPart::Ensure => matches!(kind, SectionKind::Ensure),
    }
}

/// Takes the last section where it is this part, and gives its body.
#[tactic(auto, using(crate::proofs::Lasts::lasts), unfolding(crate::specs::Sections::part_body, crate::specs::Sections::before_part))]
fn take_part(part: LastPart, sections: &mut Vec<Section>) -> Result<Option<Tree>, AllocError>
    ensures body { IfOk result (λ b. boxed b ≡ made.part_body part (made.sections_view sections.old)) }
    ensures left { OnOk result (made.sections_view sections.new ≡ made.before_part part
        (made.sections_view sections.old)) }
{
    let Some(section) = sections.pop() else {
        return Ok(None);
    };
    if is_part(part, section.kind) {
        Ok(Some(section.body))
    } else {
        sections.push(section)?;
        Ok(None)
    }
}

#[tactic(auto, using(crate::proofs::Lasts::lasts))]
fn last_section(sections: Vec<Section>) -> Option<Section>
    ensures { option_map made.section_view result ≡ made.last_of (made.sections_view sections) }
{
    let mut sections = sections;
    sections.pop()
}

#[tactic(auto, using(crate::proofs::Lasts::lasts))]
fn last_head(heads: Vec<Tree>) -> Option<Tree>
    ensures { option_map view result ≡ made.last_of (map view heads.items) }
{
    let mut heads = heads;
    heads.pop()
}

/// The test of a heading.
fn test_tree(alloc: Global, heads: Vec<Tree>) -> Result<Tree, AllocError>
    ensures { IfOk result (λ t. view t ≡ made.test_node (map view heads.items)) }
{
    match last_head(heads) {
        Some(test) => condition_tree(alloc, test),
        None => TreeForm::Nil.into_tree(alloc),
    }
}

#[tactic(auto, unfolding(crate::specs::Sections::branch_of))]
fn branch(alloc: Global, section: Section) -> Result<Branch<Tree>, AllocError>
    ensures { IfOk result (λ b. branch_node b ≡ made.branch_of (made.section_view section)) }
{
    let Section {
        kind: _,
        heads,
        target: _,
        body,
    } = section;
    let test = test_tree(alloc, heads)?;
    Ok(Branch { test, body })
}

/// The branches of `if`.
fn branches(alloc: Global, sections: Vec<Section>) -> Result<Vec<Branch<Tree>>, AllocError>
    ensures { IfOk result (λ v. map branch_node v.items ≡ map made.branch_of (made.sections_view sections)) }
{
    let mut list = Vec::new(alloc);
    for section in sections {
        list.push(branch(alloc, section)?)?;
    }
    Ok(list)
}

/// The clauses of `case`.
fn when_clauses(alloc: Global, sections: Vec<Section>) -> Result<Vec<WhenClause<Tree>>, AllocError>
    ensures { IfOk result (λ v. map when_node v.items ≡ map made.when_of (made.sections_view sections)) }
{
    let mut list = Vec::new(alloc);
    for section in sections {
        list.push(WhenClause {
            tests: section.heads,
            body: section.body,
        })?;
    }
    Ok(list)
}

/// The rescue clauses of a body.
fn rescue_clauses(
    alloc: Global,
    sections: Vec<Section>,
) -> Result<Vec<RescueClause<Tree>>, AllocError>
    ensures { IfOk result (λ v. map rescue_node v.items ≡ map made.rescue_of (made.sections_view sections)) }
{
    let mut list = Vec::new(alloc);
    for section in sections {
        list.push(RescueClause {
            classes: section.heads,
            target: section.target,
            body: section.body,
        })?;
    }
    Ok(list)
}

/// `if` over its parts.
fn if_of(branches: Vec<Branch<Tree>>, otherwise: Option<Tree>) -> TreeForm
    ensures { form_view result ≡ node.if_node (nodes (map branch_node branches.items)) (boxed otherwise) }
{
    TreeForm::If {
        branches,
        otherwise,
    }
}

#[tactic(auto, unfolding(crate::specs::Sections::if_node))]
fn if_tree(alloc: Global, sections: Vec<Section>) -> Result<Tree, AllocError>
    ensures { IfOk result (λ t. view t ≡ made.if_node (made.sections_view sections)) }
{
    let mut sections = sections;
    let otherwise = take_part(LastPart::Else, &mut sections)?;
    let branches = branches(alloc, sections)?;
    if_of(branches, otherwise).into_tree(alloc)
}

/// `unless` over its parts.
fn unless_of(test: Tree, body: Tree, otherwise: Option<Tree>) -> TreeForm
    ensures { form_view result ≡ node.unless_node (view test) (view body) (boxed otherwise) }
{
    TreeForm::Unless {
        test,
        body,
        otherwise,
    }
}

#[tactic(auto, unfolding(crate::specs::Sections::unless_section))]
fn unless_section(
    alloc: Global,
    section: Section,
    otherwise: Option<Tree>,
) -> Result<Tree, AllocError>
    ensures { IfOk result (λ t. view t ≡ made.unless_section (made.section_view section) (boxed otherwise)) }
{
    let Section {
        kind: _,
        heads,
        target: _,
        body,
    } = section;
    let test = test_tree(alloc, heads)?;
    unless_of(test, body, otherwise).into_tree(alloc)
}

#[tactic(auto, unfolding(crate::specs::Sections::unless_by))]
fn unless_by(
    alloc: Global,
    section: Option<Section>,
    otherwise: Option<Tree>,
) -> Result<Tree, AllocError>
    ensures { IfOk result (λ t. view t ≡ made.unless_by (option_map made.section_view section) (boxed otherwise)) }
{
    match section {
        Some(section) => unless_section(alloc, section, otherwise),
        None => TreeForm::Nil.into_tree(alloc),
    }
}

#[tactic(auto, unfolding(crate::specs::Sections::unless_node))]
fn unless_tree(alloc: Global, sections: Vec<Section>) -> Result<Tree, AllocError>
    ensures { IfOk result (λ t. view t ≡ made.unless_node (made.sections_view sections)) }
{
    let mut sections = sections;
    let otherwise = take_part(LastPart::Else, &mut sections)?;
    unless_by(alloc, last_section(sections), otherwise)
}

/// `while` and `until` over their parts.
fn loop_of(until: bool, test: Tree, body: Tree) -> TreeForm
    ensures { form_view result ≡ node.while_node until false (view test) (view body) }
{
    TreeForm::While {
        until,
        body_first: false,
        test,
        body,
    }
}

#[tactic(auto, unfolding(crate::specs::Sections::loop_section))]
fn loop_section(alloc: Global, until: bool, section: Section) -> Result<Tree, AllocError>
    ensures { IfOk result (λ t. view t ≡ made.loop_section until (made.section_view section)) }
{
    let Section {
        kind: _,
        heads,
        target: _,
        body,
    } = section;
    let test = test_tree(alloc, heads)?;
    loop_of(until, test, body).into_tree(alloc)
}

#[tactic(auto, unfolding(crate::specs::Sections::loop_by))]
fn loop_by(alloc: Global, until: bool, section: Option<Section>) -> Result<Tree, AllocError>
    ensures { IfOk result (λ t. view t ≡ made.loop_by until (option_map made.section_view section)) }
{
    match section {
        Some(section) => loop_section(alloc, until, section),
        None => TreeForm::Nil.into_tree(alloc),
    }
}

#[tactic(auto, unfolding(crate::specs::Sections::loop_node))]
fn loop_tree(alloc: Global, until: bool, sections: Vec<Section>) -> Result<Tree, AllocError>
    ensures { IfOk result (λ t. view t ≡ made.loop_node until (made.sections_view sections)) }
{
    loop_by(alloc, until, last_section(sections))
}

fn tree_or_nil(alloc: Global, tree: Option<Tree>) -> Result<Tree, AllocError>
    ensures { IfOk result (λ b. view b ≡ made.first_or_nil (boxed tree)) }
{
    match tree {
        Some(tree) => Ok(tree),
        None => TreeForm::Nil.into_tree(alloc),
    }
}

/// `for` over its parts.
fn for_of(targets: Vec<Tree>, items: Tree, body: Tree) -> TreeForm
    ensures { form_view result ≡ node.for_node (nodes (map view targets.items)) (view items) (view body) }
{
    TreeForm::For {
        targets,
        items,
        body,
    }
}

#[tactic(auto, unfolding(crate::specs::Sections::for_section))]
fn for_section(alloc: Global, section: Section) -> Result<Tree, AllocError>
    ensures { IfOk result (λ t. view t ≡ made.for_section (made.section_view section)) }
{
    let Section {
        kind: _,
        heads,
        target,
        body,
    } = section;
    let items = tree_or_nil(alloc, target)?;
    for_of(heads, items, body).into_tree(alloc)
}

#[tactic(auto, unfolding(crate::specs::Sections::for_by))]
fn for_by(alloc: Global, section: Option<Section>) -> Result<Tree, AllocError>
    ensures { IfOk result (λ t. view t ≡ made.for_by (option_map made.section_view section)) }
{
    match section {
        Some(section) => for_section(alloc, section),
        None => TreeForm::Nil.into_tree(alloc),
    }
}

#[tactic(auto, unfolding(crate::specs::Sections::for_node))]
fn for_tree(alloc: Global, sections: Vec<Section>) -> Result<Tree, AllocError>
    ensures { IfOk result (λ t. view t ≡ made.for_node (made.sections_view sections)) }
{
    for_by(alloc, last_section(sections))
}

/// `case` over its parts.
fn case_of(
    subject: Option<Tree>,
    clauses: Vec<WhenClause<Tree>>,
    otherwise: Option<Tree>,
) -> TreeForm
    ensures { form_view result ≡ node.case_node (boxed subject) (nodes (map when_node clauses.items)) (boxed otherwise) }
{
    TreeForm::Case {
        subject,
        clauses,
        otherwise,
    }
}

#[tactic(auto, unfolding(crate::specs::Sections::case_section))]
fn case_section(
    alloc: Global,
    head: Section,
    sections: Vec<Section>,
    otherwise: Option<Tree>,
) -> Result<Tree, AllocError>
    ensures { IfOk result (λ t. view t
        ≡ made.case_section (made.section_view head) (made.sections_view sections) (boxed otherwise)) }
{
    let subject = last_head(head.heads);
    let clauses = when_clauses(alloc, sections)?;
    case_of(subject, clauses, otherwise).into_tree(alloc)
}

#[tactic(auto, unfolding(crate::specs::Sections::case_by))]
fn case_by(
    alloc: Global,
    head: Option<Section>,
    sections: Vec<Section>,
    otherwise: Option<Tree>,
) -> Result<Tree, AllocError>
    ensures { IfOk result (λ t. view t
        ≡ made.case_by (option_map made.section_view head) (made.sections_view sections) (boxed otherwise)) }
{
    match head {
        Some(head) => case_section(alloc, head, sections, otherwise),
        None => TreeForm::Nil.into_tree(alloc),
    }
}

#[tactic(auto, unfolding(crate::specs::Sections::case_node))]
fn case_tree(alloc: Global, sections: Vec<Section>) -> Result<Tree, AllocError>
    ensures { IfOk result (λ t. view t ≡ made.case_node (made.sections_view sections)) }
{
    let mut sections = sections;
    let otherwise = take_part(LastPart::Else, &mut sections)?;
    let head = take_first(&mut sections);
    case_by(alloc, head, sections, otherwise)
}

/// Takes the first section.
#[tactic(auto, using(crate::proofs::Lasts::firsts))]
fn take_first(sections: &mut Vec<Section>) -> Option<Section>
    ensures first { option_map made.section_view result ≡ made.first_of (made.sections_view sections.old) }
    ensures left { made.sections_view sections.new ≡ made.rest_of (made.sections_view sections.old) }
{
    if sections.is_empty() {
        None
    } else {
        Some(sections.remove(0))
    }
}

/// The statements of a section, or nothing.
fn body_of(alloc: Global, section: Option<Section>) -> Result<Tree, AllocError>
    ensures { IfOk result (λ t. view t ≡ made.body_or_nil (option_map made.section_view section)) }
{
    match section {
        Some(section) => Ok(section.body),
        None => TreeForm::Nil.into_tree(alloc),
    }
}

/// A body with its clauses.
#[tactic(auto, unfolding(crate::specs::Sections::rescued_body))]
fn rescue_body(alloc: Global, sections: Vec<Section>) -> Result<RescueBody<Tree>, AllocError>
    ensures { IfOk result (λ b. begin_node b ≡ made.rescued_body (made.sections_view sections)) }
{
    let mut sections = sections;
    let ensure = take_part(LastPart::Ensure, &mut sections)?;
    let otherwise = take_part(LastPart::Else, &mut sections)?;
    let body = body_of(alloc, take_first(&mut sections))?;
    Ok(RescueBody {
        body,
        clauses: rescue_clauses(alloc, sections)?,
        otherwise,
        ensure,
    })
}

/// A body with its clauses as a tree.
fn begin_of(body: RescueBody<Tree>) -> TreeForm
    ensures { form_view result ≡ begin_node body }
{
    TreeForm::Begin(body)
}

fn begin_tree(alloc: Global, sections: Vec<Section>) -> Result<Tree, AllocError>
    ensures { IfOk result (λ t. view t ≡ made.rescued_body (made.sections_view sections)) }
{
    let body = rescue_body(alloc, sections)?;
    begin_of(body).into_tree(alloc)
}

/// The tree of a body: its statements alone, or with clauses.
pub fn body_tree(alloc: Global, sections: Vec<Section>) -> Result<Tree, AllocError>
    ensures { IfOk result (λ t. view t ≡ made.body_node (made.sections_view sections)) }
{
    if sections.len() > 1 {
        return begin_tree(alloc, sections);
    }
    body_of(alloc, last_section(sections))
}

/// Whether the sections are those of a whole form: `case` has a clause.
pub fn is_whole(compound: Compound, sections: &[Section]) -> bool
    ensures { result ≡ made.is_whole compound (map made.section_view sections.now) }
{
    match compound {
        Compound::Case => sections.len() > 1,
        _ => !sections.is_empty(),
    }
}

/// The tree of a compound form, whose sections are in an order that [`parser_ahead::sections`] allows. Of no sections it
/// is `nil`.
pub fn compound_tree(
    alloc: Global,
    compound: Compound,
    sections: Vec<Section>,
) -> Result<Tree, AllocError>
    ensures { IfOk result (λ t. view t ≡ made.compound_node compound (made.sections_view sections)) }
{
    match compound {
        Compound::If => if_tree(alloc, sections),
        Compound::Unless => unless_tree(alloc, sections),
        Compound::While => loop_tree(alloc, false, sections),
        Compound::Until => loop_tree(alloc, true, sections),
        Compound::For => for_tree(alloc, sections),
        Compound::Case => case_tree(alloc, sections),
        Compound::Body => begin_tree(alloc, sections),
    }
}

/// A pattern outside the language, over its parts.
fn pattern_of(at: u32, parts: Vec<Tree>) -> TreeForm
    ensures { form_view result ≡ made.pattern_node at (map view parts.items) }
{
    TreeForm::Outside {
        what: Outside::PatternMatch,
        at,
        parts,
    }
}

/// The tests of `in`, whose place is `at`, outside the language.
pub fn pattern_heads(alloc: Global, at: u32, heads: Vec<Tree>) -> Result<Vec<Tree>, AllocError>
    ensures { IfOk result (λ v. map view v.items ≡ made.pattern_heads at (map view heads.items)) }
{
    let mut outside = Vec::new(alloc);
    outside.push(pattern_of(at, heads).into_tree(alloc)?)?;
    Ok(outside)
}
