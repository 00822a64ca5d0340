//! Whether a form is within the limits of the generator: known names, numbers that fit, and sizes.
ghost use Rattle.std.specs.Prelude.{◌≡◌, [], length, nat_le, take, IfOk, OnOk};
ghost use Rattle.code_generator.specs.Limits as limits;
ghost use Rattle.code_generator.specs.Names.{names_of};
ghost use Rattle.code_generator.specs.Built as built;
ghost use Rattle.code_generator.specs.Built.{left_after};
ghost use Rattle.code_generator.specs.Emission.{form, all_forms};

use crate::names::collect;
use crate::tree::Tree;
use std::alloc::{AllocError, Global};
use text_set::TextSet;

/// The most names.
const NAMES: usize = 50;

/// The most operators in an operand.
const OPERATORS: usize = 80;

/// The most forms, a loop counting twice.
const PARTS: usize = 4001;

/// Whether a number has 32 bits.
fn is_number(n: i64) -> bool
    ensures { result ≡ limits.is_number n }
{
    -2147483648 <= n && n < 2147483648
}

/// Whether each number fits.
#[cycle(plain)]
fn is_plain(tree: &Tree) -> bool
    ensures { result ≡ limits.is_plain (form tree.now) }
{
    match tree {
        Tree::Nil | Tree::True | Tree::Local(_) => true,
        Tree::Int(n) => is_number(*n),
        Tree::Puts(e) | Tree::SetLocal(_, e) => is_plain(e),
        Tree::Seq(list) => are_plain(list),
        Tree::Operate(_, a, b) | Tree::While(a, b) => is_plain(a) && is_plain(b),
        Tree::Cond(t, a, b) => is_plain(t) && is_plain(a) && is_plain(b),
    }
}

#[cycle(plain)]
fn are_plain(list: &[Tree]) -> bool
    ensures { result ≡ limits.are_plain (all_forms list.now) }
{
    for tree in list {
        if !is_plain(tree) {
            return false;
        }
    }
    true
}

/// What is left of a number of operators after those of a form.
#[cycle(operators)]
#[tactic(auto, using(crate::proofs::Budgets::budget_laws))]
fn operators_left(tree: &Tree, budget: usize) -> Option<usize>
    ensures { result ≡ left_after budget (limits.operations (form tree.now)) }
{
    match tree {
        Tree::Nil | Tree::True | Tree::Int(_) | Tree::Local(_) => Some(budget),
        Tree::Puts(e) => operators_left(e, budget.checked_sub(1)?),
        Tree::SetLocal(_, e) => operators_left(e, budget),
        Tree::Seq(list) => all_operators_left(list, budget),
        Tree::Operate(_, a, b) => {
            let left = operators_left(a, budget.checked_sub(1)?)?;
            operators_left(b, left)
        }
        Tree::While(a, b) => {
            let left = operators_left(a, budget)?;
            operators_left(b, left)
        }
        Tree::Cond(t, a, b) => {
            let left = operators_left(t, budget)?;
            let left = operators_left(a, left)?;
            operators_left(b, left)
        }
    }
}

#[cycle(operators)]
#[tactic(auto, using(crate::proofs::Budgets::budget_laws))]
fn all_operators_left(list: &[Tree], budget: usize) -> Option<usize>
    ensures { result ≡ left_after budget (limits.all_operations (all_forms list.now)) }
{
    let mut left = budget;
    for tree in list {
        left = operators_left(tree, left)?;
    }
    Some(left)
}

/// Whether a form has few operators.
#[tactic(auto, using(crate::proofs::Budgets::budget_laws))]
fn is_short(tree: &Tree) -> bool
    ensures { result ≡ nat_le (limits.operations (form tree.now)) 80 }
{
    operators_left(tree, OPERATORS).is_some()
}

/// Whether each operand, and what each assignment assigns, has few operators.
#[cycle(sums)]
fn has_short_sums(tree: &Tree) -> bool
    ensures { result ≡ limits.has_short_sums (form tree.now) }
{
    match tree {
        Tree::Nil | Tree::True | Tree::Int(_) | Tree::Local(_) => true,
        Tree::Puts(e) | Tree::SetLocal(_, e) => is_short(e),
        Tree::Operate(_, a, b) => is_short(a) && is_short(b),
        Tree::Seq(list) => have_short_sums(list),
        Tree::While(a, b) => has_short_sums(a) && has_short_sums(b),
        Tree::Cond(t, a, b) => has_short_sums(t) && has_short_sums(a) && has_short_sums(b),
    }
}

#[cycle(sums)]
fn have_short_sums(list: &[Tree]) -> bool
    ensures { result ≡ limits.have_short_sums (all_forms list.now) }
{
    for tree in list {
        if !has_short_sums(tree) {
            return false;
        }
    }
    true
}

/// What is left of a number of forms after those in a form.
#[cycle(parts)]
#[tactic(auto, using(crate::proofs::Budgets::budget_laws))]
fn parts_left(tree: &Tree, budget: usize) -> Option<usize>
    ensures { result ≡ left_after budget (limits.parts (form tree.now)) }
{
    match tree {
        Tree::Nil | Tree::True | Tree::Int(_) | Tree::Local(_) => budget.checked_sub(1),
        Tree::Puts(e) | Tree::SetLocal(_, e) => parts_left(e, budget.checked_sub(1)?),
        Tree::Seq(list) => all_parts_left(list, budget.checked_sub(1)?),
        Tree::Operate(_, a, b) => {
            let left = parts_left(a, budget.checked_sub(1)?)?;
            parts_left(b, left)
        }
        Tree::While(a, b) => {
            let left = parts_left(a, budget.checked_sub(2)?)?;
            parts_left(b, left)
        }
        Tree::Cond(t, a, b) => {
            let left = parts_left(t, budget.checked_sub(1)?)?;
            let left = parts_left(a, left)?;
            parts_left(b, left)
        }
    }
}

#[cycle(parts)]
#[tactic(auto, using(crate::proofs::Budgets::budget_laws))]
fn all_parts_left(list: &[Tree], budget: usize) -> Option<usize>
    ensures { result ≡ left_after budget (limits.all_parts (all_forms list.now)) }
{
    let mut left = budget;
    for tree in list {
        left = parts_left(tree, left)?;
    }
    Some(left)
}

/// The name that a line assigns, after those known.
fn learn<'a>(known: &mut TextSet<'a>, line: &'a Tree) -> Result<(), AllocError>
    ensures { OnOk result (known.new ≡ limits.known_after known.old (form line.now)) }
{
    if let Tree::SetLocal(name, _) = line {
        known.add(name.as_slice())?;
    }
    Ok(())
}

/// Whether each name that is read was assigned by an earlier line, or is known.
#[cycle(scopes)]
#[tactic(auto, using(crate::proofs::Scopes::scope_laws))]
fn is_scoped<'a>(known: &mut TextSet<'a>, tree: &'a Tree) -> Result<bool, AllocError>
    ensures known { OnOk result (known.new ≡ known.old) }
    ensures scoped { IfOk result (λ b. b ≡ limits.is_scoped known.old (form tree.now)) }
{
    match tree {
        Tree::Nil | Tree::True | Tree::Int(_) => Ok(true),
        Tree::Local(name) => Ok(known.contains(name.as_slice())),
        Tree::Puts(e) | Tree::SetLocal(_, e) => is_scoped(known, e),
        Tree::Operate(_, a, b) | Tree::While(a, b) => {
            if !is_scoped(known, a)? {
                return Ok(false);
            }
            is_scoped(known, b)
        }
        Tree::Cond(t, a, b) => {
            if !is_scoped(known, t)? {
                return Ok(false);
            }
            if !is_scoped(known, a)? {
                return Ok(false);
            }
            is_scoped(known, b)
        }
        Tree::Seq(list) => {
            let mark = known.len();
            let scoped = lines_scoped(known, list)?;
            known.truncate(mark);
            Ok(scoped)
        }
    }
}

#[cycle(scopes)]
#[tactic(auto, using(crate::proofs::Scopes::scope_laws))]
fn lines_scoped<'a>(known: &mut TextSet<'a>, lines: &'a [Tree]) -> Result<bool, AllocError>
    ensures known { OnOk result (take (length known.old) known.new ≡ known.old) }
    ensures scoped { IfOk result (λ b. b ≡ limits.lines_scoped known.old (all_forms lines.now)) }
{
    for line in lines {
        if !is_scoped(known, line)? {
            return Ok(false);
        }
        learn(known, line)?;
    }
    Ok(true)
}

fn has_known_names(alloc: Global, tree: &Tree) -> Result<bool, AllocError>
    ensures { IfOk result (λ b. b ≡ limits.is_scoped [] (form tree.now)) }
{
    let mut known = TextSet::new(alloc);
    is_scoped(&mut known, tree)
}

fn has_few_names(alloc: Global, tree: &Tree) -> Result<bool, AllocError>
    ensures { IfOk result (λ b. b ≡ nat_le (length (names_of (form tree.now))) 50) }
{
    let mut names = Vec::new(alloc);
    collect(alloc, &mut names, tree)?;
    Ok(names.len() <= NAMES)
}

#[tactic(auto, using(crate::proofs::Budgets::budget_laws))]
fn has_few_parts(tree: &Tree) -> bool
    ensures { result ≡ nat_le (limits.parts (form tree.now)) 4001 }
{
    parts_left(tree, PARTS).is_some()
}

/// Whether a form is within the limits.
pub fn is_within(alloc: Global, tree: &Tree) -> Result<bool, AllocError>
    ensures { IfOk result (λ b. b ≡ built.is_within (form tree.now)) }
{
    if !is_plain(tree) {
        return Ok(false);
    }
    if !has_known_names(alloc, tree)? {
        return Ok(false);
    }
    if !has_short_sums(tree) {
        return Ok(false);
    }
    // (the names of a form of few parts are soon told apart)
    if !has_few_parts(tree) {
        return Ok(false);
    }
    has_few_names(alloc, tree)
}
