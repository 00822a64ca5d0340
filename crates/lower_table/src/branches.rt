//! Branches, loops and the branches of a case.
ghost use Rattle.std.specs.Prelude.{◌≡◌, ◌+◌, map, IfOk, Some};
ghost use Rattle.parser_tree.specs.Node as node;
ghost use Rattle.ir_core.specs.View.{core_view};
ghost use Rattle.ir_core.specs.CoreForm as form;
ghost use Rattle.ir_core.specs.Forms.{first_or};
ghost use Rattle.ir_core.specs.Parts as part;
ghost use Rattle.ir_builder.specs.Forms as built;
ghost use Rattle.lower_table.specs.Lowering as table;
ghost use Rattle.parser_tree.specs.PartsBy.{boxed_by, branches_by, tree_by, trees_by, whens_by};
ghost use Rattle.lower_table.specs.Subject.{asks_number};

use crate::lists::{lower_all, lower_or_nil};
use crate::lower::{Lower, deeper};
use ir_builder::calls::send_one;
use ir_builder::control::{any_of, choice, cond, repetition, seq};
use ir_builder::hidden::{keep, local_number};
use ir_core::{Core, Local};
use parser_tree::WhenClause;
use rb_syntax::{Branch, Item};
use std::alloc::{AllocError, Global};

fn lower_branch<T: Lower>(
    alloc: Global,
    passed: &[Item<Local>],
    depth: usize,
    branch: &Branch<Box<T>>,
) -> Result<Branch<Core>, AllocError>
    ensures test { IfOk result (λ b. core_view b.test ≡
        table.core (table.passes passed.now) depth (tree_by T.node branch.now.test)) }
    ensures body { IfOk result (λ b. core_view b.body ≡
        table.core (table.passes passed.now) depth (tree_by T.node branch.now.body)) }
{
    let test = branch.test.lower(alloc, passed, depth)?;
    let body = branch.body.lower(alloc, passed, depth)?;
    Ok(Branch { test, body })
}

#[tactic(auto, using(ir_core::proofs::Lists::branch_turns))]
fn lower_branches<T: Lower>(
    alloc: Global,
    passed: &[Item<Local>],
    depth: usize,
    branches: &Vec<Branch<Box<T>>>,
) -> Result<Vec<Branch<Core>>, AllocError>
    ensures { IfOk result (λ v. part.branches v.items ≡
        table.branches (table.passes passed.now) depth (branches_by T.node branches.now.items)) }
{
    let mut all = Vec::new(alloc);
    for branch in branches {
        let core = lower_branch(alloc, passed, depth, branch)?;
        all.push(core)?;
    }
    Ok(all)
}

/// `if` with its branches.
pub fn lower_if<T: Lower>(
    alloc: Global,
    passed: &[Item<Local>],
    depth: usize,
    branches: &Vec<Branch<Box<T>>>,
    otherwise: &Option<Box<T>>,
) -> Result<Core, AllocError>
    ensures { IfOk result (λ c. core_view c ≡
        table.core (table.passes passed.now) depth (node.if_node (branches_by T.node branches.now.items)
        (boxed_by T.node otherwise.now))) }
{
    let branches = lower_branches(alloc, passed, depth, branches)?;
    let otherwise = lower_or_nil(alloc, passed, depth, otherwise)?;
    cond(alloc, branches, otherwise)
}

/// `unless`
pub fn lower_unless<T: Lower>(
    alloc: Global,
    passed: &[Item<Local>],
    depth: usize,
    test: &Box<T>,
    body: &Box<T>,
    otherwise: &Option<Box<T>>,
) -> Result<Core, AllocError>
    ensures { IfOk result (λ c. core_view c ≡
        table.core (table.passes passed.now) depth (node.unless_node (tree_by T.node test.now) (tree_by T.node body.now)
        (boxed_by T.node otherwise.now))) }
{
    let test = test.lower(alloc, passed, depth)?;
    let body = body.lower(alloc, passed, depth)?;
    let otherwise = lower_or_nil(alloc, passed, depth, otherwise)?;
    choice(alloc, test, otherwise, body)
}

/// `while` and `until`
pub fn lower_while<T: Lower>(
    alloc: Global,
    passed: &[Item<Local>],
    depth: usize,
    until: bool,
    body_first: bool,
    test: &Box<T>,
    body: &Box<T>,
) -> Result<Core, AllocError>
    ensures { IfOk result (λ c. core_view c ≡
        table.core (table.passes passed.now) depth (node.while_node until body_first (tree_by T.node test.now)
        (tree_by T.node body.now))) }
{
    let test = test.lower(alloc, passed, depth)?;
    let body = body.lower(alloc, passed, depth)?;
    repetition(alloc, until, body_first, test, body)
}

/// The tests of a case: on the subject that a hidden local holds, or alone.
#[tactic(auto, using(crate::proofs::Cases::asked_laws))]
fn ask_subject(
    alloc: Global,
    subject: Option<usize>,
    tests: Vec<Core>,
) -> Result<Vec<Core>, AllocError>
    ensures { IfOk result (λ v. part.cores v.items ≡ table.asked_by subject (part.cores tests.items)) }
{
    match subject {
        None => Ok(tests),
        Some(number) => ask_number(alloc, number, tests),
    }
}

fn ask_number(alloc: Global, number: usize, tests: Vec<Core>) -> Result<Vec<Core>, AllocError>
    ensures { IfOk result (λ v. map core_view v.items ≡ map (asks_number number) (map core_view tests.items)) }
{
    let mut all = Vec::new(alloc);
    for test in tests {
        let subject = local_number(alloc, number)?;
        let asked = send_one(alloc, test, b"===", subject)?;
        all.push(asked)?;
    }
    Ok(all)
}

fn lower_when<T: Lower>(
    alloc: Global,
    passed: &[Item<Local>],
    depth: usize,
    subject: Option<usize>,
    clause: &WhenClause<Box<T>>,
) -> Result<Branch<Core>, AllocError>
    ensures test { IfOk result (λ b. core_view b.test ≡
        built.any_of (table.asked_by subject (table.core_all (table.passes passed.now) depth
        (trees_by T.node clause.now.tests.items)))) }
    ensures body { IfOk result (λ b. core_view b.body ≡
        table.core (table.passes passed.now) depth (tree_by T.node clause.now.body)) }
{
    let tests = lower_all(alloc, passed, depth, &clause.tests)?;
    let tests = ask_subject(alloc, subject, tests)?;
    let test = any_of(alloc, tests)?;
    let body = clause.body.lower(alloc, passed, depth)?;
    Ok(Branch { test, body })
}

#[tactic(auto, using(ir_core::proofs::Lists::branch_turns))]
fn lower_whens<T: Lower>(
    alloc: Global,
    passed: &[Item<Local>],
    depth: usize,
    subject: Option<usize>,
    clauses: &Vec<WhenClause<Box<T>>>,
) -> Result<Vec<Branch<Core>>, AllocError>
    ensures { IfOk result (λ v. part.branches v.items ≡
        table.whens (table.passes passed.now) depth (table.asked_by subject) (whens_by T.node clauses.now.items)) }
{
    let mut all = Vec::new(alloc);
    for clause in clauses {
        let branch = lower_when(alloc, passed, depth, subject, clause)?;
        all.push(branch)?;
    }
    Ok(all)
}

fn lower_tests<T: Lower>(
    alloc: Global,
    passed: &[Item<Local>],
    depth: usize,
    subject: Option<usize>,
    clauses: &Vec<WhenClause<Box<T>>>,
    otherwise: &Option<Box<T>>,
) -> Result<Core, AllocError>
    ensures { IfOk result (λ c. core_view c ≡
        form.cond (table.whens (table.passes passed.now) depth (table.asked_by subject)
        (whens_by T.node clauses.now.items)) (first_or form.nil (table.core_all (table.passes passed.now) depth
        (boxed_by T.node otherwise.now)))) }
{
    let branches = lower_whens(alloc, passed, depth, subject, clauses)?;
    let otherwise = lower_or_nil(alloc, passed, depth, otherwise)?;
    cond(alloc, branches, otherwise)
}

/// The tests of a case on its subject, which hidden local `depth` keeps.
fn lower_subject<T: Lower>(
    alloc: Global,
    passed: &[Item<Local>],
    depth: usize,
    subject: &Box<T>,
    clauses: &Vec<WhenClause<Box<T>>>,
    otherwise: &Option<Box<T>>,
) -> Result<Core, AllocError>
    ensures { IfOk result (λ c. core_view c ≡
        form.seq (form.two (built.keep depth (table.core (table.passes passed.now) (depth + 1)
        (tree_by T.node subject.now))) (form.cond (table.whens (table.passes passed.now) (depth + 1)
        (table.asked_by (Some depth)) (whens_by T.node clauses.now.items)) (first_or form.nil (table.core_all
        (table.passes passed.now) (depth + 1) (boxed_by T.node otherwise.now)))))) }
{
    let inner = deeper(depth, 1)?;
    let subject = subject.lower(alloc, passed, inner)?;
    let kept = keep(alloc, depth, subject)?;
    let tests = lower_tests(alloc, passed, inner, Some(depth), clauses, otherwise)?;
    let mut statements = Vec::new(alloc);
    statements.push(kept)?;
    statements.push(tests)?;
    seq(alloc, statements)
}

/// `case` with a subject or without.
pub fn lower_case<T: Lower>(
    alloc: Global,
    passed: &[Item<Local>],
    depth: usize,
    subject: &Option<Box<T>>,
    clauses: &Vec<WhenClause<Box<T>>>,
    otherwise: &Option<Box<T>>,
) -> Result<Core, AllocError>
    ensures { IfOk result (λ c. core_view c ≡
        table.core (table.passes passed.now) depth (node.case_node (boxed_by T.node subject.now)
        (whens_by T.node clauses.now.items) (boxed_by T.node otherwise.now))) }
{
    match subject {
        None => lower_tests(alloc, passed, depth, None, clauses, otherwise),
        Some(subject) => lower_subject(alloc, passed, depth, subject, clauses, otherwise),
    }
}
