//! Statements, branches, loops, and forms with clauses.
ghost use Rattle.std.specs.Prelude.{◌≡◌, IfOk};
ghost use Rattle.ir_core.specs.CoreForm as form;
ghost use Rattle.ir_core.specs.View.{core_view, term_view};
ghost use Rattle.ir_core.specs.Parts as part;
ghost use Rattle.ir_core.specs.Forms as built;
ghost use Rattle.ir_builder.specs.Forms as lowered;

use crate::leaf::nil;
use ir_core::{BeginForm, Clause, Core, Term};
use rb_syntax::{Branch, Pair};
use std::alloc::{AllocError, Global};

#[tactic(auto, using(ir_core::proofs::Views::core_views))]
fn hash_term(pairs: Vec<Pair<Core>>) -> Term
    ensures { term_view result ≡ form.hash (part.pairs pairs.items) }
{
    Term::Hash(pairs)
}

/// A Hash of pairs.
pub fn hash(alloc: Global, pairs: Vec<Pair<Core>>) -> Result<Core, AllocError>
    ensures { IfOk result (λ c. core_view c ≡ form.hash (part.pairs pairs.items)) }
{
    hash_term(pairs).into_core(alloc)
}

#[tactic(auto, using(ir_core::proofs::Views::core_views))]
fn text_term(pieces: Vec<Core>) -> Term
    ensures { term_view result ≡ form.text (part.cores pieces.items) }
{
    Term::Text(pieces)
}

/// The String of some pieces.
pub fn text(alloc: Global, pieces: Vec<Core>) -> Result<Core, AllocError>
    ensures { IfOk result (λ c. core_view c ≡ form.text (part.cores pieces.items)) }
{
    text_term(pieces).into_core(alloc)
}

#[tactic(auto, using(ir_core::proofs::Views::core_views))]
fn cond_term(branches: Vec<Branch<Core>>, otherwise: Core) -> Term
    ensures { term_view result ≡ form.cond (part.branches branches.items) (core_view otherwise) }
{
    Term::Cond(branches, otherwise)
}

/// Branches, and the form done where no test is true.
pub fn cond(alloc: Global, branches: Vec<Branch<Core>>, otherwise: Core) -> Result<Core, AllocError>
    ensures { IfOk result (λ c. core_view c ≡ form.cond (part.branches branches.items) (core_view otherwise)) }
{
    cond_term(branches, otherwise).into_core(alloc)
}

/// One test.
pub fn choice(alloc: Global, test: Core, body: Core, otherwise: Core) -> Result<Core, AllocError>
    ensures { IfOk result (λ c. core_view c ≡ form.cond (form.branch (core_view test) (core_view body) form.no_branches)
        (core_view otherwise)) }
{
    let mut branches = Vec::new(alloc);
    branches.push(Branch { test, body })?;
    cond(alloc, branches, otherwise)
}

#[tactic(auto, using(ir_core::proofs::Views::core_views))]
fn seq_term(statements: Vec<Core>) -> Term
    ensures { term_view result ≡ form.seq (part.cores statements.items) }
{
    Term::Seq(statements)
}

/// Forms one after the other.
pub fn seq(alloc: Global, statements: Vec<Core>) -> Result<Core, AllocError>
    ensures { IfOk result (λ c. core_view c ≡ form.seq (part.cores statements.items)) }
{
    seq_term(statements).into_core(alloc)
}

/// A form with some before it.
#[tactic(auto, using(ir_core::proofs::Lists::form_lists))]
pub fn after(alloc: Global, before: Vec<Core>, last: Core) -> Result<Core, AllocError>
    ensures { IfOk result (λ c. core_view c ≡ built.after (part.cores before.items) (core_view last)) }
{
    let mut statements = before;
    if statements.is_empty() {
        return Ok(last);
    }
    statements.push(last)?;
    seq(alloc, statements)
}

/// Statements: none are nil, and one stands for itself.
#[tactic(auto, using(ir_core::proofs::Lists::statement_lists))]
pub fn sequence(alloc: Global, statements: Vec<Core>) -> Result<Core, AllocError>
    ensures { IfOk result (λ c. core_view c ≡ built.sequence (part.cores statements.items)) }
{
    let mut before = statements;
    match before.pop() {
        None => nil(alloc),
        Some(last) => after(alloc, before, last),
    }
}

/// `&&` of two forms.
pub fn both(alloc: Global, left: Core, right: Core) -> Result<Core, AllocError>
    ensures { IfOk result (λ c. core_view c ≡ form.and_form (core_view left) (core_view right)) }
{
    Term::And(left, right).into_core(alloc)
}

/// `||` of two forms.
pub fn either(alloc: Global, left: Core, right: Core) -> Result<Core, AllocError>
    ensures { IfOk result (λ c. core_view c ≡ form.or_form (core_view left) (core_view right)) }
{
    Term::Or(left, right).into_core(alloc)
}

/// Tests of which one is to be true.
pub fn any_of(alloc: Global, tests: Vec<Core>) -> Result<Core, AllocError>
    ensures { IfOk result (λ c. core_view c ≡ lowered.any_of (part.cores tests.items)) }
{
    let mut before = tests;
    let Some(last) = before.pop() else {
        return Term::False.into_core(alloc);
    };
    let mut whole = last;
    'tests: while let Some(test) = before.pop() {
        whole = either(alloc, test, whole)?;
    }
    Ok(whole)
}

fn loop_test(alloc: Global, until: bool, test: Core) -> Result<Core, AllocError>
    ensures { IfOk result (λ c. core_view c ≡ built.loop_test until (core_view test)) }
{
    if until {
        let body = Term::False.into_core(alloc)?;
        let otherwise = Term::True.into_core(alloc)?;
        choice(alloc, test, body, otherwise)
    } else {
        Ok(test)
    }
}

/// A loop; `until` turns its test.
pub fn repetition(
    alloc: Global,
    until: bool,
    body_first: bool,
    test: Core,
    body: Core,
) -> Result<Core, AllocError>
    ensures { IfOk result (λ c. core_view c ≡ form.while_form body_first (built.loop_test until (core_view test))
        (core_view body)) }
{
    let test = loop_test(alloc, until, test)?;
    Term::While {
        body_first,
        test,
        body,
    }
    .into_core(alloc)
}

#[tactic(auto, using(ir_core::proofs::Views::core_views))]
fn begin_term(form: Box<BeginForm<Core>>) -> Term
    ensures { term_view result ≡ part.begin_form form.value }
{
    Term::Begin(form)
}

/// A body with clauses, a part for where nothing was raised, and an ensure part.
pub fn begin(alloc: Global, form: BeginForm<Core>) -> Result<Core, AllocError>
    ensures { IfOk result (λ c. core_view c ≡ part.begin_form form) }
{
    begin_term(Box::new(alloc, form)?).into_core(alloc)
}

/// A form, and another where it raises a StandardError.
pub fn rescued(alloc: Global, body: Core, rescue: Core) -> Result<Core, AllocError>
    ensures { IfOk result (λ c. core_view c ≡ built.rescued (core_view body) (core_view rescue)) }
{
    let mut clauses = Vec::new(alloc);
    clauses.push(Clause {
        classes: Vec::new(alloc),
        target: None,
        body: rescue,
    })?;
    begin(
        alloc,
        BeginForm {
            body,
            clauses,
            otherwise: None,
            ensure: None,
        },
    )
}

/// A form, or nil where it raises a StandardError.
pub fn nil_on_error(alloc: Global, body: Core) -> Result<Core, AllocError>
    ensures { IfOk result (λ c. core_view c ≡ built.nil_on_error (core_view body)) }
{
    let rescue = nil(alloc)?;
    rescued(alloc, body, rescue)
}
