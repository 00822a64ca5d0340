//! `begin` with its clauses, and `for`.
ghost use Rattle.std.specs.Prelude.{◌≡◌, ◌&&◌, IfOk};
ghost use Rattle.parser_tree.specs.Node as node;
ghost use Rattle.parser_tree.specs.PartsBy.{begin_by, boxed_by, rescues_by, tree_by, trees_by};
ghost use Rattle.ir_core.specs.View.{core_view, locals_of};
ghost use Rattle.ir_core.specs.CoreForm as form;
ghost use Rattle.ir_core.specs.Parts as part;
ghost use Rattle.lower_table.specs.Lowering as table;
ghost use Rattle.lower_table.specs.Parts as read;

use crate::functions::function;
use crate::lists::{lower_all, lower_maybe};
use crate::lower::{Lower, deeper};
use crate::stores::{Source, store_all, store_maybe};
use ir_builder::calls::call;
use ir_builder::control::{after, begin};
use ir_core::{BeginForm, Body, Clause, Core, Local, Parameters, Receiver};
use parser_tree::{RescueBody, RescueClause};
use rb_syntax::Item;
use std::alloc::{AllocError, Global};

fn lower_clause<T: Lower>(
    alloc: Global,
    passed: &[Item<Local>],
    depth: usize,
    clause: &RescueClause<Box<T>>,
) -> Result<Clause<Core>, AllocError>
    ensures classes { IfOk result (λ c. part.cores c.classes.items ≡
        table.core_all (table.passes passed.now) depth (trees_by T.node clause.now.classes.items)) }
    ensures target { IfOk result (λ c. part.boxed c.target ≡ table.target_form (table.stores (table.passes passed.now)
        depth (λ k. form.exception) 0 (boxed_by T.node clause.now.target))) }
    ensures body { IfOk result (λ c. core_view c.body ≡
        table.core (table.passes passed.now) depth (tree_by T.node clause.now.body)) }
{
    let classes = lower_all(alloc, passed, depth, &clause.classes)?;
    let target = store_maybe(alloc, passed, depth, Source::Exception, &clause.target)?;
    let body = clause.body.lower(alloc, passed, depth)?;
    Ok(Clause {
        classes,
        target,
        body,
    })
}

#[tactic(auto, using(ir_core::proofs::Lists::clause_turns))]
fn lower_clauses<T: Lower>(
    alloc: Global,
    passed: &[Item<Local>],
    depth: usize,
    clauses: &Vec<RescueClause<Box<T>>>,
) -> Result<Vec<Clause<Core>>, AllocError>
    ensures { IfOk result (λ v. part.clauses v.items ≡
        table.clauses (table.passes passed.now) depth (rescues_by T.node clauses.now.items)) }
{
    let mut all = Vec::new(alloc);
    for clause in clauses {
        let core = lower_clause(alloc, passed, depth, clause)?;
        all.push(core)?;
    }
    Ok(all)
}

/// Whether there is nothing but a body.
#[tactic(auto, using(crate::proofs::Empty::empties))]
fn is_body_alone<T: Lower>(body: &RescueBody<Box<T>>) -> bool
    ensures { result ≡ (read.is_none (rescues_by T.node body.now.clauses.items) && (read.is_none
        (boxed_by T.node body.now.otherwise) && read.is_none (boxed_by T.node body.now.ensure))) }
{
    if !body.clauses.is_empty() {
        return false;
    }
    match &body.otherwise {
        Some(_) => false,
        None => match &body.ensure {
            Some(_) => false,
            None => true,
        },
    }
}

/// A form with clauses.
fn lower_form<T: Lower>(
    alloc: Global,
    passed: &[Item<Local>],
    depth: usize,
    body: &RescueBody<Box<T>>,
) -> Result<Core, AllocError>
    ensures { IfOk result (λ c. core_view c ≡
        form.begin_form (table.core (table.passes passed.now) depth (tree_by T.node body.now.body))
        (table.clauses (table.passes passed.now) depth (rescues_by T.node body.now.clauses.items))
        (table.maybe (table.passes passed.now) depth (boxed_by T.node body.now.otherwise))
        (table.maybe (table.passes passed.now) depth (boxed_by T.node body.now.ensure))) }
{
    let clauses = lower_clauses(alloc, passed, depth, &body.clauses)?;
    let otherwise = lower_maybe(alloc, passed, depth, &body.otherwise)?;
    let ensure = lower_maybe(alloc, passed, depth, &body.ensure)?;
    let body = body.body.lower(alloc, passed, depth)?;
    begin(
        alloc,
        BeginForm {
            body,
            clauses,
            otherwise,
            ensure,
        },
    )
}

/// `begin .. end`: the body where it has nothing else.
pub fn lower_begin<T: Lower>(
    alloc: Global,
    passed: &[Item<Local>],
    depth: usize,
    body: &RescueBody<Box<T>>,
) -> Result<Core, AllocError>
    ensures { IfOk result (λ c. core_view c ≡
        table.core (table.passes passed.now) depth (begin_by T.node body.now)) }
{
    if is_body_alone(body) {
        return body.body.lower(alloc, passed, depth);
    }
    lower_form(alloc, passed, depth, body)
}

/// A parameter for each target of `for`.
#[tactic(auto, using(crate::proofs::Turns::list_turns))]
fn target_locals<T: Lower>(alloc: Global, targets: &[Box<T>]) -> Result<Vec<Local>, AllocError>
    ensures { IfOk result (λ v. locals_of v.items ≡ read.target_locals 0 (trees_by T.node targets.now)) }
{
    let mut locals = Vec::new(alloc);
    let mut place = 0;
    for _target in targets {
        locals.push(Local::Pattern(place))?;
        place = deeper(place, 1)?;
    }
    Ok(locals)
}

/// The block of a `for`: its targets are assigned first.
fn walk_body<T: Lower>(
    alloc: Global,
    passed: &[Item<Local>],
    targets: &Vec<Box<T>>,
    body: &Box<T>,
) -> Result<Body<Core>, AllocError>
    ensures { IfOk result (λ b. part.body_form b ≡
        table.walk_body (table.passes passed.now) (trees_by T.node targets.now.items) (tree_by T.node body.now)) }
{
    let required = target_locals(alloc, targets)?;
    let stores = store_all(alloc, passed, 0, Source::Parameters, targets)?;
    let body = body.lower(alloc, passed, 0)?;
    let form = after(alloc, stores, body)?;
    let parameters = Parameters {
        required,
        optional: Vec::new(alloc),
        rest: None,
        post: Vec::new(alloc),
        block: None,
    };
    Ok(Body {
        parameters,
        locals: Vec::new(alloc),
        form,
    })
}

/// `for`
pub fn lower_for<T: Lower>(
    alloc: Global,
    passed: &[Item<Local>],
    depth: usize,
    targets: &Vec<Box<T>>,
    items: &Box<T>,
    body: &Box<T>,
) -> Result<Core, AllocError>
    ensures { IfOk result (λ c. core_view c ≡
        table.core (table.passes passed.now) depth (node.for_node (trees_by T.node targets.now.items)
        (tree_by T.node items.now) (tree_by T.node body.now))) }
{
    let items = items.lower(alloc, passed, depth)?;
    let body = walk_body(alloc, passed, targets, body)?;
    let block = function(alloc, body)?;
    call(
        alloc,
        Receiver::To(items),
        b"each",
        Vec::new(alloc),
        Some(block),
    )
}
