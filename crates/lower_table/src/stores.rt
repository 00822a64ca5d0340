//! Assignments to targets.
ghost use Rattle.std.specs.Prelude.{◌≡◌, ◌+◌, IfOk};
ghost use Rattle.parser_tree.specs.Node as node;
ghost use Rattle.parser_tree.specs.PartsBy.{boxed_by, targets_by, tree_by, trees_by};
ghost use Rattle.ir_core.specs.View.{core_view};
ghost use Rattle.ir_core.specs.Parts as part;
ghost use Rattle.lower_table.specs.Lowering as table;
ghost use Rattle.lower_table.specs.Parts as read;
ghost use Rattle.lower_table.specs.Sources.{source_form};
ghost use Rattle.lower_table.specs.declared.stores.Source.TheVariants as source;

use crate::lower::{Lower, deeper};
use ir_builder::control::seq;
use ir_builder::hidden::{element, elements_between, keep, last_elements, local_number};
use ir_builder::leaf::local;
use ir_core::{Core, Local, Term};
use parser_tree::TargetList;
use rb_syntax::Item;
use std::alloc::{AllocError, Global};

/// Where the values of a list of targets come from.
#[derive(Clone, Copy, Debug, PartialEq, Eq)]
pub enum Source {
    /// The elements of the value in hidden local `of`, from the first on.
    Elements { of: usize },
    /// Its elements between the first `from` and the last `post` ones.
    Between { of: usize, from: usize, post: usize },
    /// The parameters that stand for patterns.
    Parameters,
    /// The exception of a rescue clause.
    Exception,
}

/// What a source gives the target at a place.
pub fn source_core(alloc: Global, source: Source, place: usize) -> Result<Core, AllocError>
    ensures { IfOk result (λ c. core_view c ≡ source_form source place) }
{
    match source {
        Source::Elements { of } => element(alloc, of, place),
        Source::Between { of, from, post } => elements_between(alloc, of, from, post),
        Source::Parameters => local(alloc, Local::Pattern(place)),
        Source::Exception => Term::Exception.into_core(alloc),
    }
}

/// The assignment of what a source gives to the target at a place.
fn store_from<T: Lower>(
    alloc: Global,
    passed: &[Item<Local>],
    depth: usize,
    source: Source,
    place: usize,
    target: &Box<T>,
) -> Result<Core, AllocError>
    ensures { IfOk result (λ c. core_view c ≡
        table.store (table.passes passed.now) depth (tree_by T.node target.now) (source_form source place)) }
{
    let value = source_core(alloc, source, place)?;
    target.store(alloc, passed, depth, value)
}

#[tactic(auto, using(ir_core::proofs::Lists::form_turns))]
fn store_each<T: Lower>(
    alloc: Global,
    passed: &[Item<Local>],
    depth: usize,
    source: Source,
    targets: &[Box<T>],
) -> Result<Vec<Core>, AllocError>
    ensures { IfOk result (λ v. part.cores v.items ≡
        table.stores (table.passes passed.now) depth (source_form source) 0 (trees_by T.node targets.now)) }
{
    let mut all = Vec::new(alloc);
    let mut place = 0;
    for target in targets {
        let core = store_from(alloc, passed, depth, source, place, target)?;
        all.push(core)?;
        place = deeper(place, 1)?;
    }
    Ok(all)
}

/// The assignments to the targets of a list.
pub fn store_all<T: Lower>(
    alloc: Global,
    passed: &[Item<Local>],
    depth: usize,
    source: Source,
    targets: &Vec<Box<T>>,
) -> Result<Vec<Core>, AllocError>
    ensures { IfOk result (λ v. part.cores v.items ≡
        table.stores (table.passes passed.now) depth (source_form source) 0 (trees_by T.node targets.now.items)) }
{
    let all = store_each(alloc, passed, depth, source, targets)?;
    Ok(all)
}

/// The assignment to a target that may be there.
pub fn store_maybe<T: Lower>(
    alloc: Global,
    passed: &[Item<Local>],
    depth: usize,
    source: Source,
    target: &Option<Box<T>>,
) -> Result<Option<Core>, AllocError>
    ensures { IfOk result (λ o. part.boxed o ≡ table.target_form
        (table.stores (table.passes passed.now) depth (source_form source) 0 (boxed_by T.node target.now))) }
{
    match target {
        None => Ok(None),
        Some(target) => {
            let core = store_from(alloc, passed, depth, source, 0, target)?;
            Ok(Some(core))
        }
    }
}

/// How many trees there are.
#[tactic(auto, using(crate::proofs::Counts::counted))]
fn count_of<T: Lower>(trees: &Vec<Box<T>>) -> usize
    ensures { result ≡ read.count (trees_by T.node trees.now.items) }
{
    trees.len()
}

/// The hidden locals of a group with so many targets after a star: the value, and what these are taken from.
pub fn group_width(after: usize) -> usize
    ensures { result ≡ table.group_width after }
{
    if after == 0 { 1 } else { 2 }
}

/// The assignment to the target of a star, from the elements between the first `from` and the last `post` ones of the
/// value in hidden local `of`.
fn store_rest<T: Lower>(
    alloc: Global,
    passed: &[Item<Local>],
    depth: usize,
    source: Source,
    target: &Option<Box<T>>,
) -> Result<Vec<Core>, AllocError>
    ensures { IfOk result (λ v. part.cores v.items ≡
        table.stores (table.passes passed.now) depth (source_form source) 0 (boxed_by T.node target.now)) }
{
    let mut all = Vec::new(alloc);
    match target {
        None => Ok(all),
        Some(target) => {
            let core = store_from(alloc, passed, depth, source, 0, target)?;
            all.push(core)?;
            Ok(all)
        }
    }
}

/// Keeps what `post` targets after a star are taken from, where there are any: the last elements of the value in hidden
/// local `of`, none of them before the first `from`.
fn keep_tail(alloc: Global, of: usize, from: usize, post: usize) -> Result<Vec<Core>, AllocError>
    ensures { IfOk result (λ v. part.cores v.items ≡ table.tail_kept of from post) }
{
    let mut all = Vec::new(alloc);
    if post == 0 {
        return Ok(all);
    }
    let number = deeper(of, 1)?;
    let last = last_elements(alloc, of, from, post)?;
    let kept = keep(alloc, number, last)?;
    all.push(kept)?;
    Ok(all)
}

/// The assignments to the targets after a star, from the elements kept for them.
fn store_tail<T: Lower>(
    alloc: Global,
    passed: &[Item<Local>],
    depth: usize,
    of: usize,
    targets: &Vec<Box<T>>,
) -> Result<Vec<Core>, AllocError>
    ensures { IfOk result (λ v. part.cores v.items ≡
        table.stores (table.passes passed.now) depth (source_form (source.Elements (of + 1))) 0
        (trees_by T.node targets.now.items)) }
{
    let number = deeper(of, 1)?;
    store_all(
        alloc,
        passed,
        depth,
        Source::Elements { of: number },
        targets,
    )
}

/// The assignments to the targets of a group from the value in hidden local `depth`.
#[tactic(auto, using(crate::proofs::Pushes::appends))]
fn store_group<T: Lower>(
    alloc: Global,
    passed: &[Item<Local>],
    depth: usize,
    targets: &TargetList<Box<T>>,
) -> Result<Vec<Core>, AllocError>
    ensures { IfOk result (λ v. part.cores v.items ≡
        table.group_stores (table.passes passed.now) depth (trees_by T.node targets.now.before.items)
        (boxed_by T.node targets.now.rest) (trees_by T.node targets.now.after.items)) }
{
    let from = count_of(&targets.before);
    let post = count_of(&targets.after);
    let inner = deeper(depth, group_width(post))?;
    let front = Source::Elements { of: depth };
    let between = Source::Between {
        of: depth,
        from,
        post,
    };
    let mut all = store_all(alloc, passed, inner, front, &targets.before)?;
    let mut rest = store_rest(alloc, passed, inner, between, &targets.rest)?;
    let mut tail = keep_tail(alloc, depth, from, post)?;
    let mut after = store_tail(alloc, passed, inner, depth, &targets.after)?;
    all.append(&mut rest)?;
    all.append(&mut tail)?;
    all.append(&mut after)?;
    Ok(all)
}

/// The assignment of a value to a group of targets, whose value is the whole.
#[tactic(auto, using(crate::proofs::Pushes::appends))]
pub fn store_targets<T: Lower>(
    alloc: Global,
    passed: &[Item<Local>],
    depth: usize,
    targets: &TargetList<Box<T>>,
    value: Core,
) -> Result<Core, AllocError>
    ensures { IfOk result (λ c. core_view c ≡
        table.store (table.passes passed.now) depth (targets_by T.node targets.now) (core_view value)) }
{
    let mut statements = Vec::new(alloc);
    let kept = keep(alloc, depth, value)?;
    statements.push(kept)?;
    let mut stores = store_group(alloc, passed, depth, targets)?;
    statements.append(&mut stores)?;
    let whole = local_number(alloc, depth)?;
    statements.push(whole)?;
    seq(alloc, statements)
}

/// Several targets and one value.
pub fn lower_multiple<T: Lower>(
    alloc: Global,
    passed: &[Item<Local>],
    depth: usize,
    targets: &TargetList<Box<T>>,
    value: &Box<T>,
) -> Result<Core, AllocError>
    ensures { IfOk result (λ c. core_view c ≡
        table.core (table.passes passed.now) depth (node.multiple_assign (targets_by T.node targets.now)
        (tree_by T.node value.now))) }
{
    let inner = deeper(depth, group_width(count_of(&targets.after)))?;
    let value = value.lower(alloc, passed, inner)?;
    store_targets(alloc, passed, depth, targets, value)
}

/// A target and its value.
pub fn lower_assign<T: Lower>(
    alloc: Global,
    passed: &[Item<Local>],
    depth: usize,
    target: &Box<T>,
    value: &Box<T>,
) -> Result<Core, AllocError>
    ensures { IfOk result (λ c. core_view c ≡
        table.core (table.passes passed.now) depth (node.assign (tree_by T.node target.now) (tree_by T.node value.now))) }
{
    let inner = target.past(depth)?;
    let value = value.lower(alloc, passed, inner)?;
    target.store(alloc, passed, depth, value)
}
