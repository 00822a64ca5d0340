//! A body as the forms in it see it.
ghost use Rattle.std.specs.Prelude.{◌≡◌, ◌+◌, length, IfOk};
ghost use Rattle.ir_core.specs.View.{local_of, maybe_local, parameters_of};
ghost use Rattle.scope_resolver.specs.Layout as layout;
ghost use Rattle.scope_resolver.specs.Scope.{slots_at};

use crate::body_kind::BodyKind;
use crate::seek::{Search, Sought, seek, seek_block, seek_optional};
use crate::sums::add;
use ir_core::{Local, Parameters};
use std::alloc::AllocError;

/// A body as the forms in it see it: what it stands for, its parameters, and its other locals.
#[derive(Clone, Copy)]
pub struct Scope<'a> {
    pub kind: BodyKind,
    pub parameters: &'a Parameters,
    pub locals: &'a [Local],
}

/// Goes on through the slots of the parameters.
#[tactic(auto, using(crate::proofs::Searches::search_laws))]
fn seek_parameters(local: &Local, parameters: &Parameters, from: Search) -> Sought
    ensures { IfOk result (λ s. s ≡ layout.seek (local_of local.now)
        (layout.parameter_slots (parameters_of parameters.now)) from) }
{
    let required = seek(local, parameters.required.as_slice(), from)?;
    let optional = seek(local, parameters.optional.as_slice(), required)?;
    let rest = seek_optional(local, &parameters.rest, optional)?;
    let post = seek(local, parameters.post.as_slice(), rest)?;
    seek_block(local, &parameters.block, post)
}

/// Whether a body of this kind has parameters.
pub fn has_parameters(kind: BodyKind) -> bool
    ensures { result ≡ layout.has_parameters kind }
{
    match kind {
        BodyKind::Main | BodyKind::Class => false,
        BodyKind::Method | BodyKind::Block => true,
    }
}

/// Looks for a local among the slots of a body, from register 1 on. Past is what comes after them.
#[tactic(auto, using(crate::proofs::Searches::search_laws))]
pub fn seek_scope(local: &Local, scope: &Scope) -> Sought
    ensures { IfOk result (λ s. s ≡ layout.seek (local_of local.now) (slots_at scope.now) (layout.past 1)) }
{
    let from = if has_parameters(scope.kind) {
        seek_parameters(local, scope.parameters, Search::Past(1))?
    } else {
        Search::Past(1)
    };
    seek(local, scope.locals, from)
}

fn optional_count(local: &Option<Local>) -> u64
    ensures { result ≡ length (maybe_local local.now) }
{
    match local {
        Some(_) => 1,
        None => 0,
    }
}

#[tactic(auto, using(crate::proofs::Searches::search_laws))]
fn parameter_count(parameters: &Parameters) -> Result<u64, AllocError>
    ensures { IfOk result (λ n. n ≡ length (layout.parameter_slots (parameters_of parameters.now))) }
{
    let required = add(
        parameters.required.len() as u64,
        parameters.optional.len() as u64,
    )?;
    let rest = add(required, optional_count(&parameters.rest))?;
    let post = add(rest, parameters.post.len() as u64)?;
    add(post, 1)
}

/// How many slots a body has.
#[tactic(auto, using(crate::proofs::Searches::search_laws))]
pub fn slot_count(scope: &Scope) -> Result<u64, AllocError>
    ensures { IfOk result (λ n. n ≡ length (slots_at scope.now)) }
{
    let bound = if has_parameters(scope.kind) {
        parameter_count(scope.parameters)?
    } else {
        0
    };
    add(bound, scope.locals.len() as u64)
}
