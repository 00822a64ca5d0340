//! The search for a local among the slots of a body.
ghost use Rattle.std.specs.Prelude.{◌≡◌, ◌+◌, Some, None, IfOk};
ghost use Rattle.ir_core.specs.Program.{are_same};
ghost use Rattle.ir_core.specs.View.{local_of, locals_of, maybe_local};
ghost use Rattle.scope_resolver.specs.Layout as layout;

use ir_core::Local;
use std::alloc::AllocError;

/// How far a search has come.
#[derive(Clone, Copy, Debug, PartialEq, Eq)]
pub enum Search {
    /// It ended at this register.
    Found(u64),
    /// It goes on at this register.
    Past(u64),
}

/// A search. It fails only where a register's number passes 2^64 - 1, which no memory can hold.
pub type Sought = Result<Search, AllocError>;

/// Whether both are the same local.
pub fn is_same(a: &Local, b: &Local) -> bool
    ensures { result ≡ are_same (local_of a.now) (local_of b.now) }
{
    match (a, b) {
        (Local::Named(x), Local::Named(y)) => x.as_slice() == y.as_slice(),
        (Local::Hidden(d), Local::Hidden(e)) => *d == *e,
        (Local::Pattern(k), Local::Pattern(l)) => *k == *l,
        (Local::Rest, Local::Rest) => true,
        _ => false,
    }
}

fn next(register: u64) -> Sought
    ensures { IfOk result (λ s. s ≡ layout.past (register + 1)) }
{
    match register.checked_add(1) {
        Some(sum) => Ok(Search::Past(sum)),
        None => Err(AllocError),
    }
}

/// Goes past the slot of a local.
fn seek_one(local: &Local, other: &Local, from: Search) -> Sought
    ensures { IfOk result (λ s. s ≡ layout.at_slot (local_of local.now) (Some (local_of other.now)) from) }
{
    match from {
        Search::Found(register) => Ok(Search::Found(register)),
        Search::Past(register) => {
            if is_same(local, other) {
                Ok(Search::Found(register))
            } else {
                next(register)
            }
        }
    }
}

/// Goes past a slot without a local.
fn skip_one(local: &Local, from: Search) -> Sought
    ensures { IfOk result (λ s. s ≡ layout.at_slot (local_of local.now) None from) }
{
    match from {
        Search::Found(register) => Ok(Search::Found(register)),
        Search::Past(register) => next(register),
    }
}

/// Goes on through some locals.
pub fn seek(local: &Local, list: &[Local], from: Search) -> Sought
    ensures { IfOk result (λ s. s ≡ layout.seek (local_of local.now) (layout.named_slots (locals_of list.now)) from) }
{
    let mut at = from;
    for other in list {
        at = seek_one(local, other, at)?;
    }
    Ok(at)
}

/// Goes on past a local that may be there.
pub fn seek_optional(local: &Local, other: &Option<Local>, from: Search) -> Sought
    ensures { IfOk result (λ s. s ≡
        layout.seek (local_of local.now) (layout.named_slots (maybe_local other.now)) from) }
{
    match other {
        Some(other) => seek_one(local, other, from),
        None => Ok(from),
    }
}

/// Goes on past the register of the block, which has a local where the block has a name.
pub fn seek_block(local: &Local, block: &Option<Local>, from: Search) -> Sought
    ensures { IfOk result (λ s. s ≡ layout.seek (local_of local.now) (layout.block_slot (maybe_local block.now)) from) }
{
    match block {
        Some(other) => seek_one(local, other, from),
        None => skip_one(local, from),
    }
}
