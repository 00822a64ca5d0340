//! How a local is reached from a form.
ghost use Rattle.std.specs.Prelude.{◌≡◌, ◌+◌, IfOk};
ghost use Rattle.ir_core.specs.View.{local_of};
ghost use Rattle.scope_resolver.specs.Layout as layout;

use crate::seek::Search;
use crate::sums::add;
use crate::table::SlotTable;
use ir_core::Local;
use std::alloc::AllocError;

/// Where a local stands: in the register of a body so many levels out. Level 0 is the form's own body.
#[derive(Clone, Copy, Debug, PartialEq, Eq)]
pub struct Place {
    pub levels: u64,
    pub register: u64,
}

/// Register 0 of the form's own body, self.
const SELF: Place = Place {
    levels: 0,
    register: 0,
};

/// A place. It fails only where a number passes 2^64 - 1, which no memory can hold.
pub type Placed = Result<Place, AllocError>;

/// The nearest place of a local that isn't hidden; self where no body has it.
fn nearest(scopes: &[SlotTable], local: &Local) -> Placed
    ensures { IfOk result (λ p. p ≡ layout.place_or_self
        (layout.place_from (local_of local.now) scopes.now 0)) }
{
    let mut levels = 0;
    for scope in scopes {
        match scope.find(local)? {
            Search::Found(register) => return Ok(Place { levels, register }),
            Search::Past(_) => {}
        }
        levels = add(levels, 1)?;
    }
    Ok(SELF)
}

/// How many slots the innermost body has.
#[tactic(auto, using(crate::proofs::Searches::search_laws))]
fn innermost_count(scopes: &[SlotTable]) -> u64
    ensures { result ≡ layout.innermost_count scopes.now }
{
    match scopes.first() {
        Some(scope) => scope.len(),
        None => 0,
    }
}

/// The place of a local from a form that sees these bodies, the innermost first. A name that none of them has stands
/// for self; no program has one.
pub fn place_of(scopes: &[SlotTable], local: &Local) -> Placed
    ensures { IfOk result (λ p. p ≡ layout.place_of scopes.now (local_of local.now)) }
{
    match local {
        Local::Hidden(number) => {
            let register = add(add(1, innermost_count(scopes))?, *number as u64)?;
            Ok(Place {
                levels: 0,
                register,
            })
        }
        Local::Named(_) | Local::Pattern(_) | Local::Rest => nearest(scopes, local),
    }
}

/// The place of a parameter of the method around the text, whatever blocks between name theirs: the method's body is
/// the outermost that the form sees.
#[tactic(auto, using(crate::proofs::Searches::search_laws))]
pub fn own_place(scopes: &[SlotTable], local: &Local) -> Placed
    ensures { IfOk result (λ p. p ≡ layout.own_place scopes.now (local_of local.now)) }
{
    match scopes.last() {
        Some(scope) => match scope.find(local)? {
            Search::Found(register) => Ok(Place {
                levels: (scopes.len() - 1) as u64,
                register,
            }),
            Search::Past(_) => Ok(SELF),
        },
        None => Ok(SELF),
    }
}
