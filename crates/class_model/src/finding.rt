//! The search for a method along a chain.
ghost use Rattle.std.specs.Prelude.{◌≡◌};
ghost use Rattle.def_core.specs.Find as defined;
ghost use Rattle.def_core.specs.Sound.{Sound, census, Is, ClassOrModule, OptionIs, IsFound};
ghost use Rattle.class_model.specs.Chain.{left, IsWalk};

use crate::chain::Chain;
use crate::methods::own_entry;
use def_core::Found;
use rb_store::Store;
use rb_value::{Method, MethodEntry, ObjId, SymId};

/// What an entry of that owner is to the search: an undefined one ends it with nothing.
pub fn found_as(owner: ObjId, entry: MethodEntry) -> Option<Found>
    ensures { result ≡ defined.found_as owner entry.visibility entry.method }
{
    match entry.method {
        Method::Undefined => None,
        method => Some(Found {
            owner,
            method,
            visibility: entry.visibility,
        }),
    }
}

/// The method of the first member of the rest of a walk that has the name, and none where that entry is undefined. It
/// takes no memory.
#[tactic(auto, using(crate::proofs::Search::first_step, crate::proofs::Search::first_none, crate::proofs::Search::shorter, crate::proofs::Search::still_class))]
pub fn first_of(walk: &mut Chain, st: &Store, name: SymId) -> Option<Found>
    requires walk { IsWalk walk.old }
    requires store { walk.old.store.now ≡ st.now }
    ensures { result ≡ defined.first_of st.now.store.objects (left walk.old) name }
{
    'members: while let Some(class) = walk.next() {
        match own_entry(st, class, name) {
            Some(entry) => return found_as(class, entry),
            None => {}
        }
    }
    None
}

/// The method that a call of that name finds in a class: that of the first member of its chain that has the name
/// (ISO/IEC 30170:2012, 13.3.4). It takes no memory.
#[tactic(auto, unfolding(def_core::specs::Find::find), using(crate::proofs::Found::found_is_sound))]
pub fn find(st: &Store, class: ObjId, name: SymId) -> Option<Found>
    requires sound { Sound st.now.store }
    requires class { Is (census st.now.store) ClassOrModule class }
    ensures found { result ≡ defined.find st.now.store.objects class name }
    ensures sound { OptionIs (IsFound (census st.now.store)) result }
{
    let mut walk = Chain::of(st, class);
    first_of(&mut walk, st, name)
}
