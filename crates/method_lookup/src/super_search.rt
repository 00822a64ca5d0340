//! The search for a method after its owner.
ghost use Rattle.std.specs.Prelude.{◌≡◌};
ghost use Rattle.def_core.specs.Find as defined;
ghost use Rattle.def_core.specs.Sound.{Sound, census, Is, ClassOrModule, OptionIs, IsFound};
ghost use Rattle.class_model.specs.Chain.{left, IsWalk};

use class_model::{Chain, first_of};
use def_core::Found;
use rb_store::Store;
use rb_value::{ObjId, SymId};

/// Takes a walk past the owner; past its end where the owner isn't on it.
#[tactic(auto, using(crate::proofs::Behind::behind_step, crate::proofs::Behind::behind_end, class_model::proofs::Search::shorter))]
fn pass(walk: &mut Chain, owner: ObjId)
    requires { IsWalk walk.old }
    ensures left { left walk.new ≡ defined.behind owner (left walk.old) }
    ensures walk { IsWalk walk.new }
    ensures store { walk.new.store.now ≡ walk.old.store.now }
{
    'members: while let Some(member) = walk.next() {
        if member.0 == owner.0 {
            return;
        }
    }
}

/// The method that `super` finds in a method of that name and owner: that of the first class or module with the name
/// after the owner in the chain of the class (ISO/IEC 30170:2012, 11.3.3). None where the owner isn't in the chain. It
/// takes no memory.
#[tactic(auto, unfolding(def_core::specs::Find::find_super), using(crate::proofs::Supers::super_is_sound))]
pub fn find_super(st: &Store, class: ObjId, owner: ObjId, name: SymId) -> Option<Found>
    requires sound { Sound st.now.store }
    requires class { Is (census st.now.store) ClassOrModule class }
    ensures found { result ≡ defined.find_super st.now.store.objects class owner name }
    ensures sound { OptionIs (IsFound (census st.now.store)) result }
{
    let mut walk = Chain::of(st, class);
    pass(&mut walk, owner);
    first_of(&mut walk, st, name)
}
