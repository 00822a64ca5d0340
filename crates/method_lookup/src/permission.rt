//! Who may call a method.
ghost use Rattle.std.specs.Prelude.{◌≡◌};
ghost use Rattle.def_core.specs.Classes.{is_member};
ghost use Rattle.def_core.specs.Find as defined;
ghost use Rattle.def_core.specs.Sound.{Sound, census, IsValue};
ghost use Rattle.class_model.specs.Chain.{left, IsWalk};

use class_model::{Chain, class_of};
use def_core::Found;
use rb_store::Store;
use rb_value::{ObjId, Value, Visibility};

/// Whether a class or module is on the rest of a walk.
#[tactic(auto, using(crate::proofs::Behind::member_step, crate::proofs::Behind::member_end, class_model::proofs::Search::shorter))]
fn is_on(walk: &mut Chain, owner: ObjId) -> bool
    requires { IsWalk walk.old }
    ensures { result ≡ is_member (left walk.old) owner }
{
    'members: while let Some(member) = walk.next() {
        if member.0 == owner.0 {
            return true;
        }
    }
    false
}

/// Whether two values are the same one.
fn is_same(a: Value, b: Value) -> bool
    ensures { result ≡ defined.same_value a b }
{
    a == b
}

/// Whether a caller may call what was found on a receiver (ISO/IEC 30170:2012, 13.3.5): a public method always, a
/// private one on itself, and a protected one where the caller has its owner among the ancestors. It takes no memory.
#[tactic(auto, unfolding(def_core::specs::Find::allowed))]
pub fn allowed(st: &Store, caller: Value, recv: Value, found: &Found) -> bool
    requires sound { Sound st.now.store }
    requires caller { IsValue (census st.now.store) caller }
    ensures { result ≡ defined.allowed st.now.store.objects caller recv found.now }
{
    match found.visibility {
        Visibility::Public => true,
        Visibility::Private => is_same(caller, recv),
        Visibility::Protected => {
            let mut walk = Chain::of(st, class_of(st, caller));
            is_on(&mut walk, found.owner)
        }
    }
}
