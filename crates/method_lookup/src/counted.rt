//! A search for a method that counts what it asks.
ghost use Rattle.std.specs.Prelude.{◌≡◌, ◌+◌, ◌≤◌, None, length};
ghost use Rattle.def_core.specs.Find as defined;
ghost use Rattle.def_core.specs.Classes.{chain};
ghost use Rattle.def_core.specs.Sound.{Sound, census, Is, ClassOrModule};
ghost use Rattle.class_model.specs.Chain.{left, IsWalk};
ghost use Rattle.method_lookup.specs.Probes.{probes, counted};

use class_model::finding::found_as;
use class_model::{Chain, own_entry, own_method};
use def_core::Found;
use rb_base::Steps;
use rb_store::Store;
use rb_value::{ObjId, SymId};

/// What a class finds in its own list.
fn own_found(st: &Store, class: ObjId, name: SymId) -> Option<Found>
    requires { Is (census st.now.store) ClassOrModule class }
    ensures { result ≡ defined.found_or class (defined.entry_of st.now.store.objects class name) None }
{
    match own_entry(st, class, name) {
        Some(entry) => found_as(class, entry),
        None => None,
    }
}

/// The method of the first member of the rest of a walk that has the name. Each member that is asked ticks once.
#[tactic(auto, using(class_model::proofs::Search::first_step, class_model::proofs::Search::first_none, class_model::proofs::Search::shorter, class_model::proofs::Search::still_class))]
fn first_counted(walk: &mut Chain, st: &Store, name: SymId, steps: &mut Steps) -> Option<Found>
    requires walk { IsWalk walk.old }
    requires store { walk.old.store.now ≡ st.now }
    ensures found { result ≡ defined.first_of st.now.store.objects (left walk.old) name }
    ensures ticks { steps.new ≡
        counted steps.old (probes st.now.store.objects (left walk.old) name) }
{
    'members: while let Some(class) = walk.next() {
        match own_method(st, class, name, steps) {
            Some(_) => return own_found(st, class, name),
            None => {}
        }
    }
    None
}

/// What [`find`](class_model::find) gives. Each class or module that is asked for the name ticks once. It takes no
/// memory.
#[tactic(auto, using(crate::proofs::Probes::asked_at_most), unfolding(def_core::specs::Find::find))]
pub(crate) fn find_counted(
    st: &Store,
    class: ObjId,
    name: SymId,
    steps: &mut Steps,
) -> Option<Found>
    requires sound { Sound st.now.store }
    requires class { Is (census st.now.store) ClassOrModule class }
    ensures found { result ≡ defined.find st.now.store.objects class name }
    ensures ticks { steps.new ≡
        counted steps.old (probes st.now.store.objects (chain st.now.store.objects class) name) }
    ensures probes { steps.new ≤ steps.old + length (chain st.now.store.objects class) }
{
    let mut walk = Chain::of(st, class);
    first_counted(&mut walk, st, name, steps)
}
