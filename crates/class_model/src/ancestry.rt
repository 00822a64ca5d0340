//! The ancestors of a class, one after another.
ghost use Rattle.std.specs.Prelude.{◌≡◌};
ghost use Rattle.std.specs.Iterator.{YieldsFirst, item_count};
ghost use Rattle.def_core.specs.Classes as classes;
ghost use Rattle.def_core.specs.Sound.{Sound, census, Is, ClassOrModule};
ghost use Rattle.class_model.specs.AncestorsLeft.{ancestors_left, IsAncestry};

use crate::chain::Chain;
use rb_store::Store;
use rb_value::{ClassForm, KindRef, ObjId};

/// The members of the chain of a class that are no singleton classes, in their order.
#[derive(Clone, Copy)]
pub struct Ancestors<'a> {
    store: &'a Store,
    walk: Chain<'a>,
}

/// Whether it is a singleton class. It takes no memory.
#[tactic(auto, using(def_core::proofs::Good::is_good))]
fn is_singleton(st: &Store, class: ObjId) -> bool
    requires { Is (census st.now.store) ClassOrModule class }
    ensures { result ≡ classes.is_singleton (classes.class_at st.now.store.objects class).form }
{
    match st.get(class).kind() {
        KindRef::Class(contents) => contents.get().form == ClassForm::Singleton,
        _ => false,
    }
}

impl<'a> Ancestors<'a> {
    /// The ancestors of a class or module, itself included. It takes no memory.
    #[tactic(auto, unfolding(def_core::specs::Classes::ancestors))]
    pub fn of(store: &'a Store, class: ObjId) -> Ancestors<'a>
        requires sound { Sound store.now.store }
        requires class { Is (census store.now.store) ClassOrModule class }
        ensures left { ancestors_left result ≡ classes.ancestors store.now.store.objects class }
        ensures ancestry { IsAncestry result }
    {
        Ancestors {
            store,
            walk: Chain::of(store, class),
        }
    }
}

impl<'a> Iterator for Ancestors<'a> {
    type Item = ObjId;

    ghost can_next = { IsAncestry };

    ghost next_gives = { YieldsFirst ancestors_left };

    ghost remaining = { item_count ancestors_left };

    #[tactic(auto)]
    fn next(&mut self) -> Option<ObjId> {
        'singletons: while let Some(class) = self.walk.next() {
            if !is_singleton(self.store, class) {
                return Some(class);
            }
        }
        None
    }
}
