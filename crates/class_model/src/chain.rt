//! The walk along the chain of a class.
ghost use Rattle.std.specs.Prelude.{◌≡◌, ◌∷◌, [], drop, filter, not};
ghost use Rattle.def_core.specs.Classes as classes;
ghost use Rattle.def_core.specs.Sound.{Sound, census, Is, Any, ClassOrModule, AllAre};
ghost use Rattle.class_model.specs.AncestorsLeft.{ancestors_left, IsAncestry};
ghost use Rattle.class_model.specs.Chain.{left, IsWalk, IsMember, Steps};

use crate::ancestry::Ancestors;
use rb_store::Store;
use rb_value::{KindRef, ObjId};

/// A walk along the chain of a class: the modules of the last class that are left, and the superclass that follows.
#[derive(Clone, Copy)]
pub struct Chain<'a> {
    store: &'a Store,
    included: &'a [ObjId],
    at: usize,
    above: Option<ObjId>,
}

/// The modules that a class or module includes, in the order of look-up. It takes no memory.
#[tactic(auto, using(def_core::proofs::Good::is_good))]
pub fn included_in(st: &Store, class: ObjId) -> &[ObjId]
    requires { Is (census st.now.store) ClassOrModule class }
    ensures { result.now ≡ (classes.class_at st.now.store.objects class).included }
{
    match st.get(class).kind() {
        KindRef::Class(contents) => contents.get().included.as_slice(),
        _ => &[],
    }
}

/// The superclass of a class; none of any other object. It takes no memory.
#[tactic(auto, using(def_core::proofs::Good::is_good))]
pub(crate) fn above(st: &Store, id: ObjId) -> Option<ObjId>
    requires { Is (census st.now.store) Any id }
    ensures { result ≡ (classes.class_at st.now.store.objects id).superclass }
{
    st.get(id).superclass()
}

/// The superclass of a class. It takes no memory.
#[tactic(auto, using(crate::proofs::Lineages::any_of))]
pub fn superclass_of(st: &Store, class: ObjId) -> Option<ObjId>
    requires { Is (census st.now.store) ClassOrModule class }
    ensures { result ≡ (classes.class_at st.now.store.objects class).superclass }
{
    above(st, class)
}

/// The members of the chain of a class or module that are no singleton classes, itself among them
/// (ISO/IEC 30170:2012, 13.1). It takes no memory.
#[tactic(auto, using(crate::proofs::Found::ancestors_are_classes))]
pub fn ancestors(st: &Store, class: ObjId) -> Ancestors
    requires sound { Sound st.now.store }
    requires class { Is (census st.now.store) ClassOrModule class }
    ensures left { ancestors_left result ≡ classes.ancestors st.now.store.objects class }
    ensures ancestry { IsAncestry result }
    ensures classes { AllAre (Is (census st.now.store) ClassOrModule) (classes.ancestors st.now.store.objects class) }
{
    Ancestors::of(st, class)
}

impl<'a> Chain<'a> {
    /// The walk along the chain of a class or module, from itself on. It takes no memory.
    pub fn of(store: &'a Store, class: ObjId) -> Chain<'a>
        requires sound { Sound store.now.store }
        requires class { Is (census store.now.store) ClassOrModule class }
        ensures left { left result ≡ classes.chain store.now.store.objects class }
        ensures walk { IsWalk result }
        ensures store { result.store.now ≡ store.now }
    {
        Chain {
            store,
            included: &[],
            at: 0,
            above: Some(class),
        }
    }

    /// The walk along what follows a class in its chain.
    #[tactic(auto, using(crate::proofs::Walks::chain_behind, crate::proofs::Walks::above_is_class, crate::proofs::Walks::included_are_classes))]
    fn behind(store: &'a Store, class: ObjId) -> Chain<'a>
        requires sound { Sound store.now.store }
        requires class { Is (census store.now.store) ClassOrModule class }
        ensures left { classes.chain store.now.store.objects class ≡ class ∷ left result }
        ensures walk { IsWalk result }
        ensures store { result.store.now ≡ store.now }
    {
        let included = included_in(store, class);
        let above = superclass_of(store, class);
        Chain {
            store,
            included,
            at: 0,
            above,
        }
    }

    /// The next member. It takes no memory.
    #[tactic(auto, using(crate::proofs::Walks::member_at))]
    pub fn next(&mut self) -> Option<ObjId>
        requires { IsWalk self.old }
        ensures step { Steps (left self.old) result (left self.new) }
        ensures member { IsMember self.old result }
        ensures walk { IsWalk self.new }
        ensures store { self.new.store.now ≡ self.old.store.now }
    {
        if self.at < self.included.len() {
            let module = self.included[self.at];
            self.at += 1;
            return Some(module);
        }
        match self.above {
            Some(class) => {
                *self = Chain::behind(self.store, class);
                Some(class)
            }
            None => None,
        }
    }
}
