//! The cache of the search for methods.
ghost use Rattle.std.specs.Prelude.{◌≡◌, ◌+◌, ◌-◌, ◌^◌, ◌<◌, ◌≤◌, [], None, Some, length, nat_eq, IsOk, IfOk, IfSome, IsSome, OnOk, OnErr};
ghost use Rattle.def_core.specs.Classes.{chain};
ghost use Rattle.def_core.specs.Find as defined;
ghost use Rattle.def_core.specs.Sound.{Sound, census, Is, ClassOrModule, OptionIs, IsFound};
ghost use Rattle.rb_store.specs.Held.{Held};
ghost use Rattle.method_lookup.specs.Cache as caches;
ghost use Rattle.method_lookup.specs.Probes.{probes, counted};

use crate::counted::find_counted;
use def_core::Found;
use indexmap::IndexMap;
use rb_base::Steps;
use rb_store::Store;
use rb_value::{ObjId, SymId};
use std::alloc::{AllocError, Global};
use std::marker::Model;

/// What was found for pairs of a class and a name, with the number of changes of the store under which it was found.
#[derive(Drop)]
pub struct Cache {
    number: u64,
    kept: IndexMap<(u64, u64), Found>,
}

impl Model for Cache {
    ghost use Rattle.method_lookup.specs.Cache.{Cache as Seen};

    ghost Value = { Seen };

    ghost view = { λ c. record { number = c.number; kept = c.kept.entries } };
}

/// A cache that keeps nothing and goes with every store. It takes no memory.
pub fn new_cache(alloc: Global) -> Cache
    ensures empty { result.kept ≡ [] }
    ensures goes_with { (held : Held) → caches.GoesWith result held }
{
    Cache {
        number: 0,
        kept: IndexMap::new(alloc),
    }
}

impl Cache {
    /// The number of changes under which it was filled.
    pub fn number(&self) -> u64
        ensures { result ≡ self.now.number }
    {
        self.number
    }

    /// The place of a pair among those that are kept. It takes no memory.
    pub fn place_of(&self, class: ObjId, name: SymId) -> Option<usize>
        ensures place { result ≡ caches.place_of self.now class name }
        ensures reads { IfSome result (λ place.
            caches.read_at self.now place class name ≡ caches.kept_of self.now class name) }
        ensures missing { result ≡ None → caches.kept_of self.now class name ≡ None }
    {
        self.kept.get_index_of(&(class.0, name.0))
    }

    /// What was found for the class and the name whose pair stands at a place; nothing where another pair stands there,
    /// or none. It takes no memory.
    pub fn found_at(&self, place: usize, class: ObjId, name: SymId) -> Option<Found>
        ensures found { result ≡ caches.read_at self.now place class name }
        ensures kept { IfSome result (λ found. caches.kept_of self.now class name ≡ Some found) }
    {
        match self.kept.get_index(place) {
            Some((pair, found)) => {
                if pair.0 == class.0 && pair.1 == name.0 {
                    Some(*found)
                } else {
                    None
                }
            }
            None => None,
        }
    }

    /// What is known of the pair without a search.
    fn known(&self, changes: u64, class: ObjId, name: SymId) -> Option<Found>
        ensures { result ≡ caches.known self.now changes class name }
    {
        if self.number == changes && changes < u64::MAX {
            self.kept.get(&(class.0, name.0)).copied()
        } else {
            None
        }
    }

    /// Keeps nothing that was found under another number.
    fn renew(&mut self, changes: u64)
        ensures number { self.new.number ≡ changes }
        ensures kept { self.new.kept ≡ caches.kept_under self.old changes }
    {
        if self.number != changes {
            self.kept.clear();
            self.number = changes;
        }
    }

    /// Keeps what was found. Where memory runs out the cache is as before.
    fn keep(
        &mut self,
        changes: u64,
        class: ObjId,
        name: SymId,
        found: Found,
    ) -> Result<(), AllocError>
        ensures ok { OnOk result (self.new ≡ caches.learned self.old changes class name (Some found)) }
        ensures err { OnErr result (self.new ≡ self.old) }
    {
        self.kept.reserve(1)?;
        if self.number != changes {
            self.kept.clear();
            self.number = changes;
        }
        self.kept.insert((class.0, name.0), found)?;
        Ok(())
    }

    /// Keeps what a search gave. Where memory runs out the cache is as before.
    fn learn(
        &mut self,
        changes: u64,
        class: ObjId,
        name: SymId,
        found: Option<Found>,
    ) -> Result<(), AllocError>
        ensures ok { OnOk result (self.new ≡ caches.learned self.old changes class name found) }
        ensures err { OnErr result (self.new ≡ self.old) }
    {
        match found {
            Some(found) => self.keep(changes, class, name, found)?,
            None => self.renew(changes),
        }
        Ok(())
    }
}

/// What [`find`](class_model::find) gives. A pair that is kept under the store's number of changes needs no search, no
/// step and no memory; at the last number, 2^64 - 1, nothing is trusted. Else each class or module that is asked for
/// the name ticks once, and what is found is kept. Where memory runs out the cache is as before.
#[tactic(auto, using(crate::proofs::Caches::right_answer, crate::proofs::Caches::known_is_kept, crate::proofs::Caches::learned_goes, crate::proofs::Caches::learned_number, crate::proofs::Caches::learned_stays, crate::proofs::Caches::learned_keeps, crate::proofs::Places::same_places, crate::proofs::Places::learned_places, class_model::proofs::Found::found_is_sound))]
pub fn find_cached(
    cache: &mut Cache,
    st: &Store,
    class: ObjId,
    name: SymId,
    steps: &mut Steps,
) -> Result<Option<Found>, AllocError>
    requires sound { Sound st.now.store }
    requires class { Is (census st.now.store) ClassOrModule class }
    requires goes_with { caches.GoesWith cache.old st.now }
    ensures found { IfOk result (λ f. f ≡ defined.find st.now.store.objects class name) }
    ensures sound { IfOk result (OptionIs (IsFound (census st.now.store))) }
    ensures goes_with { caches.GoesWith cache.new st.now }
    ensures err { OnErr result (cache.new ≡ cache.old) }
    ensures hit { IsSome (caches.known cache.old st.now.changes class name) → steps.new ≡ steps.old }
    ensures hit_is_ok { IsSome (caches.known cache.old st.now.changes class name) → IsOk result }
    ensures search { caches.known cache.old st.now.changes class name ≡ None →
        steps.new ≡ counted steps.old (probes st.now.store.objects (chain st.now.store.objects class) name) }
    ensures probes { steps.new ≤ steps.old + length (chain st.now.store.objects class) }
    ensures number { OnOk result (cache.new.number ≡ st.now.changes) }
    ensures stays { OnOk result (caches.Stays cache.old cache.new st.now.changes) }
    ensures places { OnOk result (caches.PlacesStay cache.old cache.new st.now.changes) }
    ensures keeps { IfOk result (λ f. IfSome f (λ x.
        st.now.changes < 2 ^ 64 - 1 → caches.kept_of cache.new class name ≡ Some x)) }
{
    let changes = st.changes();
    if let Some(found) = cache.known(changes, class, name) {
        return Ok(Some(found));
    }
    let found = find_counted(st, class, name, steps);
    cache.learn(changes, class, name, found)?;
    Ok(found)
}
