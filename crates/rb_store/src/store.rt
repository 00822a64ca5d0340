ghost use Rattle.std.specs.Prelude.{◌≡◌, ◌<◌, ◌^◌, ◌++◌, length, true, false, slice_get, IfOk, OnOk, OnErr, IfSome, MatchOption};
ghost use Rattle.rb_value.specs.CoreClass.{number_of};
ghost use Rattle.rb_value.specs.Sort.{sort_of};
ghost use Rattle.def_core.specs.Store.{absent, object_at, sort_at, set_object, with_object, next_number, name_at, core};
ghost use Rattle.def_core.specs.Changes as defined;
ghost use Rattle.def_core.specs.Parts.{with_objects};
ghost use Rattle.def_core.specs.Sound.{Sound, SoundObject, SoundFrom, census, has_object, IsGood};
ghost use Rattle.rb_store.specs.Keeps.{Keeps};
ghost use Rattle.rb_store.specs.Held.{changes_after};
ghost use Rattle.rb_store.specs.Counted.{IsCounted};

use crate::symbols::Symbols;
use chunk_list::ChunkList;
use rb_base::List;
use rb_value::{CoreClass, ObjId, Object, Sort, SymId};
use std::alloc::{AllocError, Global};
use std::marker::Model;
use std::mem;

/// A store of objects and symbols. It only grows.
#[derive(Drop)]
pub struct Store {
    pub(crate) alloc: Global,
    pub(crate) objects: ChunkList<Object>,
    pub(crate) symbols: Symbols,
    pub(crate) changes: u64,
}

impl Model for Store {
    ghost use Rattle.rb_store.specs.Held.{Held};

    ghost Value = { Held };

    ghost view = { λ s. record {
      store = record { objects = s.objects; symbols = s.symbols };
      changes = s.changes;
    } };
}

/// The count of changes after a change of an object of that sort: it rises with each change of a class or module and
/// stays at its limit.
pub(crate) fn raised(changes: u64, sort: Sort) -> u64
    ensures { result ≡ changes_after changes sort }
{
    match sort {
        Sort::Class | Sort::Singleton | Sort::Module => changes.saturating_add(1),
        _ => changes,
    }
}

impl Store {
    /// The allocator of the store.
    pub fn alloc(&self) -> Global {
        self.alloc
    }

    /// How many objects there are.
    pub fn len(&self) -> u64
        ensures count { result ≡ length self.now.store.objects }
        ensures bounded { result < 2 ^ 63 }
    {
        self.objects.len() as u64
    }

    /// The number of changes of classes and modules. It never falls; where it stayed and is below 2^64 - 1, no class
    /// or module changed.
    pub fn changes(&self) -> u64
        ensures { result ≡ self.now.changes }
    {
        self.changes
    }

    /// The sort of the object of that number. None where none stands there.
    #[inline(always)]
    #[tactic(auto, using(def_core::proofs::Good::good_below, def_core::proofs::Good::sort_found, def_core::proofs::Good::none_there, def_core::proofs::Good::absent_past))]
    pub fn sort(&self, id: ObjId) -> Option<Sort>
        ensures sort { result ≡ slice_get (census self.now.store).sorts id.0 }
        ensures good { IfSome result (λ sort. IsGood self.now.store id) }
        ensures read { MatchOption result (object_at self.now.store.objects id ≡ absent)
            (λ sort. sort_at self.now.store.objects id ≡ sort) }
    {
        if id.0 < self.len() {
            Some(self.get(id).sort())
        } else {
            None
        }
    }

    /// Whether an object of that number stands there.
    #[inline(always)]
    #[tactic(auto, using(def_core::proofs::Good::good_has))]
    pub fn has(&self, id: ObjId) -> bool
        ensures there { result ≡ has_object self.now.store.objects id }
        ensures good { result ≡ true → IsGood self.now.store id }
        ensures none { result ≡ false → object_at self.now.store.objects id ≡ absent }
    {
        self.sort(id).is_some()
    }

    /// The object of that number.
    pub fn get(&self, id: ObjId) -> &Object
        requires { IsGood self.now.store id }
        ensures { result.now ≡ object_at self.now.store.objects id }
    {
        self.objects.get(id.0 as usize)
    }

    /// Puts an object after the others, and gives its number. Where memory runs out all is as before.
    #[tactic(auto, using(crate::proofs::Counted::added_counted, crate::proofs::Counted::unchanged))]
    pub fn add(&mut self, object: Object) -> Result<ObjId, AllocError>
        ensures number { IfOk result (λ id. id ≡ next_number self.old.store) }
        ensures ok { OnOk result (self.new.store ≡ with_object self.old.store object) }
        ensures changes { self.new.changes ≡ self.old.changes }
        ensures counted { IsCounted self.old self.new }
        ensures err { OnErr result (self.new.store ≡ self.old.store) }
        ensures keeps { Sound self.old.store
            → SoundObject (census self.old.store) (length self.old.store.objects) object → Keeps self.old self.new }
    {
        let id = ObjId(self.objects.len() as u64);
        self.objects.push(object)?;
        Ok(id)
    }

    /// Puts objects after the others, in their order; they may name each other by the numbers that they get. Where memory
    /// runs out all is as before.
    pub fn add_all(&mut self, objects: List<Object>) -> Result<(), AllocError>
        requires sound { Sound self.old.store }
        requires objects { SoundFrom (census (with_objects self.old.store (self.old.store.objects ++ objects)))
            (length self.old.store.objects) objects }
        ensures keeps { Keeps self.old self.new }
        ensures ok { OnOk result (self.new.store ≡ record self.old.store
            { objects = self.old.store.objects ++ objects }) }
        ensures changes { self.new.changes ≡ self.old.changes }
        ensures err { OnErr result (self.new.store ≡ self.old.store) }
    {
        self.objects.append(objects.into_vec())
    }

    /// Puts an object of the same sort in the place of another, which it gives back. It takes no memory.
    #[tactic(auto, using(def_core::proofs::Good::good_within, crate::proofs::Counted::set_counted))]
    pub fn set(&mut self, id: ObjId, object: Object) -> Object
        requires there { IsGood self.old.store id }
        requires sort { sort_of object.kind ≡ sort_at self.old.store.objects id }
        ensures old { result ≡ object_at self.old.store.objects id }
        ensures objects { self.new.store ≡ record self.old.store
            { objects = set_object self.old.store.objects id object } }
        ensures changes { self.new.changes ≡ changes_after self.old.changes (sort_of object.kind) }
        ensures counted { IsCounted self.old self.new }
        ensures keeps { Sound self.old.store → SoundObject (census self.old.store) id.0 object
            → Keeps self.old self.new }
    {
        self.changes = raised(self.changes, object.sort());
        mem::replace(self.objects.get_mut(id.0 as usize), object)
    }

    /// The name of a symbol.
    pub fn symbol_name(&self, symbol: SymId) -> &[u8]
        requires { symbol.0 < length self.now.store.symbols }
        ensures { result.now ≡ name_at self.now.store symbol }
    {
        self.symbols.name_at(symbol.0 as usize)
    }

    /// How many symbols there are.
    pub fn symbol_count(&self) -> u64
        ensures { result ≡ length self.now.store.symbols }
    {
        self.symbols.len() as u64
    }

    /// The symbol of a name, which is added where it isn't there. Where memory runs out all is as before.
    #[tactic(auto, using(crate::proofs::Counted::interned_counted, crate::proofs::Counted::unchanged))]
    pub fn intern(&mut self, name: &[u8]) -> Result<SymId, AllocError>
        ensures symbol { IfOk result (λ s. s ≡ (defined.intern self.old.store name.now).symbol) }
        ensures ok { OnOk result (self.new.store ≡ (defined.intern self.old.store name.now).store) }
        ensures within { IfOk result (λ s. s.0 < length self.new.store.symbols) }
        ensures objects { OnOk result (self.new.store.objects ≡ self.old.store.objects) }
        ensures changes { self.new.changes ≡ self.old.changes }
        ensures counted { IsCounted self.old self.new }
        ensures err { OnErr result (self.new.store ≡ self.old.store) }
        ensures keeps { Sound self.old.store → Keeps self.old self.new }
    {
        match self.symbols.place_of(name) {
            Some(place) => Ok(SymId(place as u64)),
            None => {
                let symbol = SymId(self.symbols.len() as u64);
                self.symbols.push(self.alloc, name)?;
                Ok(symbol)
            }
        }
    }

    /// The number of the object of a core class. It takes no memory.
    pub fn class_object(&self, class: CoreClass) -> ObjId
        ensures { result ≡ core class }
    {
        ObjId(class.number())
    }
}
