//! Changes of one part of a class or module, in place.
ghost use Rattle.std.specs.Prelude.{◌≡◌, ◌<◌, true, length, Some, IfOk, OnOk, OnErr};
ghost use Rattle.def_core.specs.Store.{object_at, sort_at, set_object, next_number};
ghost use Rattle.def_core.specs.Classes.{class_at, with_class};
ghost use Rattle.def_core.specs.Changes as defined;
ghost use Rattle.def_core.specs.Parts.{with_objects, with_singleton_class};
ghost use Rattle.def_core.specs.Sound.{plays, ClassOrModule, Module, Sound, SoundMethod, SoundObject, census, Is, IsSymbol, IsValue, AllAre, IsGood};
ghost use Rattle.rb_value.specs.Sort.{sort_of};
ghost use Rattle.rb_value.specs.declared.kind.Sort.TheVariants as sorts;
ghost use Rattle.rb_store.specs.Keeps.{Keeps};
ghost use Rattle.rb_store.specs.Held.{one_more};
ghost use Rattle.rb_store.specs.Counted.{IsCounted};

use crate::store::Store;
use rb_base::List;
use rb_value::{Method, MethodEntry, ObjId, Object, SymId, Value, Visibility};
use std::alloc::AllocError;

impl Store {
    /// The visibility with which a method of that name is kept: `initialize` is always private.
    fn visibility_for(&self, name: SymId, visibility: Visibility) -> Visibility
        requires { name.0 < length self.now.store.symbols }
        ensures { result ≡ defined.visibility_for self.now.store name visibility }
    {
        if self.symbol_name(name) == b"initialize".as_slice() {
            Visibility::Private
        } else {
            visibility
        }
    }

    /// Puts a method into the own list of a class or module. Where memory runs out all is as before.
    #[tactic(auto, using(def_core::proofs::Good::good_within, def_core::proofs::Roles::plays_class, crate::proofs::Counted::counted_more), unfolding(def_core::specs::Changes::with_method))]
    pub fn put_method(
        &mut self,
        class: ObjId,
        name: SymId,
        method: Method,
        visibility: Visibility,
    ) -> Result<(), AllocError>
        requires there { IsGood self.old.store class }
        requires is_class { plays ClassOrModule (sort_at self.old.store.objects class) ≡ true }
        requires name { name.0 < length self.old.store.symbols }
        ensures ok { OnOk result (self.new.store ≡ defined.with_method self.old.store class name method visibility) }
        ensures changes { OnOk result (self.new.changes ≡ one_more self.old.changes) }
        ensures counted { IsCounted self.old self.new }
        ensures err { OnErr result (self.new ≡ self.old) }
        ensures keeps { Sound self.old.store → SoundMethod (census self.old.store) method → Keeps self.old self.new }
    {
        let visibility = self.visibility_for(name, visibility);
        self.objects
            .get_mut(class.0 as usize)
            .put_method(name, MethodEntry { method, visibility })?;
        self.changes = self.changes.saturating_add(1);
        Ok(())
    }

    /// Sets the visibility of the next methods of a class or module. It takes no memory.
    #[tactic(auto, using(def_core::proofs::Good::good_within, def_core::proofs::Roles::plays_class), unfolding(def_core::specs::Changes::with_default))]
    pub fn put_default(&mut self, class: ObjId, visibility: Visibility)
        requires there { IsGood self.old.store class }
        requires is_class { plays ClassOrModule (sort_at self.old.store.objects class) ≡ true }
        ensures store { self.new.store ≡
            record self.old.store { objects = defined.with_default self.old.store.objects class visibility } }
        ensures changes { self.new.changes ≡ self.old.changes }
        ensures counted { IsCounted self.old self.new }
        ensures keeps { Sound self.old.store → Keeps self.old self.new }
    {
        self.objects
            .get_mut(class.0 as usize)
            .set_visibility(visibility);
    }

    /// Puts a constant into a class or module: one that is there keeps its place, and a new one goes last. Where memory
    /// runs out all is as before.
    #[tactic(auto, using(def_core::proofs::Roles::plays_class))]
    pub fn put_constant(
        &mut self,
        class: ObjId,
        name: SymId,
        value: Value,
    ) -> Result<(), AllocError>
        requires there { IsGood self.old.store class }
        requires is_class { plays ClassOrModule (sort_at self.old.store.objects class) ≡ true }
        ensures ok { OnOk result (self.new.store ≡ record self.old.store {
          objects = defined.with_constant self.old.store.objects class name value;
        }) }
        ensures changes { self.new.changes ≡ self.old.changes }
        ensures counted { IsCounted self.old self.new }
        ensures err { OnErr result (self.new ≡ self.old) }
        ensures keeps { Sound self.old.store → IsSymbol (census self.old.store) name
            → IsValue (census self.old.store) value → Keeps self.old self.new }
    {
        self.objects
            .get_mut(class.0 as usize)
            .put_constant(name, value)?;
        Ok(())
    }

    /// Puts another list of included modules into a class or module. It takes no memory.
    #[tactic(auto, using(def_core::proofs::Good::good_within, def_core::proofs::Roles::plays_class, crate::proofs::Counted::counted_more))]
    pub fn put_included(&mut self, class: ObjId, included: List<ObjId>)
        requires there { IsGood self.old.store class }
        requires is_class { plays ClassOrModule (sort_at self.old.store.objects class) ≡ true }
        ensures store { self.new.store ≡ record self.old.store {
          objects = with_class self.old.store.objects class
              (record (class_at self.old.store.objects class) { included = included });
        } }
        ensures changes { self.new.changes ≡ one_more self.old.changes }
        ensures counted { IsCounted self.old self.new }
        ensures keeps { Sound self.old.store → AllAre (Is (census self.old.store) Module) included
            → Keeps self.old self.new }
    {
        self.objects
            .get_mut(class.0 as usize)
            .set_included(included);
        self.changes = self.changes.saturating_add(1);
    }

    /// Gives an object a singleton class. Where memory runs out all is as before.
    fn set_singleton(&mut self, id: ObjId, singleton: ObjId) -> Result<(), AllocError>
        requires { id.0 < length self.old.store.objects }
        ensures ok { OnOk result (self.new ≡ record self.old {
          store = with_objects self.old.store (set_object self.old.store.objects id
              (record (object_at self.old.store.objects id) { singleton = Some singleton }));
        }) }
        ensures err { OnErr result (self.new ≡ self.old) }
    {
        let alloc = self.alloc;
        self.objects
            .get_mut(id.0 as usize)
            .set_singleton(alloc, singleton)
    }

    /// Puts a singleton class after the other objects and gives it to an object. Where memory runs out all is as before.
    #[tactic(auto, using(def_core::proofs::Good::good_within, crate::proofs::Attached::attached))]
    pub fn add_singleton(&mut self, id: ObjId, class: Object) -> Result<ObjId, AllocError>
        requires { IsGood self.old.store id }
        ensures number { IfOk result (λ singleton. singleton ≡ next_number self.old.store) }
        ensures ok { OnOk result (self.new.store ≡ record self.old.store {
          objects = with_singleton_class self.old.store.objects id class;
        }) }
        ensures changes { self.new.changes ≡ self.old.changes }
        ensures counted { IsCounted self.old self.new }
        ensures err { OnErr result (self.new ≡ self.old) }
        ensures keeps { Sound self.old.store → sort_of class.kind ≡ sorts.Singleton
            → SoundObject (census self.old.store) (length self.old.store.objects) class → Keeps self.old self.new }
    {
        let count = self.objects.len();
        self.objects.push(class)?;
        let singleton = ObjId(count as u64);
        match self.set_singleton(id, singleton) {
            Ok(()) => Ok(singleton),
            Err(error) => {
                self.objects.truncate(count);
                Err(error)
            }
        }
    }
}
