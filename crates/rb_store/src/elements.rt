//! The elements of Arrays, in place.
ghost use Rattle.std.specs.Prelude.{◌≡◌, ◌<◌, ◌-◌, ◌∷◌, [], length, slice_get, OnOk, OnErr};
ghost use Rattle.rb_value.specs.declared.kind.Sort.TheVariants as sorts;
ghost use Rattle.def_core.specs.Store.{sort_at};
ghost use Rattle.def_core.specs.Parts as parts;
ghost use Rattle.def_core.specs.Sound.{Sound, census, IsValue, AllAre, IsGood};
ghost use Rattle.rb_store.specs.Keeps.{Keeps};

use crate::store::Store;
use rb_value::{Items, ObjId, Value};
use std::alloc::AllocError;

impl Store {
    /// The elements of an Array; none of any other object. It takes no memory.
    pub fn elements(&self, id: ObjId) -> &[Value]
        requires { IsGood self.now.store id }
        ensures { result.now ≡ parts.elements_at self.now.store.objects id }
    {
        self.get(id).items()
    }

    /// Puts a value in the place of an element. It takes no memory.
    pub fn set_element(&mut self, id: ObjId, place: usize, value: Value)
        requires there { IsGood self.old.store id }
        requires array { sort_at self.old.store.objects id ≡ sorts.Array }
        requires within { place < length (parts.elements_at self.old.store.objects id) }
        ensures element { self.new ≡ record self.old {
          store = parts.with_objects self.old.store (parts.with_element self.old.store.objects id place value);
        } }
        ensures keeps { Sound self.old.store → IsValue (census self.old.store) value → Keeps self.old self.new }
    {
        self.objects.get_mut(id.0 as usize).set_item(place, value);
    }

    /// Puts a value after the elements. Where memory runs out all is as before.
    pub fn push(&mut self, id: ObjId, value: Value) -> Result<(), AllocError>
        requires there { IsGood self.old.store id }
        requires array { sort_at self.old.store.objects id ≡ sorts.Array }
        ensures ok { OnOk result (self.new ≡ record self.old {
          store = parts.with_objects self.old.store (parts.with_more self.old.store.objects id (value ∷ []));
        }) }
        ensures err { OnErr result (self.new ≡ self.old) }
        ensures keeps { Sound self.old.store → IsValue (census self.old.store) value → Keeps self.old self.new }
    {
        let alloc = self.alloc;
        self.objects.get_mut(id.0 as usize).push_item(alloc, value)
    }

    /// Puts values after the elements, in their order. Where memory runs out all is as before.
    pub fn append(&mut self, id: ObjId, values: &[Value]) -> Result<(), AllocError>
        requires there { IsGood self.old.store id }
        requires array { sort_at self.old.store.objects id ≡ sorts.Array }
        ensures ok { OnOk result (self.new ≡ record self.old {
          store = parts.with_objects self.old.store (parts.with_more self.old.store.objects id values.now);
        }) }
        ensures err { OnErr result (self.new ≡ self.old) }
        ensures keeps { Sound self.old.store → AllAre (IsValue (census self.old.store)) values.now
            → Keeps self.old self.new }
    {
        let alloc = self.alloc;
        self.objects
            .get_mut(id.0 as usize)
            .append_items(alloc, values)
    }

    /// Takes the last element off. It takes no memory.
    pub fn pop(&mut self, id: ObjId) -> Option<Value>
        requires there { IsGood self.old.store id }
        requires array { sort_at self.old.store.objects id ≡ sorts.Array }
        ensures last { result ≡ slice_get (parts.elements_at self.old.store.objects id)
            (length (parts.elements_at self.old.store.objects id) - 1) }
        ensures rest { self.new ≡ record self.old {
          store = parts.with_objects self.old.store (parts.without_last self.old.store.objects id);
        } }
        ensures keeps { Sound self.old.store → Keeps self.old self.new }
    {
        self.objects.get_mut(id.0 as usize).pop_item()
    }

    /// Takes the first element off. It moves none of the others and takes no memory.
    pub fn shift(&mut self, id: ObjId) -> Option<Value>
        requires there { IsGood self.old.store id }
        requires array { sort_at self.old.store.objects id ≡ sorts.Array }
        ensures first { result ≡ slice_get (parts.elements_at self.old.store.objects id) 0 }
        ensures rest { self.new ≡ record self.old {
          store = parts.with_objects self.old.store (parts.without_first self.old.store.objects id);
        } }
        ensures keeps { Sound self.old.store → Keeps self.old self.new }
    {
        self.objects.get_mut(id.0 as usize).shift_item()
    }

    /// Puts a value before the elements. Where memory runs out all is as before.
    pub fn unshift(&mut self, id: ObjId, value: Value) -> Result<(), AllocError>
        requires there { IsGood self.old.store id }
        requires array { sort_at self.old.store.objects id ≡ sorts.Array }
        ensures ok { OnOk result (self.new ≡ record self.old {
          store = parts.with_objects self.old.store (parts.with_elements self.old.store.objects id
              (value ∷ parts.elements_at self.old.store.objects id));
        }) }
        ensures err { OnErr result (self.new ≡ self.old) }
        ensures keeps { Sound self.old.store → IsValue (census self.old.store) value → Keeps self.old self.new }
    {
        let alloc = self.alloc;
        self.objects
            .get_mut(id.0 as usize)
            .unshift_item(alloc, value)
    }

    /// Puts other elements into an Array. It takes no memory.
    pub fn replace_elements(&mut self, id: ObjId, elements: Items)
        requires there { IsGood self.old.store id }
        requires array { sort_at self.old.store.objects id ≡ sorts.Array }
        ensures after { self.new ≡ record self.old {
          store = parts.with_objects self.old.store (parts.with_elements self.old.store.objects id elements);
        } }
        ensures keeps { Sound self.old.store → AllAre (IsValue (census self.old.store)) elements
            → Keeps self.old self.new }
    {
        self.objects.get_mut(id.0 as usize).replace_items(elements);
    }
}
