//! The pairs of Hashes, in place.
ghost use Rattle.std.specs.Prelude.{◌≡◌, ◌<◌, length, map, slice_get, option_map, OnOk, OnErr};
ghost use Rattle.rb_value.specs.declared.kind.Sort.TheVariants as sorts;
ghost use Rattle.def_core.specs.Store.{sort_at};
ghost use Rattle.def_core.specs.Parts as parts;
ghost use Rattle.def_core.specs.Sound.{Sound, census, Proc, Is, IsValue, OptionIs, SoundKey, IsGood};
ghost use Rattle.rb_store.specs.Keeps.{Keeps};

use crate::store::Store;
use rb_value::{HashItem, Key, ObjId, Value};
use std::alloc::AllocError;

impl Store {
    /// What stands under a key of a Hash. It takes no memory.
    pub fn pair(&self, id: ObjId, key: &Key) -> Option<HashItem>
        requires { IsGood self.now.store id }
        ensures { result ≡ parts.pair_of self.now.store.objects id key.now }
    {
        self.get(id).pair(key)
    }

    /// What stands at a place among the pairs of a Hash. It takes no memory.
    pub fn pair_at(&self, id: ObjId, place: usize) -> Option<HashItem>
        requires { IsGood self.now.store id }
        ensures { result ≡ option_map (λ p. p.1) (slice_get (parts.hash_at self.now.store.objects id).pairs place) }
    {
        self.get(id).pair_at(place)
    }

    /// How many pairs a Hash has; none has any other object. It takes no memory.
    pub fn pair_count(&self, id: ObjId) -> usize
        requires { IsGood self.now.store id }
        ensures { result ≡ length (parts.hash_at self.now.store.objects id).pairs }
    {
        self.get(id).pair_count()
    }

    /// Gives a key of a Hash a value. A key that is there keeps its place and what is shown as the key, and a new one
    /// goes last. Where memory runs out all is as before.
    pub fn put_pair(
        &mut self,
        id: ObjId,
        key: Key,
        shown: Value,
        value: Value,
    ) -> Result<(), AllocError>
        requires there { IsGood self.old.store id }
        requires hash { sort_at self.old.store.objects id ≡ sorts.Hash }
        ensures ok { OnOk result (self.new ≡ record self.old {
          store = parts.with_objects self.old.store (parts.with_pair self.old.store.objects id key shown value);
        }) }
        ensures err { OnErr result (self.new ≡ self.old) }
        ensures keeps { Sound self.old.store → SoundKey (census self.old.store) key
            → IsValue (census self.old.store) shown → IsValue (census self.old.store) value
            → Keeps self.old self.new }
    {
        self.objects
            .get_mut(id.0 as usize)
            .put_pair(key, shown, value)
    }

    /// Takes the pair of a key out of a Hash, and hands it back. The others keep their order. It takes no memory.
    pub fn remove_pair(&mut self, id: ObjId, key: &Key) -> Option<HashItem>
        requires there { IsGood self.old.store id }
        requires hash { sort_at self.old.store.objects id ≡ sorts.Hash }
        ensures item { result ≡ parts.pair_of self.old.store.objects id key.now }
        ensures rest { self.new ≡ record self.old {
          store = parts.with_objects self.old.store (parts.without_key self.old.store.objects id key.now);
        } }
        ensures keeps { Sound self.old.store → Keeps self.old self.new }
    {
        self.objects.get_mut(id.0 as usize).remove_pair(key)
    }

    /// Sets what an absent key of a Hash gives: a value, or what the block gives where there is one. It takes no memory.
    pub fn set_absent(&mut self, id: ObjId, default: Value, block: Option<ObjId>)
        requires there { IsGood self.old.store id }
        requires hash { sort_at self.old.store.objects id ≡ sorts.Hash }
        ensures absent { self.new ≡ record self.old {
          store = parts.with_objects self.old.store (parts.with_absent self.old.store.objects id default block);
        } }
        ensures keeps { Sound self.old.store → IsValue (census self.old.store) default
            → OptionIs (Is (census self.old.store) Proc) block → Keeps self.old self.new }
    {
        self.objects
            .get_mut(id.0 as usize)
            .set_absent(default, block);
    }
}
