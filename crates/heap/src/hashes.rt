//! Changes of Hashes.
ghost use Rattle.std.specs.Prelude.{◌≡◌, IfOk, OnOk, OnErr};
ghost use Rattle.def_core.specs.Sound.{Sound, census};
ghost use Rattle.def_core.specs.Parts.{hash_at, pair_of};
ghost use Rattle.def_calls.specs.Values as values;
ghost use Rattle.rb_store.specs.Keeps.{Keeps};
ghost use Rattle.heap.specs.Changes as changes;
ghost use Rattle.heap.specs.Operands as operands;

use crate::heap::Heap;
use crate::testing::{block, hash, object, own};
use pair_table::PairTable;
use rb_store::Store;
use rb_value::{Boxed, HashContents, HashItem, Key, Kind, KindRef, ObjId, Value};
use std::alloc::AllocError;

/// Gives a key of a Hash a value, and tells whether it could: false where the key is nested too deep. A key that is
/// there keeps its place and what is shown as the key. Where memory runs out the Hash is as before.
#[tactic(auto, using(rb_store::proofs::Keeping::keeps_itself, def_core::proofs::Good::is_good))]
pub(crate) fn put_pair(
    st: &mut Store,
    id: ObjId,
    shown: Value,
    value: Value,
) -> Result<bool, AllocError>
    requires sound { Sound st.old.store }
    ensures keeps { Keeps st.old st.new }
    ensures put { OnOk result (st.new ≡ changes.with_pair st.old id shown value) }
    ensures could { IfOk result (λ could. could ≡ changes.can_put st.old id shown) }
    ensures err { OnErr result (st.new ≡ st.old) }
{
    let shown = own(st, shown);
    let value = own(st, value);
    match hash(st, id) {
        Some(id) => match run_values::key_of(st, shown)? {
            Some(key) => {
                st.put_pair(id, key, shown, value)?;
                Ok(true)
            }
            None => Ok(false),
        },
        None => Ok(true),
    }
}

/// Takes a key and its value out of a Hash.
#[tactic(auto, using(rb_store::proofs::Keeping::keeps_itself))]
pub(crate) fn remove_pair(st: &mut Store, id: ObjId, key: &Key) -> Option<HashItem>
    requires sound { Sound st.old.store }
    ensures keeps { Keeps st.old st.new }
    ensures item { result ≡ pair_of st.old.store.objects id key.now }
    ensures rest { st.new ≡ changes.without_key st.old id key.now }
{
    match hash(st, id) {
        Some(id) => st.remove_pair(id, key),
        None => None,
    }
}

/// Sets what an absent key of a Hash gives, and the Proc that is called for it.
#[tactic(auto, using(rb_store::proofs::Keeping::keeps_itself))]
pub(crate) fn set_absent(st: &mut Store, id: ObjId, default: Value, absent: Option<ObjId>)
    requires sound { Sound st.old.store }
    ensures keeps { Keeps st.old st.new }
    ensures absent { st.new ≡ changes.with_absent st.old id default absent }
{
    let default = own(st, default);
    let absent = block(st, absent);
    if let Some(id) = hash(st, id) {
        st.set_absent(id, default, absent);
    }
}

/// A Hash without pairs, which gives for an absent key what it gave.
#[tactic(auto, using(rb_store::proofs::Keeping::keeps_itself, crate::proofs::Fresh::cleared_is))]
pub(crate) fn clear_pairs(st: &mut Store, id: ObjId) -> Result<(), AllocError>
    requires sound { Sound st.old.store }
    ensures keeps { Keeps st.old st.new }
    ensures cleared { OnOk result (st.new ≡ changes.without_pairs st.old id) }
    ensures err { OnErr result (st.new ≡ st.old) }
{
    let (default, absent) = absent_of(st, id);
    let contents = HashContents {
        pairs: PairTable::new(st.alloc()),
        default: own(st, default),
        block: block(st, absent),
    };
    let kind = Kind::Hash(Boxed::new(st.alloc(), contents)?);
    if let Some(id) = hash(st, id) {
        st.put_kind(id, kind);
    }
    Ok(())
}

/// What an absent key of a Hash gives, and the Proc that is called for it.
#[tactic(auto, using(def_core::proofs::Good::is_good, def_core::proofs::Good::absent_where_none))]
pub(crate) fn absent_of(st: &Store, id: ObjId) -> (Value, Option<ObjId>)
    ensures default { result.0 ≡ (hash_at st.now.store.objects id).default }
    ensures block { result.1 ≡ (hash_at st.now.store.objects id).block }
{
    match object(st, id) {
        Some(id) => match st.get(id).kind() {
            KindRef::Hash(contents) => (contents.get().default, contents.get().block),
            _ => (Value::Nil, None),
        },
        None => (Value::Nil, None),
    }
}

impl Heap {
    /// Takes all pairs out of a Hash. Where memory runs out the Hash is as before.
    pub fn clear_pairs(&mut self, id: ObjId) -> Result<(), AllocError>
        ensures cleared { OnOk result (self.new ≡ changes.without_pairs self.old id) }
        ensures err { OnErr result (self.new ≡ self.old) }
    {
        clear_pairs(&mut self.st, id)
    }

    /// The key that stands for a value. None where Arrays stand in one another more than 10,000 deep.
    #[tactic(auto, using(def_core::proofs::Good::is_good))]
    pub fn key_of(&self, value: Value) -> Result<Option<Key>, AllocError>
        ensures { IfOk result (λ key. key ≡ values.key_of self.now.store.objects (operands.own self.now.store value)) }
    {
        run_values::key_of(&self.st, own(&self.st, value))
    }

    /// Gives a key of a Hash a value, and tells whether it could: false where the key is nested too deep. A key that is
    /// there keeps its place and what is shown as the key. Where memory runs out the Hash is as before.
    pub fn put_pair(&mut self, id: ObjId, shown: Value, value: Value) -> Result<bool, AllocError>
        ensures put { OnOk result (self.new ≡ changes.with_pair self.old id shown value) }
        ensures could { IfOk result (λ could. could ≡ changes.can_put self.old id shown) }
        ensures err { OnErr result (self.new ≡ self.old) }
    {
        put_pair(&mut self.st, id, shown, value)
    }

    /// Takes a key and its value out of a Hash.
    pub fn remove_pair(&mut self, id: ObjId, key: &Key) -> Option<HashItem>
        ensures item { result ≡ pair_of self.old.store.objects id key.now }
        ensures rest { self.new ≡ changes.without_key self.old id key.now }
    {
        remove_pair(&mut self.st, id, key)
    }

    /// Sets what an absent key of a Hash gives, and the Proc that is called for it.
    pub fn set_absent(&mut self, id: ObjId, default: Value, absent: Option<ObjId>)
        ensures absent { self.new ≡ changes.with_absent self.old id default absent }
    {
        set_absent(&mut self.st, id, default, absent);
    }
}
