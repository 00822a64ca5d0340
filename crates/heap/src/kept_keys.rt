//! Keys of Hashes as they were when they were put in.
ghost use Rattle.std.specs.Prelude.{◌≡◌, map, IfOk, OnOk};
ghost use Rattle.def_core.specs.Sound.{Sound, SoundKey, SoundPart, census, AllAre, OptionIs};
ghost use Rattle.rb_store.specs.Keeps.{Keeps};
ghost use Rattle.heap.specs.Copies as copies;

use crate::heap::Heap;
use crate::testing::{hash, object, own};
use key_list::KeyList;
use rb_store::Store;
use rb_value::{HashItem, Key, KeyPart, KindRef, ObjId, Value};
use std::alloc::AllocError;

/// A copy of a part of a key.
fn part_copy(st: &Store, part: &KeyPart) -> Result<KeyPart, AllocError>
    ensures sound { IfOk result (SoundPart (census st.now.store)) }
    ensures copy { IfOk result (λ copy. copy ≡ copies.own_part st.now.store part.now) }
{
    match part {
        KeyPart::Plain(value) => Ok(KeyPart::Plain(own(st, *value))),
        KeyPart::Text(text) => Ok(KeyPart::Text(KeyList::from_slice(st.alloc(), text.as_slice())?)),
        KeyPart::Array(count) => Ok(KeyPart::Array(*count)),
    }
}

/// A copy of the parts of a key.
#[tactic(auto, using(crate::proofs::Scanned::one_part_more))]
fn parts_copy(st: &Store, parts: &[KeyPart]) -> Result<Vec<KeyPart>, AllocError>
    ensures sound { IfOk result (λ copy. AllAre (SoundPart (census st.now.store)) copy.items) }
    ensures copy { IfOk result (λ copy. copy.items ≡ map (copies.own_part st.now.store) parts.now) }
{
    let mut copy = Vec::new(st.alloc());
    let mut at = 0;
    'parts: while at < parts.len() {
        let part = part_copy(st, &parts[at])?;
        copy.push(part)?;
        at += 1;
    }
    Ok(copy)
}

/// A copy of a key.
fn key_copy(st: &Store, key: &Key) -> Result<Key, AllocError>
    ensures sound { IfOk result (SoundKey (census st.now.store)) }
    ensures copy { IfOk result (λ copy. copy ≡ copies.own_key st.now.store key.now) }
{
    match key {
        Key::Plain(value) => Ok(Key::Plain(own(st, *value))),
        Key::Text(text) => Ok(Key::Text(KeyList::from_slice(st.alloc(), text.as_slice())?)),
        Key::Array(parts) => {
            let parts = parts_copy(st, parts.as_slice())?;
            Ok(Key::Array(KeyList::from_vec(parts)))
        }
    }
}

/// The key of the pair at a place of a Hash, as it was when it was put in.
#[tactic(auto, using(def_core::proofs::Good::is_good, def_core::proofs::Good::absent_where_none))]
pub(crate) fn key_at(st: &Store, id: ObjId, place: usize) -> Result<Option<Key>, AllocError>
    ensures sound { IfOk result (OptionIs (SoundKey (census st.now.store))) }
    ensures key { IfOk result (λ key. key ≡ copies.key_at st.now.store id place) }
{
    let Some(id) = object(st, id) else {
        return Ok(None);
    };
    match st.get(id).kind() {
        KindRef::Hash(contents) => match contents.get().pairs.pair_at(place) {
            Some((key, _)) => Ok(Some(key_copy(st, key)?)),
            None => Ok(None),
        },
        _ => Ok(None),
    }
}

/// Gives a key of a Hash, such as another Hash has it, a value. Where memory runs out the Hash is as before.
#[tactic(auto, using(rb_store::proofs::Keeping::keeps_itself))]
fn put_kept(st: &mut Store, id: ObjId, key: Key, item: HashItem) -> Result<(), AllocError>
    requires sound { Sound st.old.store }
    requires key { SoundKey (census st.old.store) key }
    ensures put { OnOk result (st.new.store ≡ copies.with_kept st.old.store id key item) }
    ensures count { OnOk result (st.new.changes ≡ st.old.changes) }
    ensures keeps { Keeps st.old st.new }
{
    let shown = own(st, item.shown);
    let value = own(st, item.value);
    match hash(st, id) {
        Some(id) => st.put_pair(id, key, shown, value),
        None => Ok(()),
    }
}

/// The pair at a place of a Hash.
#[tactic(auto, using(def_core::proofs::Good::is_good, def_core::proofs::Good::absent_where_none))]
fn item_at(st: &Store, id: ObjId, place: usize) -> Option<HashItem>
    ensures { result ≡ copies.item_at st.now.store id place }
{
    let id = object(st, id)?;
    st.pair_at(id, place)
}

/// Puts the pair at a place of a Hash into another, under the key that it has there.
#[tactic(auto, using(rb_store::proofs::Keeping::keeps_itself))]
pub(crate) fn add_pair(
    st: &mut Store,
    to: ObjId,
    from: ObjId,
    place: usize,
) -> Result<(), AllocError>
    requires sound { Sound st.old.store }
    ensures put { OnOk result (st.new.store ≡ copies.with_pair_at to from place st.old.store) }
    ensures count { OnOk result (st.new.changes ≡ st.old.changes) }
    ensures keeps { Keeps st.old st.new }
{
    match (key_at(st, from, place)?, item_at(st, from, place)) {
        (Some(key), Some(item)) => put_kept(st, to, key, item),
        _ => Ok(()),
    }
}

impl Heap {
    /// Puts the pair at a place of a Hash into another, under the key that it has there.
    pub(crate) fn add_pair(
        &mut self,
        to: ObjId,
        from: ObjId,
        place: usize,
    ) -> Result<(), AllocError>
        ensures put { OnOk result (self.new.store ≡ copies.with_pair_at to from place self.old.store) }
        ensures count { OnOk result (self.new.changes ≡ self.old.changes) }
    {
        add_pair(&mut self.st, to, from, place)
    }

    /// The key of the pair at a place of a Hash, as it was when it was put in.
    pub fn key_at(&self, id: ObjId, place: usize) -> Result<Option<Key>, AllocError>
        ensures { IfOk result (λ key. key ≡ copies.key_at self.now.store id place) }
    {
        key_at(&self.st, id, place)
    }
}
