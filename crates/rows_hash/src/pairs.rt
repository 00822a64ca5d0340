//! Pairs of Hashes.
ghost use Rattle.std.specs.Prelude.{◌≡◌, ◌++◌, take, drop, true, false, is_some, Some, IfOk, OnOk, OnErr};
ghost use Rattle.rb_value.specs.declared.value.Value.TheVariants.{Obj};
ghost use Rattle.rb_value.specs.declared.kind.Sort.TheVariants as sorts;
ghost use Rattle.def_calls.specs.Views.{a_string};
ghost use Rattle.heap.specs.Changes as changes;
ghost use Rattle.heap.specs.Reading.{sort_of_value};
ghost use Rattle.rows_items.specs.Outcome.{Comes};
ghost use Rattle.rows_items.specs.Told.{Told, Gives, Leaves};
ghost use Rattle.rows_items.specs.Keyed.{put};
ghost use Rattle.rows_hash.specs.Merging as merging;
ghost use Rattle.rows_hash.specs.Pairs as defined;

use def_core::Cause;
use rb_value::{CoreClass, ObjId, Value};
use rows_items::heap::Heap;
use rows_items::{RowError, key_of, put_pair};
use std::alloc::AllocError;

/// The Hash that a value is.
pub(crate) fn a_hash(heap: &Heap, value: Value) -> Result<ObjId, Cause>
    ensures { result ≡ defined.hash_of heap.now.store value }
{
    match heap.a_hash(value) {
        Some(id) => Ok(id),
        None => Err(heap.refusal(CoreClass::Hash, value)),
    }
}

/// Whether a Hash has a key.
pub(crate) fn has_key(heap: &Heap, id: ObjId, key: Value) -> Result<bool, RowError>
    ensures { Told result (defined.has_key heap.now.store id key) }
{
    let key = key_of(heap, key)?;
    Ok(heap.pair(id, &key).is_some())
}

/// Gives a key that is a String a value. No such key is refused.
fn put_under_text(heap: &mut Heap, id: ObjId, key: Value, value: Value) -> Result<(), RowError>
    requires { is_some (a_string heap.old.store.objects key) ≡ true }
    ensures { Leaves heap.old heap.new result (put heap.old id key value) }
{
    put_pair(heap, id, key, value)
}

/// Gives a key that is no String a value.
#[tactic(auto, using(crate::proofs::Put::other_put, crate::proofs::Put::other_refused))]
fn put_under_other(heap: &mut Heap, id: ObjId, key: Value, value: Value) -> Result<(), RowError>
    requires { is_some (a_string heap.old.store.objects key) ≡ false }
    ensures put { Leaves heap.old heap.new result (put heap.old id key value) }
    ensures err { OnErr result (heap.new ≡ heap.old) }
{
    if heap.put_pair(id, key, value)? {
        Ok(())
    } else {
        Err(RowError::Fails(Cause::StackTooDeep))
    }
}

/// Gives a key a value, and gives the value. Where memory runs out for a key that is no String, all is as before.
pub(crate) fn store(heap: &mut Heap, id: ObjId, key: Value, value: Value) -> Result<Value, RowError>
    ensures given { Gives heap.old heap.new result (defined.store heap.old id key value) }
    ensures err { is_some (a_string heap.old.store.objects key) ≡ false → OnErr result (heap.new ≡ heap.old) }
{
    if heap.a_string(key).is_some() {
        put_under_text(heap, id, key, value)?;
    } else {
        put_under_other(heap, id, key, value)?;
    }
    Ok(value)
}

/// The value of a key, which is taken out; nil where it isn't there.
pub(crate) fn delete(heap: &mut Heap, id: ObjId, key: Value) -> Result<Value, RowError>
    ensures { Gives heap.old heap.new result (defined.delete heap.old id key) }
{
    let key = key_of(heap, key)?;
    match heap.remove_pair(id, &key) {
        Some(pair) => Ok(pair.value),
        None => Ok(Value::Nil),
    }
}

/// Puts what is shown as the key at a place, if there is one, after others.
#[tactic(auto, using(crate::proofs::More::key_there, crate::proofs::More::no_key))]
fn put_key(heap: &Heap, keys: &mut Vec<Value>, id: ObjId, place: usize) -> Result<(), AllocError>
    ensures { OnOk result (keys.new.items
        ≡ keys.old.items ++ defined.shown_keys (take 1 (drop place (defined.pairs heap.now.store id)))) }
{
    match heap.pair_at(id, place) {
        Some(pair) => {
            keys.push(pair.shown)?;
            Ok(())
        }
        None => Ok(()),
    }
}

/// The keys in their order.
#[tactic(auto, using(crate::proofs::More::keys_more))]
pub(crate) fn keys(heap: &Heap, id: ObjId) -> Result<Vec<Value>, AllocError>
    ensures { IfOk result (λ list. list.items ≡ defined.shown_keys (defined.pairs heap.now.store id)) }
{
    let mut keys = Vec::with_capacity(heap.alloc(), heap.pair_count(id))?;
    'pairs: for place in 0..heap.pair_count(id) {
        put_key(heap, &mut keys, id, place)?;
    }
    Ok(keys)
}

/// Puts the value at a place, if there is one, after others.
#[tactic(auto, using(crate::proofs::More::value_there, crate::proofs::More::no_value))]
fn put_value(
    heap: &Heap,
    values: &mut Vec<Value>,
    id: ObjId,
    place: usize,
) -> Result<(), AllocError>
    ensures { OnOk result (values.new.items
        ≡ values.old.items ++ defined.values (take 1 (drop place (defined.pairs heap.now.store id)))) }
{
    match heap.pair_at(id, place) {
        Some(pair) => {
            values.push(pair.value)?;
            Ok(())
        }
        None => Ok(()),
    }
}

/// The values in the order of their keys.
#[tactic(auto, using(crate::proofs::More::values_more))]
pub(crate) fn values(heap: &Heap, id: ObjId) -> Result<Vec<Value>, AllocError>
    ensures { IfOk result (λ list. list.items ≡ defined.values (defined.pairs heap.now.store id)) }
{
    let mut values = Vec::with_capacity(heap.alloc(), heap.pair_count(id))?;
    'pairs: for place in 0..heap.pair_count(id) {
        put_value(heap, &mut values, id, place)?;
    }
    Ok(values)
}

/// Puts the pair at a place of a Hash, if there is one, into another.
fn put_item(heap: &mut Heap, id: ObjId, other: ObjId, place: usize) -> Result<(), RowError>
    ensures { Leaves heap.old heap.new result (merging.put_at id other place heap.old) }
{
    let Some(pair) = heap.pair_at(other, place) else {
        return Ok(());
    };
    if heap.put_pair(id, pair.shown, pair.value)? {
        Ok(())
    } else {
        Err(RowError::Fails(Cause::StackTooDeep))
    }
}

/// Puts the pairs of a Hash into another.
#[tactic(auto, using(crate::proofs::Steps::steps_more, crate::proofs::Steps::steps_end))]
fn put_all(heap: &mut Heap, id: ObjId, other: ObjId) -> Result<(), RowError>
    ensures { merging.LeftAs (merging.put_all heap.old id other) heap.new result }
{
    let count = heap.pair_count(other);
    'pairs: for place in 0..count {
        put_item(heap, id, other, place)?;
    }
    Ok(())
}

/// Puts the pairs of a Hash that a value is into another, which is given.
pub(crate) fn update(heap: &mut Heap, id: ObjId, other: Value) -> Result<Value, RowError>
    ensures { Comes (merging.update heap.old id other) result heap.new }
{
    let from = a_hash(heap, other)?;
    put_all(heap, id, from)?;
    Ok(Value::Obj(id))
}

/// A copy of a Hash with the pairs of another.
#[tactic(auto, using(crate::proofs::Merged::merge_is))]
pub(crate) fn merge(heap: &mut Heap, id: ObjId, other: Value) -> Result<Value, RowError>
    ensures { sort_of_value heap.old.store (Obj id) ≡ Some sorts.Hash
        → Comes (merging.merge heap.old id other) result heap.new }
{
    a_hash(heap, other)?;
    let merged = heap.copy(Value::Obj(id))?;
    match heap.a_hash(merged) {
        Some(own) => update(heap, own, other),
        None => Ok(merged),
    }
}

/// Puts the pair at a place of a Hash, if there is one, into another, with its value as the key.
fn put_turned(heap: &mut Heap, own: ObjId, id: ObjId, place: usize) -> Result<(), RowError>
    ensures { Leaves heap.old heap.new result (merging.turned_at own id place heap.old) }
{
    match heap.pair_at(id, place) {
        Some(pair) => put_pair(heap, own, pair.value, pair.shown),
        None => Ok(()),
    }
}

/// Puts the pairs of a Hash into another, with their values as keys.
#[tactic(auto, using(crate::proofs::Steps::steps_more, crate::proofs::Steps::steps_end))]
fn turn_all(heap: &mut Heap, own: ObjId, id: ObjId) -> Result<(), RowError>
    ensures { merging.LeftAs (merging.turn_all heap.old own id) heap.new result }
{
    let count = heap.pair_count(id);
    'pairs: for place in 0..count {
        put_turned(heap, own, id, place)?;
    }
    Ok(())
}

/// A new Hash whose keys are the values of a Hash, and whose values are its keys; of equal ones the last counts.
pub(crate) fn invert(heap: &mut Heap, id: ObjId) -> Result<Value, RowError>
    ensures { Comes (merging.invert heap.old id) result heap.new }
{
    let inverted = heap.make_hash()?;
    let Value::Obj(own) = inverted else {
        return Ok(inverted);
    };
    turn_all(heap, own, id)?;
    Ok(inverted)
}

/// Takes all pairs out of a Hash.
pub(crate) fn clear(heap: &mut Heap, id: ObjId) -> Result<(), AllocError>
    ensures cleared { OnOk result (heap.new ≡ changes.without_pairs heap.old id) }
    ensures err { OnErr result (heap.new ≡ heap.old) }
{
    heap.clear_pairs(id)
}
