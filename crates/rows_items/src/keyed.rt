//! Items as keys of Hashes.
ghost use Rattle.std.specs.Prelude.{◌≡◌, true, false, is_some, None, Ok, IfOk, IfErr};
ghost use Rattle.rows_items.specs.declared.error.RowError.TheVariants.{NoMemory};
ghost use Rattle.rows_items.specs.Keyed as keyed;
ghost use Rattle.rows_items.specs.Outcome.{Comes};
ghost use Rattle.rows_items.specs.Told.{Told, Refused, Leaves, Kept};
ghost use Rattle.def_calls.specs.Views.{a_string, integer_in};

use crate::error::RowError;
use core_calls::heap::Heap;
use def_core::Cause;
use pair_table::PairTable;
use rb_value::{CoreClass, HashItem, Key, ObjId, Value};

/// The key of a Hash that a value is; Arrays that are nested too deep are refused.
pub fn key_of(heap: &Heap, value: Value) -> Result<Key, RowError>
    ensures { Told result (keyed.key_in heap.now.store value) }
{
    match heap.key_of(value)? {
        Some(key) => Ok(key),
        None => Err(RowError::Fails(Cause::StackTooDeep)),
    }
}

/// What a Hash shows as a key that it doesn't have yet: a copy of a String, and else the value.
fn shown_key(heap: &mut Heap, key: Value) -> Result<Value, RowError>
    ensures shown { IfOk result (λ shown. keyed.shown_copy heap.old key ≡ (shown, heap.new)) }
    ensures memory { IfErr result (λ e. e ≡ NoMemory) }
{
    let class = heap.class_object(CoreClass::String);
    match heap.text_of(key) {
        Some(text) if heap.plain_class_of(key) == class => {
            let text = Vec::from_slice(heap.alloc(), text)?;
            Ok(heap.make_string(text)?)
        }
        _ => Ok(key),
    }
}

/// What a String is put into a Hash as: itself, where it is there, and else a copy.
fn shown_text(heap: &mut Heap, id: ObjId, key: Value) -> Result<Value, RowError>
    ensures shown { IfOk result (λ shown. keyed.shown_text heap.old id key ≡ Ok (shown, heap.new)) }
    ensures refused { IfErr result (Refused (keyed.shown_text heap.old id key)) }
{
    let own = key_of(heap, key)?;
    match heap.pair(id, &own) {
        Some(_) => Ok(key),
        None => shown_key(heap, key),
    }
}

/// Gives a key a value, under a copy where it isn't there yet.
fn put_copied(heap: &mut Heap, id: ObjId, key: Value, value: Value) -> Result<(), RowError>
    requires { is_some (a_string heap.old.store.objects key) ≡ true }
    ensures put { IfOk result (λ _. keyed.put heap.old id key value ≡ Ok heap.new) }
    ensures refused { IfErr result (Refused (keyed.put heap.old id key value)) }
{
    let shown = shown_text(heap, id, key)?;
    if heap.put_pair(id, shown, value)? {
        Ok(())
    } else {
        Err(RowError::Fails(Cause::StackTooDeep))
    }
}

/// Gives a key that is a String a value. No such key is refused.
fn put_text(heap: &mut Heap, id: ObjId, key: Value, value: Value) -> Result<(), RowError>
    requires { is_some (a_string heap.old.store.objects key) ≡ true }
    ensures { Leaves heap.old heap.new result (keyed.put heap.old id key value) }
{
    put_copied(heap, id, key, value)
}

/// Gives a key that is no String a value.
#[tactic(auto, using(crate::proofs::Put::other_put, crate::proofs::Put::other_refused))]
fn put_other(heap: &mut Heap, id: ObjId, key: Value, value: Value) -> Result<(), RowError>
    requires { is_some (a_string heap.old.store.objects key) ≡ false }
    ensures { Leaves heap.old heap.new result (keyed.put heap.old id key value) }
{
    if heap.put_pair(id, key, value)? {
        Ok(())
    } else {
        Err(RowError::Fails(Cause::StackTooDeep))
    }
}

/// Gives a key of a Hash a value. A key that is there keeps its place and what is shown as the key; a new one that is a
/// String is shown by a copy. Where a key is refused all is as before.
pub fn put_pair(heap: &mut Heap, id: ObjId, key: Value, value: Value) -> Result<(), RowError>
    ensures put { IfOk result (λ _. keyed.put heap.old id key value ≡ Ok heap.new) }
    ensures refused { IfErr result (Refused (keyed.put heap.old id key value)) }
    ensures kept { IfErr result (Kept heap.old heap.new) }
{
    if heap.a_string(key).is_some() {
        put_text(heap, id, key, value)
    } else {
        put_other(heap, id, key, value)
    }
}

/// The first of the values that are equal as keys.
#[tactic(auto, using(crate::proofs::Each::front_more, crate::proofs::Each::front_all))]
pub(crate) fn unique(heap: &Heap, values: &[Value]) -> Result<Vec<Value>, RowError>
    ensures first { IfOk result (λ list. keyed.unique heap.now.store values.now ≡ Ok list.items) }
    ensures refused { IfErr result (Refused (keyed.unique heap.now.store values.now)) }
{
    let mut seen: PairTable<Key, Value> = PairTable::new(heap.alloc());
    let mut unique = Vec::new(heap.alloc());
    'values: for value in values {
        let key = key_of(heap, *value)?;
        if seen.insert(key, *value)?.is_none() {
            unique.push(*value)?;
        }
    }
    Ok(unique)
}

/// One more than a count that is kept as a value.
fn one_more(value: Value) -> Value
    ensures { result ≡ keyed.one_more (integer_in value) }
{
    match value {
        Value::Int(count) => Value::Int(count.wrapping_add(1)),
        _ => Value::Int(1),
    }
}

/// One more than the count that stands under a key.
fn counted_value(pair: Option<HashItem>) -> Value
    ensures { result ≡ keyed.counted_value pair }
{
    match pair {
        Some(pair) => one_more(pair.value),
        None => Value::Int(1),
    }
}

/// Counts a value under its key.
fn count(heap: &mut Heap, id: ObjId, value: Value) -> Result<(), RowError>
    ensures { Leaves heap.old heap.new result (keyed.counted heap.old id value) }
{
    let key = key_of(heap, value)?;
    let counted = counted_value(heap.pair(id, &key));
    put_pair(heap, id, value, counted)
}

/// Counts each of the values under its key.
fn count_all(heap: &mut Heap, id: ObjId, values: &[Value]) -> Result<(), RowError>
    ensures counted { IfOk result (λ _. keyed.tallied_in heap.old id values.now
        ≡ record { refused = None; held = heap.new }) }
    ensures refused { IfErr result (keyed.IsRefused heap.new (keyed.tallied_in heap.old id values.now)) }
{
    'values: for value in values {
        count(heap, id, *value)?;
    }
    Ok(())
}

/// A new Hash that tells how often each of the values is there.
#[tactic(auto, using(crate::proofs::Counted::tally_comes))]
pub(crate) fn tallied(heap: &mut Heap, values: &[Value]) -> Result<Value, RowError>
    ensures { Comes (keyed.tallied heap.old values.now) result heap.new }
{
    let hash = heap.make_hash()?;
    if let Value::Obj(id) = hash {
        count_all(heap, id, values)?;
    }
    Ok(hash)
}
