//! Splats: the elements of an Array, those of a Range, the pairs of a Hash, nothing for nil.
ghost use Rattle.std.specs.Prelude.{◌≡◌, ◌≤◌, ◌∷◌, [], ◌++◌, length, map, take, drop, IfOk, OnOk, OnErr};
ghost use Rattle.rb_value.specs.declared.value.Value.TheVariants.{Int};
ghost use Rattle.def_core.specs.Parts.{hash_at, with_objects};
ghost use Rattle.def_core.specs.Sound.{Sound, SoundFrom, census, Is, Any, Array, IsValue, AllAre};
ghost use Rattle.rb_store.specs.Keeps.{Keeps};
ghost use Rattle.rb_integer.specs.Ends as numbers;
ghost use Rattle.def_rows.specs.Answers as answers;
ghost use Rattle.def_rows.specs.RangeRows as rows;
ghost use Rattle.def_calls.specs.Values as forms;
ghost use Rattle.def_calls.specs.Views as views;
ghost use Rattle.run_values.specs.Splats as splats;

use crate::kinds::{a_hash, elements_of, present};
use core_range::range_of;
use core_rows::making::numbered;
use rb_base::List;
use rb_integer::{Bounds, Ends, Item};
use rb_store::Store;
use rb_value::{CoreClass, HashItem, Items, Kind, ObjId, Object, SmallBytes, Value};
use std::alloc::{AllocError, Global};

/// How many items a Range has; more than fit a memory are refused.
#[tactic(auto, unfolding(rb_integer::specs::Exact::exact))]
fn count_of(ends: Ends) -> Result<u64, AllocError>
    ensures { IfOk result (λ n. n ≡ numbers.count ends.bounds ends.is_exclusive) }
{
    match ends.size() {
        Ok(count) => Ok(count as u64),
        Err(_) => Err(AllocError),
    }
}

/// Puts an item that is an Integer after the others.
fn put_integer(values: &mut Vec<Value>, item: Item) -> Result<(), AllocError>
    ensures { OnOk result (values.new.items ≡ values.old.items ++ map Int (rows.integers_of (item ∷ []))) }
{
    match item {
        Item::Integer(number) => values.push(Value::Int(number))?,
        Item::Byte(_) => {}
    }
    Ok(())
}

/// The first items of a Range over Integers.
#[tactic(auto, using(crate::proofs::Splatting::integers_more))]
fn integers(alloc: Global, ends: Ends, count: u64) -> Result<Vec<Value>, AllocError>
    requires { count ≤ numbers.count ends.bounds ends.is_exclusive }
    ensures { IfOk result (λ values. values.items ≡ map Int (rows.integers_of (rows.items ends.bounds count))) }
{
    let mut values = Vec::with_capacity(alloc, count as usize)?;
    'places: for place in 0..count {
        put_integer(&mut values, ends.item(place))?;
    }
    Ok(values)
}

/// A String of one byte, which isn't in the store yet.
fn byte_object(st: &Store, byte: u8) -> Result<Object, AllocError>
    ensures { IfOk result (λ o. o ≡ answers.text_object (byte ∷ [])) }
{
    let bytes = SmallBytes::from_slice(st.alloc(), &[byte])?;
    Ok(Object::new(st.class_object(CoreClass::String), Kind::String(bytes)))
}

/// Puts an item that is a byte after the others, as a String.
fn put_byte(st: &Store, objects: &mut Vec<Object>, item: Item) -> Result<(), AllocError>
    ensures { OnOk result (objects.new.items ≡
        objects.old.items ++ map answers.text_object (rows.texts_of (item ∷ []))) }
{
    match item {
        Item::Integer(_) => {}
        Item::Byte(byte) => objects.push(byte_object(st, byte)?)?,
    }
    Ok(())
}

/// The first items of a Range over bytes as new Strings, which aren't in the store yet.
#[tactic(auto, using(crate::proofs::Splatting::texts_more))]
fn byte_objects(st: &Store, ends: Ends, count: u64) -> Result<Vec<Object>, AllocError>
    requires { count ≤ numbers.count ends.bounds ends.is_exclusive }
    ensures { IfOk result (λ objects. objects.items ≡
        map answers.text_object (rows.texts_of (rows.items ends.bounds count))) }
{
    let mut objects = Vec::with_capacity(st.alloc(), count as usize)?;
    'places: for place in 0..count {
        put_byte(st, &mut objects, ends.item(place))?;
    }
    Ok(objects)
}

/// Puts objects after the others, and gives them as values. Where memory runs out the store is as before.
#[tactic(auto, using(crate::proofs::Splatting::added_are))]
fn add_numbered(st: &mut Store, objects: Vec<Object>) -> Result<Vec<Value>, AllocError>
    requires sound { Sound st.old.store }
    requires objects { SoundFrom (census (with_objects st.old.store (st.old.store.objects ++ objects.items)))
        (length st.old.store.objects) objects.items }
    ensures values { IfOk result (λ values. values.items ≡
        answers.numbered (length st.old.store.objects) (length objects.items)) }
    ensures store { OnOk result (st.new.store ≡
        with_objects st.old.store (st.old.store.objects ++ objects.items)) }
    ensures belong { IfOk result (λ values. AllAre (IsValue (census st.new.store)) values.items) }
    ensures err { OnErr result (st.new.store ≡ st.old.store) }
    ensures keeps { Keeps st.old st.new }
{
    let values = numbered(st.alloc(), st.len(), objects.len() as u64)?;
    st.add_all(List::from_vec(objects))?;
    Ok(values)
}

/// The items of a Range, where those of bytes are new Strings. Where memory runs out the store is as before.
#[tactic(auto, using(crate::proofs::Splatting::bytes_values, crate::proofs::Splatting::bytes_store, crate::proofs::Splatting::integers_values, crate::proofs::Splatting::integers_store, crate::proofs::Splatting::integers_are, crate::proofs::Splatting::texts_sound, rb_store::proofs::Keeping::keeps_itself))]
fn splat_range(st: &mut Store, ends: Ends) -> Result<Vec<Value>, AllocError>
    requires { Sound st.old.store }
    ensures values { IfOk result (λ values. values.items ≡ (splats.range_items st.old.store ends).values) }
    ensures store { OnOk result (st.new.store ≡ (splats.range_items st.old.store ends).store) }
    ensures belong { IfOk result (λ values. AllAre (IsValue (census st.new.store)) values.items) }
    ensures keeps { Keeps st.old st.new }
    ensures err { OnErr result (st.new.store ≡ st.old.store) }
{
    let count = count_of(ends)?;
    match ends.bounds {
        Bounds::Integers(_, _) => {
            let values = integers(st.alloc(), ends, count)?;
            Ok(values)
        }
        Bounds::Bytes(_, _) => {
            let objects = byte_objects(st, ends, count)?;
            let values = add_numbered(st, objects)?;
            Ok(values)
        }
    }
}

/// A pair of a Hash as an Array, which isn't in the store yet.
fn pair_object(st: &Store, item: HashItem) -> Result<Object, AllocError>
    ensures { IfOk result (λ o. o ≡ splats.item_object item) }
{
    let elements = Items::from_slice(st.alloc(), &[item.shown, item.value])?;
    Ok(Object::new(st.class_object(CoreClass::Array), Kind::Array(elements)))
}

/// Puts the pair at a place of a Hash, if there is one, after the others, as an Array.
#[tactic(auto, using(def_core::proofs::Good::is_good, crate::proofs::Splatting::pair_there, crate::proofs::Splatting::no_pair))]
fn put_pair(
    st: &Store,
    objects: &mut Vec<Object>,
    id: ObjId,
    place: usize,
) -> Result<(), AllocError>
    requires { Is (census st.now.store) Any id }
    ensures { OnOk result (objects.new.items ≡ objects.old.items ++
        map splats.pair_object (take 1 (drop place (hash_at st.now.store.objects id).pairs))) }
{
    match st.pair_at(id, place) {
        Some(item) => {
            let object = pair_object(st, item)?;
            objects.push(object)?;
            Ok(())
        }
        None => Ok(()),
    }
}

/// The pairs of a Hash as Arrays, which aren't in the store yet.
#[tactic(auto, using(def_core::proofs::Good::is_good, crate::proofs::Splatting::pairs_more))]
fn pair_objects(st: &Store, id: ObjId) -> Result<Vec<Object>, AllocError>
    requires { Is (census st.now.store) Any id }
    ensures { IfOk result (λ objects. objects.items ≡
        map splats.pair_object (hash_at st.now.store.objects id).pairs) }
{
    let count = st.pair_count(id);
    let mut objects = Vec::with_capacity(st.alloc(), count)?;
    'places: for place in 0..count {
        put_pair(st, &mut objects, id, place)?;
    }
    Ok(objects)
}

/// A value alone, and nothing for nil.
fn itself_or_none(alloc: Global, value: Value) -> Result<Vec<Value>, AllocError>
    ensures { IfOk result (λ values. values.items ≡ forms.itself_or_none (views.present value)) }
{
    match present(value) {
        Some(value) => Ok(Vec::from_slice(alloc, &[value])?),
        None => Ok(Vec::new(alloc)),
    }
}

/// The pairs of a Hash, each a new Array; any other value alone, and nothing for nil. Where memory runs out the store
/// is as before.
#[tactic(auto, using(crate::proofs::Splatting::pairs_numbered, crate::proofs::Splatting::pairs_added, crate::proofs::Splatting::pairs_sound, crate::proofs::Splatting::itself_is, crate::proofs::Strings::hash_there, crate::proofs::Strings::no_hash, rb_store::proofs::Keeping::keeps_itself))]
fn splat_hash(st: &mut Store, value: Value) -> Result<Vec<Value>, AllocError>
    requires sound { Sound st.old.store }
    requires value { IsValue (census st.old.store) value }
    ensures values { IfOk result (λ values. values.items ≡ (forms.splat_hash st.old.store value
        (views.hash_of (views.kind_in st.old.store.objects value))).values) }
    ensures store { OnOk result (st.new.store ≡ (forms.splat_hash st.old.store value
        (views.hash_of (views.kind_in st.old.store.objects value))).store) }
    ensures belong { IfOk result (λ values. AllAre (IsValue (census st.new.store)) values.items) }
    ensures keeps { Keeps st.old st.new }
    ensures err { OnErr result (st.new.store ≡ st.old.store) }
{
    match a_hash(st, value) {
        Some(id) => {
            let objects = pair_objects(st, id)?;
            let values = add_numbered(st, objects)?;
            Ok(values)
        }
        None => {
            let values = itself_or_none(st.alloc(), value)?;
            Ok(values)
        }
    }
}

/// The values that a splat stands for: the elements of an Array, those of a Range, the pairs of a Hash, each a new
/// Array, nothing for nil, and any other value alone. Where memory runs out the store is as before.
#[tactic(auto, unfolding(def_calls::specs::Values::splat), using(crate::proofs::Members::elements_are, rb_store::proofs::Keeping::keeps_itself))]
pub fn splat(st: &mut Store, value: Value) -> Result<Vec<Value>, AllocError>
    requires sound { Sound st.old.store }
    requires value { IsValue (census st.old.store) value }
    ensures values { IfOk result (λ values. values.items ≡ (forms.splat st.old.store value).values) }
    ensures store { OnOk result (st.new.store ≡ (forms.splat st.old.store value).store) }
    ensures belong { IfOk result (λ values. AllAre (IsValue (census st.new.store)) values.items) }
    ensures keeps { Keeps st.old st.new }
    ensures err { OnErr result (st.new.store ≡ st.old.store) }
{
    if let Some(elements) = elements_of(st, value) {
        return Ok(Vec::from_slice(st.alloc(), elements)?);
    }
    match range_of(st, value) {
        Some(ends) => {
            let values = splat_range(st, ends)?;
            Ok(values)
        }
        None => {
            let values = splat_hash(st, value)?;
            Ok(values)
        }
    }
}

/// Puts the values that a splat stands for after the elements of an Array.
#[tactic(auto, using(crate::proofs::Members::is_array, def_core::proofs::Good::is_good, rb_store::proofs::Keeping::keeps_then, rb_store::proofs::Keeping::keeps_itself))]
pub fn push_splat(st: &mut Store, id: ObjId, value: Value) -> Result<(), AllocError>
    requires sound { Sound st.old.store }
    requires array { Is (census st.old.store) Array id }
    requires value { IsValue (census st.old.store) value }
    ensures ok { OnOk result (st.new.store ≡ forms.push_splat (forms.splat st.old.store value) id) }
    ensures keeps { Keeps st.old st.new }
{
    let values = splat(st, value)?;
    st.append(id, &values)?;
    Ok(())
}
