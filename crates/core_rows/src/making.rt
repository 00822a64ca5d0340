//! New objects of an answer.
ghost use Rattle.std.specs.Prelude.{◌≡◌, ◌+◌, ◌<◌, ◌^◌, map, IfOk};
ghost use Rattle.rb_value.specs.declared.value.Value.TheVariants.{Int};
ghost use Rattle.def_core.specs.Store.{fresh, core};
ghost use Rattle.def_core.specs.Sound.{Sound};
ghost use Rattle.def_rows.specs.Answers as answers;
ghost use Rattle.core_rows.specs.Completes.{Does};

use rb_base::{Bytes, List};
use rb_store::Store;
use rb_value::{CoreClass, Items, Kind, ObjId, Object, Outcome, SmallBytes, Value};
use std::alloc::{AllocError, Global};

/// A new object of a core class, which isn't in the store yet.
fn object_of(st: &Store, class: CoreClass, kind: Kind) -> Object
    ensures { result ≡ fresh (core class) kind }
{
    Object::new(st.class_object(class), kind)
}

/// A new String of those bytes, which isn't in the store yet.
fn text_of(st: &Store, bytes: Bytes) -> Object
    ensures { result ≡ answers.text_object bytes }
{
    let text = SmallBytes::from_vec(bytes.into_vec());
    object_of(st, CoreClass::String, Kind::String(text))
}

/// Gives a new object.
pub(crate) fn make(st: &mut Store, object: Object) -> Result<Outcome, AllocError>
    ensures { Does st.old st.new result (answers.makes st.old.store object) }
{
    let id = st.add(object)?;
    Ok(Outcome::Value(Value::Obj(id)))
}

/// Gives a new String.
pub(crate) fn make_text(st: &mut Store, bytes: Bytes) -> Result<Outcome, AllocError>
    ensures { Does st.old st.new result (answers.makes st.old.store (answers.text_object bytes)) }
{
    let object = text_of(st, bytes);
    make(st, object)
}

/// Gives a new Array.
pub(crate) fn make_items(st: &mut Store, items: Vec<Value>) -> Result<Outcome, AllocError>
    ensures { Does st.old st.new result (answers.makes st.old.store (answers.items_object items.items)) }
{
    let object = object_of(st, CoreClass::Array, Kind::Array(Items::from_vec(items)));
    make(st, object)
}

/// Numbers as values.
fn integers(alloc: Global, numbers: &[i64]) -> Result<Vec<Value>, AllocError>
    ensures { IfOk result (λ values. values.items ≡ map Int numbers.now) }
{
    let mut values = Vec::with_capacity(alloc, numbers.len())?;
    'numbers: for number in numbers {
        values.push(Value::Int(*number))?;
    }
    Ok(values)
}

/// Gives a new Array of Integers.
pub(crate) fn make_numbers(st: &mut Store, numbers: &[i64]) -> Result<Outcome, AllocError>
    ensures { Does st.old st.new result (answers.makes st.old.store (answers.items_object (map Int numbers.now))) }
{
    let values = integers(st.alloc(), numbers)?;
    make_items(st, values)
}

/// New Strings, which aren't in the store yet.
fn text_objects(st: &Store, texts: List<Bytes>) -> Result<Vec<Object>, AllocError>
    ensures { IfOk result (λ objects. objects.items ≡ map answers.text_object texts) }
{
    let mut objects = Vec::with_capacity(st.alloc(), texts.len())?;
    'texts: for text in texts.into_vec() {
        objects.push(text_of(st, text))?;
    }
    Ok(objects)
}

/// So many objects with numbers in a row.
#[tactic(auto, using(crate::proofs::Texts::numbered_more), unfolding(def_rows::specs::Answers::numbered))]
pub fn numbered(alloc: Global, first: u64, count: u64) -> Result<Vec<Value>, AllocError>
    requires { first + count < 2 ^ 64 }
    ensures { IfOk result (λ values. values.items ≡ answers.numbered first count) }
{
    let mut values = Vec::with_capacity(alloc, count as usize)?;
    'places: for place in 0..count {
        values.push(Value::Obj(ObjId(first + place)))?;
    }
    Ok(values)
}

/// Gives a new Array of new Strings, which stand before it.
pub(crate) fn make_texts(st: &mut Store, texts: List<Bytes>) -> Result<Outcome, AllocError>
    requires { Sound st.old.store }
    ensures { Does st.old st.new result (answers.makes_texts st.old.store texts) }
{
    let mut objects = text_objects(st, texts)?;
    let first = st.len();
    let count = objects.len() as u64;
    let values = numbered(st.alloc(), first, count)?;
    objects.push(object_of(st, CoreClass::Array, Kind::Array(Items::from_vec(values))))?;
    st.add_all(List::from_vec(objects))?;
    Ok(Outcome::Value(Value::Obj(ObjId(first + count))))
}
