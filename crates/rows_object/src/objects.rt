//! Methods of Object that ask what class a value has, and what it answers to.
ghost use Rattle.std.specs.Prelude.{◌≡◌};
ghost use Rattle.run_values.specs.declared.given.Given.TheVariants.{Gives};
ghost use Rattle.rows_object.specs.Answered.{Answered};
ghost use Rattle.rows_object.specs.Follows.{Follows};
ghost use Rattle.rows_object.specs.Rows as rows;

use core_calls::heap::{Given, Heap};
use core_calls::name_in;
use rb_value::{CoreClass, ObjId, Sort, Value, Visibility};
use std::alloc::AllocError;

/// `to_s` and `inspect` of an object: its class, and `main` of the main object.
#[tactic(auto, unfolding(crate::specs::Rows::text))]
pub(crate) fn text(heap: &mut Heap, receiver: Value) -> Result<Given, AllocError>
    ensures { Answered heap.old heap.new result (rows.text receiver) }
{
    if receiver == heap.main_object() {
        return Ok(Given::Gives(heap.make_text(b"main")?));
    }
    let class = heap.plain_class_of(receiver);
    let mut text = Vec::from_slice(heap.alloc(), b"#<")?;
    text.extend_from_slice(heap.class_name(class))?;
    text.extend_from_slice(b">")?;
    Ok(Given::Gives(heap.make_string(text)?))
}

/// `class` of an object.
pub(crate) fn class_of(heap: &Heap, receiver: Value) -> Given
    ensures { result ≡ Gives (rows.class_of_object heap.now.store receiver) }
{
    Given::Gives(Value::Obj(heap.plain_class_of(receiver)))
}

/// The module that a value is.
fn a_module(heap: &Heap, value: Value) -> Option<ObjId>
    ensures { result ≡ rows.module_in heap.now.store value }
{
    match heap.sort(value) {
        Some(Sort::Module) => heap.space_in(value),
        _ => None,
    }
}

/// `extend`: the singleton class includes a module.
pub(crate) fn extend(heap: &mut Heap, receiver: Value, mixin: Value) -> Result<Given, AllocError>
    ensures { Follows heap.old heap.new result (rows.extend receiver mixin) }
{
    if a_module(heap, mixin).is_none() {
        return heap.unexpected(CoreClass::Module, mixin);
    }
    match heap.singleton_class(receiver)? {
        Given::Gives(Value::Obj(class)) => match heap.include(class, mixin)? {
            Given::Gives(_) => Ok(Given::Gives(receiver)),
            Given::Raises(exception) => Ok(Given::Raises(exception)),
        },
        other => Ok(other),
    }
}

/// `is_a?` and `kind_of?`: whether the class of a value has a class or module among its ancestors.
#[tactic(auto, unfolding(def_calls::specs::World::fail))]
pub(crate) fn is_a(heap: &mut Heap, receiver: Value, of: Value) -> Result<Given, AllocError>
    ensures { Answered heap.old heap.new result (rows.is_a receiver of) }
{
    match heap.space_in(of) {
        Some(space) => Ok(Given::Gives(Value::from_truth(heap.is_a(receiver, space)))),
        None => heap.unexpected(CoreClass::Module, of),
    }
}

/// `instance_of?`: whether a class is that of a value.
#[tactic(auto, unfolding(def_calls::specs::World::fail))]
pub(crate) fn is_instance(heap: &mut Heap, receiver: Value, of: Value) -> Result<Given, AllocError>
    ensures { Answered heap.old heap.new result (rows.is_instance receiver of) }
{
    match heap.space_in(of) {
        Some(space) => {
            let class = heap.plain_class_of(receiver);
            Ok(Given::Gives(Value::from_truth(class == space)))
        }
        None => heap.unexpected(CoreClass::Module, of),
    }
}

/// `respond_to?`: whether a value has a public method of that name.
pub(crate) fn responds_to(
    heap: &mut Heap,
    receiver: Value,
    name: Value,
) -> Result<Given, AllocError>
    ensures { Follows heap.old heap.new result (rows.responds_to receiver name) }
{
    match name_in(heap, name)? {
        Ok(name) => {
            let public = match heap.find_for(receiver, name)? {
                Some(found) => found.visibility == Visibility::Public,
                None => false,
            };
            Ok(Given::Gives(Value::from_truth(public)))
        }
        Err(cause) => heap.fail(cause),
    }
}
