//! What a class or module is called, what stands above it, and what it includes.
ghost use Rattle.std.specs.Prelude.{◌≡◌, map, IfOk};
ghost use Rattle.rb_value.specs.declared.value.Value.TheVariants.{Obj};
ghost use Rattle.def_core.specs.Classes.{class_at};
ghost use Rattle.run_values.specs.declared.given.Given.TheVariants.{Gives};
ghost use Rattle.rows_object.specs.Answered.{Answered};
ghost use Rattle.rows_object.specs.Follows.{Follows};
ghost use Rattle.rows_class.specs.Spaces as defined;

use core_calls::heap::{Given, Heap};
use rb_value::{CoreClass, KindRef, ObjId, Sort, SymId, Value};
use rows_object::giving::give_array;
use std::alloc::{AllocError, Global};

/// What a class or module is called by texts.
#[tactic(auto, unfolding(crate::specs::Spaces::text))]
pub(crate) fn text(heap: &mut Heap, space: ObjId) -> Result<Given, AllocError>
    ensures { Answered heap.old heap.new result (defined.text space) }
{
    let text = Vec::from_slice(heap.alloc(), heap.class_name(space))?;
    Ok(Given::Gives(heap.make_string(text)?))
}

/// The name of a class or module that has one.
#[tactic(auto, using(def_core::proofs::Good::absent_where_none))]
fn own_name(heap: &Heap, space: ObjId) -> Option<SymId>
    ensures { result ≡ (class_at heap.now.store.objects space).name }
{
    match heap.kind(space)? {
        KindRef::Class(contents) => contents.get().name,
        _ => None,
    }
}

/// `name`: that of a class or module, and nil of one without a name.
pub(crate) fn name(heap: &mut Heap, space: ObjId) -> Result<Given, AllocError>
    ensures { Answered heap.old heap.new result (defined.name space) }
{
    match own_name(heap, space) {
        Some(_) => text(heap, space),
        None => Ok(Given::Gives(Value::Nil)),
    }
}

/// Whether a class or module has another among its ancestors; nil where neither has the other.
fn order(heap: &Heap, space: ObjId, other: ObjId) -> Value
    ensures { result ≡ defined.order heap.now.store space other }
{
    if heap.is_in_chain(space, other) {
        return Value::True;
    }
    if heap.is_in_chain(other, space) {
        Value::False
    } else {
        Value::Nil
    }
}

/// `<=`: whether a class or module is another or has it among its ancestors; nil where neither has the other.
#[tactic(auto, unfolding(def_calls::specs::World::fail))]
pub(crate) fn is_at_most(heap: &mut Heap, space: ObjId, other: Value) -> Result<Given, AllocError>
    ensures { Answered heap.old heap.new result (defined.is_at_most space other) }
{
    match heap.space_in(other) {
        Some(other) => Ok(Given::Gives(order(heap, space, other))),
        None => heap.unexpected(CoreClass::Module, other),
    }
}

/// `<`: whether a class or module has another, which it isn't, among its ancestors; nil where neither has the other.
#[tactic(auto, unfolding(def_calls::specs::World::fail))]
pub(crate) fn is_below(heap: &mut Heap, space: ObjId, other: Value) -> Result<Given, AllocError>
    ensures { Answered heap.old heap.new result (defined.is_below space other) }
{
    match heap.space_in(other) {
        Some(other) => if other == space {
            Ok(Given::Gives(Value::False))
        } else {
            Ok(Given::Gives(order(heap, space, other)))
        },
        None => heap.unexpected(CoreClass::Module, other),
    }
}

/// These classes and modules as values.
fn values_of(alloc: Global, ids: &[ObjId]) -> Result<Vec<Value>, AllocError>
    ensures { IfOk result (λ values. values.items ≡ map (λ id. Obj id) ids.now) }
{
    let mut values = Vec::with_capacity(alloc, ids.len())?;
    'ids: for id in ids {
        values.push(Value::Obj(*id))?;
    }
    Ok(values)
}

/// `ancestors`: a class or module and what stands above it, the nearest first.
pub(crate) fn ancestors(heap: &mut Heap, space: ObjId) -> Result<Given, AllocError>
    ensures { Follows heap.old heap.new result (defined.ancestors space) }
{
    let above = heap.ancestors(space)?;
    let values = values_of(heap.alloc(), &above)?;
    give_array(heap, values)
}

/// The first of some values that is no module.
#[tactic(auto, unfolding(crate::specs::Spaces::no_module))]
fn no_module(heap: &Heap, values: &[Value]) -> Option<Value>
    ensures { result ≡ defined.no_module heap.now.store values.now }
{
    'values: for value in values {
        match heap.sort(*value) {
            Some(Sort::Module) => {}
            _ => return Some(*value),
        }
    }
    None
}

/// Includes modules, the last of them first, and gives the class or module.
#[tactic(auto, unfolding(rows_object::specs::Follows::in_turn), using(crate::proofs::Listing::last_first))]
fn include_all(heap: &mut Heap, space: ObjId, mixins: &[Value]) -> Result<Given, AllocError>
    ensures { Follows heap.old heap.new result (defined.include_all space mixins.now) }
{
    'mixins: for place in (0..mixins.len()).rev() {
        if let Given::Raises(exception) = heap.include(space, mixins[place])? {
            return Ok(Given::Raises(exception));
        }
    }
    Ok(Given::Gives(Value::Obj(space)))
}

/// `include`: the last of the modules first, so that the first stands first among the ancestors.
pub(crate) fn include(heap: &mut Heap, space: ObjId, mixins: &[Value]) -> Result<Given, AllocError>
    ensures { Follows heap.old heap.new result (defined.include space mixins.now) }
{
    match no_module(heap, mixins) {
        Some(other) => heap.unexpected(CoreClass::Module, other),
        None => include_all(heap, space, mixins),
    }
}

/// `superclass`: that of a class, and nil where it has none.
pub(crate) fn superclass(heap: &Heap, class: ObjId) -> Given
    ensures { result ≡ Gives (defined.superclass heap.now.store class) }
{
    match heap.superclass_of(class) {
        Some(above) => Given::Gives(Value::Obj(above)),
        None => Given::Gives(Value::Nil),
    }
}
