//! Methods of Fiber.
ghost use Rattle.std.specs.Prelude.{◌≡◌};
ghost use Rattle.rows_object.specs.Answered.{Answered};
ghost use Rattle.rows_object.specs.Procs as defined;
ghost use Rattle.rows_object.specs.Rows as rows;

use core_calls::heap::{Given, Heap};
use rb_value::{CoreClass, ObjId, Sort, Value};
use std::alloc::AllocError;

/// The class that a value is, and no singleton class.
fn a_class(heap: &Heap, value: Value) -> Option<ObjId>
    ensures { result ≡ defined.class_of_value heap.now.store value }
{
    let Value::Obj(id) = value else {
        return None;
    };
    match heap.sort(value) {
        Some(Sort::Class) => Some(id),
        _ => None,
    }
}

/// `new` of Fiber: a fiber that runs a block. A singleton class has no other objects.
#[tactic(auto, unfolding(def_calls::specs::World::fail))]
pub(crate) fn of_block(heap: &mut Heap, receiver: Value, block: ObjId) -> Result<Given, AllocError>
    ensures { Answered heap.old heap.new result (defined.new_fiber receiver block) }
{
    let Some(class) = a_class(heap, receiver) else {
        return heap.unexpected(CoreClass::Class, receiver);
    };
    match heap.make_fiber(class, block)? {
        Some(fiber) => Ok(Given::Gives(Value::Obj(fiber))),
        None => Ok(Given::Gives(Value::Nil)),
    }
}

/// `alive?`: whether a fiber hasn't ended.
#[tactic(auto, unfolding(def_calls::specs::World::fail))]
pub(crate) fn is_alive(heap: &mut Heap, receiver: Value) -> Result<Given, AllocError>
    ensures { Answered heap.old heap.new result (rows.is_alive receiver) }
{
    let Some(id) = heap.a_fiber(receiver) else {
        return heap.unexpected(CoreClass::Fiber, receiver);
    };
    match heap.fiber_of(id) {
        Some((_, ended)) => Ok(Given::Gives(Value::from_truth(!ended))),
        None => heap.unexpected(CoreClass::Fiber, receiver),
    }
}
