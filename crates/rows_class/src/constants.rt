//! Methods on the constants of a class or module.
ghost use Rattle.std.specs.Prelude.{◌≡◌, None};
ghost use Rattle.def_calls.specs.World.{World, with_store};
ghost use Rattle.run_values.specs.declared.given.Given.TheVariants.{Gives};
ghost use Rattle.heap.specs.Constants.{constant_given};
ghost use Rattle.rows_object.specs.Follows.{Follows};
ghost use Rattle.rows_class.specs.Constants as defined;

use core_calls::heap::{Given, Heap};
use def_core::Cause;
use rb_value::{CoreClass, ObjId, SymId, Value};
use std::alloc::AllocError;

/// The constant of a class or module, of what stands above it, or of Object.
fn found(heap: &Heap, space: ObjId, name: SymId) -> Option<Value>
    ensures { (w : World) → result ≡ defined.found (with_store w heap.now.store) space name }
{
    match heap.constant_within(space, name) {
        Some(value) => Some(value),
        None => heap.constant_within(heap.class_object(CoreClass::Object), name),
    }
}

/// Raises since a constant isn't found; the class or module is told where it isn't Object.
fn missing(heap: &mut Heap, space: ObjId, name: SymId) -> Result<Given, AllocError>
    ensures { Follows heap.old heap.new result (λ w. constant_given w None space name) }
{
    let scope = if space == heap.class_object(CoreClass::Object) {
        None
    } else {
        Some(space)
    };
    heap.fail(Cause::UninitializedConstant { scope, name })
}

/// `const_get`; a constant that isn't found raises.
pub(crate) fn get(heap: &mut Heap, space: ObjId, name: SymId) -> Result<Given, AllocError>
    ensures { Follows heap.old heap.new result (defined.get space name) }
{
    match found(heap, space, name) {
        Some(value) => Ok(Given::Gives(value)),
        None => missing(heap, space, name),
    }
}

/// `const_defined?`.
pub(crate) fn has(heap: &Heap, space: ObjId, name: SymId) -> Given
    ensures { (w : World) → result ≡ Gives (defined.has space name (with_store w heap.now.store)) }
{
    Given::Gives(Value::from_truth(found(heap, space, name).is_some()))
}

/// `const_set`.
pub(crate) fn set(
    heap: &mut Heap,
    space: ObjId,
    name: SymId,
    value: Value,
) -> Result<Given, AllocError>
    ensures { Follows heap.old heap.new result (defined.set space name value) }
{
    heap.set_constant_in(space, name, value)
}
