//! The visibility of methods.
ghost use Rattle.rows_object.specs.Follows.{Follows};
ghost use Rattle.rows_class.specs.Methods as changed;

use crate::naming::names_in;
use core_calls::heap::{Given, Heap};
use rb_value::{ObjId, SymId, Value, Visibility};
use std::alloc::AllocError;

/// Sets the visibility of a method of a class or module; a name that isn't found raises.
#[tactic(auto, unfolding(crate::specs::Methods::show))]
fn set_one(
    heap: &mut Heap,
    space: ObjId,
    name: SymId,
    visibility: Visibility,
) -> Result<Given, AllocError>
    ensures { Follows heap.old heap.new result (changed.show visibility space name) }
{
    heap.set_visibility(space, name, visibility)
}

/// Sets the visibility of methods of a class or module; a name that isn't found raises.
#[tactic(auto, unfolding(rows_object::specs::Follows::in_turn))]
fn set_all(
    heap: &mut Heap,
    space: ObjId,
    names: &[SymId],
    visibility: Visibility,
) -> Result<Given, AllocError>
    ensures { Follows heap.old heap.new result (changed.show_all visibility space names.now) }
{
    'names: for name in names {
        if let Given::Raises(exception) = set_one(heap, space, *name, visibility)? {
            return Ok(Given::Raises(exception));
        }
    }
    Ok(Given::Gives(Value::Nil))
}

/// `public`, `private` and `protected`: the default of a class or module, or the visibility of methods by their names.
pub(crate) fn call(
    heap: &mut Heap,
    visibility: Visibility,
    space: ObjId,
    args: &[Value],
) -> Result<Given, AllocError>
    ensures { Follows heap.old heap.new result (changed.set_visibility visibility space args.now) }
{
    if args.is_empty() {
        heap.set_default(space, visibility);
        return Ok(Given::Gives(Value::Nil));
    }
    match names_in(heap, args)? {
        Ok(names) => set_all(heap, space, &names, visibility),
        Err(cause) => heap.fail(cause),
    }
}
