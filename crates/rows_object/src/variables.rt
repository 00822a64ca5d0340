//! Methods of Object on instance variables.
ghost use Rattle.std.specs.Prelude.{◌≡◌, map, IfOk};
ghost use Rattle.rows_object.specs.Follows.{Follows};
ghost use Rattle.rows_object.specs.Variables as variables;

use crate::giving::give_array;
use core_calls::heap::{Given, Heap};
use core_calls::name_in;
use rb_value::{Value, Variable};
use std::alloc::{AllocError, Global};

/// `instance_variable_get`: nil where it wasn't set.
pub(crate) fn get(heap: &mut Heap, receiver: Value, name: Value) -> Result<Given, AllocError>
    ensures { Follows heap.old heap.new result (variables.get receiver name) }
{
    match name_in(heap, name)? {
        Ok(name) => Ok(Given::Gives(heap.instance_variable(receiver, name))),
        Err(cause) => heap.fail(cause),
    }
}

/// `instance_variable_set`, which gives the value.
pub(crate) fn set(
    heap: &mut Heap,
    receiver: Value,
    name: Value,
    value: Value,
) -> Result<Given, AllocError>
    ensures { Follows heap.old heap.new result (variables.set receiver name value) }
{
    match name_in(heap, name)? {
        Ok(name) => heap.set_instance_variable(receiver, name, value),
        Err(cause) => heap.fail(cause),
    }
}

/// The names of variables as Symbols.
fn names_of(alloc: Global, list: &[Variable]) -> Result<Vec<Value>, AllocError>
    ensures { IfOk result (λ names. names.items ≡ map variables.symbol list.now) }
{
    let mut names = Vec::with_capacity(alloc, list.len())?;
    'variables: for variable in list {
        names.push(Value::Sym(variable.name))?;
    }
    Ok(names)
}

/// `instance_variables`: the names of those of a value, in the order in which they were first set.
pub(crate) fn names(heap: &mut Heap, receiver: Value) -> Result<Given, AllocError>
    ensures { Follows heap.old heap.new result (variables.names receiver) }
{
    let names = match receiver {
        Value::Obj(id) => names_of(heap.alloc(), heap.variables(id))?,
        _ => Vec::new(heap.alloc()),
    };
    give_array(heap, names)
}
