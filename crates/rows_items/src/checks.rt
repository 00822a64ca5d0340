//! What arguments are, or the cause by which they are refused.
ghost use Rattle.std.specs.Prelude.{◌≡◌, pos, IfOk};
ghost use Rattle.rb_value.specs.declared.value.Value.TheVariants.{Int};
ghost use Rattle.rows_items.specs.Checks as checks;

use core_calls::heap::Heap;
use def_core::Cause;
use rb_value::{CoreClass, ObjId, Value};

/// The Array that a value is.
pub fn an_array(heap: &Heap, value: Value) -> Result<ObjId, Cause>
    ensures { result ≡ checks.array_of heap.now.store value }
{
    match heap.an_array(value) {
        Some(id) => Ok(id),
        None => Err(heap.refusal(CoreClass::Array, value)),
    }
}

/// The number that a value is.
pub fn an_integer(heap: &Heap, value: Value) -> Result<i64, Cause>
    ensures number { IfOk result (λ number. value ≡ Int number) }
    ensures checked { result ≡ checks.integer_of heap.now.store value }
{
    match value {
        Value::Int(number) => Ok(number),
        other => Err(heap.refusal(CoreClass::Integer, other)),
    }
}

/// The count that a value is: an Integer that isn't below 0.
pub fn count(heap: &Heap, value: Value) -> Result<usize, Cause>
    ensures number { IfOk result (λ count. value ≡ Int (pos count)) }
    ensures checked { result ≡ checks.count_of heap.now.store value }
{
    let number = an_integer(heap, value)?;
    match usize::try_from(number) {
        Ok(count) => Ok(count),
        Err(_) => Err(Cause::NegativeCount),
    }
}
