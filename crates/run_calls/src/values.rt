//! What a resume is given, and what it gives.
ghost use Rattle.std.specs.Prelude.{◌≡◌, IfOk, OnOk};
ghost use Rattle.run_values.specs.declared.given.Given.TheVariants.{Gives};
ghost use Rattle.core_iter.specs.Called.calls as calls;

use core_iter::heap::{Given, Heap};
use rb_value::Value;
use std::alloc::AllocError;

/// Gives nil, one value, or a new Array of more.
pub fn one_of(heap: &mut Heap, values: &[Value]) -> Result<Given, AllocError>
    ensures value { IfOk result (λ g. g ≡ Gives (calls.as_one heap.old values.now).0) }
    ensures made { OnOk result (heap.new ≡ (calls.as_one heap.old values.now).1) }
{
    match values {
        [] => Ok(Given::Gives(Value::Nil)),
        [value] => Ok(Given::Gives(*value)),
        _ => {
            let items = Vec::from_slice(heap.alloc(), values)?;
            Ok(Given::Gives(heap.make_array(items)?))
        }
    }
}
