//! New Arrays as what is given.
ghost use Rattle.rows_object.specs.Follows.{Follows, array};

use core_calls::heap::{Given, Heap};
use rb_value::Value;
use std::alloc::AllocError;

/// Gives a new Array of these elements.
#[tactic(auto, using(crate::proofs::Arrays::array_is))]
pub fn give_array(heap: &mut Heap, elements: Vec<Value>) -> Result<Given, AllocError>
    ensures { Follows heap.old heap.new result (array elements.items) }
{
    Ok(Given::Gives(heap.make_array(elements)?))
}
