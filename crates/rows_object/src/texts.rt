//! What a new String holds.
ghost use Rattle.rows_object.specs.Answered.{Answered};
ghost use Rattle.rows_object.specs.Procs as defined;

use core_calls::heap::{Given, Heap};
use rb_value::{CoreClass, Value};
use std::alloc::AllocError;

/// `initialize` of String: the receiver takes the bytes of the String that is given, where one is.
#[tactic(auto, unfolding(def_calls::specs::World::fail), using(crate::proofs::Held::bytes_of_store))]
pub(crate) fn initialize(
    heap: &mut Heap,
    receiver: Value,
    args: &[Value],
) -> Result<Given, AllocError>
    ensures { Answered heap.old heap.new result (defined.initialize_string receiver args.now) }
{
    let Some(own) = heap.a_string(receiver) else {
        return heap.unexpected(CoreClass::String, receiver);
    };
    let Some(value) = args.first() else {
        return Ok(Given::Gives(receiver));
    };
    let bytes = match heap.text_of(*value) {
        Some(text) => Vec::from_slice(heap.alloc(), text)?,
        None => return heap.unexpected(CoreClass::String, *value),
    };
    heap.replace_text(own, bytes);
    Ok(Given::Gives(receiver))
}
