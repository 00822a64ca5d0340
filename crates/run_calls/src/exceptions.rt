//! Exceptions: where a clause takes one, and what is seen of one that nothing rescued.
ghost use Rattle.std.specs.Prelude.{◌≡◌, IfOk};
ghost use Rattle.def_calls.specs.Calls as defined;
ghost use Rattle.def_calls.specs.World.{World, with_store};
ghost use Rattle.heap.specs.Operands.{own};
ghost use Rattle.run_values.specs.Answers.{answered};
ghost use Rattle.run_calls.specs.Exceptions as exceptions;

use core_iter::heap::{Given, Heap};
use def_core::Cause;
use rb_value::{CoreClass, ObjId, Value};
use std::alloc::AllocError;

/// Gives whether a clause of a begin form takes an exception: its class is among the ancestors. What is no class or
/// module raises.
#[tactic(auto, unfolding(def_calls::specs::Calls::is_of, heap::specs::Told::told))]
pub fn is_of(heap: &mut Heap, value: Value, class: Value) -> Result<Given, AllocError>
    ensures { IfOk result (λ g. (w : World) → defined.is_of (with_store w heap.old.store) (own heap.old.store value)
        (own heap.old.store class) ≡ answered g (with_store w heap.new.store)) }
{
    match heap.space_in(class) {
        Some(space) => Ok(Given::Gives(Value::from_truth(heap.is_a(value, space)))),
        None => heap.fail(Cause::RescueNotClass),
    }
}

/// What is seen of an exception that nothing rescued: whether it ends the program with a status, and else the name of
/// its class and its message.
#[derive(Debug, Drop)]
pub struct Unrescued {
    pub exits: bool,
    pub status: u64,
    pub class: Vec<u8>,
    pub message: Vec<u8>,
}

/// The status that an exception ends the program with: 0 where it has none, or a negative one.
fn status_of(heap: &Heap, exception: ObjId) -> u64
    ensures { result ≡ exceptions.status_of heap.now.store exception }
{
    match heap.detail_of(exception) {
        Value::Int(number) => u64::try_from(number).unwrap_or(0),
        _ => 0,
    }
}

/// The message of an exception, or the name of its class where it has none.
fn message_or_name(heap: &Heap, exception: ObjId) -> Result<Vec<u8>, AllocError>
    ensures { IfOk result (λ text. text.items ≡ exceptions.message_or_name heap.now.store exception) }
{
    match heap.message_of(exception) {
        Value::Nil => {
            let class = heap.plain_class_of(Value::Obj(exception));
            Vec::from_slice(heap.alloc(), heap.class_name(class))
        }
        message => heap.text_of_value(message),
    }
}

/// What is seen of an exception that nothing rescued.
pub fn seen_of(heap: &Heap, exception: ObjId) -> Result<Unrescued, AllocError>
    ensures { IfOk result (λ seen. exceptions.SeenOf heap.now.store exception seen) }
{
    let class = heap.plain_class_of(Value::Obj(exception));
    Ok(Unrescued {
        exits: heap.is_below(class, CoreClass::SystemExit),
        status: status_of(heap, exception),
        class: Vec::from_slice(heap.alloc(), heap.class_name(class))?,
        message: message_or_name(heap, exception)?,
    })
}
