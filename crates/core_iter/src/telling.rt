//! `message` and `inspect` of exceptions, which ask for `to_s`, and the message of one that nothing rescued.
ghost use Rattle.std.specs.Prelude.{◌≡◌, Ok};
ghost use Rattle.def_plans.specs.Plan.{Plans};
ghost use Rattle.core_iter.specs.Stage.{stage_of};
ghost use Rattle.core_iter.specs.Telling as telling;

use crate::iteration::Iteration;
use crate::sending::{ask, refuse};
use rb_value::{CoreClass, ObjId, Value};
use run_rows::core_calls::Plan;
use run_rows::heap::Heap;
use run_rows::rows_object::inspection;
use std::alloc::AllocError;

/// Asks an exception for its `to_s`, and goes on then.
pub(crate) fn ask_message(
    heap: &mut Heap,
    then: Iteration,
    exception: Value,
) -> Result<Plan<Iteration>, AllocError>
    ensures { Plans stage_of heap.new result (telling.ask_message heap.old (stage_of then) exception) }
{
    match heap.an_exception(exception) {
        Some(_) => ask(heap, then, exception, b"to_s"),
        None => Ok(refuse(heap, CoreClass::Exception, exception)),
    }
}

/// The object that an exception was made with, where it is no String.
fn other_object(heap: &Heap, exception: Value) -> Option<Value>
    ensures { result ≡ telling.other_object heap.now.store exception }
{
    let message = heap.message_of(heap.an_exception(exception)?);
    match (message, heap.text_of(message)) {
        (Value::Obj(_), None) => Some(message),
        _ => None,
    }
}

/// Begins to ask an exception for its message.
pub(crate) fn begin_message(
    heap: &mut Heap,
    exception: Value,
) -> Result<Plan<Iteration>, AllocError>
    ensures { Plans stage_of heap.new result (telling.begin_message heap.old exception) }
{
    let then = match other_object(heap, exception) {
        Some(_) => Iteration::Messaging(exception),
        None => Iteration::Handing,
    };
    ask_message(heap, then, exception)
}

/// Whether a value is the object that an exception was made with, where that is no String.
fn is_other(heap: &Heap, exception: Value, value: Value) -> bool
    ensures { result ≡ telling.is_it (telling.other_object heap.now.store exception) value }
{
    match other_object(heap, exception) {
        Some(other) => other == value,
        None => false,
    }
}

/// Gives what `to_s` of an exception gave. An object that it was made with is asked for its `to_s`.
pub(crate) fn give_message(
    heap: &mut Heap,
    exception: Value,
    message: Value,
) -> Result<Plan<Iteration>, AllocError>
    ensures { Plans stage_of heap.new result (telling.give_message heap.old exception message) }
{
    if is_other(heap, exception, message) {
        ask(heap, Iteration::Handing, message, b"to_s")
    } else {
        Ok(Plan::Finishes(message))
    }
}

/// Shows an exception by what its `to_s` gave. An object that it was made with is asked for its `to_s`.
pub(crate) fn tell(
    heap: &mut Heap,
    exception: Value,
    message: Value,
) -> Result<Plan<Iteration>, AllocError>
    ensures { Plans stage_of heap.new result (telling.tell heap.old exception message) }
{
    if is_other(heap, exception, message) {
        ask(heap, Iteration::TellingText(exception), message, b"to_s")
    } else {
        tell_text(heap, exception, message)
    }
}

/// Shows an exception by the text of its message.
pub(crate) fn tell_text(
    heap: &mut Heap,
    exception: Value,
    text: Value,
) -> Result<Plan<Iteration>, AllocError>
    ensures { Plans stage_of heap.new result (telling.told heap.old exception text) }
{
    Ok(Plan::Finishes(inspection(heap, exception, text)?))
}

/// Asks an exception that nothing rescued for its message.
pub(crate) fn report(heap: &mut Heap, exception: ObjId) -> Result<Plan<Iteration>, AllocError>
    ensures { Plans stage_of heap.new result (telling.report heap.old exception) }
{
    let then = Iteration::Reported(exception);
    ask(heap, then, Value::Obj(exception), b"message")
}

/// Raises an exception that nothing rescued once more, with the message that it gave. One that gave no String is seen by
/// the name of its class, as one without a message.
pub(crate) fn raise_reported(heap: &mut Heap, exception: ObjId, message: Value) -> Plan<Iteration>
    ensures { Plans stage_of heap.new (Ok result) (telling.reported heap.old exception message) }
{
    let message = if heap.text_of(message).is_none() {
        Value::Nil
    } else {
        message
    };
    heap.set_message(exception, message);
    Plan::Raises(exception)
}
