//! The message of an exception that nothing rescued, where the program says what it is.
ghost use Rattle.std.specs.Prelude.{◌≡◌, IfOk, OnOk};
ghost use Rattle.vm_parts.specs.Beside as beside;
ghost use Rattle.vm_iterations.specs.Reporting as reporting;

use crate::iterating::waiting;
use rb_value::{CoreClass, Method, ObjId, Value};
use std::alloc::AllocError;
use vm_parts::core_iter::Iteration;
use vm_parts::flow::End;
use vm_parts::heap::Heap;
use vm_parts::parts::Parts;

/// Whether a value has a method of that name which the program wrote.
fn is_written(heap: &mut Heap, value: Value, name: &[u8]) -> Result<bool, AllocError>
    ensures written { IfOk result (λ written. written ≡ reporting.is_written heap.old value name.now) }
    ensures named { OnOk result (heap.new ≡ reporting.named heap.old name.now) }
{
    let name = heap.intern(name)?;
    match heap.find_for(value, name)? {
        Some(found) => match found.method {
            Method::Core(_) | Method::Undefined => Ok(false),
            _ => Ok(true),
        },
        None => Ok(false),
    }
}

/// Whether an exception was made with a message that is no String, so that it is asked for a text.
fn has_other_message(heap: &Heap, exception: ObjId) -> bool
    ensures { result ≡ reporting.has_other_message heap.now exception }
{
    let message = heap.message_of(exception);
    message != Value::Nil && heap.text_of(message).is_none()
}

/// Whether the program says what the message of an exception is. That of one that ends the program isn't seen.
fn says_message(heap: &mut Heap, exception: ObjId) -> Result<bool, AllocError>
    ensures says { IfOk result (λ says. says ≡ (reporting.says heap.old exception).0) }
    ensures named { OnOk result (heap.new ≡ (reporting.says heap.old exception).1) }
{
    let value = Value::Obj(exception);
    if heap.is_below(heap.plain_class_of(value), CoreClass::SystemExit) {
        Ok(false)
    } else if has_other_message(heap, exception) {
        Ok(true)
    } else if is_written(heap, value, b"message")? {
        Ok(true)
    } else {
        is_written(heap, value, b"to_s")
    }
}

/// Tells whether a program that ended by an exception goes on to say what its message is, which it does then.
pub fn begin_report(parts: &mut Parts, end: End) -> Result<bool, AllocError>
    ensures told { IfOk result (λ told. told ≡ (reporting.reports (beside.of parts.old) end).0) }
    ensures begun { OnOk result (beside.of parts.new ≡ (reporting.reports (beside.of parts.old) end).1) }
{
    let End::Uncaught(exception) = end else {
        return Ok(false);
    };
    if !says_message(&mut parts.heap, exception)? {
        return Ok(false);
    }
    let number = parts.next_activation()?;
    parts.activations = number;
    let reporting = waiting(number, Iteration::Reporting(exception));
    parts.frames.push_iteration(reporting)?;
    Ok(true)
}
