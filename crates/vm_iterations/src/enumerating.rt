//! Turns of the methods of Enumerators and Yielders that need no plan.
ghost use Rattle.std.specs.Prelude.{◌≡◌, IfOk};
ghost use Rattle.vm_parts.specs.Below.views as views;
ghost use Rattle.vm_parts.specs.Beside as beside;
ghost use Rattle.vm_iterations.specs.Beginning as beginning;
ghost use Rattle.vm_iterations.specs.Ending as ending;

use crate::firsts::First;
use crate::iterating::fail_out;
use iter_enumerators::{EnumeratorRow, EnumeratorState, next};
use rb_value::{ObjId, Value};
use std::alloc::AllocError;
use vm_parts::core_calls::Plan;
use vm_parts::exits::receive_here;
use vm_parts::flow::Flow;
use vm_parts::heap::{Cursor, Heap};
use vm_parts::loaded::Loaded;
use vm_parts::parts::Parts;
use vm_parts::vm_frames::{Begun, Frame};

/// The fiber that is resumed for the next item of an Enumerator: the one that it has, where it holds no item and its source
/// hasn't returned.
fn fiber_to_resume(heap: &Heap, cursor: Cursor) -> Option<ObjId>
    ensures { result ≡ beginning.fiber_by heap.now cursor }
{
    let place = usize::try_from(cursor.position).unwrap_or(usize::MAX);
    match cursor.result {
        None if place >= heap.elements(cursor.items).len() => cursor.fiber,
        _ => None,
    }
}

/// The next item of an Enumerator is asked for, which leaves it or stays in it.
fn first_of_item(parts: &Parts, begun: &Begun, leaves: bool) -> Option<First>
    ensures { result ≡ beginning.item (beside.of parts.now) begun.now leaves }
{
    let Value::Obj(enumerator) = begun.receiver else {
        return None;
    };
    if begun.arguments.count > 0 {
        return None;
    }
    let fiber = fiber_to_resume(&parts.heap, parts.heap.cursor_of(enumerator)?)?;
    Some(First::Enumerates {
        fiber,
        then: EnumeratorState::Waits {
            enumerator,
            fiber,
            leaves,
        },
    })
}

/// The Proc of the Yielder that begins.
fn proc_of_yielder(parts: &Parts, begun: &Begun) -> Option<ObjId>
    ensures { result ≡ beginning.yielder_by parts.now.heap (views.object_in begun.now.receiver) }
{
    match begun.receiver {
        Value::Obj(id) => parts.heap.yielder_of(id),
        _ => None,
    }
}

/// What the first turn of a method of an Enumerator or a Yielder does, where it is done in place.
pub fn first_of_enumerator(parts: &Parts, begun: &Begun, row: EnumeratorRow) -> Option<First>
    ensures { result ≡ beginning.of_enumerator row (beside.of parts.now) begun.now }
{
    match row {
        EnumeratorRow::Next => first_of_item(parts, begun, true),
        EnumeratorRow::Peek => first_of_item(parts, begun, false),
        EnumeratorRow::Put if begun.arguments.count == 1 => Some(First::Puts {
            callee: proc_of_yielder(parts, begun)?,
            given: begun.receiver,
        }),
        _ => None,
    }
}

/// The innermost level that waits, a method of an Enumerator or a Yielder, ends with its answer.
pub fn end_enumerating(
    code: &Loaded,
    hot: &mut Frame,
    parts: &mut Parts,
    state: EnumeratorState,
    answer: Value,
) -> Result<Flow, AllocError>
    ensures { IfOk result (λ flow. ending.EndsEnumerating code.now (beside.of parts.old) hot.old state answer flow
        hot.new (beside.of parts.new)) }
{
    parts.frames.drop_iteration();
    match next(&mut parts.heap, state, answer)? {
        Plan::Finishes(value) => Ok(receive_here(hot, parts, value)),
        Plan::Fails(cause) => fail_out(code, parts, cause),
        _ => Ok(Flow::Ends),
    }
}
