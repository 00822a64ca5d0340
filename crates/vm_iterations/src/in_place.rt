//! First turns of iterations that need no plan.
ghost use Rattle.std.specs.Prelude.{◌≡◌, IfOk, OnOk};
ghost use Rattle.vm_parts.specs.Beside as beside;
ghost use Rattle.vm_parts.specs.declared.flow.Flow.TheVariants.{Wakes};
ghost use Rattle.vm_parts.specs.Below.frames.{Frame};
ghost use Rattle.vm_parts.specs.Below.frames.calls.iteration.{Handing};
ghost use Rattle.vm_iterations.specs.Beginning as beginning;

use crate::firsts::{First, Initialize, first_of};
use crate::iterating::{fail_out, waiting};
use def_core::{BindKind, Cause};
use rb_value::{ObjId, Value};
use std::alloc::AllocError;
use vm_parts::core_calls::{Call, Passed};
use vm_parts::core_iter::Iteration;
use vm_parts::entering::{Entered, enter_called, keep_passed, open_body};
use vm_parts::exits::{hand_out, handed, raise_out, receive, receive_here};
use vm_parts::fiber_switch::Resumed;
use vm_parts::flow::Flow;
use vm_parts::heap::Blank;
use vm_parts::known::MethodBody;
use vm_parts::loaded::Loaded;
use vm_parts::parts::Parts;
use vm_parts::run_calls::method_running;
use vm_parts::run_rows::iter_items::ItemsState;
use vm_parts::run_rows::{KernelRow, PlainRow, Row, StarRow, call_at_once, call_plain};
use vm_parts::vm_frames::{Arguments, Begun, Frame};

/// The value that a resume or a yield hands over.
fn value_of(passed: Passed) -> Value
    ensures { result ≡ beginning.value_of passed }
{
    match passed {
        Passed::Nothing => Value::Nil,
        Passed::One(value) => value,
        Passed::Two(value, _) => value,
    }
}

/// Resumes a fiber with at most one value, for an iteration that waits.
fn resume_in_place(
    code: &Loaded,
    hot: &mut Frame,
    parts: &mut Parts,
    fiber: ObjId,
    passed: Passed,
) -> Result<Flow, AllocError>
    ensures { IfOk result (λ flow. beginning.ResumesHere code.now (beside.of parts.old) hot.old fiber passed flow hot.new
        (beside.of parts.new)) }
{
    match parts.fibers.resume(&parts.heap, &mut parts.frames, fiber)? {
        Resumed::Refused(cause) => fail_out(code, parts, cause),
        Resumed::Begins(block) => {
            let arguments = keep_passed(parts, passed)?;
            enter_called(code, hot, parts, block, None, &arguments)
        }
        Resumed::Continues => Ok(receive_here(hot, parts, value_of(passed))),
    }
}

/// Yields at most one value, for an iteration that waits.
fn yield_in_place(
    code: &Loaded,
    hot: &mut Frame,
    parts: &mut Parts,
    passed: Passed,
) -> Result<Flow, AllocError>
    ensures { IfOk result (λ flow. beginning.YieldsHere code.now (beside.of parts.old) hot.old passed flow hot.new
        (beside.of parts.new)) }
{
    if parts.fibers.yield_back(&mut parts.frames) {
        Ok(receive_here(hot, parts, value_of(passed)))
    } else {
        fail_out(code, parts, Cause::RootYield)
    }
}

/// Calls the core method that is `initialize` of a new object, which is given then.
fn initialize_by_core(
    code: &Loaded,
    parts: &mut Parts,
    begun: &Begun,
    object: Value,
    row: PlainRow,
) -> Result<Flow, AllocError>
    ensures { IfOk result (λ flow. beginning.InitializesByCore row code.now (beside.of parts.old) begun.now object flow
        (beside.of parts.new)) }
{
    let call = Call {
        receiver: object,
        args: parts.frames.given(begun.arguments),
        block: begun.block,
    };
    let given = call_plain(&mut parts.heap, row, call)?;
    parts.frames.drop_arguments(begun.arguments);
    hand_out(code, parts, handed(given))
}

/// Enters the body that is `initialize` of a new object, for which there is room.
fn initialize_by_body(
    code: &Loaded,
    hot: &mut Frame,
    parts: &mut Parts,
    begun: &Begun,
    object: Value,
    initialize: &MethodBody,
) -> Result<Flow, AllocError>
    ensures { IfOk result (λ flow. beginning.EntersInitialize initialize.now code.now (beside.of parts.old) hot.old
        begun.now object flow hot.new (beside.of parts.new)) }
{
    let number = parts.next_activation()?;
    let activation = method_running(
        initialize.owner,
        initialize.classes,
        parts.names.initialize,
        object,
        begun.block,
        number,
    );
    let entered = Entered {
        body: initialize.body,
        outer: None,
        block: begun.block,
        binds: BindKind::Method,
    };
    open_body(
        code,
        hot,
        parts,
        number,
        &activation,
        entered,
        &begun.arguments,
    )?;
    Ok(Flow::Stays)
}

/// Makes an object of a class and calls its `initialize`.
fn make_in_place(
    code: &Loaded,
    hot: &mut Frame,
    parts: &mut Parts,
    begun: &Begun,
    class: ObjId,
    blank: Blank,
    initialize: Initialize,
) -> Result<Flow, AllocError>
    ensures { IfOk result (λ flow. beginning.Initializes initialize code.now (beginning.object_waits
        (beside.of parts.old) begun.now class blank) hot.old begun.now (beginning.object_made (beside.of parts.old)) flow
        hot.new (beside.of parts.new)) }
{
    let object = parts.heap.make_blank(class, blank)?;
    let giving = waiting(begun.number, Iteration::Giving(object));
    parts.frames.push_iteration(giving)?;
    match initialize {
        Initialize::Body(method) => initialize_by_body(code, hot, parts, begun, object, &method),
        Initialize::Core(row) => initialize_by_core(code, parts, begun, object, row),
    }
}

/// Begins the core `new` of a class with the arguments behind the class, for a `raise` that waits for the object.
fn raise_in_place(parts: &mut Parts, begun: &Begun, class: Value) -> Result<Flow, AllocError>
    ensures flow { IfOk result (λ flow. flow ≡ Wakes) }
    ensures begun { OnOk result (beside.of parts.new ≡ beginning.new_begins (beside.of parts.old) begun.now class) }
{
    parts
        .frames
        .push_iteration(waiting(begun.number, Iteration::Raising))?;
    let number = parts.next_activation()?;
    parts.activations = number;
    parts.frames.begin(Begun {
        number,
        row: StarRow::Kernel(KernelRow::NewObject),
        receiver: class,
        arguments: Arguments {
            first: begun.arguments.first.wrapping_add(1),
            count: begun.arguments.count.saturating_sub(1),
            end: begun.arguments.end,
        },
        block: None,
    });
    Ok(Flow::Wakes)
}

/// An iteration that begins waits.
fn wait(parts: &mut Parts, begun: &Begun, then: Iteration) -> Result<(), AllocError>
    ensures { OnOk result (beside.of parts.new ≡ beginning.waiting_so (beside.of parts.old) begun.now then) }
{
    parts.frames.push_iteration(waiting(begun.number, then))
}

/// An iteration that begins waits for the one value that it hands on.
fn wait_handing(parts: &mut Parts, begun: &Begun) -> Result<(), AllocError>
    ensures { OnOk result (beside.of parts.new ≡ beginning.waiting_so (beside.of parts.old) begun.now Handing) }
{
    wait(parts, begun, Iteration::Handing)
}

/// Asks the receiver of an iteration, which waits, for what a core method gives.
fn ask_in_place(
    code: &Loaded,
    parts: &mut Parts,
    begun: &Begun,
    number: u16,
    row: Row,
) -> Result<Flow, AllocError>
    ensures { IfOk result (λ flow. (f : Frame) → beginning.Asks number row code.now (beside.of parts.old) f
        begun.now.receiver flow f (beside.of parts.new)) }
{
    let call = Call {
        receiver: begun.receiver,
        args: &[],
        block: None,
    };
    match call_at_once(&mut parts.heap, number, row, call)? {
        Some(given) => hand_out(code, parts, handed(given)),
        None => Ok(Flow::Ends),
    }
}

/// Does the first turn of an iteration in place.
fn begin_with(
    code: &Loaded,
    hot: &mut Frame,
    parts: &mut Parts,
    begun: &Begun,
    first: First,
) -> Result<Flow, AllocError>
    ensures { IfOk result (λ flow. beginning.BeginsWith first code.now (beside.of parts.old) hot.old begun.now flow
        hot.new (beside.of parts.new)) }
{
    match first {
        First::Gives(value) => {
            parts.frames.drop_arguments(begun.arguments);
            Ok(receive_here(hot, parts, value))
        }
        First::Tells(value) => {
            wait(parts, begun, Iteration::Giving(value))?;
            parts.frames.drop_arguments(begun.arguments);
            Ok(receive(parts, value))
        }
        First::Calls(callee) => {
            wait_handing(parts, begun)?;
            enter_called(code, hot, parts, callee, begun.block, &begun.arguments)
        }
        First::Puts { callee, given } => {
            wait(parts, begun, Iteration::Giving(given))?;
            enter_called(code, hot, parts, callee, None, &begun.arguments)
        }
        First::Enumerates { fiber, then } => {
            wait(parts, begun, Iteration::Items(ItemsState::Enumerates(then)))?;
            parts.frames.drop_arguments(begun.arguments);
            resume_in_place(code, hot, parts, fiber, Passed::Nothing)
        }
        First::Resumes { fiber, passed } => {
            wait_handing(parts, begun)?;
            parts.frames.drop_arguments(begun.arguments);
            resume_in_place(code, hot, parts, fiber, passed)
        }
        First::Yields(passed) => {
            wait_handing(parts, begun)?;
            parts.frames.drop_arguments(begun.arguments);
            yield_in_place(code, hot, parts, passed)
        }
        First::Makes {
            class,
            blank,
            initialize,
        } => make_in_place(code, hot, parts, begun, class, blank, initialize),
        First::Raises(class) => raise_in_place(parts, begun, class),
        First::Throws(exception) => {
            parts.frames.drop_arguments(begun.arguments);
            raise_out(code, parts, exception)
        }
        First::Asks { number, row } => {
            wait_handing(parts, begun)?;
            parts.frames.drop_arguments(begun.arguments);
            ask_in_place(code, parts, begun, number, row)
        }
    }
}

/// The first turn of an iteration, made in place; nothing where it needs a plan. A body that it enters is the frame in
/// hand then.
pub fn begin_in_place(
    code: &Loaded,
    hot: &mut Frame,
    parts: &mut Parts,
    begun: Begun,
) -> Result<Option<Flow>, AllocError>
    ensures { IfOk result (λ flow. beginning.BeginsInPlace code.now (beside.of parts.old) hot.old begun flow hot.new
        (beside.of parts.new)) }
{
    match first_of(parts, &begun)? {
        Some(first) => {
            let _begun = parts.frames.take_begun();
            Ok(Some(begin_with(code, hot, parts, &begun, first)?))
        }
        None => Ok(None),
    }
}
