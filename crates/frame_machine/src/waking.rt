//! Turns of the innermost level that waits, where it is an iteration.
ghost use Rattle.std.specs.Prelude.{◌≡◌, IfOk};
ghost use Rattle.vm_acts.specs.Parts.below.views as views;
ghost use Rattle.vm_acts.specs.Parts.below.frames.{Frame};
ghost use Rattle.vm_acts.specs.Parts.beside as beside;
ghost use Rattle.frame_machine.specs.Waking as waking;

use iter_enumerators::EnumeratorState;
use rb_value::Value;
use std::alloc::AllocError;
use vm_acts::core_calls::Beat;
use vm_acts::core_iter::{Iteration, beat};
use vm_acts::run_rows::iter_items::ItemsState;
use vm_acts::vm_frames::{Frame, Level};
use vm_acts::vm_parts::entering::enter_block;
use vm_acts::vm_parts::exits::{raise_out, receive_here};
use vm_acts::vm_parts::flow::{Flow, Step};
use vm_acts::vm_parts::loaded::Loaded;
use vm_acts::vm_parts::parts::Parts;
use vm_iterations::{begin_by_plan, begin_in_place, end_enumerating, iterate};

/// The call of a block that the innermost level that waits makes in place, where it is an iteration that does.
fn beat_of(parts: &mut Parts) -> Result<Option<Beat>, AllocError>
    ensures { IfOk result (λ beat. waking.BeatsIn (waking.iteration_in (beside.of parts.old)) (beside.of parts.old) beat
        (beside.of parts.new)) }
{
    match parts.frames.innermost() {
        Some(iterating) => {
            let answer = iterating.answer;
            beat(&mut parts.heap, &mut iterating.state, answer)
        }
        None => Ok(None),
    }
}

/// How the innermost level that waits ends, where it is an iteration that calls nothing any more: with a value, with what is
/// to be an exception, or as a method of an Enumerator with its answer.
enum Ready {
    Gives(Value),
    Raises(Value),
    Enumerates {
        state: EnumeratorState,
        answer: Value,
    },
}

/// How an iteration ends that only hands on its answer or a value that it has, raises it, or is a method of an Enumerator.
#[inline(always)]
fn ready_by(state: &Iteration, answer: Value) -> Option<Ready>
    ensures { result ≡ waking.ready_by state.now answer }
{
    match state {
        Iteration::Handing => Some(Ready::Gives(answer)),
        Iteration::Giving(value) => Some(Ready::Gives(*value)),
        Iteration::Raising => Some(Ready::Raises(answer)),
        Iteration::Items(ItemsState::Enumerates(state)) => Some(Ready::Enumerates {
            state: *state,
            answer,
        }),
        _ => None,
    }
}

/// How the innermost level that waits ends, where it is an iteration that calls nothing any more.
fn readiness(parts: &mut Parts) -> Option<Ready>
    ensures ready { result ≡ waking.ready_in (waking.iteration_in (beside.of parts.old)) }
    ensures same { beside.of parts.new ≡ waking.looked_at (beside.of parts.old) }
{
    let iterating = parts.frames.innermost()?;
    ready_by(&iterating.state, iterating.answer)
}

/// The innermost level that waits, an iteration, raises an exception; nothing where the value is none.
fn raise_ready(code: &Loaded, parts: &mut Parts, value: Value) -> Result<Option<Flow>, AllocError>
    ensures { IfOk result (λ flow. (f : Frame) → waking.RaisesIf (views.an_exception parts.old.heap.store.objects value)
        code.now (beside.of parts.old) f flow f (beside.of parts.new)) }
{
    match parts.heap.an_exception(value) {
        Some(exception) => {
            parts.frames.drop_iteration();
            Ok(Some(raise_out(code, parts, exception)?))
        }
        None => Ok(None),
    }
}

/// The innermost level that waits, an iteration that calls nothing any more, ends; nothing where it is to raise what is no
/// exception.
#[inline(always)]
fn end_ready(
    code: &Loaded,
    hot: &mut Frame,
    parts: &mut Parts,
    ready: Ready,
) -> Result<Option<Flow>, AllocError>
    ensures { IfOk result (λ flow. waking.EndsReady ready code.now (beside.of parts.old) hot.old flow hot.new
        (beside.of parts.new)) }
{
    match ready {
        Ready::Gives(value) => {
            parts.frames.drop_iteration();
            Ok(Some(receive_here(hot, parts, value)))
        }
        Ready::Raises(value) => raise_ready(code, parts, value),
        Ready::Enumerates { state, answer } => {
            Ok(Some(end_enumerating(code, hot, parts, state, answer)?))
        }
    }
}

/// The innermost level that waits calls its block in place, where it is an iteration that does; nothing where it needs a
/// plan.
#[inline(always)]
fn call_in_place(
    code: &Loaded,
    hot: &mut Frame,
    parts: &mut Parts,
) -> Result<Option<Flow>, AllocError>
    ensures { IfOk result (λ flow. waking.CallsInPlace code.now (beside.of parts.old) hot.old flow hot.new
        (beside.of parts.new)) }
{
    match beat_of(parts)? {
        Some(beat) => Ok(Some(enter_block(code, hot, parts, beat)?)),
        None => Ok(None),
    }
}

/// A turn of the innermost level that waits, where it is an iteration that needs no plan: it begins in place, calls its
/// block in place, or ends. Nothing where it needs one.
pub fn wake(code: &Loaded, hot: &mut Frame, parts: &mut Parts) -> Result<Option<Flow>, AllocError>
    ensures { IfOk result (λ flow. waking.WakesUp code.now (beside.of parts.old) hot.old flow hot.new
        (beside.of parts.new)) }
{
    if let Some(begun) = parts.frames.begun() {
        return begin_in_place(code, hot, parts, begun);
    }
    match readiness(parts) {
        Some(ready) => end_ready(code, hot, parts, ready),
        None => call_in_place(code, hot, parts),
    }
}

/// A turn of the innermost level that waits, an iteration that needs a plan.
pub fn run_plan(code: &Loaded, hot: &mut Frame, parts: &mut Parts) -> Result<Step, AllocError>
    ensures { IfOk result (λ step. waking.Plans code.now (beside.of parts.old) hot.old step hot.new
        (beside.of parts.new)) }
{
    if let Some(begun) = parts.frames.take_begun() {
        return begin_by_plan(code, hot, parts, begun);
    }
    match parts.frames.pop() {
        Some(Level::Frame(frame)) => {
            *hot = frame;
            Ok(Step::Goes(Flow::Stays))
        }
        Some(Level::Iteration(iterating)) => iterate(code, hot, parts, iterating),
        None => Ok(Step::Goes(Flow::Ends)),
    }
}
