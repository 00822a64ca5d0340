//! Instructions that leave.
ghost use Rattle.std.specs.Prelude.{◌≡◌, IfOk};
ghost use Rattle.vm_parts.specs.Beside as beside;
ghost use Rattle.vm_steps.specs.Leaving as leaving;

use def_core::Cause;
use rb_value::Exit;
use std::alloc::AllocError;
use vm_parts::exits::{after, receive_here, throw_here};
use vm_parts::flow::Flow;
use vm_parts::loaded::Loaded;
use vm_parts::parts::{Parts, step};
use vm_parts::run_calls::{break_target, is_of};
use vm_parts::vm_frames::Frame;
use vm_parts::vm_unwind::leave;

/// RETURN: the activation of the frame ends with a register's value.
#[inline(always)]
pub fn return_value(
    code: &Loaded,
    hot: &mut Frame,
    parts: &mut Parts,
    a: u16,
) -> Result<Flow, AllocError>
    ensures { IfOk result (λ flow. leaving.Returns code.now (beside.of parts.old) hot.old a flow hot.new (beside.of
        parts.new)) }
{
    let value = parts.get(hot, a);
    if !code.catches(hot.body) {
        leave(&mut parts.heap, &mut parts.frames, hot);
        return Ok(receive_here(hot, parts, value));
    }
    let exit = Exit::Return {
        activation: hot.number,
        value,
    };
    throw_here(code, hot, parts, exit)
}

/// Whether an activation is under way in the fiber that runs.
fn is_under_way(hot: &Frame, parts: &Parts, activation: u64) -> bool
    ensures { result ≡ leaving.is_under_way (beside.of parts.now) hot.now activation }
{
    activation == hot.number || parts.frames.waits_for(activation)
}

/// RETURN_BLK: the activation that is the home of the text ends with a register's value, where it is under way.
pub fn return_home(
    code: &Loaded,
    hot: &mut Frame,
    parts: &mut Parts,
    a: u16,
) -> Result<Flow, AllocError>
    ensures { IfOk result (λ flow. leaving.ReturnsHome code.now (beside.of parts.old) hot.old a flow hot.new (beside.of
        parts.new)) }
{
    let home = parts.frames.activation().home;
    if is_under_way(hot, parts, home) {
        let exit = Exit::Return {
            activation: home,
            value: parts.get(hot, a),
        };
        throw_here(code, hot, parts, exit)
    } else {
        let given = parts.heap.fail(Cause::UnexpectedReturn)?;
        after(code, hot, parts, given, 0)
    }
}

/// BREAK: the call ends with a register's value whose block runs, where it is under way.
pub fn break_call(
    code: &Loaded,
    hot: &mut Frame,
    parts: &mut Parts,
    a: u16,
) -> Result<Flow, AllocError>
    ensures { IfOk result (λ flow. leaving.Breaks code.now (beside.of parts.old) hot.old a flow hot.new (beside.of
        parts.new)) }
{
    match break_target(&parts.heap, hot.number, parts.frames.activation().runs) {
        Some(target) if is_under_way(hot, parts, target) => {
            let exit = Exit::Break {
                activation: target,
                value: parts.get(hot, a),
            };
            throw_here(code, hot, parts, exit)
        }
        _ => {
            let given = parts.heap.fail(Cause::BreakFromProc)?;
            after(code, hot, parts, given, 0)
        }
    }
}

/// EXCEPT: a register takes the exit that came to its place.
pub fn take_exit(hot: &mut Frame, parts: &mut Parts, a: u16) -> Result<Flow, AllocError>
    ensures { IfOk result (λ flow. leaving.TakesExit (beside.of parts.old) hot.old a flow hot.new (beside.of parts.new)) }
{
    parts.frames.take_pending(hot, a)?;
    step(hot);
    Ok(Flow::Stays)
}

/// RAISEIF: an exit that a register keeps goes on.
pub fn go_on_if(
    code: &Loaded,
    hot: &mut Frame,
    parts: &mut Parts,
    a: u16,
) -> Result<Flow, AllocError>
    ensures { IfOk result (λ flow. leaving.GoesOnIf code.now (beside.of parts.old) hot.old a flow hot.new (beside.of
        parts.new)) }
{
    match parts.frames.kept(hot, a) {
        Some(exit) => throw_here(code, hot, parts, exit),
        None => {
            step(hot);
            Ok(Flow::Stays)
        }
    }
}

/// JMPUW: a jump through the handlers between.
pub fn jump_out(
    code: &Loaded,
    hot: &mut Frame,
    parts: &mut Parts,
    to: u32,
) -> Result<Flow, AllocError>
    ensures { IfOk result (λ flow. leaving.JumpsOut code.now (beside.of parts.old) hot.old to flow hot.new (beside.of
        parts.new)) }
{
    let exit = Exit::Jump {
        activation: hot.number,
        target: to,
    };
    throw_here(code, hot, parts, exit)
}

/// RESCUE: whether a clause takes the exception of a register.
pub fn is_rescued(
    code: &Loaded,
    hot: &mut Frame,
    parts: &mut Parts,
    a: u16,
    b: u16,
) -> Result<Flow, AllocError>
    ensures { IfOk result (λ flow. leaving.Rescues code.now (beside.of parts.old) hot.old a b flow hot.new (beside.of
        parts.new)) }
{
    let value = parts.get(hot, a);
    let class = parts.get(hot, b);
    let given = is_of(&mut parts.heap, value, class)?;
    after(code, hot, parts, given, b)
}
