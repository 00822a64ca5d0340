//! Values that go back to levels that wait, and exits.
ghost use Rattle.std.specs.Prelude.{◌≡◌, IfOk};
ghost use Rattle.fiber_switch.specs.Frames.levels as levels;
ghost use Rattle.fiber_switch.specs.Frames.level as level;
ghost use Rattle.vm_parts.specs.Beside as beside;
ghost use Rattle.vm_parts.specs.Leaving as leaving;
ghost use Rattle.vm_parts.specs.declared.flow.Flow.TheVariants.{Ends};

use crate::flow::{End, Flow, Handed};
use crate::loaded::Loaded;
use crate::parts::{Parts, put, step};
use fiber_switch::heap::Given;
use fiber_switch::vm_frames::{Frame, Level};
use fiber_switch::vm_unwind::{Landing, unwind};
use rb_value::{Exit, ObjId, Value};
use std::alloc::AllocError;

/// The end of the fiber that runs, with a value: that of its resume, or the end of the program.
fn end_fiber(parts: &mut Parts, value: Value) -> Flow
    ensures flow { result ≡ leaving.fiber_flow (beside.of parts.old) }
    ensures ended { beside.of parts.new ≡ leaving.fiber_given (beside.of parts.old) value }
{
    if parts.fibers.end(&mut parts.heap, &mut parts.frames) && parts.frames.hand(value) {
        Flow::Wakes
    } else {
        Flow::Ends
    }
}

/// A value goes to the level that waits.
pub fn receive(parts: &mut Parts, value: Value) -> Flow
    ensures flow { result ≡ leaving.received_flow (beside.of parts.old) value }
    ensures received { beside.of parts.new ≡ leaving.received (beside.of parts.old) value }
{
    if parts.frames.hand(value) {
        Flow::Wakes
    } else {
        end_fiber(parts, value)
    }
}

/// A value goes to the level that waits, which mostly is a frame: that one is in hand then.
#[inline(always)]
pub fn receive_here(hot: &mut Frame, parts: &mut Parts, value: Value) -> Flow
    ensures flow { result ≡ leaving.flow_here (beside.of parts.old) value }
    ensures frame { hot.new ≡ leaving.frame_here (beside.of parts.old) hot.old }
    ensures received { beside.of parts.new ≡ leaving.received_here (beside.of parts.old) hot.old value }
{
    if parts.frames.pop_frame(hot) {
        let waits = hot.waits;
        put(hot, parts, waits, value);
        Flow::Stays
    } else {
        receive(parts, value)
    }
}

/// An exception goes past the last level of a fiber: it is raised at the resume, where there is one.
fn fallen(parts: &mut Parts) -> Option<Level>
    ensures level { result ≡ leaving.level_at_resume (beside.of parts.old) }
    ensures fallen { beside.of parts.new ≡ leaving.fallen (beside.of parts.old) }
{
    if parts.fibers.end(&mut parts.heap, &mut parts.frames) {
        parts.frames.pop()
    } else {
        None
    }
}

/// The program ends by an exception that nothing rescued.
#[cold]
fn uncaught(parts: &mut Parts, exception: ObjId) -> Flow
    ensures flow { result ≡ Ends }
    ensures ending { beside.of parts.new ≡ leaving.uncaught (beside.of parts.old) exception }
{
    parts.end = End::Uncaught(exception);
    Flow::Ends
}

/// The exception that an exit is, if it is one.
fn raised_by(exit: Exit) -> Option<ObjId>
    ensures { result ≡ leaving.raised_by exit }
{
    match exit {
        Exit::Raise(exception) => Some(exception),
        Exit::Return {
            activation: _,
            value: _,
        }
        | Exit::Break {
            activation: _,
            value: _,
        }
        | Exit::Jump {
            activation: _,
            target: _,
        } => None,
    }
}

/// Where an exit comes to from a level: it ends the program where it is an exception that nothing takes.
pub fn throw(code: &Loaded, parts: &mut Parts, level: Level, exit: Exit) -> Result<Flow, AllocError>
    ensures { IfOk result (λ flow. leaving.ThrownFrom code.now.code (beside.of parts.old) level exit flow
        (beside.of parts.new)) }
{
    let mut at = level;
    let mut exit = exit;
    let rounds = parts.fibers.begun().len().saturating_add(1);
    'fibers: for _fiber in 0..rounds {
        match unwind(&code.code, &mut parts.heap, &mut parts.frames, at, exit)? {
            Landing::Runs(level) => {
                parts.frames.push(level)?;
                return Ok(Flow::Wakes);
            }
            Landing::Gives(value) => return Ok(receive(parts, value)),
            Landing::Falls(past) => match raised_by(past) {
                Some(exception) => match fallen(parts) {
                    Some(next) => {
                        at = next;
                        exit = Exit::Raise(exception);
                    }
                    None => return Ok(uncaught(parts, exception)),
                },
                None => return Ok(Flow::Ends),
            },
        }
    }
    Ok(Flow::Ends)
}

/// Where an exception comes to that is raised at the innermost level that waits, or past the last one.
pub fn raise_out(code: &Loaded, parts: &mut Parts, exception: ObjId) -> Result<Flow, AllocError>
    ensures { IfOk result (λ flow. leaving.RaisedOut code.now.code (beside.of parts.old) exception flow
        (beside.of parts.new)) }
{
    let level = match parts.frames.pop() {
        Some(level) => Some(level),
        None => fallen(parts),
    };
    match level {
        Some(level) => throw(code, parts, level, Exit::Raise(exception)),
        None => Ok(uncaught(parts, exception)),
    }
}

/// Where an exit comes to from the frame in hand.
#[cold]
pub fn throw_here(
    code: &Loaded,
    hot: &mut Frame,
    parts: &mut Parts,
    exit: Exit,
) -> Result<Flow, AllocError>
    ensures frame { hot.new ≡ hot.old }
    ensures thrown { IfOk result (λ flow. leaving.ThrownFrom code.now.code (beside.of parts.old) (level.Frame hot.old)
        exit flow (beside.of parts.new)) }
{
    throw(code, parts, Level::Frame(*hot), exit)
}

/// Register `a` gets what is given, and the frame goes on; or the exception is thrown.
#[inline(always)]
pub fn after(
    code: &Loaded,
    hot: &mut Frame,
    parts: &mut Parts,
    given: Given,
    a: u16,
) -> Result<Flow, AllocError>
    ensures { IfOk result (λ flow. leaving.After code.now.code (beside.of parts.old) hot.old given a flow hot.new
        (beside.of parts.new)) }
{
    match given {
        Given::Gives(value) => {
            put(hot, parts, a, value);
            Ok(Flow::Stays)
        }
        Given::Raises(exception) => throw_here(code, hot, parts, Exit::Raise(exception)),
    }
}

/// The frame goes on where something is given, and no register gets it; or the exception is thrown.
pub fn only(
    code: &Loaded,
    hot: &mut Frame,
    parts: &mut Parts,
    given: Given,
) -> Result<Flow, AllocError>
    ensures { IfOk result (λ flow. leaving.Only code.now.code (beside.of parts.old) hot.old given flow hot.new
        (beside.of parts.new)) }
{
    match given {
        Given::Gives(_) => {
            step(hot);
            Ok(Flow::Stays)
        }
        Given::Raises(exception) => throw_here(code, hot, parts, Exit::Raise(exception)),
    }
}

/// The innermost level that waits is given a value or an exception; where none waits the fiber ends with it.
pub fn hand_out(code: &Loaded, parts: &mut Parts, handed: Handed) -> Result<Flow, AllocError>
    ensures { IfOk result (λ flow. leaving.HandedOut code.now.code (beside.of parts.old) handed flow
        (beside.of parts.new)) }
{
    match handed {
        Handed::Value(value) => Ok(receive(parts, value)),
        Handed::Exception(exception) => raise_out(code, parts, exception),
    }
}

/// What was given, as it is handed to a level.
pub fn handed(given: Given) -> Handed
    ensures { result ≡ leaving.handed_of given }
{
    match given {
        Given::Gives(value) => Handed::Value(value),
        Given::Raises(exception) => Handed::Exception(exception),
    }
}
