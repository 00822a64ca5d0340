//! Where an exit lands.
ghost use Rattle.std.specs.Prelude.{◌≡◌, IfOk, OnOk};
ghost use Rattle.vm_frames.specs.Opening as opening;
ghost use Rattle.vm_frames.specs.Seen as seen;
ghost use Rattle.vm_unwind.specs.Handlers as handling;
ghost use Rattle.vm_unwind.specs.Landings as landings;

use crate::handlers::handler;
use code_instructions::IndexedCode;
use rb_value::{Exit, Value};
use std::alloc::AllocError;
use vm_frames::core_iter::caught;
use vm_frames::heap::Heap;
use vm_frames::run_calls::close;
use vm_frames::{Frame, Frames, Iterating, Level};

/// Where an exit comes to: a level runs, a value goes to the level that waits, or the exit goes past the last level of
/// the fiber.
#[derive(Drop)]
pub enum Landing {
    Runs(Level),
    Gives(Value),
    Falls(Exit),
}

/// Ends the activation of a frame: after the body of a class or module its next methods are public, and the frame's
/// registers go. It takes no memory.
#[inline(always)]
pub fn leave(heap: &mut Heap, frames: &mut Frames, frame: &Frame)
    ensures store { heap.new.store ≡ landings.store_left heap.old.store (seen.of frames.old) }
    ensures left { seen.of frames.new ≡ opening.left (seen.of frames.old) frame.now }
{
    close(heap, frames.activation());
    frames.leave(frame);
}

/// What an exit does past a frame whose handlers don't take it: it ends there with a value, goes on within it, or goes
/// further.
fn pass_frame(heap: &mut Heap, frames: &mut Frames, frame: Frame, exit: Exit) -> Option<Landing>
    ensures landing { result ≡ landings.past_frame frame exit }
    ensures store { heap.new.store ≡ landings.store_behind heap.old.store (seen.of frames.old) frame exit }
    ensures left { seen.of frames.new ≡ landings.left_behind (seen.of frames.old) frame exit }
{
    match exit {
        Exit::Jump { activation, target } => {
            if activation == frame.number {
                return Some(Landing::Runs(Level::Frame(Frame {
                    index: target,
                    ..frame
                })));
            }
            leave(heap, frames, &frame);
            None
        }
        Exit::Return { activation, value } | Exit::Break { activation, value } => {
            leave(heap, frames, &frame);
            if activation == frame.number {
                Some(Landing::Gives(value))
            } else {
                None
            }
        }
        Exit::Raise(_) => {
            leave(heap, frames, &frame);
            None
        }
    }
}

/// What an exit does at a frame.
fn at_frame(
    code: &IndexedCode,
    heap: &mut Heap,
    frames: &mut Frames,
    mut frame: Frame,
    exit: Exit,
) -> Result<Option<Landing>, AllocError>
    ensures landing { IfOk result (λ l. l ≡ landings.lands_at
        (handling.handler code.now frame.body frame.index exit) frame exit) }
    ensures store { OnOk result (heap.new.store ≡ landings.store_at
        (handling.handler code.now frame.body frame.index exit) heap.old.store (seen.of frames.old) frame exit) }
    ensures left { OnOk result (seen.of frames.new ≡ landings.left_at
        (handling.handler code.now frame.body frame.index exit) (seen.of frames.old) frame exit) }
{
    match handler(code, frame.body, frame.index, exit) {
        Some(target) => {
            frames.set_pending(&mut frame, exit)?;
            frame.index = target;
            Ok(Some(Landing::Runs(Level::Frame(frame))))
        }
        None => Ok(pass_frame(heap, frames, frame, exit)),
    }
}

/// What an exit does at an iteration, which may end with a value.
fn at_iteration(heap: &Heap, iterating: &Iterating, exit: Exit) -> Option<Landing>
    ensures { result ≡ landings.lands_at_iteration heap.now.store iterating.now exit }
{
    match exit {
        Exit::Raise(exception) => match caught(heap, &iterating.state, exception) {
            Some(value) => Some(Landing::Gives(value)),
            None => None,
        },
        Exit::Return { activation, value } | Exit::Break { activation, value } => {
            if activation == iterating.number {
                Some(Landing::Gives(value))
            } else {
                None
            }
        }
        Exit::Jump {
            activation: _,
            target: _,
        } => None,
    }
}

/// What an exit does at a level.
fn at_level(
    code: &IndexedCode,
    heap: &mut Heap,
    frames: &mut Frames,
    level: Level,
    exit: Exit,
) -> Result<Option<Landing>, AllocError>
    ensures { IfOk result (λ l. landings.AtLevel code.now heap.old.store (seen.of frames.old) level exit l
        heap.new.store (seen.of frames.new)) }
{
    match level {
        Level::Frame(frame) => at_frame(code, heap, frames, frame, exit),
        Level::Iteration(iterating) => Ok(at_iteration(heap, &iterating, exit)),
    }
}

/// Where an exit goes from a level and those that wait for it. Where memory runs out, what the machine keeps is lost.
pub fn unwind(
    code: &IndexedCode,
    heap: &mut Heap,
    frames: &mut Frames,
    level: Level,
    exit: Exit,
) -> Result<Landing, AllocError>
    ensures { IfOk result (λ l. landings.Thrown code.now heap.old.store (seen.of frames.old) level exit l
        heap.new.store (seen.of frames.new)) }
{
    if let Some(landing) = at_level(code, heap, frames, level, exit)? {
        return Ok(landing);
    }
    'levels: for _level in 0..frames.depth() {
        let Some(next) = frames.pop() else {
            return Ok(Landing::Falls(exit));
        };
        if let Some(landing) = at_level(code, heap, frames, next, exit)? {
            return Ok(landing);
        }
    }
    Ok(Landing::Falls(exit))
}
