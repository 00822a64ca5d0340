//! Exits that registers keep, and those that are pending.
ghost use Rattle.std.specs.Prelude.{◌≡◌, ◌&&◌, ◌==◌, OnOk, OnErr, length, not};
ghost use Rattle.vm_frames.specs.Exits as exits;
ghost use Rattle.vm_frames.specs.Seen as seen;

use crate::frame::Frame;
use crate::frames::Frames;
use rb_value::{Exit, Slot, Value};
use std::alloc::AllocError;

/// The number under which a frame's pending exit stands, which no register has.
const PENDING: u64 = 65_536;

impl Frames {
    /// Whether registers of a frame may keep exits.
    fn may_keep(&self, frame: &Frame) -> bool
        ensures { result ≡ (frame.now.keeps && not (length self.now.around.exits == 0)) }
    {
        frame.keeps && !self.around.keeps_none()
    }

    /// The exit that register `a` keeps.
    pub fn kept(&self, frame: &Frame, a: u16) -> Option<Exit>
        ensures { result ≡ exits.kept (seen.of self.now) frame.now a }
    {
        if self.may_keep(frame) {
            self.around
                .exits
                .get(&(frame.number, u64::from(a)))
                .copied()
        } else {
            None
        }
    }

    /// The exit that came to the frame's handler, and hasn't been taken.
    pub fn pending(&self, frame: &Frame) -> Option<Exit>
        ensures { result ≡ exits.pending (seen.of self.now) frame.now }
    {
        if self.may_keep(frame) {
            self.around.exits.get(&(frame.number, PENDING)).copied()
        } else {
            None
        }
    }

    /// An exit comes to a handler of the frame. Where memory runs out all is as before.
    pub fn set_pending(&mut self, frame: &mut Frame, exit: Exit) -> Result<(), AllocError>
        ensures frame { OnOk result (frame.new ≡ exits.keeping frame.old) }
        ensures ok { OnOk result (seen.of self.new ≡ exits.pending_set (seen.of self.old) frame.old exit) }
        ensures same { OnErr result (frame.new ≡ frame.old) }
        ensures err { OnErr result (seen.of self.new ≡ seen.of self.old) }
    {
        self.around.exits.insert((frame.number, PENDING), exit)?;
        frame.keeps = true;
        Ok(())
    }

    /// Register `a` takes the pending exit, and nil where there is none. Where memory runs out all is as before.
    pub fn take_pending(&mut self, frame: &Frame, a: u16) -> Result<(), AllocError>
        ensures ok { OnOk result (seen.of self.new ≡ exits.taken (seen.of self.old) frame.now a) }
        ensures err { OnErr result (seen.of self.new ≡ seen.of self.old) }
    {
        match self.pending(frame) {
            Some(exit) => {
                self.around
                    .exits
                    .insert((frame.number, u64::from(a)), exit)?;
                self.around.exits.remove(&(frame.number, PENDING));
                self.put(frame, a, Slot::E(exit).read());
            }
            None => self.set(frame, a, Value::Nil),
        }
        Ok(())
    }

    /// Register `a` keeps no exit. It takes no memory.
    #[cold]
    pub fn drop_exit(&mut self, frame: &Frame, a: u16)
        ensures { seen.of self.new ≡ seen.with_exits (seen.of self.old) (exits.dropped (seen.of self.old) frame.now a) }
    {
        if self.may_keep(frame) {
            self.around.exits.remove(&(frame.number, u64::from(a)));
        }
    }

    /// The exits of a frame's registers go. It takes no memory.
    #[cold]
    #[tactic(auto, using(crate::proofs::Keeping::all_dropped_none))]
    pub(crate) fn drop_exits(&mut self, frame: &Frame)
        ensures { seen.of self.new ≡ seen.with_exits (seen.of self.old)
            (exits.all_dropped (seen.of self.old) frame.now) }
    {
        if !self.may_keep(frame) {
            return;
        }
        self.around.exits.remove(&(frame.number, PENDING));
        'registers: for a in 0..frame.registers {
            self.around.exits.remove(&(frame.number, u64::from(a)));
        }
    }
}
