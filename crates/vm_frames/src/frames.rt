//! All lines, and what they share.
ghost use Rattle.std.specs.Prelude.{◌≡◌, IfOk, OnOk};
ghost use Rattle.vm_frames.specs.Blocks as blocks;
ghost use Rattle.vm_frames.specs.Environments as environments;
ghost use Rattle.vm_frames.specs.Opening as opening;
ghost use Rattle.vm_frames.specs.Seen as seen;

use crate::arguments::Arguments;
use crate::blocks::Blocks;
use crate::capturing::Around;
use crate::frame::Frame;
use crate::lines::Line;
use crate::registers::clear;
use run_calls::Activation;
use std::alloc::{AllocError, Global};

/// How many levels one fiber may have.
pub const LEVELS: usize = 10_000;

/// The lines of all fibers: the line that runs, what is around its registers, the activation outside of all, and how
/// many blocks of registers the lines held.
#[derive(Drop)]
pub struct Frames {
    pub(crate) alloc: Global,
    pub line: Line,
    pub around: Around,
    outside: Activation,
    pub(crate) blocks: Blocks,
}

impl Frames {
    /// One line without levels, which runs.
    pub fn new(alloc: Global) -> Result<Frames, AllocError>
        ensures { IfOk result (λ frames. seen.of frames ≡ opening.opening) }
    {
        Ok(Frames {
            alloc,
            line: Line::new(alloc),
            around: Around::new(alloc)?,
            outside: Activation::outside(),
            blocks: Blocks::new(),
        })
    }

    /// The activation of the innermost frame of the line; without a frame, that of no text.
    #[inline(always)]
    pub fn activation(&self) -> &Activation
        ensures { result.now ≡ opening.activation_in (seen.of self.now) }
    {
        match self.line.activations.last() {
            Some(activation) => activation,
            None => &self.outside,
        }
    }

    /// Opens a frame in place of the one in hand, with so many registers, which are `self` and then nil, and with
    /// arguments. Its body, number, classes, block and surroundings are the caller's to set. Where memory runs out, what the
    /// machine keeps is lost.
    #[inline(always)]
    #[tactic(auto, unfolding(crate::specs::Registers::wrapped))]
    pub fn open(
        &mut self,
        hot: &mut Frame,
        activation: &Activation,
        registers: u16,
        arguments: Arguments,
    ) -> Result<(), AllocError>
        ensures frame { OnOk result (hot.new ≡ opening.opened_frame (seen.of self.old) hot.old registers arguments) }
        ensures ok { OnOk result (seen.of self.new ≡ opening.opened (seen.of self.old) activation.now registers) }
    {
        let base = self.line.end;
        let end = base.checked_add(usize::from(registers)).ok_or(AllocError)?;
        self.line.extend_to(end)?;
        self.line.activations.push(activation)?;
        self.line.end = end;
        self.line.held = self.line.held.wrapping_add(usize::from(registers));
        self.blocks.reach(self.line.held);
        clear(&mut self.line.registers, base, end, activation.receiver);
        hot.index = 0;
        hot.registers = registers;
        hot.base = base;
        hot.end = arguments.end;
        hot.own = None;
        hot.first = arguments.first;
        hot.given = arguments.count;
        hot.keeps = false;
        Ok(())
    }

    /// Leaves a frame, the last one of the line: its environment, where it has one, is closed, and its registers, exits
    /// and arguments go. It takes no memory.
    #[inline(always)]
    pub fn leave(&mut self, frame: &Frame)
        ensures { seen.of self.new ≡ opening.left (seen.of self.old) frame.now }
    {
        if let Some(env) = frame.own {
            self.close(env);
        }
        if frame.keeps {
            self.drop_exits(frame);
        }
        self.line.activations.drop_last();
        self.line.end = frame.end;
        self.line.held = self.line.held.saturating_sub(usize::from(frame.registers));
    }

    /// The most blocks of 64 registers that the frames of all lines held at once.
    pub fn peak(&self) -> usize
        ensures { result ≡ blocks.peak (seen.of self.now).blocks }
    {
        self.blocks.peak()
    }

    /// Closes an environment of the line that runs. It takes no memory.
    #[cold]
    fn close(&mut self, env: u32)
        ensures { seen.of self.new ≡ environments.closed_env (seen.of self.old) env }
    {
        self.around.close(env, &self.line.registers);
    }
}
