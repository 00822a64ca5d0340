//! Lines, and which one runs.
ghost use Rattle.std.specs.Prelude.{◌≡◌, Some, None, ◌≤◌, IfOk, OnOk, OnErr, is_some, option_map, length, nat_lt, nat_le};
ghost use Rattle.std.specs.Borrow.{sem};
ghost use Rattle.vm_frames.specs.Environments as environments;
ghost use Rattle.vm_frames.specs.Levels as levels;
ghost use Rattle.vm_frames.specs.Registers as lists;
ghost use Rattle.vm_frames.specs.Lending.{LendsInnermost};
ghost use Rattle.vm_frames.specs.Seen as seen;

use crate::frame::Frame;
use crate::frames::{Frames, LEVELS};
use crate::level::{Begun, Iterating, Level};
use crate::registers::put_at;
use crate::stack::Stack;
use rb_value::Value;
use run_calls::Activation;
use std::alloc::{AllocError, Global};
use std::mem;

/// The registers of the frames, one frame's behind those of its caller, where they end, and how many of them are those
/// of frames and no arguments kept between; the activations of the frames; the frames that wait, and the iterations, of
/// each the innermost last; and the iteration that begins, which then is the innermost level.
#[derive(Drop)]
pub struct Line {
    pub registers: Vec<Value>,
    pub(crate) end: usize,
    pub(crate) held: usize,
    pub(crate) activations: Stack<Activation>,
    pub(crate) frames: Stack<Frame>,
    pub(crate) iterations: Vec<Iterating>,
    pub(crate) begun: Option<Begun>,
}

impl Line {
    /// A line without levels. It takes no memory.
    pub(crate) fn new(alloc: Global) -> Line
        ensures { seen.line_of result ≡ seen.no_levels }
    {
        Line {
            registers: Vec::new(alloc),
            end: 0,
            held: 0,
            activations: Stack::new(alloc),
            frames: Stack::new(alloc),
            iterations: Vec::new(alloc),
            begun: None,
        }
    }

    /// The register at a place gets a value, where there is one.
    pub(crate) fn put(&mut self, place: usize, value: Value)
        ensures { seen.line_of self.new ≡ environments.line_put (seen.line_of self.old) place value }
    {
        put_at(&mut self.registers, place, value);
    }

    /// There is room for registers up to a place. Where memory runs out all is as before.
    #[inline(always)]
    pub(crate) fn extend_to(&mut self, end: usize) -> Result<(), AllocError>
        ensures ok { OnOk result (seen.line_of self.new ≡ levels.line_extended (seen.line_of self.old) end) }
        ensures err { OnErr result (seen.line_of self.new ≡ seen.line_of self.old) }
    {
        if end > self.registers.len() {
            self.lengthen(end)
        } else {
            Ok(())
        }
    }

    /// Makes room for registers up to a place.
    #[cold]
    fn lengthen(&mut self, end: usize) -> Result<(), AllocError>
        requires { length self.old.registers.items ≤ end }
        ensures ok { OnOk result (seen.line_of self.new ≡ levels.line_extended (seen.line_of self.old) end) }
        ensures err { OnErr result (seen.line_of self.new ≡ seen.line_of self.old) }
    {
        self.registers.resize(end, Value::Nil)
    }

    /// Whether the innermost level that waits is a frame: its number is above that of the innermost iteration.
    #[inline(always)]
    fn frame_is_innermost(&self) -> bool
        ensures { result ≡ levels.frame_is_innermost (seen.line_of self.now) }
    {
        match (self.frames.last(), self.iterations.last()) {
            (Some(frame), Some(iterating)) => frame.number > iterating.number,
            (Some(_), None) => true,
            _ => false,
        }
    }

    /// How many levels wait.
    #[inline(always)]
    #[tactic(auto, unfolding(crate::specs::Registers::saturated))]
    fn depth(&self) -> usize
        ensures { result ≡ lists.saturated (levels.depth (seen.line_of self.now)) }
    {
        self.frames.count().saturating_add(self.iterations.len())
    }
}

impl Frames {
    /// How many levels of the line wait.
    #[inline(always)]
    pub fn depth(&self) -> usize
        ensures { result ≡ lists.saturated (levels.depth (seen.of self.now).line) }
    {
        self.line.depth()
    }

    /// Whether the line, with a level that runs, has no room for one more.
    #[inline(always)]
    #[tactic(auto, unfolding(crate::specs::Registers::saturated))]
    pub fn is_full(&self) -> bool
        ensures { result ≡ nat_le 9999 (levels.depth (seen.of self.now).line) }
    {
        self.line.depth() >= LEVELS - 1
    }

    /// Whether one more level may run above those that wait.
    #[inline(always)]
    #[tactic(auto, unfolding(crate::specs::Registers::saturated))]
    pub fn has_room(&self) -> bool
        ensures { result ≡ nat_lt (levels.depth (seen.of self.now).line) 10000 }
    {
        self.line.depth() < LEVELS
    }

    /// An iteration begins, the innermost level from now on. It takes no memory.
    #[inline(always)]
    pub fn begin(&mut self, begun: Begun)
        ensures { seen.of self.new ≡ levels.with_begun (seen.of self.old) (Some begun) }
    {
        self.line.begun = Some(begun);
    }

    /// The iteration that begins.
    #[inline(always)]
    pub fn begun(&self) -> Option<Begun>
        ensures { result ≡ (seen.of self.now).line.begun }
    {
        self.line.begun
    }

    /// The innermost level that waits is in hand, where no iteration begins and it is a frame. It takes no memory.
    #[inline(always)]
    pub fn take_frame(&mut self, hot: &mut Frame) -> bool
        ensures taken { result ≡ levels.frame_is_next (seen.of self.old).line }
        ensures hot { hot.new ≡ levels.frame_or result (levels.frame_of (seen.of self.old)) hot.old }
        ensures line { seen.of self.new ≡ levels.frame_popped_if result (seen.of self.old) }
    {
        self.line.begun.is_none() && self.pop_frame(hot)
    }

    /// The iteration that begins, which is the caller's from now on. It takes no memory.
    #[inline(always)]
    pub fn take_begun(&mut self) -> Option<Begun>
        ensures begun { result ≡ (seen.of self.old).line.begun }
        ensures line { seen.of self.new ≡ levels.with_begun (seen.of self.old) None }
    {
        let begun = self.line.begun;
        self.line.begun = None;
        begun
    }

    /// The innermost level that waits, where it is an iteration.
    #[inline(always)]
    pub fn innermost(&mut self) -> Option<&mut Iterating>
        ensures* lends { sem 𝓛 (LendsInnermost self.entry result) }
        ensures value { option_map (λ i. i.now) result ≡ levels.innermost_iteration (seen.of self.old).line }
    {
        if self.line.frame_is_innermost() {
            None
        } else {
            let line = &mut self.line;
            line.iterations.last_mut()
        }
    }

    /// A frame waits for the value of a call, which register `a` gets. Where memory runs out no more waits than before.
    #[inline(always)]
    pub fn push_caller(&mut self, frame: &mut Frame, a: u16) -> Result<(), AllocError>
        ensures waits { frame.new ≡ levels.waiting_in frame.old a }
        ensures ok { OnOk result (seen.of self.new ≡ levels.frame_pushed (seen.of self.old) frame.new) }
        ensures err { OnErr result (seen.of self.new ≡ seen.of self.old) }
    {
        frame.waits = a;
        self.line.frames.push(frame)
    }

    /// An iteration waits. Where memory runs out all is as before.
    #[inline(always)]
    pub fn push_iteration(&mut self, iterating: Iterating) -> Result<(), AllocError>
        ensures ok { OnOk result (seen.of self.new ≡ levels.iteration_pushed (seen.of self.old) iterating) }
        ensures err { OnErr result (seen.of self.new ≡ seen.of self.old) }
    {
        self.line.iterations.push(iterating)?;
        Ok(())
    }

    /// A level waits. Where memory runs out all is as before.
    pub fn push(&mut self, level: Level) -> Result<(), AllocError>
        ensures ok { OnOk result (seen.of self.new ≡ levels.pushed (seen.of self.old) level) }
        ensures err { OnErr result (seen.of self.new ≡ seen.of self.old) }
    {
        match level {
            Level::Frame(frame) => self.line.frames.push(&frame),
            Level::Iteration(iterating) => self.push_iteration(iterating),
        }
    }

    /// The innermost iteration goes. It takes no memory.
    pub fn drop_iteration(&mut self)
        ensures { seen.of self.new ≡ levels.iteration_popped (seen.of self.old) }
    {
        let _iterating = self.line.iterations.pop();
    }

    /// The innermost level that waits goes on. It takes no memory.
    pub fn pop(&mut self) -> Option<Level>
        ensures level { result ≡ levels.innermost_level (seen.of self.old).line }
        ensures line { seen.of self.new ≡ levels.popped (seen.of self.old) }
    {
        if self.line.frame_is_innermost() {
            let frame = *self.line.frames.last()?;
            self.line.frames.drop_last();
            Some(Level::Frame(frame))
        } else {
            let iterating = self.line.iterations.pop()?;
            Some(Level::Iteration(iterating))
        }
    }

    /// The innermost level that waits is in hand, where it is a frame; false where it is none. It takes no memory.
    #[inline(always)]
    pub fn pop_frame(&mut self, hot: &mut Frame) -> bool
        ensures popped { result ≡ levels.frame_is_innermost (seen.of self.old).line }
        ensures hot { hot.new ≡ levels.frame_or result (levels.frame_of (seen.of self.old)) hot.old }
        ensures line { seen.of self.new ≡ levels.frame_popped_if result (seen.of self.old) }
    {
        if !self.line.frame_is_innermost() {
            return false;
        }
        match self.line.frames.last() {
            Some(frame) => *hot = *frame,
            None => return false,
        }
        self.line.frames.drop_last();
        true
    }

    /// The innermost level that waits is given a value: the register of a frame that waits for it gets it, and the frame
    /// goes on behind its call; an iteration has its answer. False where no level waits. It takes no memory.
    pub fn hand(&mut self, value: Value) -> bool
        ensures there { result ≡ is_some (levels.innermost_level (seen.of self.old).line) }
        ensures handed { seen.of self.new ≡ levels.handed (seen.of self.old) value }
    {
        if self.line.frame_is_innermost() {
            self.hand_frame(value)
        } else {
            self.hand_iteration(value)
        }
    }

    /// The register of the innermost frame that waits gets a value, and the frame goes on behind its call.
    fn hand_frame(&mut self, value: Value) -> bool
        ensures there { result ≡ is_some (levels.frame_of (seen.of self.old)) }
        ensures handed { seen.of self.new ≡ levels.frame_handed (seen.of self.old)
            (levels.frame_of (seen.of self.old)) value }
    {
        match self.line.frames.last().copied() {
            Some(mut frame) => {
                frame.index = frame.index.wrapping_add(1);
                self.line.frames.set_last(&frame);
                self.set(&frame, frame.waits, value);
                true
            }
            None => false,
        }
    }

    /// The innermost iteration that waits has an answer.
    fn hand_iteration(&mut self, value: Value) -> bool
        ensures there { result ≡ is_some (levels.iteration_of (seen.of self.old)) }
        ensures handed { seen.of self.new ≡ levels.iteration_handed (seen.of self.old)
            (levels.iteration_of (seen.of self.old)) value }
    {
        match self.line.iterations.last_mut() {
            Some(iterating) => {
                iterating.answer = value;
                true
            }
            None => false,
        }
    }

    /// Whether one of the levels that wait is the activation of that number. The numbers fall from callee to caller.
    pub fn waits_for(&self, number: u64) -> bool
        ensures { result ≡ levels.waits_for (seen.of self.now).line number }
    {
        self.frame_waits_for(number) || self.iteration_waits_for(number)
    }

    /// Whether one of the frames that wait is the activation of that number: the first that isn't greater tells.
    fn frame_waits_for(&self, number: u64) -> bool
        ensures { result ≡ levels.frame_waits (seen.of self.now).line number }
    {
        let frames = self.line.frames.items();
        let mut left = frames.len();
        'frames: while left > 0 {
            left -= 1;
            let other = frames[left].number;
            if other <= number {
                return other == number;
            }
        }
        false
    }

    /// Whether one of the iterations that wait is the activation of that number: the first that isn't greater tells.
    fn iteration_waits_for(&self, number: u64) -> bool
        ensures { result ≡ levels.iteration_waits (seen.of self.now).line number }
    {
        let iterations = self.line.iterations.as_slice();
        let mut left = iterations.len();
        'iterations: while left > 0 {
            left -= 1;
            let other = iterations[left].number;
            if other <= number {
                return other == number;
            }
        }
        false
    }

    /// Adds a line without levels, which has the next number. Where memory runs out all is as before.
    pub fn add_line(&mut self) -> Result<usize, AllocError>
        ensures number { IfOk result (λ number. number ≡ length (seen.of self.old).around.others) }
        ensures ok { OnOk result (seen.of self.new ≡ levels.line_added (seen.of self.old)) }
        ensures err { OnErr result (seen.of self.new ≡ seen.of self.old) }
    {
        self.around.add_line(Line::new(self.alloc))
    }

    /// The number of the line that runs.
    pub fn running(&self) -> usize
        ensures { result ≡ (seen.of self.now).around.running }
    {
        self.around.running
    }

    /// Another line runs, where there is one of that number. It takes no memory.
    pub fn run_line(&mut self, number: usize)
        ensures { seen.of self.new ≡ levels.line_run (seen.of self.old) number }
    {
        if number >= self.around.others.len() {
            return;
        }
        let waits = self.line.held;
        let running = self.around.running;
        self.exchange(running);
        self.exchange(number);
        self.around.running = number;
        self.blocks.switch(waits, self.line.held);
    }

    /// The line that runs and that of a number are each in the place of the other, where there is one of that number.
    fn exchange(&mut self, number: usize)
        ensures { seen.of self.new ≡ levels.exchange (seen.of self.old) number }
    {
        if let Some(place) = self.around.others.get_mut(number) {
            mem::swap(&mut self.line, place);
        }
    }

    /// Gives the memory of a line back that has no levels and doesn't run. It takes no memory.
    pub fn end_line(&mut self, number: usize)
        ensures { seen.of self.new ≡ levels.line_ended (seen.of self.old) number }
    {
        if let Some(line) = self.around.others.get_mut(number) {
            *line = Line::new(self.alloc);
        }
    }
}
