//! Captured lists, and the registers of bodies around.
ghost use Rattle.std.specs.Prelude.{◌≡◌, ◌==◌, ◌++◌, ◌∷◌, [], IfOk, OnOk, OnErr, length};
ghost use Rattle.vm_frames.specs.Environments as environments;
ghost use Rattle.vm_frames.specs.Seen as seen;

use crate::frame::Frame;
use crate::frames::Frames;
use crate::lines::Line;
use crate::registers::{copy_from, put_at};
use pair_table::PairTable;
use rb_value::{Exit, Value};
use std::alloc::{AllocError, Global};

/// The registers of a list that a block captured, and the environment of the list around it. While the frame is open
/// they stand in a line from a place on, and there is room for their values here; then their values stand here.
#[derive(Drop)]
pub(crate) struct Env {
    number: u64,
    outer: Option<u32>,
    line: usize,
    base: usize,
    open: bool,
    values: Vec<Value>,
}

impl Env {
    /// Whether the registers stand in that line.
    fn stands_in(&self, line: usize) -> bool
        ensures { result ≡ environments.stands_in (seen.env_of self.now) line }
    {
        self.open && self.line == line
    }

    /// Value `b` is replaced, where there is one.
    #[inline(always)]
    fn put(&mut self, b: u16, value: Value)
        ensures { seen.env_of self.new ≡ environments.with_value (seen.env_of self.old) b value }
    {
        put_at(&mut self.values, usize::from(b), value);
    }

    /// The values stand here from now on, where the registers are those of the line.
    fn close(&mut self, registers: &[Value])
        ensures { seen.env_of self.new ≡ environments.closed_in (seen.env_of self.old) registers.now }
    {
        copy_from(&mut self.values, registers, self.base);
        self.open = false;
    }
}

/// What is around the registers of the line that runs: the lines by their numbers, where that one has none of its own;
/// its number; the environments of captured lists; and the exits that registers keep, by the numbers of the list and the
/// register.
#[derive(Drop)]
pub struct Around {
    pub(crate) others: Vec<Line>,
    pub(crate) running: usize,
    pub(crate) envs: Vec<Env>,
    pub(crate) exits: PairTable<(u64, u64), Exit>,
}

impl Around {
    /// One line, which runs, and no environments.
    pub(crate) fn new(alloc: Global) -> Result<Around, AllocError>
        ensures { IfOk result (λ around. seen.around_of around ≡ environments.nothing_around) }
    {
        let mut others = Vec::new(alloc);
        others.push(Line::new(alloc))?;
        Ok(Around {
            others,
            running: 0,
            envs: Vec::new(alloc),
            exits: PairTable::new(alloc),
        })
    }

    /// Whether no register keeps an exit.
    #[inline(always)]
    pub fn keeps_none(&self) -> bool
        ensures { result ≡ (length self.now.exits == 0) }
    {
        self.exits.is_empty()
    }

    /// Adds a line, which has the next number. Where memory runs out all is as before.
    pub(crate) fn add_line(&mut self, line: Line) -> Result<usize, AllocError>
        ensures number { IfOk result (λ number. number ≡ length self.old.others.items) }
        ensures ok { OnOk result (seen.around_of self.new ≡ environments.line_added (seen.around_of self.old)
            (seen.line_of line)) }
        ensures err { OnErr result (seen.around_of self.new ≡ seen.around_of self.old) }
    {
        let number = self.others.len();
        self.others.push(line)?;
        Ok(number)
    }

    /// Closes an environment of the line that runs: its values stand in room of its own from now on. It takes no memory.
    pub(crate) fn close(&mut self, number: u32, registers: &[Value])
        ensures { seen.around_of self.new ≡ environments.closed (seen.around_of self.old) registers.now number }
    {
        if let Some(env) = self.envs.get_mut(number as usize) {
            if env.stands_in(self.running) {
                env.close(registers);
            }
        }
    }

    /// The environment around that of the list of an environment.
    #[inline(always)]
    fn outer_of(&self, number: u32) -> Option<u32>
        ensures { result ≡ environments.outer_of (seen.around_of self.now).envs number }
    {
        match self.envs.get(number as usize) {
            Some(env) => env.outer,
            None => None,
        }
    }

    /// The environment that stands `c` around an environment.
    #[inline(always)]
    #[tactic(auto, using(crate::proofs::Steps::around_none))]
    fn nth(&self, outer: Option<u32>, c: u16) -> Option<u32>
        ensures { result ≡ environments.around_env (seen.around_of self.now).envs outer c }
    {
        let mut at = outer;
        'around: for _level in 0..c {
            let number = at?;
            at = self.outer_of(number);
        }
        at
    }

    /// The registers of a line, given those of the line that runs; none where there is no such line.
    #[inline(always)]
    fn registers_of<'a>(&'a self, registers: &'a [Value], line: usize) -> &'a [Value]
        ensures { result.now ≡ environments.registers_of (seen.around_of self.now) registers.now line }
    {
        if line == self.running {
            return registers;
        }
        match self.others.get(line) {
            Some(line) => line.registers.as_slice(),
            None => &[],
        }
    }

    /// Register `b` of an environment, with the registers of the line that runs.
    #[inline(always)]
    #[tactic(auto, unfolding(crate::specs::Registers::wrapped))]
    fn read(&self, registers: &[Value], number: u32, b: u16) -> Option<Value>
        ensures { result ≡ environments.value_of (seen.around_of self.now) registers.now number b }
    {
        let env = self.envs.get(number as usize)?;
        if !env.open {
            return env.values.get(usize::from(b)).copied();
        }
        let place = env.base.wrapping_add(usize::from(b));
        self.registers_of(registers, env.line).get(place).copied()
    }

    /// Register `b` of an environment gets a value, where there is one.
    #[inline(always)]
    #[tactic(auto, unfolding(crate::specs::Registers::wrapped))]
    fn write(&mut self, registers: &mut [Value], number: u32, b: u16, value: Value)
        ensures registers { registers.new ≡ (environments.written_env (seen.around_of self.old) registers.old number
            b value).registers }
        ensures around { seen.around_of self.new ≡ (environments.written_env (seen.around_of self.old) registers.old
            number b value).around }
    {
        let Some(env) = self.envs.get_mut(number as usize) else {
            return;
        };
        let place = env.base.wrapping_add(usize::from(b));
        if !env.open {
            env.put(b, value);
        } else if env.line == self.running {
            put_at(registers, place, value);
        } else {
            let line = env.line;
            self.write_aside(line, place, value);
        }
    }

    /// A register of a line that doesn't run gets a value, where there is one.
    #[cold]
    fn write_aside(&mut self, line: usize, place: usize, value: Value)
        ensures { seen.around_of self.new ≡ environments.written_aside (seen.around_of self.old) line place value }
    {
        if let Some(line) = self.others.get_mut(line) {
            line.put(place, value);
        }
    }

    /// What register `b` reads as of the list that is `c` around an environment's; nil where there is none. The
    /// registers are those of the line that runs.
    #[inline(always)]
    pub fn get(&self, registers: &[Value], outer: Option<u32>, b: u16, c: u16) -> Value
        ensures { result ≡ environments.value_out (seen.around_of self.now) registers.now outer b c }
    {
        match self.nth(outer, c) {
            Some(number) => self.read(registers, number, b).unwrap_or(Value::Nil),
            None => Value::Nil,
        }
    }

    /// Register `b` of the list that is `c` around an environment's gets a value, and keeps no exit. The registers are
    /// those of the line that runs.
    #[inline(always)]
    pub fn set(&mut self, registers: &mut [Value], outer: Option<u32>, b: u16, c: u16, value: Value)
        ensures registers { registers.new ≡ (environments.written_out (seen.around_of self.old) registers.old outer
            b c value).registers }
        ensures around { seen.around_of self.new ≡ (environments.written_out (seen.around_of self.old) registers.old
            outer b c value).around }
    {
        if let Some(number) = self.nth(outer, c) {
            self.write(registers, number, b, value);
            if !self.exits.is_empty() {
                self.forget_exit(number, b);
            }
        }
    }

    /// Register `b` of an environment keeps no exit.
    #[cold]
    fn forget_exit(&mut self, number: u32, b: u16)
        ensures { seen.around_of self.new ≡ environments.forgotten (seen.around_of self.old) number b }
    {
        if let Some(env) = self.envs.get(number as usize) {
            let list = env.number;
            self.exits.remove(&(list, u64::from(b)));
        }
    }
}

impl Frames {
    /// The environment of a captured list, by the number that [`Frames::lists_around`] gives it.
    #[inline(always)]
    pub fn env_of(&self, list: u64) -> Option<u32>
        ensures { result ≡ environments.env_numbered (seen.of self.now) list }
    {
        if list < self.around.envs.len() as u64 {
            u32::try_from(list).ok()
        } else {
            None
        }
    }

    /// A block captures the registers of the frame, which has an environment then. Where memory runs out all is as
    /// before.
    pub fn capture(&mut self, frame: &mut Frame) -> Result<(), AllocError>
        ensures frame { OnOk result (frame.new ≡ environments.capturing (seen.of self.old) frame.old) }
        ensures ok { OnOk result (seen.of self.new ≡ environments.captured (seen.of self.old) frame.old) }
        ensures same { OnErr result (frame.new ≡ frame.old) }
        ensures err { OnErr result (seen.of self.new ≡ seen.of self.old) }
    {
        match frame.own {
            Some(_) => Ok(()),
            None => self.capture_new(frame),
        }
    }

    /// The frame gets an environment.
    fn capture_new(&mut self, frame: &mut Frame) -> Result<(), AllocError>
        ensures frame { OnOk result (frame.new ≡ environments.with_own frame.old (length self.old.around.envs.items)) }
        ensures ok { OnOk result (seen.of self.new ≡ environments.env_added (seen.of self.old) frame.old) }
        ensures same { OnErr result (frame.new ≡ frame.old) }
        ensures err { OnErr result (seen.of self.new ≡ seen.of self.old) }
    {
        let number = u32::try_from(self.around.envs.len()).map_err(|_| AllocError)?;
        let mut values = Vec::new(self.alloc);
        values.resize(usize::from(frame.registers), Value::Nil)?;
        let line = self.around.running;
        self.around.envs.push(Env {
            number: frame.number,
            outer: frame.outer,
            line,
            base: frame.base,
            open: true,
            values,
        })?;
        frame.own = Some(number);
        Ok(())
    }

    /// The numbers of the frame's list, where it was captured, and of those around it, the innermost first.
    #[tactic(auto, using(crate::proofs::Steps::lists_none, crate::proofs::Steps::lists_end))]
    pub fn lists_around(&self, frame: &Frame) -> Result<Vec<u64>, AllocError>
        ensures { IfOk result (λ lists. lists.items ≡ environments.lists_around (seen.of self.now) frame.now) }
    {
        let mut lists = Vec::new(self.alloc);
        let mut at = frame.own.or(frame.outer);
        'around: for _env in 0..self.around.envs.len() {
            let Some(number) = at else {
                return Ok(lists);
            };
            lists.push(u64::from(number))?;
            at = self.around.outer_of(number);
        }
        Ok(lists)
    }
}
