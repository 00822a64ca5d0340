//! The machine.
ghost use Rattle.std.specs.Prelude.{◌≡◌, ◌≤◌, ◌-◌, Ok, Err, IfOk, OnOk, OnErr};
ghost use Rattle.rb_base.specs.Outside.{with_more};
ghost use Rattle.vm_acts.specs.Parts.beside as beside;
ghost use Rattle.vm_acts.specs.Parts.flow.{Stays};
ghost use Rattle.vm_acts.specs.Ends.{End};
ghost use Rattle.frame_machine.specs.Runs as runs;
ghost use Rattle.frame_machine.specs.Turns as turns;
ghost use Rattle.frame_machine.specs.declared.running.At.TheVariants.{Hand};
ghost use Rattle.frame_machine.specs.declared.running.At.{At};
ghost use Rattle.frame_machine.specs.Standing as states;
ghost use Rattle.frame_machine.specs.declared.machine.Standing.TheVariants as stands;
ghost use Rattle.frame_machine.specs.declared.machine.StepFault.TheVariants as fault;

use crate::reading::{Line, Lines};
use crate::running::{At, Pause, run_turns};
use def_core::Cause;
use rb_base::{Sink, Source, write_all};
use rb_value::{ObjId, Value};
use std::alloc::{AllocError, AllocFailed, Global};
use std::mem;
use vm_acts::fiber_switch::Fibers;
use vm_acts::heap::{Given, Heap};
use vm_acts::run_calls::{Unrescued, seen_of};
use vm_acts::vm_frames::{Frame, Frames};
use vm_acts::vm_parts::flow::{End, Flow};
use vm_acts::vm_parts::loaded::Loaded;
use vm_acts::vm_parts::parts::Parts;
use vm_iterations::{answer_read, begin_report};

/// What one turn comes to.
#[derive(Clone, Copy, Debug, PartialEq, Eq)]
pub enum Turn {
    Going,
    Ended(u8),
    Uncaught(ObjId),
}

/// What so many turns come to.
#[derive(Clone, Copy, Debug, PartialEq, Eq)]
pub enum Ran {
    Spent,
    Ended(u8),
    Uncaught(ObjId),
}

/// Why a machine makes no turn: memory ran out, a call on the input or the output failed, or one of these came before.
#[derive(Clone, Copy, Debug, PartialEq, Eq)]
pub enum StepFault {
    NoMemory,
    InputFault,
    OutputFault,
    Stopped,
}

impl From<AllocError> for StepFault {
    ghost use Rattle.std.specs.Prelude.{◌≡◌};
    ghost use Rattle.frame_machine.specs.declared.machine.StepFault.TheVariants.{NoMemory};

    ghost from_gives = { λ _ e. e ≡ NoMemory };

    fn from(_error: AllocError) -> StepFault {
        StepFault::NoMemory
    }
}

impl<T: Drop> From<AllocFailed<T>> for StepFault {
    ghost use Rattle.std.specs.Prelude.{◌≡◌};
    ghost use Rattle.frame_machine.specs.declared.machine.StepFault.TheVariants.{NoMemory};

    ghost from_gives = { λ _ e. e ≡ NoMemory };

    fn from(_error: AllocFailed<T>) -> StepFault {
        StepFault::NoMemory
    }
}

/// How a machine stands: a level runs, the program has ended, or a fault came.
#[derive(Drop)]
enum Standing {
    At(At),
    Over(End),
    Stopped,
}

/// A machine with its code and the frame in hand. It counts the turns that it makes, and keeps whether an exception that
/// nothing rescued was asked for its message.
#[derive(Drop)]
pub struct Machine {
    alloc: Global,
    code: Loaded,
    hot: Frame,
    parts: Parts,
    lines: Lines,
    standing: Standing,
    reported: bool,
    turns: u64,
}

/// What an end is to the caller of a run.
fn ran_by(end: End) -> Ran
    ensures { result ≡ states.ran_by end }
{
    match end {
        End::Ended(status) => Ran::Ended(status),
        End::Uncaught(exception) => Ran::Uncaught(exception),
    }
}

/// Writes bytes that an iteration wants to go out.
fn write_out<O: Sink>(out: &mut O, bytes: Vec<u8>) -> Result<(), StepFault>
    ensures { OnOk result (O.taken out.new ≡ with_more (O.taken out.old) bytes.items) }
{
    if write_all(out, &bytes).is_err() {
        Err(StepFault::OutputFault)
    } else {
        Ok(())
    }
}

impl Machine {
    /// A machine at a frame, before its first turn.
    pub(crate) fn new(alloc: Global, code: Loaded, parts: Parts, hot: Frame) -> Machine
        ensures is_new { runs.IsNew result }
        ensures stands { runs.stand_at result Hand ≡ turns.stand Stays hot (beside.of parts) }
    {
        Machine {
            alloc,
            code,
            hot,
            parts,
            lines: Lines::new(alloc),
            standing: Standing::At(At::Hand),
            reported: false,
            turns: 0,
        }
    }

    /// How many turns were made.
    pub fn turns(&self) -> u64
        ensures { result ≡ self.now.turns }
    {
        self.turns
    }

    /// How many classes and modules the searches for methods asked.
    pub fn probes(&self) -> u64 {
        self.parts.heap.probes()
    }

    /// The peak of the run: the most blocks of 64 registers that the frames of all fibers that had begun held at once.
    pub fn peak(&self) -> usize {
        self.parts.frames.peak()
    }

    /// The levels, registers and environments.
    pub fn frames(&self) -> &Frames {
        &self.parts.frames
    }

    /// The fibers.
    pub fn fibers(&self) -> &Fibers {
        &self.parts.fibers
    }

    /// The heap.
    pub fn heap(&self) -> &Heap {
        &self.parts.heap
    }

    /// What is seen of an exception that nothing rescued: the name of its class, and its message.
    pub fn unrescued(&self, exception: ObjId) -> Result<Unrescued, AllocError> {
        seen_of(&self.parts.heap, exception)
    }

    /// The end of a program by an exception: with its status, where it is a SystemExit.
    fn end_of(&self, end: End) -> Result<End, AllocError> {
        match end {
            End::Uncaught(exception) => {
                let seen = seen_of(&self.parts.heap, exception)?;
                if seen.exits {
                    Ok(End::Ended(u8::try_from(seen.status).unwrap_or(u8::MAX)))
                } else {
                    Ok(end)
                }
            }
            End::Ended(_) => Ok(end),
        }
    }

    /// What a read gives: a String with the line, nil at the end, or an exception.
    fn read_line<S: Source>(&mut self, input: &mut S) -> Result<Given, StepFault>
        ensures apart { states.Apart self.old self.new }
        ensures given { IfOk result (λ given. runs.GivesLine self.old.parts.heap given self.new.parts.heap) }
        ensures alone { runs.ReadsAlone self.old self.new }
    {
        match self.lines.next(self.alloc, input)? {
            Line::Text(text) => Ok(Given::Gives(self.parts.heap.make_string(text)?)),
            Line::End => Ok(Given::Gives(Value::Nil)),
            Line::TooLong => Ok(self.parts.heap.fail(Cause::StringTooLong)?),
        }
    }

    /// Whether the exception by which the program ends is asked for its message now, which the program says. That is done once.
    fn asks(&mut self, end: End) -> Result<bool, AllocError>
        ensures apart { states.Apart self.old self.new }
        ensures asked { IfOk result (λ asked. asked ≡ runs.is_asked self.old end) }
        ensures left { OnOk result (runs.Asks end self.old self.new) }
    {
        if self.reported {
            return Ok(false);
        }
        self.reported = begin_report(&mut self.parts, end)?;
        Ok(self.reported)
    }

    /// How the machine stands where the program ends. An exception whose message the program says is asked for it before.
    fn stands_at(&mut self, end: End) -> Result<Standing, AllocError>
        ensures apart { states.Apart self.old self.new }
        ensures ends { IfOk result (λ standing. runs.EndsSo end standing self.old self.new) }
    {
        if self.asks(end)? {
            Ok(Standing::At(At::Waiting))
        } else {
            Ok(Standing::Over(self.end_of(end)?))
        }
    }

    /// How the machine stands by what comes next.
    fn stands(&mut self, flow: Flow) -> Result<Standing, AllocError>
        ensures apart { states.Apart self.old self.new }
        ensures stands { IfOk result (λ standing. runs.StandsBy flow standing self.old self.new) }
    {
        match flow {
            Flow::Stays => Ok(Standing::At(At::Hand)),
            Flow::Wakes => Ok(Standing::At(At::Waiting)),
            Flow::Ends => self.stands_at(self.parts.end),
        }
    }

    /// The read of the iteration that is the innermost level that waits.
    fn read<S: Source>(&mut self, input: &mut S) -> Result<Standing, StepFault>
        ensures apart { states.Apart self.old self.new }
        ensures reads { IfOk result (λ standing. runs.ReadsSo standing self.old self.new) }
    {
        let given = self.read_line(input)?;
        let flow = answer_read(&self.code, &mut self.parts, given)?;
        Ok(self.stands(flow)?)
    }

    /// Goes on from a level for at most so many turns, and gives where it comes to and how many turns are left.
    fn go_on<S: Source, O: Sink>(
        &mut self,
        at: At,
        budget: u64,
        input: &mut S,
        out: &mut O,
    ) -> Result<(Standing, u64), StepFault>
        ensures apart { states.Apart self.old self.new }
        ensures goes { IfOk result (λ r. runs.Goes self.old at budget r.1 r.0 self.new (O.taken out.old) (O.taken
            out.new)) }
        ensures fewer { IfOk result (λ r. r.1 ≤ budget - 1) }
    {
        match run_turns(&self.code, at, &mut self.hot, &mut self.parts, budget)? {
            Pause::Spent(at) => Ok((Standing::At(at), 0)),
            Pause::Ends { end, left } => Ok((self.stands_at(end)?, left)),
            Pause::Writes { bytes, left } => {
                write_out(out, bytes)?;
                Ok((Standing::At(At::Waiting), left))
            }
            Pause::Reads { left } => Ok((self.read(input)?, left)),
        }
    }

    /// Goes on from a level until no turn is left or the program has ended, and gives where it comes to and how many
    /// turns are left.
    fn run_from<S: Source, O: Sink>(
        &mut self,
        at: At,
        budget: u64,
        input: &mut S,
        out: &mut O,
    ) -> Result<(Standing, u64), StepFault>
        ensures apart { states.Apart self.old self.new }
        ensures goes { IfOk result (λ r. runs.Goes self.old at budget r.1 r.0 self.new (O.taken out.old) (O.taken
            out.new)) }
        ensures spends { IfOk result (λ r. runs.Spends r.0 r.1) }
    {
        let mut at = at;
        let mut left = budget;
        'pauses: for made in 0..budget {
            if left == 0 {
                break 'pauses;
            }
            let (standing, rest) = self.go_on(at, left, input, out)?;
            left = rest;
            match standing {
                Standing::At(next) => at = next,
                other => return Ok((other, left)),
            }
        }
        Ok((Standing::At(at), left))
    }

    /// Makes so many turns, or fewer where the program ends before. After a fault it makes none any more.
    pub fn run<S: Source, O: Sink>(
        &mut self,
        budget: u64,
        input: &mut S,
        out: &mut O,
    ) -> Result<Ran, StepFault>
        ensures counts { (at : At) → self.old.standing ≡ stands.At at → OnOk result (states.Counts self.old self.new budget) }
        ensures ran { (at : At) → self.old.standing ≡ stands.At at → OnOk result (runs.RunsFor self.old at budget self.new
            (O.taken out.old) (O.taken out.new)) }
        ensures over { (e : End) → self.old.standing ≡ stands.Over e → (result ≡ Ok (states.ran_by e))
            × (self.new ≡ self.old) }
        ensures told { IfOk result (λ ran. ran ≡ states.told self.new.standing) }
        ensures err { OnErr result ((self.new.standing ≡ stands.Stopped) × (self.new.turns ≡ self.old.turns)) }
        ensures stopped { self.old.standing ≡ stands.Stopped → (result ≡ Err fault.Stopped) × (self.new ≡ self.old) }
    {
        match mem::replace(&mut self.standing, Standing::Stopped) {
            Standing::At(at) => {
                let (after, left) = self.run_from(at, budget, input, out)?;
                self.turns = self.turns.saturating_add(budget.saturating_sub(left));
                Ok(self.stand(after))
            }
            Standing::Over(end) => Ok(self.stand(Standing::Over(end))),
            Standing::Stopped => Err(StepFault::Stopped),
        }
    }

    /// Stands so, and tells it.
    fn stand(&mut self, standing: Standing) -> Ran
        ensures told { result ≡ states.told standing }
        ensures stands { self.new ≡ states.standing_at self.old standing }
    {
        let ran = match &standing {
            Standing::Over(end) => ran_by(*end),
            _ => Ran::Spent,
        };
        self.standing = standing;
        ran
    }

    /// Makes one turn.
    pub fn step<S: Source, O: Sink>(
        &mut self,
        input: &mut S,
        out: &mut O,
    ) -> Result<Turn, StepFault>
        ensures counts { (at : At) → self.old.standing ≡ stands.At at → OnOk result (states.Counts self.old self.new 1) }
        ensures told { IfOk result (λ turn. turn ≡ states.turn_by (states.told self.new.standing)) }
        ensures ran { (at : At) → self.old.standing ≡ stands.At at → OnOk result (runs.RunsFor self.old at 1 self.new
            (O.taken out.old) (O.taken out.new)) }
        ensures err { OnErr result ((self.new.standing ≡ stands.Stopped) × (self.new.turns ≡ self.old.turns)) }
        ensures stopped { self.old.standing ≡ stands.Stopped → (result ≡ Err fault.Stopped) × (self.new ≡ self.old) }
    {
        match self.run(1, input, out)? {
            Ran::Spent => Ok(Turn::Going),
            Ran::Ended(status) => Ok(Turn::Ended(status)),
            Ran::Uncaught(exception) => Ok(Turn::Uncaught(exception)),
        }
    }
}
