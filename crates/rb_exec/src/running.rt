//! A run, and how it comes out.

ghost use Rattle.rb_exec.specs.Built.{IsRun};

use code_verifier::Verified;
use frame_machine::{Machine, Ran, StepFault, start};
use rb_base::{Buffered, Sink, Source};
use rb_refusal::Refusal;
use rb_value::ObjId;
use std::alloc::{AllocError, Global};
use std::mem;

/// How a program comes out: it ended with a status; an exception wasn't rescued, whose class and message are a line;
/// the turns that were allowed are made; or nothing of it runs, or no more, for a cause.
#[derive(Debug, Drop)]
pub enum Played {
    Ended(u8),
    Uncaught(Vec<u8>),
    Spent,
    Refused(Refusal),
    FileFault,
    NoMemory,
    InputFault,
    OutputFault,
}

/// How many turns a run made, and its peak: the most blocks of 64 registers that its frames held at once.
#[derive(Clone, Copy, Debug, Default, PartialEq, Eq)]
pub struct Counts {
    pub turns: u64,
    pub peak: usize,
}

/// The line of an exception that nothing rescued: its class and its message.
fn uncaught(machine: &Machine, exception: ObjId) -> Result<Vec<u8>, AllocError> {
    let seen = machine.unrescued(exception)?;
    let mut line = seen.class;
    line.extend_from_slice(b": ")?;
    line.extend_from_slice(&seen.message)?;
    line.push(b'\n')?;
    Ok(line)
}

/// How a run comes out.
fn come_out(machine: &Machine, ran: Result<Ran, StepFault>) -> Played
    ensures { IsRun result }
{
    match ran {
        Ok(Ran::Ended(status)) => Played::Ended(status),
        Ok(Ran::Uncaught(exception)) => match uncaught(machine, exception) {
            Ok(line) => Played::Uncaught(line),
            Err(AllocError) => Played::NoMemory,
        },
        Ok(Ran::Spent) => Played::Spent,
        Err(StepFault::NoMemory) => Played::NoMemory,
        Err(StepFault::InputFault) => Played::InputFault,
        Err(StepFault::OutputFault) | Err(StepFault::Stopped) => Played::OutputFault,
    }
}

/// Runs verified code for at most so many turns, and sends on what it wrote. The memory of the machine isn't given back
/// object by object: the process ends with the run, which gives all of it back at once.
pub(crate) fn run_code<S: Source, O: Sink + Drop>(
    alloc: Global,
    code: Verified,
    steps: u64,
    input: &mut S,
    out: &mut Buffered<O>,
) -> (Played, Counts)
    ensures { IsRun result.0 }
{
    let mut machine = match start(alloc, code) {
        Ok(machine) => machine,
        Err(AllocError) => return (Played::NoMemory, Counts::default()),
    };
    let ran = machine.run(steps, input, out);
    let counts = Counts {
        turns: machine.turns(),
        peak: machine.peak(),
    };
    let played = match out.flush() {
        Ok(()) => come_out(&machine, ran),
        Err(_) => Played::OutputFault,
    };
    mem::forget(machine);
    (played, counts)
}
