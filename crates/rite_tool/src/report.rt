//! What is reported of a command, before it is told.
ghost use Rattle.std.specs.Prelude.{◌≡◌, ◌≢◌, [], Option};
ghost use Rattle.rb_refusal.specs.Writing.{Stream, Says};
ghost use Rattle.rite_tool.specs.Answer.{Reports};
ghost use Rattle.rite_tool.specs.Reporting as reporting;
ghost use Rattle.file_maker.specs.Disk.{Disk};
ghost use Rattle.rite_tool.specs.Words as words;
ghost use Rattle.rite_tool.specs.Writing.{IsAnswer};

use crate::end::End;
use crate::sending::{send_answer, send_run, send_text};
use crate::stop::Stop;
use crate::texts;
use crate::told::OfSink;
use path_machine::{Ran, RunFault};
use rb_base::{Buffered, Failed, Sink};

/// What is reported of a command.
#[derive(Clone, Copy, Debug)]
pub enum Report {
    /// The words are no command.
    Usage,
    /// Nothing was run or shown, for this cause.
    Stopped(Stop),
    /// The file of a source was made.
    Built,
    /// A run of at most so many turns came out so.
    Ran(u64, Result<Ran, RunFault>),
    /// A text of a file was written, or a call on the output failed.
    Shown(Result<(), Failed>),
}

impl Report {
    /// Of a file that was to be made.
    pub fn of_build(built: Result<(), Stop>) -> Report
        ensures { result ≡ reporting.of_build built }
    {
        match built {
            Ok(()) => Report::Built,
            Err(stop) => Report::Stopped(stop),
        }
    }

    /// Of a source that was to be run.
    pub fn of_exec(steps: u64, ran: Result<Result<Ran, RunFault>, Stop>) -> Report
        ensures { result ≡ reporting.of_exec steps ran }
    {
        match ran {
            Ok(ran) => Report::Ran(steps, ran),
            Err(stop) => Report::Stopped(stop),
        }
    }

    /// Of a file that was to be shown.
    pub fn of_show(shown: Result<Result<(), Failed>, Stop>) -> Report
        ensures { result ≡ reporting.of_show shown }
    {
        match shown {
            Ok(said) => Report::Shown(said),
            Err(stop) => Report::Stopped(stop),
        }
    }

    /// Sends on what was written for it, where anything was, and says what is then reported: an output fault where
    /// that failed.
    pub fn sent<O: Sink + Drop>(self, out: &mut Buffered<O>) -> Report
        requires { reporting.IsSilent self → out.old.pending ≡ [] }
        ensures reports { (command : Option words.Command) (before after : Disk) (given : Stream)
            → Reports command before after given (⟦<Buffered<O> as OfSink>⟧.told out.old) self
            → Reports command before after given (⟦<Buffered<O> as OfSink>⟧.told out.new) result }
        ensures sent { reporting.end_of result ≢ End.OutputFault → out.new.pending ≡ [] }
    {
        match self {
            Report::Usage | Report::Stopped(_) | Report::Built => self,
            Report::Ran(steps, ran) => Report::Ran(steps, send_run(ran, out)),
            Report::Shown(said) => Report::Shown(send_text(said, out)),
        }
    }

    /// Tells it, and gives the answer: `OutputFault` where its line couldn't be written and sent on.
    pub fn answer<E: Sink + Drop>(self, err: &mut Buffered<E>) -> End
        ensures answer { IsAnswer (reporting.text_of self) (reporting.end_of self)
            (⟦<Buffered<E> as OfSink>⟧.told err.old) (⟦<Buffered<E> as OfSink>⟧.told err.new) result }
        ensures sent { result ≢ End.OutputFault → err.new.pending ≡ [] }
    {
        let said = self.tell(err);
        send_answer(said, self.end(), err)
    }

    /// The answer that is given for it.
    pub fn end(self) -> End
        ensures { result ≡ reporting.end_of self }
    {
        match self {
            Report::Usage => End::Usage,
            Report::Stopped(Stop::Refused(refusal)) => End::Refused(refusal),
            Report::Stopped(Stop::FileFault) => End::FileFault,
            Report::Stopped(Stop::NoMemory) => End::NoMemory,
            Report::Built | Report::Shown(Ok(())) => End::Ended(0),
            Report::Shown(Err(Failed)) => End::OutputFault,
            Report::Ran(_, ran) => end_of_run(ran),
        }
    }

    /// Writes its line, if it has one.
    pub fn tell<E: Sink>(self, err: &mut E) -> Result<(), Failed>
        ensures { Says (reporting.text_of self)
            (⟦<E as OfSink>⟧.told err.old) (⟦<E as OfSink>⟧.told err.new) result }
    {
        match self {
            Report::Usage => texts::tell_usage(err),
            Report::Stopped(Stop::Refused(refusal)) => texts::tell_refused(err, refusal),
            Report::Stopped(Stop::FileFault) => texts::tell_file_fault(err),
            Report::Stopped(Stop::NoMemory) => texts::tell_no_memory(err),
            Report::Built | Report::Shown(_) => Ok(()),
            Report::Ran(steps, ran) => tell_run(err, steps, ran),
        }
    }
}

// How a run ends the program.
fn end_of_run(ran: Result<Ran, RunFault>) -> End
    ensures { result ≡ reporting.end_of_run ran }
{
    match ran {
        Ok(Ran::Ended(status)) => End::Ended(status),
        Ok(Ran::Uncaught(_)) => End::Uncaught,
        Ok(Ran::Spent) => End::Spent,
        Err(RunFault::OutputFault) => End::OutputFault,
        Err(RunFault::NoMemory) => End::NoMemory,
    }
}

// Writes the line for a run of at most `steps` turns, if there is one.
fn tell_run<E: Sink>(err: &mut E, steps: u64, ran: Result<Ran, RunFault>) -> Result<(), Failed>
    ensures { Says (reporting.text_of_run steps ran)
        (⟦<E as OfSink>⟧.told err.old) (⟦<E as OfSink>⟧.told err.new) result }
{
    match ran {
        Ok(Ran::Ended(_)) | Err(RunFault::OutputFault) => Ok(()),
        Ok(Ran::Uncaught(failure)) => texts::tell_uncaught(err, failure),
        Ok(Ran::Spent) => texts::tell_spent(err, steps),
        Err(RunFault::NoMemory) => texts::tell_no_memory(err),
    }
}
