//! Sending on what was written, before the answer is given.
ghost use Rattle.std.specs.Prelude.{◌≡◌, ◌≢◌, ℕ, List, [], OnOk};
ghost use Rattle.rite_code.specs.Code.{Program};
ghost use Rattle.rb_refusal.specs.Writing.{Stream, Says};
ghost use Rattle.rite_tool.specs.Running.{Runs};
ghost use Rattle.rite_tool.specs.Writing.{IsAnswer};

use crate::end::End;
use crate::told::OfSink;
use path_machine::{Ran, RunFault};
use rb_base::{Buffered, Failed, Sink};

/// Sends on a text that was to be written. `Failed` where it wasn't written whole, or isn't sent on whole.
pub fn send_text<O: Sink + Drop>(
    said: Result<(), Failed>,
    out: &mut Buffered<O>,
) -> Result<(), Failed>
    ensures says { (text : List ℕ) (given : Stream)
        → Says text given (⟦<Buffered<O> as OfSink>⟧.told out.old) said
        → Says text given (⟦<Buffered<O> as OfSink>⟧.told out.new) result }
    ensures sent { OnOk result (out.new.pending ≡ []) }
{
    said?;
    out.flush()
}

/// Sends on what a run wrote. A run whose output isn't sent on whole comes out as an output fault.
pub fn send_run<O: Sink + Drop>(
    ran: Result<Ran, RunFault>,
    out: &mut Buffered<O>,
) -> Result<Ran, RunFault>
    ensures runs { (code : Program) (n : ℕ) (given : Stream)
        → Runs code n given (⟦<Buffered<O> as OfSink>⟧.told out.old) ran
        → Runs code n given (⟦<Buffered<O> as OfSink>⟧.told out.new) result }
    ensures sent { result ≢ Err RunFault.OutputFault → out.new.pending ≡ [] }
{
    if let Err(RunFault::OutputFault) = ran {
        return Err(RunFault::OutputFault);
    }
    match out.flush() {
        Ok(()) => ran,
        Err(Failed) => Err(RunFault::OutputFault),
    }
}

/// Sends on a text that was to be written, and gives the answer that is meant: `OutputFault` where it wasn't written whole,
/// or isn't sent on whole.
pub fn send_answer<E: Sink + Drop>(
    said: Result<(), Failed>,
    meant: End,
    err: &mut Buffered<E>,
) -> End
    ensures answer { (text : List ℕ) (given : Stream)
        → Says text given (⟦<Buffered<E> as OfSink>⟧.told err.old) said
        → IsAnswer text meant given (⟦<Buffered<E> as OfSink>⟧.told err.new) result }
    ensures sent { result ≢ End.OutputFault → err.new.pending ≡ [] }
{
    match send_text(said, err) {
        Ok(()) => meant,
        Err(Failed) => End::OutputFault,
    }
}
