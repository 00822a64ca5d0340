//! How a program of the general path came out: the answer for it, and its line.

ghost use Rattle.std.specs.Prelude.{◌≡◌};
ghost use Rattle.rb_refusal.specs.Writing.{Says};
ghost use Rattle.rite_tool.specs.General as general;

use crate::end::End;
use crate::texts::{tell_file_fault, tell_input_fault, tell_no_memory, tell_refused, tell_spent};
use crate::told::OfSink;
use rb_base::{Failed, Sink, write_all};
use rb_exec::Played;

/// The answer that is given for a program that came out so.
pub fn end_of(played: &Played) -> End
    ensures { result ≡ general.end_of played.now }
{
    match played {
        Played::Ended(status) => End::Ended(*status),
        Played::Uncaught(_) => End::Uncaught,
        Played::Spent => End::Spent,
        Played::Refused(refusal) => End::Refused(*refusal),
        Played::FileFault => End::FileFault,
        Played::NoMemory => End::NoMemory,
        Played::InputFault => End::InputFault,
        Played::OutputFault => End::OutputFault,
    }
}

/// Writes the line for a program of at most `steps` turns that came out so, if there is one.
pub fn tell<E: Sink>(played: &Played, steps: u64, err: &mut E) -> Result<(), Failed>
    ensures { Says (general.text_of steps played.now)
        (⟦<E as OfSink>⟧.told err.old) (⟦<E as OfSink>⟧.told err.new) result }
{
    match played {
        Played::Ended(_) | Played::OutputFault => Ok(()),
        Played::Uncaught(line) => write_all(err, line),
        Played::Spent => tell_spent(err, steps),
        Played::Refused(refusal) => tell_refused(err, *refusal),
        Played::FileFault => tell_file_fault(err),
        Played::InputFault => tell_input_fault(err),
        Played::NoMemory => tell_no_memory(err),
    }
}
