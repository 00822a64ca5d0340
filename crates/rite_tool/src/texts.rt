//! The lines that go to the error stream.
ghost use Rattle.std.specs.Prelude.{◌≡◌};
ghost use Rattle.rite_tool.specs.Texts as texts;
ghost use Rattle.rb_refusal.specs.Writing.{Says};

use crate::told::OfSink;
use itoa::Buffer;
use path_value::Failure;
use rb_base::{Failed, Sink, write_all};
use rb_exec::Counts;
use rb_refusal::{Refusal, refusal_text, write_pieces, write_text};

/// Writes how the program is called.
pub fn tell_usage<E: Sink>(err: &mut E) -> Result<(), Failed>
    ensures { Says texts.usage (⟦<E as OfSink>⟧.told err.old) (⟦<E as OfSink>⟧.told err.new) result }
{
    write_all(
        err,
        b"usage: rite build SRC OUT; run [--steps N] [--stats] FILE; exec [--steps N] SRC OUT; list FILE; info FILE; sample K\n",
    )
}

/// Writes that so many turns are spent.
pub fn tell_spent<E: Sink>(err: &mut E, steps: u64) -> Result<(), Failed>
    ensures { Says (texts.spent steps) (⟦<E as OfSink>⟧.told err.old) (⟦<E as OfSink>⟧.told err.new) result }
{
    let mut digits = Buffer::new();
    write_pieces(
        err,
        &[b"spent: ", digits.format(steps).as_bytes(), b" turns\n"],
    )
}

/// Writes how many turns a run made, and its peak.
pub fn tell_counts<E: Sink>(err: &mut E, counts: Counts) -> Result<(), Failed>
    ensures { Says (texts.counts counts.turns counts.peak)
        (⟦<E as OfSink>⟧.told err.old) (⟦<E as OfSink>⟧.told err.new) result }
{
    let mut turns = Buffer::new();
    let mut peak = Buffer::new();
    write_pieces(
        err,
        &[
            b"turns ",
            turns.format(counts.turns).as_bytes(),
            b" peak ",
            peak.format(counts.peak).as_bytes(),
            b"\n",
        ],
    )
}

/// Writes the class and the message of an exception that nothing caught.
pub fn tell_uncaught<E: Sink>(err: &mut E, failure: Failure) -> Result<(), Failed>
    ensures { Says (texts.uncaught failure) (⟦<E as OfSink>⟧.told err.old) (⟦<E as OfSink>⟧.told err.new) result }
{
    match failure {
        Failure::IntegerOverflow => write_pieces(err, &[b"RangeError: integer overflow\n"]),
        Failure::UndefinedMethod(operator, class) => write_pieces(
            err,
            &[
                b"NoMethodError: undefined method '",
                operator.name(),
                b"' for ",
                class.name(),
                b"\n",
            ],
        ),
        Failure::IntegerExpected(class) => write_pieces(
            err,
            &[b"TypeError: expected Integer, got ", class.name(), b"\n"],
        ),
    }
}

/// Writes that memory ran out.
pub fn tell_no_memory<E: Sink>(err: &mut E) -> Result<(), Failed>
    ensures { Says texts.no_memory (⟦<E as OfSink>⟧.told err.old) (⟦<E as OfSink>⟧.told err.new) result }
{
    write_all(err, b"no memory\n")
}

/// Writes that the input couldn't be read.
pub fn tell_input_fault<E: Sink>(err: &mut E) -> Result<(), Failed>
    ensures { Says texts.input_fault (⟦<E as OfSink>⟧.told err.old) (⟦<E as OfSink>⟧.told err.new) result }
{
    write_all(err, b"input fault\n")
}

/// Writes that a file wasn't read or written.
pub fn tell_file_fault<E: Sink>(err: &mut E) -> Result<(), Failed>
    ensures { Says texts.file_fault (⟦<E as OfSink>⟧.told err.old) (⟦<E as OfSink>⟧.told err.new) result }
{
    write_all(err, b"file fault\n")
}

/// Writes why a source or a file is refused.
pub fn tell_refused<E: Sink>(err: &mut E, refusal: Refusal) -> Result<(), Failed>
    ensures { Says (texts.refused refusal) (⟦<E as OfSink>⟧.told err.old) (⟦<E as OfSink>⟧.told err.new) result }
{
    write_text(err, b"refused: ")?;
    refusal_text(&refusal, err)?;
    write_text(err, b"\n")
}
