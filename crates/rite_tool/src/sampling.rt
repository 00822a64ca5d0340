//! The command sample: a source of a given size is compiled and run in memory, and a line says how it came out.
ghost use Rattle.std.specs.Prelude.{◌≡◌, ◌≤◌, []};
ghost use Rattle.rb_refusal.specs.Writing.{Says};
ghost use Rattle.rite_tool.specs.Sampling.{without_newline, last_line, sample_text, RunsFirst, ShowsPlayed, ShowsRan, TriesFirst, Tries, Samples};
ghost use Rattle.rite_tool.specs.Writing.{IsAnswer};
ghost use Rattle.rb_exec.specs.InMemory.{GoesFirst};

use crate::end::End;
use crate::played::{end_of, tell};
use crate::report::Report;
use crate::sending::send_answer;
use crate::stop::Stop;
use crate::texts::tell_no_memory;
use crate::told::OfSink;
use itoa::Buffer;
use path_machine::{Ran, RunFault};
use rb_base::{Buffered, Failed, MemorySink, Sink};
use rb_compile::compile;
use rb_exec::{Played, run_text};
use rb_refusal::write_pieces;
use sample_source::sample_source;
use std::alloc::{AllocError, Global};

/// A text without the newline that it ends with.
fn without_newline(text: &[u8]) -> &[u8]
    ensures { result.now ≡ without_newline text.now }
{
    match text.strip_suffix(b"\n") {
        Some(front) => front,
        None => text,
    }
}

/// The last line of an output, without its newline.
#[tactic(auto, using(crate::proofs::Lines::line_from))]
fn last_line(output: &[u8]) -> &[u8]
    ensures { result.now ≡ last_line output.now }
{
    let text = without_newline(output);
    let mut line = text;
    'bytes: for (at, byte) in text.iter().enumerate() {
        if *byte == b'\n' {
            line = &text[at + 1..];
        }
    }
    line
}

/// Writes the line of a sample of that size, whose source has so many bytes, and which ended with that status.
fn tell_sample<O: Sink>(
    out: &mut O,
    size: u64,
    bytes: usize,
    status: u8,
    last: &[u8],
) -> Result<(), Failed>
    ensures { Says (sample_text size bytes status last.now)
        (⟦<O as OfSink>⟧.told out.old) (⟦<O as OfSink>⟧.told out.new) result }
{
    let mut of_size = Buffer::new();
    let mut of_bytes = Buffer::new();
    let mut of_status = Buffer::new();
    write_pieces(
        out,
        &[
            b"sample ",
            of_size.format(size).as_bytes(),
            b": source ",
            of_bytes.format(bytes).as_bytes(),
            b" bytes, status ",
            of_status.format(status).as_bytes(),
            b", last ",
            last,
            b"\n",
        ],
    )
}

/// Writes the line of a sample that ended with that status and wrote that, sends it on, and gives the answer.
fn show<O: Sink + Drop>(
    size: u64,
    bytes: usize,
    status: u8,
    output: &[u8],
    out: &mut Buffered<O>,
) -> End
    ensures { IsAnswer (sample_text size bytes status (last_line output.now)) (End.Ended 0)
        (⟦<Buffered<O> as OfSink>⟧.told out.old) (⟦<Buffered<O> as OfSink>⟧.told out.new) result }
{
    let said = tell_sample(out, size, bytes, status, last_line(output));
    send_answer(said, End::Ended(0), out)
}

/// Writes the line of a sample that ended on the second path, or tells how else it came out.
fn show_played<O: Sink + Drop, E: Sink + Drop>(
    size: u64,
    text: &[u8],
    played: &Played,
    output: &[u8],
    out: &mut Buffered<O>,
    err: &mut Buffered<E>,
) -> End
    ensures { ShowsPlayed size text.now output.now played.now
        (record { out = ⟦<Buffered<O> as OfSink>⟧.told out.old; err = ⟦<Buffered<E> as OfSink>⟧.told err.old })
        (record { out = ⟦<Buffered<O> as OfSink>⟧.told out.new; err = ⟦<Buffered<E> as OfSink>⟧.told err.new })
        result }
{
    if let Played::Ended(status) = played {
        return show(size, text.len(), *status, output, out);
    }
    let said = tell(played, u64::MAX, err);
    send_answer(said, end_of(played), err)
}

/// Compiles a text of the first path and runs its code, for as many turns as can be asked for.
fn run_first(
    alloc: Global,
    text: &[u8],
    output: &mut MemorySink,
) -> Result<Result<Ran, RunFault>, Stop>
    requires { output.old.bytes ≡ [] }
    ensures { RunsFirst text.now output.new.bytes result }
{
    let code = compile(alloc, text)?;
    match path_machine::run(alloc, &code, u64::MAX, output) {
        Ok(ran) => Ok(Ok(ran)),
        Err(_) => Ok(Err(RunFault::NoMemory)),
    }
}

/// Writes the line of a sample that ended on the first path, or tells how else it came out.
fn show_ran<O: Sink + Drop, E: Sink + Drop>(
    size: u64,
    text: &[u8],
    ran: Result<Result<Ran, RunFault>, Stop>,
    output: &[u8],
    out: &mut Buffered<O>,
    err: &mut Buffered<E>,
) -> End
    ensures { ShowsRan size text.now output.now ran
        (record { out = ⟦<Buffered<O> as OfSink>⟧.told out.old; err = ⟦<Buffered<E> as OfSink>⟧.told err.old })
        (record { out = ⟦<Buffered<O> as OfSink>⟧.told out.new; err = ⟦<Buffered<E> as OfSink>⟧.told err.new })
        result }
{
    if let Ok(Ok(Ran::Ended(status))) = ran {
        return show(size, text.len(), status, output, out);
    }
    Report::of_exec(u64::MAX, ran).answer(err)
}

/// Runs a text of the first path in memory, and tells how it came out.
fn try_first<O: Sink + Drop, E: Sink + Drop>(
    alloc: Global,
    size: u64,
    text: &[u8],
    out: &mut Buffered<O>,
    err: &mut Buffered<E>,
) -> End
    ensures { GoesFirst text.now → TriesFirst size text.now
        (record { out = ⟦<Buffered<O> as OfSink>⟧.told out.old; err = ⟦<Buffered<E> as OfSink>⟧.told err.old })
        (record { out = ⟦<Buffered<O> as OfSink>⟧.told out.new; err = ⟦<Buffered<E> as OfSink>⟧.told err.new })
        result }
{
    let mut output = MemorySink::new(alloc, usize::MAX, Vec::new(alloc));
    let ran = run_first(alloc, text, &mut output);
    show_ran(size, text, ran, output.bytes(), out, err)
}

/// Runs a text in memory on the path that it goes, and tells how it came out.
fn try_text<O: Sink + Drop, E: Sink + Drop>(
    alloc: Global,
    size: u64,
    text: &[u8],
    out: &mut Buffered<O>,
    err: &mut Buffered<E>,
) -> End
    ensures { Tries size text.now
        (record { out = ⟦<Buffered<O> as OfSink>⟧.told out.old; err = ⟦<Buffered<E> as OfSink>⟧.told err.old })
        (record { out = ⟦<Buffered<O> as OfSink>⟧.told out.new; err = ⟦<Buffered<E> as OfSink>⟧.told err.new })
        result }
{
    match run_text(alloc, text) {
        Some((played, output)) => show_played(size, text, &played, output.bytes(), out, err),
        None => try_first(alloc, size, text, out, err),
    }
}

/// Compiles and runs the sample of that size in memory. Its line goes out where it ends with a status; else it is told
/// how it came out, as of a source that is executed.
pub fn sample<O: Sink + Drop, E: Sink + Drop>(
    alloc: Global,
    size: u64,
    out: &mut Buffered<O>,
    err: &mut Buffered<E>,
) -> End
    requires { size ≤ 200 }
    ensures { Samples size
        (record { out = ⟦<Buffered<O> as OfSink>⟧.told out.old; err = ⟦<Buffered<E> as OfSink>⟧.told err.old })
        (record { out = ⟦<Buffered<O> as OfSink>⟧.told out.new; err = ⟦<Buffered<E> as OfSink>⟧.told err.new })
        result }
{
    let text = match sample_source(alloc, size) {
        Ok(text) => text,
        Err(AllocError) => return send_answer(tell_no_memory(err), End::NoMemory, err),
    };
    try_text(alloc, size, &text, out, err)
}
