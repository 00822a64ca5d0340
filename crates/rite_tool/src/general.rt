//! The general path: `build` and `exec` of sources that have a form beyond those of the first path, `run`, `sample`.

ghost use Rattle.std.specs.Prelude.{◌≡◌, ◌++◌, ℕ, List, Some, map, string_bytes, MatchOption};
ghost use Rattle.rb_refusal.specs.Writing.{Says};
ghost use Rattle.rite_tool.specs.Asked.{command_meant, run_meant};
ghost use Rattle.rite_tool.specs.General as general;
ghost use Rattle.rite_tool.specs.Words as meant;
ghost use Rattle.rite_tool.specs.Sampling.{Samples};
ghost use Rattle.rite_tool.specs.Words.{command_of, run_of, sample_of};

use crate::end::End;
use crate::played::{end_of, tell};
use crate::sampling::sample;
use crate::sending::send_answer;
use crate::texts::tell_counts;
use crate::told::OfSink;
use crate::words::{Command, Run, read_run, read_sample, read_words};
use file_maker::OfFiles;
use rb_base::{Buffered, Failed, Files, Sink, Source};
use rb_exec::{Counts, Played, build, exec, run};
use std::alloc::Global;

/// Whether the counts of a run that came out so are told: where they are wanted, and the program came to an end or to the
/// last turn that was allowed.
fn tells_counts(wanted: bool, played: &Played) -> bool
    ensures { result ≡ general.tells_counts wanted played.now }
{
    wanted
        && matches!(
            played,
            Played::Ended(_) | Played::Uncaught(_) | Played::Spent
        )
}

/// Writes the counts of a run, where they are told.
fn tell_counted<E: Sink>(told: bool, counts: Counts, err: &mut E) -> Result<(), Failed>
    ensures { Says (general.counted told counts.turns counts.peak)
        (⟦<E as OfSink>⟧.told err.old) (⟦<E as OfSink>⟧.told err.new) result }
{
    if told {
        tell_counts(err, counts)
    } else {
        Ok(())
    }
}

/// Writes the counts of a run that came out so, where they are told, and then the line for it.
fn tell_run<E: Sink>(
    played: &Played,
    asked: Run<'_>,
    counts: Counts,
    err: &mut E,
) -> Result<(), Failed>
    ensures { Says (general.run_text (run_meant asked.entry) played.now counts.turns counts.peak)
        (⟦<E as OfSink>⟧.told err.old) (⟦<E as OfSink>⟧.told err.new) result }
{
    tell_counted(tells_counts(asked.counts, played), counts, err)?;
    tell(played, asked.steps, err)
}

/// Runs a file, and tells of it.
fn run_file<F: Files, S: Source, O: Sink + Drop, E: Sink + Drop>(
    alloc: Global,
    asked: Run<'_>,
    files: &mut F,
    input: &mut S,
    out: &mut Buffered<O>,
    err: &mut Buffered<E>,
) -> End
    ensures { general.IsRun (⟦<F as OfFiles>⟧.told files.old) (⟦<F as OfFiles>⟧.told files.new)
        (⟦<Buffered<E> as OfSink>⟧.told err.old) (⟦<Buffered<E> as OfSink>⟧.told err.new) (run_meant asked.entry) result }
{
    let (played, counts) = run(alloc, files, input, out, asked.steps, asked.file);
    let said = tell_run(&played, asked, counts, err);
    send_answer(said, end_of(&played), err)
}

/// Builds a source, and tells of it. Nothing is done where the source goes the first path.
fn build_file<F: Files, E: Sink + Drop>(
    alloc: Global,
    files: &mut F,
    source: &str,
    file: &str,
    err: &mut Buffered<E>,
) -> Option<End>
    ensures { general.Builds (⟦<F as OfFiles>⟧.told files.old) (⟦<F as OfFiles>⟧.told files.new)
        (⟦<Buffered<E> as OfSink>⟧.told err.old) (⟦<Buffered<E> as OfSink>⟧.told err.new)
        source.now file.now result }
{
    let played = build(alloc, files, source, file)?;
    let said = tell(&played, u64::MAX, err);
    Some(send_answer(said, end_of(&played), err))
}

/// Executes a source for at most `steps` turns, and tells of it. Nothing is done where the source goes the first path.
fn execute<F: Files, S: Source, O: Sink + Drop, E: Sink + Drop>(
    alloc: Global,
    files: &mut F,
    input: &mut S,
    out: &mut Buffered<O>,
    steps: u64,
    source: &str,
    file: &str,
    err: &mut Buffered<E>,
) -> Option<End>
    ensures { general.Executes (⟦<F as OfFiles>⟧.told files.old) (⟦<F as OfFiles>⟧.told files.new)
        (⟦<Buffered<E> as OfSink>⟧.told err.old) (⟦<Buffered<E> as OfSink>⟧.told err.new)
        steps source.now file.now result }
{
    let played = exec(alloc, files, input, out, steps, source, file)?;
    let said = tell(&played, steps, err);
    Some(send_answer(said, end_of(&played), err))
}

/// Does what a command asks, and tells of it, where it is for the general path.
fn obey<F: Files, S: Source, O: Sink + Drop, E: Sink + Drop>(
    alloc: Global,
    command: Command<'_>,
    files: &mut F,
    input: &mut S,
    out: &mut Buffered<O>,
    err: &mut Buffered<E>,
) -> Option<End>
    ensures built { (source file : List ℕ) → command_meant command.entry ≡ meant.build source file →
        general.Builds (⟦<F as OfFiles>⟧.told files.old) (⟦<F as OfFiles>⟧.told files.new)
        (⟦<Buffered<E> as OfSink>⟧.told err.old) (⟦<Buffered<E> as OfSink>⟧.told err.new) source file result }
    ensures executed { (steps : ℕ) (source file : List ℕ) →
        command_meant command.entry ≡ meant.exec steps source file →
        general.Executes (⟦<F as OfFiles>⟧.told files.old) (⟦<F as OfFiles>⟧.told files.new)
        (⟦<Buffered<E> as OfSink>⟧.told err.old) (⟦<Buffered<E> as OfSink>⟧.told err.new) steps source file result }
{
    match command {
        Command::Build { source, file } => build_file(alloc, files, source, file, err),
        Command::Exec {
            steps,
            source,
            file,
        } => execute(alloc, files, input, out, steps, source, file, err),
        Command::List { .. } | Command::Info { .. } => None,
    }
}

/// Does what the words ask, and tells of it, where it is for the general path. Nothing is done for other words and other
/// sources. `build` ends with 0, and `exec` runs, only where the file holds the file of the source, whose code is
/// verified; every other file is as before, and that file too where the source is refused, which it is exactly for its
/// first count past the limit. `run` changes no file, and `sample` touches neither files nor the input.
#[tactic(auto, using(crate::proofs::Alone::alone, crate::proofs::Alone::no_run, crate::proofs::Alone::no_command))]
pub fn play<F: Files, S: Source, O: Sink + Drop, E: Sink + Drop>(
    alloc: Global,
    words: &[String],
    files: &mut F,
    input: &mut S,
    out: &mut Buffered<O>,
    err: &mut Buffered<E>,
) -> Option<End>
    ensures built { (source file : List ℕ) → command_of (map string_bytes words.now) ≡ Some (meant.build source file) →
        general.Builds (⟦<F as OfFiles>⟧.told files.old) (⟦<F as OfFiles>⟧.told files.new)
        (⟦<Buffered<E> as OfSink>⟧.told err.old) (⟦<Buffered<E> as OfSink>⟧.told err.new) source file result }
    ensures executed { (steps : ℕ) (source file : List ℕ) →
        command_of (map string_bytes words.now) ≡ Some (meant.exec steps source file) →
        general.Executes (⟦<F as OfFiles>⟧.told files.old) (⟦<F as OfFiles>⟧.told files.new)
        (⟦<Buffered<E> as OfSink>⟧.told err.old) (⟦<Buffered<E> as OfSink>⟧.told err.new) steps source file result }
    ensures ran { (run : meant.Run) → run_of (map string_bytes words.now) ≡ Some run →
        MatchOption result ⊥ (general.IsRun (⟦<F as OfFiles>⟧.told files.old) (⟦<F as OfFiles>⟧.told files.new)
        (⟦<Buffered<E> as OfSink>⟧.told err.old) (⟦<Buffered<E> as OfSink>⟧.told err.new) run) }
    ensures sampled { (size : ℕ) → sample_of (map string_bytes words.now) ≡ Some size →
        MatchOption result ⊥ (Samples size
        (record { out = ⟦<Buffered<O> as OfSink>⟧.told out.old; err = ⟦<Buffered<E> as OfSink>⟧.told err.old })
        (record { out = ⟦<Buffered<O> as OfSink>⟧.told out.new; err = ⟦<Buffered<E> as OfSink>⟧.told err.new })) }
    ensures untouched { (size : ℕ) → sample_of (map string_bytes words.now) ≡ Some size →
        (files.new ≡ files.old) × (input.new ≡ input.old) }
{
    if let Some(asked) = read_run(words) {
        return Some(run_file(alloc, asked, files, input, out, err));
    }
    if let Some(size) = read_sample(words) {
        return Some(sample(alloc, size, out, err));
    }
    obey(alloc, read_words(words)?, files, input, out, err)
}
