//! The program: what its words say is done, and told.
ghost use Rattle.std.specs.Prelude.{◌≡◌, ◌≢◌, [], map, string_bytes};
ghost use Rattle.rite_tool.specs.Words.{command_of};
ghost use Rattle.rite_tool.specs.Asked.{command_meant};
ghost use Rattle.rite_tool.specs.Reporting.{IsSilent};
ghost use Rattle.rite_tool.specs.Told.{Told};
ghost use Rattle.rite_tool.specs.Answer.{Answers, Does, Reports};

use crate::building::build;
use crate::end::End;
use crate::exec::exec;
use crate::report::Report;
use crate::showing::{info, list};
use crate::told::{OfSink, OfSource};
use crate::words::{Command, read_words};
use file_maker::OfFiles;
use rb_base::{Buffered, Files, Sink, Source};
use std::alloc::Global;

/// Does what the words say, over these files and streams. What is written is sent on before the answer is given, that
/// of the output before that of the error stream.
pub fn rite<F: Files, S: Source, O: Sink + Drop, E: Sink + Drop>(
    alloc: Global,
    words: &Vec<String>,
    files: &mut F,
    input: &mut S,
    out: &mut Buffered<O>,
    err: &mut Buffered<E>,
) -> End
    requires { out.old.pending ≡ [] }
    // What came out has its cause, and files and streams then hold what it says.
    ensures answers { Answers
        (command_of (map string_bytes words.now.items))
        (record {
          disk = ⟦<F as OfFiles>⟧.told files.old;
          input = ⟦<S as OfSource>⟧.told input.old;
          out = ⟦<Buffered<O> as OfSink>⟧.told out.old;
          err = ⟦<Buffered<E> as OfSink>⟧.told err.old;
        })
        (record {
          disk = ⟦<F as OfFiles>⟧.told files.new;
          input = ⟦<S as OfSource>⟧.told input.new;
          out = ⟦<Buffered<O> as OfSink>⟧.told out.new;
          err = ⟦<Buffered<E> as OfSink>⟧.told err.new;
        })
        result }
    // But for an output fault nothing is held back.
    ensures sent { result ≢ End.OutputFault → (out.new.pending ≡ []) × (err.new.pending ≡ []) }
{
    let report = perform(alloc, words, files, out);
    report.sent(out).answer(err)
}

// Does what the words say, and tells nothing of it.
fn perform<F: Files, O: Sink>(alloc: Global, words: &[String], files: &mut F, out: &mut O) -> Report
    ensures reports { Reports (command_of (map string_bytes words.now))
        (⟦<F as OfFiles>⟧.told files.old) (⟦<F as OfFiles>⟧.told files.new)
        (⟦<O as OfSink>⟧.told out.old) (⟦<O as OfSink>⟧.told out.new) result }
    ensures untouched { IsSilent result → out.new ≡ out.old }
{
    match read_words(words) {
        Some(command) => obey(alloc, command, files, out),
        None => Report::Usage,
    }
}

fn obey<F: Files, O: Sink>(
    alloc: Global,
    command: Command<'_>,
    files: &mut F,
    out: &mut O,
) -> Report
    ensures does { Does (command_meant command.entry)
        (⟦<F as OfFiles>⟧.told files.old) (⟦<F as OfFiles>⟧.told files.new)
        (⟦<O as OfSink>⟧.told out.old) (⟦<O as OfSink>⟧.told out.new) result }
    ensures untouched { IsSilent result → out.new ≡ out.old }
{
    match command {
        Command::Build { source, file } => Report::of_build(build(alloc, files, source, file)),
        Command::Exec {
            steps,
            source,
            file,
        } => Report::of_exec(steps, exec(alloc, files, out, steps, source, file)),
        Command::List { file } => Report::of_show(list(alloc, files, out, file)),
        Command::Info { file } => Report::of_show(info(alloc, files, out, file)),
    }
}
