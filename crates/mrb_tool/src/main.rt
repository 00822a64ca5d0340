//! The program `rite`.
#![tactic(auto)]

use kept_files::KeptFiles;
use rb_base::{Buffered, DiskFiles, StdSink, StdSource};
use rite_tool::{Report, Stop, play, rite};
use std::env;
use std::io::ErrorKind;
use std::process::ExitCode;

fn main(rt: HostRuntime) -> ExitCode {
    let mut err = Buffered::new(StdSink::new(rt.stderr()));
    let end = match given_words(&rt) {
        Ok(words) => {
            let alloc = rt.alloc();
            // Both calls read the source.
            let mut files = KeptFiles::new(DiskFiles::new(&rt));
            let mut input = StdSource::new(rt.stdin());
            let mut out = Buffered::new(StdSink::new(rt.stdout()));
            match play(alloc, &words, &mut files, &mut input, &mut out, &mut err) {
                Some(end) => end,
                // Nothing was written yet.
                None => rite(
                    alloc,
                    &words,
                    &mut files,
                    &mut input,
                    &mut Buffered::new(StdSink::new(rt.stdout())),
                    &mut err,
                ),
            }
        }
        Err(report) => report.answer(&mut err),
    };
    ExitCode::from(end.status())
}

// The words after the program's name. Words that are no text are no command.
fn given_words(rt: &HostRuntime) -> Result<Vec<String>, Report> {
    let mut args = match env::args(rt) {
        Ok(args) => args,
        Err(error) if error.kind() == ErrorKind::OutOfMemory => {
            return Err(Report::Stopped(Stop::NoMemory));
        }
        Err(_) => return Err(Report::Usage),
    };
    let _program = args.next();
    match args.collect(rt.alloc()) {
        Ok(words) => Ok(words),
        Err(_) => Err(Report::Stopped(Stop::NoMemory)),
    }
}
