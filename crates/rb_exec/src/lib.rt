//! Sources of all forms of the language, through the generator and the machine, and files of code that are to be run.
//! What is done is proved to be safe, and to end or to run on as long as the program does. The code passes the verifier,
//! and that of a program of plain forms implements its source for every input (specs/Making of file_maker); that the
//! machine makes the turns of its definition isn't proved yet.
//!
//! Types: [`Played`], [`Counts`]. Calls: [`build`], [`exec`], [`run`]; [`run_text`].
#![tactic(auto)]

mod in_memory;
mod playing;
mod running;

pub use in_memory::run_text;
pub use playing::{build, exec, run};
pub use running::{Counts, Played};
