//! What a call of the program `rite` does, over any files and streams.
//!
//! Types: [`End`], [`Report`], [`Stop`]. Calls: [`play`], for the second path; [`rite`], for the first; [`check`].
#![tactic(auto)]

mod building;
mod commands;
mod end;
mod exec;
mod general;
mod played;
mod report;
mod sampling;
mod sending;
mod showing;
mod stop;
mod texts;
mod told;
mod words;

pub use building::check;
pub use commands::rite;
pub use end::End;
pub use general::play;
pub use report::Report;
pub use stop::Stop;
pub use told::{OfSink, OfSource};
