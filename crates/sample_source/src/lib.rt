//! The source of a sample program, for trying the whole way from a source to its output.
//!
//! Call: [`sample_source`].
#![tactic(auto)]

mod lines;

pub use lines::{LARGEST, sample_source};
