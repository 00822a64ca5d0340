//! The bodies of heredocs.
//!
//! Types: [`Head`], [`Bodies`]. Call: [`bodies`].
#![tactic(auto)]

pub mod heredoc;
mod line;
pub mod search;

pub use heredoc::{Bodies, Head};
pub use search::bodies;
