//! The core methods of Integer.
//!
//! Types: [`Outcome`], [`Line`]. Call: [`call`].
#![tactic(auto)]

pub mod line;
pub mod outcome;

pub use line::Line;
pub use outcome::{Outcome, call};

#[cfg(test)]
mod tests;
