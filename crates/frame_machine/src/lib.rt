//! The machine: verified code is run one instruction or one plan a turn.
//!
//! A machine counts its turns. What it reads ahead of the lines that its program took stays for the next ones.
//!
//! Types: [`Machine`], [`Ran`], [`Turn`], [`StepFault`]. Calls: [`start`], and those of [`Machine`].
#![tactic(auto)]

pub mod machine;
mod reading;
mod running;
mod starting;
mod waking;

pub use machine::{Machine, Ran, StepFault, Turn};
pub use starting::start;
