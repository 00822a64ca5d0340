//! Fibers: which one runs, and who resumed it. Each has a line of levels, of its own number.
//!
//! Types: [`Fibers`], [`Resumed`]. Calls: those of [`Fibers`].
#![tactic(auto)]

pub mod fibers;

pub use fibers::{Fibers, Resumed};
pub use vm_unwind;
pub use vm_unwind::{core_calls, core_iter, heap, run_calls, run_rows, vm_frames};
