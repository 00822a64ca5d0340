//! The parts of which the code of a body is put together: lines, which are instructions whose jumps name the lines that
//! they lead to, entries of its catch table, and the bodies that its instructions make; and the body of a file that
//! they become (docs/formats.md).
//!
//! An [`Emitter`] takes the lines of a body one after the other. Where a jump leads is often known only later: it is
//! put down with [`Emitter::hold`], and [`Emitter::land`] says where it leads.
//!
//! Types: [`Line`], [`Catch`], [`Emitter`], [`Spot`], [`Held`], [`Head`], [`Bodies`]. Call: [`assemble`].
#![tactic(auto)]

pub mod assembling;
pub mod emitter;
pub mod line;
pub mod places;

pub use assembling::{Bodies, Head, assemble};
pub use emitter::{Emitter, Held, Spot};
pub use line::{Catch, Line};
