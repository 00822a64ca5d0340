//! The core methods that call others, read, write, or move between fibers: each is an iteration, which tells what it
//! wants next, and goes on with the answer.
//!
//! Types: [`Iteration`]; the plans are those of core_calls. Calls: [`start`], [`next`], [`beat`],
//! [`caught`].
#![tactic(auto)]

pub mod counting;
pub mod filling;
pub mod iteration;
pub mod lifting;
pub mod making;
pub mod pairs;
pub mod planning;
pub mod raising;
pub mod sending;
pub mod strings;
pub mod telling;
pub mod visiting;
pub mod writing;

pub use iteration::{Iteration, Rest};
pub use planning::{beat, caught, next, start};
pub use run_rows;
pub use run_rows::{core_calls, heap};
