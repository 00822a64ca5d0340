//! Where an exit goes: to the handler that takes it, to the level that it is for, or past the last level of a fiber.
//! The levels that it leaves are left on the way.
//!
//! Type: [`Landing`]. Calls: [`handler`], [`leave`], [`unwind`].
#![tactic(auto)]

pub mod handlers;
pub mod unwinding;

pub use handlers::handler;
pub use unwinding::{Landing, leave, unwind};
pub use vm_frames;
pub use vm_frames::{core_calls, core_iter, heap, run_calls, run_rows};
