//! What the machine keeps beside the level that runs, and what every turn ends with: a register gets a value, a call is
//! entered, a value goes back to the level that waits, or an exit goes to where it lands.
//!
//! All calls are total: code that isn't there ends the program, a register that isn't there reads as nil.
//!
//! Types: [`Parts`], [`Loaded`], [`Superinstruction`], [`CoreCall`], [`Operators`], [`Names`], [`KnownCalls`],
//! [`KnownConstants`]; [`Flow`], [`Step`], [`End`], [`Handed`]. Calls: modules [`exits`], [`entering`], [`arguments`].
//! Law: [`laws_of_known_calls`].
#![tactic(auto)]

pub mod arguments;
pub mod changing;
pub mod constants;
pub mod entering;
pub mod exits;
pub mod flow;
pub mod known;
pub mod laws;
pub mod loaded;
pub mod names;
pub mod operators;
pub mod parts;
pub mod quick_calls;
pub mod superinstruction;

pub use constants::KnownConstants;
pub use fiber_switch;
pub use fiber_switch::{core_calls, core_iter, heap, run_calls, run_rows, vm_frames, vm_unwind};
pub use flow::{End, Flow, Handed, Step};
pub use integer_operators;
pub use known::{KnownCalls, MethodBody, Usual};
pub use laws::laws_of_known_calls;
pub use loaded::Loaded;
pub use names::Names;
pub use operators::Operators;
pub use parts::{Parts, behind, put, step};
pub use quick_calls::CoreCall;
pub use superinstruction::Superinstruction;
