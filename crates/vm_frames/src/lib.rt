//! The levels of the fibers: frames that run bodies of code, and iterations.
//!
//! Each fiber has a line: the registers of its frames, one frame's behind those of its caller, and the levels that wait.
//! The arguments of a frame are registers too, those of its caller or some before its own. One line runs. The innermost
//! level of it, which runs, is in the hands of the caller. A list of registers that a block captures has an environment.
//! An exit that a register keeps stands in a table, by the numbers of the list and the register; the register itself
//! holds what it reads as.
//!
//! All calls are total: a register that isn't there reads as nil, and a write to it changes nothing.
//!
//! Types: [`Frame`], [`Iterating`], [`Begun`], [`Level`], [`Arguments`], [`Frames`]. Calls: those of [`Frames`].
#![tactic(auto)]

pub mod arguments;
pub mod blocks;
pub mod capturing;
pub mod exits;
pub mod frame;
pub mod frames;
pub mod level;
pub mod lines;
pub mod registers;
pub mod stack;

pub use arguments::Arguments;
pub use capturing::Around;
pub use frame::Frame;
pub use frames::{Frames, LEVELS};
pub use level::{Begun, Iterating, Level};
pub use run_calls;
pub use run_calls::{core_calls, core_iter, heap, run_rows};
