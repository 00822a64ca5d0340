//! The core methods of Object and Kernel, Proc, Symbol, Exception and Fiber, and `new` of Enumerator, that call nothing
//! back and write nothing.
//!
//! Type: [`ObjectRow`]. Calls: [`rows_of`], [`call`]; [`proc_of_symbol`], [`inspection`].
#![tactic(auto)]

pub mod calling;
mod enumerators;
pub mod exceptions;
mod fibers;
pub mod giving;
mod identity;
mod kernel;
mod objects;
pub mod procs;
pub mod row;
mod texts;
mod variables;

pub use calling::call;
pub use core_calls;
pub use exceptions::inspection;
pub use procs::proc_of_symbol;
pub use row::{ObjectRow, rows_of};
