//! The core methods of Module and Class that call nothing back and write nothing.
//!
//! Type: [`ClassRow`]. Calls: [`rows_of`], [`call`]; [`blank_of`], which tells what a new object of a class holds.
#![tactic(auto)]

mod accessors;
pub mod calling;
mod constants;
pub mod making;
mod methods;
mod naming;
pub mod row;
mod spaces;
mod visibility;

pub use calling::call;
pub use making::blank_of;
pub use row::{ClassRow, rows_of};
