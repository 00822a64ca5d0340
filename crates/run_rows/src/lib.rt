//! The core methods by their numbers: which row a number is, and the heap in which a program starts.
//!
//! The number of a row is 256 times its segment and its place there. The rows of the table come first, then those of
//! each crate of rows, one behind another.
//!
//! Types: [`Row`], [`PlainRow`], [`StarRow`], [`KernelRow`], [`VisitRow`]. Calls: [`row_at`], [`call_plain`],
//! [`call_of_table`], [`call_at_once`], [`opening_heap`]. Straight on: [`read_alone`]. Numbers:
//! [`METHOD_MISSING_ROW`], [`SEND_KEPT_ROW`]. Law: [`laws_of_opening`].
#![tactic(auto)]

pub mod calling;
pub mod laws;
pub mod naming;
pub mod numbering;
pub mod opening;
pub mod row;
pub mod straight;

pub use calling::{call_at_once, call_of_table, call_plain};
pub use iter_items::core_calls::hidden::SEND_KEPT_ROW;
pub use laws::laws_of_opening;
pub use numbering::{METHOD_MISSING_ROW, row_at};
pub use opening::opening_heap;
pub use row::{KernelRow, PlainRow, Row, StarRow, VisitRow};
pub use straight::read_alone;

#[cfg(test)]
mod tests;

pub use iter_items;
pub use iter_items::{core_calls, heap};
pub use row_table;
pub use rows_array;
pub use rows_class;
pub use rows_hash;
pub use rows_object;
pub use straight_rows;
