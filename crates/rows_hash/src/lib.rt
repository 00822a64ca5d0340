//! The core methods of Hash (ISO/IEC 30170:2012, 15.2.13) that call no others, but for those of its items in general.
//!
//! Rows: [`HashRow`], [`rows_of`], [`call`], [`give_directly`], [`read_alone`].
#![tactic(auto)]

mod direct;
mod pairs;
pub mod rows;

pub use direct::{give_directly, read_alone};
pub use rows::{HashRow, call, rows_of};
