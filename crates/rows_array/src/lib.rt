//! The core methods of Array (ISO/IEC 30170:2012, 15.2.12) that call no others, but for those of its items in general.
//!
//! Rows: [`ArrayRow`], [`rows_of`], [`call`], [`give_directly`], [`read_alone`].
#![tactic(auto)]

mod arranging;
mod changing;
pub mod direct;
mod ending;
mod flattening;
mod places;
mod reading;
pub mod rows;
mod storing;

pub use direct::{give_directly, read_alone};
pub use rows::{ArrayRow, call, rows_of};
