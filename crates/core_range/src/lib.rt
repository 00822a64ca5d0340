//! The methods of Range (ISO/IEC 30170:2012, 15.2.14): one arm a row, over the functions on ends of rb_integer.
//!
//! Calls: [`give`], [`new_range`], [`range_of`].
#![tactic(auto)]

mod ends;
mod inspection;
mod items;
mod making;
pub mod rows;

pub use core_integer;
pub use ends::range_of;
pub use making::new_range;
pub use rows::give;
