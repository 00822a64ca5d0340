//! The methods of String (ISO/IEC 30170:2012, 15.2.10): one arm a row, over the functions on bytes of rb_string.
//!
//! Calls: [`give`], [`new_string`].
#![tactic(auto)]

pub mod answers;
mod elements;
mod making;
mod others;
mod parts;
pub mod rows;

pub use core_range;
pub use making::new_string;
pub use rows::give;
