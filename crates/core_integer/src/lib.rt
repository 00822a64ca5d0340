//! The methods of Integer (ISO/IEC 30170:2012, 15.2.8): one arm a row, over the functions on numbers of rb_integer.
//!
//! Call: [`give`].
#![tactic(auto)]

pub mod answers;
pub mod rows;

pub use core_rows;
pub use rows::give;
