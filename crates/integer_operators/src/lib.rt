//! Operators on two Integers straight on: what the rows of Integer give for them, where that is no failure and takes no
//! memory.
//!
//! Type: [`Operator`], those with an instruction of their own. Calls: [`operated`], [`number_of`] and [`holds`] by an operator,
//! [`computed`] and [`computed_by`] by the number of a row.
#![tactic(auto)]

pub mod numbers;
pub mod operator;
pub mod rows;

pub use numbers::{holds, number_of, operated};
pub use operator::Operator;
pub use rows::{computed, computed_by};
