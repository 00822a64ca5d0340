//! Different integers, in the order in which they were added.
//!
//! Type: [`IntegerSet`].
#![tactic(auto)]

pub mod integer_set;

pub use integer_set::IntegerSet;
