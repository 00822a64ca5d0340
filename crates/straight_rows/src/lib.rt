//! What rows of String and Integer give straight on, without a check of what they take: nothing where that isn't as they
//! want it, where they would fail, and of any other row. What is given is what the call of the row gives.
//!
//! Calls: [`read_text`] of rows that only read a String, [`give`] of all.
#![tactic(auto)]

mod comparing;
mod numbers;
mod rows;
mod texts;

pub use comparing::read_text;
pub use rows::give;
