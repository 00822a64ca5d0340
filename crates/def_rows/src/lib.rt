//! What each core method gives, by its row: equations on values of a store, and how the call of a row is refused or
//! becomes an outcome and a store. There is no code that runs here.
//!
//! Type: [`Answer`].
#![tactic(auto)]

pub mod answer;

pub use answer::Answer;
