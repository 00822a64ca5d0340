//! How deep the tokens of a text are.
//!
//! Call: [`depth`]. It takes no memory.
#![tactic(auto)]

pub mod effect;
pub mod fold;
pub mod level;
pub mod stack;

pub use fold::depth;
