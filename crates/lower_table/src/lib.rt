//! The rows of the table of lowering (docs/core.md), each over what lowers the trees in it. What the core of a tree is
//! stands in specs/: Lowering (the table) and Parts (what is read off nodes).
#![tactic(auto)]

pub mod asked;
pub mod branches;
pub mod calls;
pub mod clauses;
pub mod definitions;
mod form;
pub mod functions;
pub mod jumps;
pub mod lists;
pub mod lower;
pub mod operated;
pub mod operators;
pub mod places;
pub mod stores;
pub mod target;
pub mod texts;

pub use lower::Lower;
