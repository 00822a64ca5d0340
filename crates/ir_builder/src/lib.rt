//! Cores that are built from their parts. What they are stands in ir_core's specs/Forms.antt and in specs/Forms.antt.
//!
//! Calls, all of which take memory: leaves and variables in [`leaf`], calls in [`calls`], branches, statements and
//! clauses in [`control`], and hidden locals in [`hidden`].
#![tactic(auto)]

pub mod calls;
pub mod control;
pub mod hidden;
pub mod leaf;
