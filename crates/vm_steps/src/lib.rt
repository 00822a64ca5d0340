//! Instructions of the frame in hand that aren't plain and call no method by a name: variables and constants, collections,
//! definitions, Procs, parameters and exits; each family has a module.
#![tactic(auto)]

pub mod collections;
pub mod definitions;
pub mod leaving;
pub mod parameters;
pub mod procs;
pub mod variables;
