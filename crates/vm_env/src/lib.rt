//! Environments: the values of a window of registers, which blocks share while the frame stands and afterwards.
//!
//! An environment has one list of values. While it is open, these are the slots of its window in a bank; once it is
//! closed, they stand in room of its own. Environments are seen by number, each open onto its window or closed with its
//! values; windows of open environments on one stack don't meet.
//!
//! Types: [`Envs`], [`EnvId`]. Calls: those of the environments.
#![tactic(auto)]

pub mod envs;

pub use envs::{EnvId, Envs};
