//! The rules of phrases: commands, assignments, multiple assignments, and values (ISO/IEC 30170:2012, 11.2 to 11.4).
//!
//! Calls: [`phrases::phrase`], [`phrases::argument`], [`targets::targets`].
#![tactic(auto)]

mod commands;
pub mod phrases;
pub mod targets;
