//! What a file holds, as text.
//!
//! Type: [`InfoFault`]. Calls: [`list`], [`info`], and [`write_inspected`], which writes a text between quotes. None of
//! them takes memory.
#![tactic(auto)]

pub mod bodies;
pub mod info_fault;
pub mod informing;
pub mod inspecting;
pub mod instructions;
pub mod line;

pub use bodies::list;
pub use info_fault::InfoFault;
pub use informing::info;
pub use inspecting::write_inspected;
