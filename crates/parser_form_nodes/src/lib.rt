//! What the rules of the grammar build of trees for the larger forms (ISO/IEC 30170:2012, 11.3.3, 11.5.2 and 13): the
//! parameters of methods and blocks, definitions, the targets of assignments, `alias` and `undef`.
//!
//! Types: [`parameters::AnyParameter`], [`definitions::MethodHead`], [`targets::Targets`]. Calls: those of the modules.
#![tactic(auto)]

pub mod definitions;
pub mod parameters;
pub mod sections;
pub mod targets;
