//! What a rule of the grammar asks before it reads (ISO/IEC 30170:2012, 11 to 13): the names that are known as locals;
//! what a primary, a phrase, a part of a list and a target begin with; whom a `do` belongs to; which section of a
//! compound form may follow which.
//!
//! Types: [`names::Names`], [`primary::Primary`], [`primary::Start`], [`primary::Place`], [`primary::DoOwner`],
//! [`sections::Compound`], [`sections::SectionKind`], [`groups::TargetUse`]. Calls: those of the modules.
#![tactic(auto)]

pub mod groups;
pub mod names;
pub mod primary;
pub mod sections;
