//! Iterations of core methods: what their first plan and each next one do in the machine, what is done in the place of a
//! plan, how a method of an Enumerator ends, and how an exception that nothing rescued is asked for its message.
//!
//! Calls: [`begin_by_plan`], [`iterate`], [`answer_read`]; [`begin_in_place`]; [`end_enumerating`]; [`begin_report`].
#![tactic(auto)]

mod enumerating;
mod firsts;
mod in_place;
mod iterating;
mod reporting;

pub use enumerating::end_enumerating;
pub use in_place::begin_in_place;
pub use iterating::{answer_read, begin_by_plan, iterate};
pub use reporting::begin_report;
pub use vm_plain;
