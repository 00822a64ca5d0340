//! The tables of the front: classes of bytes, keywords by their spelling, marks by longest match, and what a
//! token says of the one after it.
//!
//! Types: [`Mark`], [`Context`]. Calls: those of [`bytes`], [`keyword_of`], [`mark_of`], [`operator_name`], and
//! the methods of [`Context`].
#![tactic(auto)]

pub mod bytes;
pub mod context;
pub mod keywords;
pub mod marks;

pub use context::{Context, after_keyword};
pub use keywords::keyword_of;
pub use marks::{Mark, mark_of, operator_name};
