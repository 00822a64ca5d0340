//! Different texts, in the order in which they were added.
//!
//! Types: [`TextSet`] of texts that are lent, [`OwnedTextSet`] of copies.
#![tactic(auto)]

pub mod owned;
pub mod text_set;

pub use owned::OwnedTextSet;
pub use text_set::TextSet;
