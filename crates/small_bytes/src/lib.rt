//! Texts of bytes of which the short ones stand within the value that holds them, and the longer ones apart.
//!
//! Types: [`SmallBytes`], of which up to [`MOST`] bytes stand within, in a [`FewBytes`]. Both are seen as their list.
//! Calls: `new`, `from_vec`, `from_slice`, `as_slice`, `append`. Those of them that answer an error take memory where the
//! text doesn't stand within.
#![tactic(auto)]

pub mod bytes;
pub mod few;

pub use bytes::SmallBytes;
pub use few::{FewBytes, MOST};
