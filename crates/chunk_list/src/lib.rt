//! A list in chunks of one size, so that what it holds stays where it lies while the list grows.
//!
//! Type: [`ChunkList`], seen as its list. Calls: `new`, `len`, `get`, `get_mut`, `push`, `append`, `truncate`. Only `push`
//! and `append` take memory.
#![tactic(auto)]

mod chunks;
pub mod list;

pub use list::ChunkList;
