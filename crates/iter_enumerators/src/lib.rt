//! The core methods of Enumerators and Yielders. The source of an Enumerator runs in a fiber of its own, from which it
//! yields an item at a time.
//!
//! Types: [`EnumeratorRow`], [`EnumeratorState`]. Calls: [`start`], [`next`].
#![tactic(auto)]

mod enumerating;
mod items;
pub mod row;
mod sources;
pub mod state;

pub use enumerating::{next, start};
pub use row::EnumeratorRow;
pub use state::EnumeratorState;
