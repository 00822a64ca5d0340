//! The core methods over items, of Arrays, Hashes, Ranges and Enumerable, with those that compare or show values, and
//! those of Enumerators: each is an iteration, which tells what it wants next, and goes on with the answer.
//!
//! Types: [`ItemsRow`], [`ItemsState`], [`Task`], [`GatheringRow`]. Calls: [`rows_of`], [`start`],
//! [`next`], [`beat`].
#![tactic(auto)]

mod asking;
mod checks;
mod driving;
mod ending;
mod gathering;
mod groups;
mod hearing;
mod items;
mod keyed;
mod lifting;
pub mod row;
mod source;
pub mod state;
pub mod table;
mod visit;
mod wish;

pub use gathering::Gathering;
pub use items::{beat, next, start};
pub use iter_comparing;
pub use row::{GatheringRow, ItemsRow, Task};
pub use rows_items;
pub use rows_items::{core_calls, heap};
pub use state::ItemsState;
pub use table::rows_of;
pub use visit::Visit;
