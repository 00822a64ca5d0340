//! A table from keys to values that keeps the order of insertion, seen as the list of its pairs. Up to eight stand in a
//! list that is searched from its front, and more in a hash table, which it stays.
//!
//! Types: [`PairTable`], [`NearHasher`]. Calls: `new`, `len`, `is_empty`, `get`, `place_of`, `pair_at`, `insert`, `remove`, `shift`.
//! Only `insert` takes memory.
#![tactic(auto)]

mod few;
pub mod hasher;
pub mod table;

pub use hasher::NearHasher;
pub use table::PairTable;
