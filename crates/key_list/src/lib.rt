//! A list that can be a key of a hash table: two are the same where they are as long and their values are the same in
//! turn.
//!
//! Type: [`KeyList`], seen as its list. Calls: `from_slice`, which takes memory, `from_vec`, `into_vec`, `as_slice`.
#![tactic(auto)]

pub mod list;

pub use list::KeyList;
