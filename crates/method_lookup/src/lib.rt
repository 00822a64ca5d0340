//! Where a method is found, who may call it, how its arguments are bound, and the cache of the search.
//!
//! Type: [`Cache`]. Calls: [`find`], [`find_super`], [`allowed`], [`bind`], [`new_cache`], [`find_cached`].
//! Each call wants a sound store and numbers of it, and `bind` alone changes it. A cache goes with the store through
//! every call that counts its changes (proofs/Goes.antt).
#![tactic(auto)]

pub mod binding;
pub mod cache;
mod counted;
mod given;
pub mod permission;
pub mod super_search;

pub use binding::bind;
pub use cache::{Cache, find_cached, new_cache};
pub use class_model::find;
pub use permission::allowed;
pub use super_search::find_super;
