//! Definitions of the store of objects: classes and their ancestors, where a method is found, how arguments are
//! bound, the texts of errors, and when a store is sound. There is no code that runs here.
//!
//! Types: [`Found`], [`BindKind`], [`Bound`], [`Cause`]. Law: [`laws_of_keys`].
#![tactic(auto)]

pub mod bound;
pub mod cause;
pub mod found;
pub mod laws;

pub use bound::{BindKind, Bound};
pub use cause::Cause;
pub use found::Found;
pub use laws::laws_of_keys;
