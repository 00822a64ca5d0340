//! What a core method gives that knows no store: a plain value, a new text, the symbol of a name, other bytes of the
//! receiver, or a fault. It names no object, so it belongs to every store.
//!
//! Types: [`Plain`], [`Fault`].
#![tactic(auto)]

pub mod answer;

pub use answer::{Fault, Plain};
