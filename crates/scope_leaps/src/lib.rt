//! The scope that is many levels out, in few steps: each body knows one further out, at a distance that grows as the
//! bodies stand deeper.
//!
//! Types: [`Leap`], [`Scopes`]. Calls: [`leaps`] and [`scope_out`].
#![tactic(auto)]

pub mod finding;
pub mod leap;
pub mod scopes;

pub use finding::scope_out;
pub use leap::{Leap, leaps};
pub use scopes::Scopes;
