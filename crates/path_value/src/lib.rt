//! Values, and what a core method gives or raises.
//!
//! Types: [`Value`], [`CoreClass`], [`Failure`].
#![tactic(auto)]

pub mod failure;
pub mod value;

pub use failure::{CoreClass, Failure};
pub use value::Value;
