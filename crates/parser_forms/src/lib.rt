//! What every rule of the grammar stands on, and the rules of what stands in brackets, of literals, of parameters and of
//! definitions.
//!
//! A rule reads by [`Read`], and holds within itself the rules a level deeper, [`Inner`]. It is generic over these, so no
//! rule calls itself, and each is proved by itself.
//!
//! Trait: [`Inner`]. Type: [`Read`]. Calls: those of the modules [`literal`], [`bracket`], [`parameter`] and
//! [`definition`].
#![tactic(auto)]

pub mod bracket;
pub mod definition;
pub mod literal;
pub mod parameter;
pub mod read;

pub use read::{Inner, Read};
