//! Walks over a core: how many registers it takes, and what is met on the way.
//!
//! **Width.** How many registers a core takes from its lowest one on (specs/Width.antt). A count that passes 2^64 - 1,
//! which no memory can hold the core of, is answered as if memory had run out.
//!
//! **Walk.** What is met on a walk over a core, in order (specs/Walk.antt; specs/Steps.antt says how the steps show it). A
//! core belongs to the innermost body around it: the main program, a function, or what stands in a class or module. An
//! [`Extent`] says whether the walk goes into the bodies within.
//!
//! Traits: [`Measured`] and [`Walked`], of a [`Term`](ir_core::Term). Types: [`Step`] and [`Extent`]. Calls:
//! [`has_splat`], and the sums of counts in [`sums`].
#![tactic(auto)]

pub mod extent;
mod measured;
mod splat;
pub mod step;
pub mod sums;
mod trail;
mod walk_forms;
mod walk_parts;
mod walked;
mod walking;
mod width;
mod width_forms;
mod width_parts;

pub use extent::Extent;
pub use measured::Measured;
pub use splat::has_splat;
pub use step::Step;
pub use walked::Walked;
