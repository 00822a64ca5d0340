//! What the core methods beyond the table of rows share: a call, the checks of its arguments, the elements of nested
//! Arrays, the plans of methods that call others, and the numbers of the hidden rows.
//!
//! Types: [`Call`], [`Plan`], [`Beat`] with [`Passed`]. Checks: [`miscounted`], [`argument`], [`integer`], [`name_in`].
//! Nested Arrays: [`flattened`] by [`Empty`].
#![tactic(auto)]

pub mod beat;
pub mod call;
pub mod checks;
pub mod flattening;
pub mod hidden;
pub mod plan;

pub use beat::{Beat, Passed};
pub use call::Call;
pub use checks::{argument, integer, miscounted, name_in};
pub use flattening::{Empty, flattened};
pub use heap;
pub use plan::Plan;
