//! The core methods that ask the values that they compare or show for `==`, `<=>`, `to_s` or `inspect`, and those of
//! Comparable: each is an iteration, which tells what it wants next, and goes on with the answer.
//!
//! Types: [`ComparingRow`], [`OrderRow`], [`ComparingState`]. Calls: [`start`], [`next`]; for other iterations
//! [`outright`], [`pairs_of`].
#![tactic(auto)]

mod asking;
mod comparing;
mod equating;
mod fetching;
mod joining;
mod keyed;
mod ordering;
mod pairing;
mod questions;
mod removing;
mod repeating;
pub mod row;
mod searching;
mod showing;
mod sifting;
pub mod state;
pub mod text;

pub use asking::outright;
pub use comparing::{next, start};
pub use equating::pairs_of;
pub use row::{ComparingRow, OrderRow};
pub use state::ComparingState;
