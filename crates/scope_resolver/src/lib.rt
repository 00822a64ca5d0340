//! Where each local of a body stands: the registers of a body's locals, and how many bodies out a local is reached from
//! a form (docs/formats.md, Registers).
//!
//! Register 0 is self. The parameters follow in the order in which arguments are bound to them, then the register of
//! the block, the body's other locals, and its hidden ones. Blocks and lambdas see the locals of the bodies around
//! them, and nothing else does.
//!
//! Types: [`BodyKind`], [`Scope`], [`SlotTable`], [`Place`], [`Search`]. Calls: [`scopes_within`], [`place_of`],
//! [`own_place`], [`slot_count`].
#![tactic(auto)]

pub mod body_kind;
pub mod place;
pub mod registers;
pub mod scope;
pub mod seek;
pub mod sums;
pub mod table;

pub use body_kind::BodyKind;
pub use place::{Place, own_place, place_of};
pub use scope::{Scope, slot_count};
pub use seek::Search;
pub use table::{SlotTable, scopes_within};
