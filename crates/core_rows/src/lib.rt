//! How a core method is called, whatever it gives: its arguments are checked by its [`Signature`](row_table::Signature),
//! it gives an [`Answer`] over plain operands, and the answer becomes an outcome and a store.
//!
//! Call: [`call`], for each [`Row`]. Its parts: [`check`]; the [`operands`]; [`finish`]. Each operand is total: a value that
//! isn't of the kind reads as 0 or as empty, since the check comes first. So no row has a condition on the store.
#![tactic(auto)]

pub mod calling;
pub mod checking;
pub mod finishing;
pub mod making;
pub mod operands;

pub use calling::{Row, call};
pub use checking::check;
pub use finishing::finish;
