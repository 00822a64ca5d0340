//! The core methods by the numbers of their rows: what each takes stands in row_table, what it gives in the crate of its
//! class, and how it is called in core_rows.
//!
//! Call: [`call`].
#![tactic(auto)]

pub mod methods;

pub use methods::call;
