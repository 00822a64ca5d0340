//! What the core methods of String, and those of Symbol on names, give on plain bytes: pure functions over slices, each equal to a definition over
//! lists in specs/. Lengths and indexes count bytes. Where the result is a text that may be longer than the receiver
//! and has more than 2^28 bytes, it is a failure. A method that gives its receiver, or that only asks for its length,
//! has no function here.
//!
//! A function that makes bytes is passed the allocator. Its outer `Err` is want of memory, of which no contract speaks;
//! its inner one is what the method raises.
//!
//! Types: [`StringFailure`], [`ExceptionClass`], [`Text`], [`Part`].
//! Calls: those of [`comparison`], [`slicing`], [`editing`], [`letters`], [`stripping`], [`searching`],
//! [`substitution`], [`splitting`], [`padding`], [`numeral`], [`inspection`] and [`symbols`], and of the types.
//! Law: [`laws_of_parts`].
#![tactic(auto)]

pub mod comparison;
pub mod editing;
pub mod failure;
pub mod inspection;
mod laws;
pub mod letters;
mod making;
pub mod numeral;
pub mod padding;
pub mod part;
pub mod searching;
pub mod slicing;
pub mod splitting;
pub mod stripping;
pub mod substitution;
pub mod symbols;
pub mod text;

pub use failure::{ExceptionClass, StringFailure};
pub use laws::laws_of_parts;
pub use making::GREATEST_LENGTH;
pub use part::Part;
pub use text::Text;
