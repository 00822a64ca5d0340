//! What the core methods of Integer, and of Range over Integers and one-byte Strings, give on plain numbers: pure
//! functions over `i64` and bytes, each equal to a definition over the unbounded integers in specs/. Integers have 64
//! bits, and an exact result that has more is a failure. A method that gives its receiver (`+@`, `to_i`, `ord`) has no
//! function here.
//!
//! Types: [`IntegerFailure`], [`ExceptionClass`], [`Text`], [`Ends`] with [`Bounds`] and [`Item`].
//! Calls: those of [`arithmetic`], [`division`], [`bits`], [`comparison`] and [`numeral`], and of the types.
//! Laws: [`laws_of_powers`], [`laws_of_division`], [`laws_of_numerals`], [`laws_of_ranges`].
#![tactic(auto)]

pub mod arithmetic;
pub mod bits;
pub mod comparison;
pub mod division;
pub mod ends;
pub mod failure;
mod laws;
pub mod numeral;
pub mod text;

pub use arithmetic::laws_of_powers;
pub use division::laws_of_division;
pub use ends::{Bounds, Ends, Item};
pub use failure::{ExceptionClass, IntegerFailure};
pub use laws::laws_of_ranges;
pub use numeral::laws_of_numerals;
pub use text::Text;
