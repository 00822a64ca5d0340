//! Numeric literals and the escapes of string literals.
//!
//! Types: [`Scanned`], [`Number`], [`Tail`], [`Fault`], [`Escape`], [`Escaped`], [`Delimiters`]. Calls:
//! [`integer`], [`numeral`], [`full_escape`], [`plain_escape`], [`word_escape`], [`is_word_space`]. Only
//! [`Escaped::push_to`] takes memory.
#![tactic(auto)]

mod bytes;
pub mod escaped;
pub mod escapes;
pub mod fault;
pub mod integers;
pub mod modified;
pub mod numbers;
pub mod plain_escapes;

pub use escaped::{Escape, Escaped};
pub use fault::Fault;
pub use integers::{Scanned, integer};
pub use modified::full_escape;
pub use numbers::{Number, Tail, numeral};
pub use plain_escapes::{Delimiters, is_word_space, plain_escape, word_escape};
