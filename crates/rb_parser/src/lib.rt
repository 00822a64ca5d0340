//! The parser of the whole language: from tokens to a tree of the grammar (docs/language.md).
//!
//! Type: [`ParseError`]. Calls: [`parse`], and [`derive`], which lets a word stand anywhere.
#![tactic(auto)]

pub mod error;
pub mod level;
pub mod parser;
pub mod place;

pub use error::ParseError;
pub use parser::{derive, parse};
