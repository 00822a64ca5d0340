//! What a lexer keeps while it reads, and the reading of white space, comments and the ends of lines, of words, marks
//! and numbers, and of the openings of literals.
//!
//! Types: [`LexError`], [`Lexer`], [`Mode`], [`Literal`]. Calls: the methods of [`Lexer`], those of [`scan`], of
//! [`trivia`], of [`names`] and of [`signs`].
#![tactic(auto)]

pub mod error;
pub mod mode;
pub mod names;
pub mod outside;
pub mod scan;
pub mod signs;
pub mod state;
pub mod trivia;

pub use error::LexError;
pub use mode::{Literal, Mode};
pub use state::Lexer;
