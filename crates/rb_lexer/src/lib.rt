//! The tokens of a text, and how deep they are.
//!
//! Types: [`LexError`]. Calls: [`lex`], [`depth`].
#![tactic(auto)]

pub mod code;
pub mod heads;
pub mod lexer;
pub mod reach;
pub mod strings;

pub use lexer::lex;
pub use lexer_depth::depth;
pub use lexer_steps::LexError;
