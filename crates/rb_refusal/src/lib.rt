//! Why a text or a file is refused, as one type, and what is told of it.
//!
//! Type: [`Refusal`]. Calls: [`refusal_text`], and [`write_pieces`] and [`write_text`], which write a text whole or up
//! to the first call that fails. None of them takes memory.
#![tactic(auto)]

pub mod pieces;
pub mod refusal;
pub mod refusal_texts;

pub use pieces::{write_pieces, write_text};
pub use refusal::Refusal;
pub use refusal_texts::{refusal_text, visible_name};
