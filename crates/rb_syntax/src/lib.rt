//! What the front, the generator and the definitions speak of: parts of trees and core forms, the binary operators
//! among the core methods, the constructs that are refused, the counts that have a limit, and tokens.
//!
//! Types: [`Item`], [`Pair`], [`Branch`], [`Parameters`], [`DefinedKind`], [`Operator`], [`Outside`], [`Count`],
//! [`Token`] with [`TokenKind`], [`Keyword`] and [`Punctuator`].
#![tactic(auto)]

pub mod core_form;
pub mod count;
pub mod keyword;
pub mod operator;
pub mod outside;
pub mod punctuator;
pub mod token;

pub use core_form::{Branch, DefinedKind, Item, Pair, Parameters};
pub use count::Count;
pub use keyword::Keyword;
pub use operator::Operator;
pub use outside::Outside;
pub use punctuator::Punctuator;
pub use token::{Token, TokenKind};
