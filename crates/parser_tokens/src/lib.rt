//! What a parser of the grammar asks of the tokens in front of it (ISO/IEC 30170:2012, 8.7, 11 and 12): the word at the
//! front, the tables of operators with their levels, which words begin or end what, and which must stand there.
//!
//! Types: [`word::Word`], [`operators::Infix`] and its kin, [`expect::Wanted`], [`failure::Failure`]. Calls: those of the
//! modules.
#![tactic(auto)]

pub mod expect;
pub mod failure;
pub mod operators;
pub mod starts;
pub mod tokens;
pub mod word;
