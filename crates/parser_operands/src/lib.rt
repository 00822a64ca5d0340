//! The rules of operands: primaries with their postfixes, and operators between them (ISO/IEC 30170:2012, 11.3, 11.4 and
//! 11.5).
//!
//! Calls: [`operands::operand`], [`operands::chain`], [`operands::chain_from`], [`operators::operation`],
//! [`operators::value_from`].
#![tactic(auto)]

pub mod operands;
pub mod operators;
