//! The rules of lists, statements and the sections of compound forms (ISO/IEC 30170:2012, 11.3, 11.5 and 12).
//!
//! Calls: [`lists::list`], [`statements::statements`], [`statements::expression`], [`statements::negation`],
//! [`sections::sections`].
#![tactic(auto)]

pub mod lists;
pub mod sections;
pub mod statements;
