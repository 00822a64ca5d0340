//! The methods of Symbol, nil, true and false (ISO/IEC 30170:2012, 15.2.4 to 15.2.6 and 15.2.11): one arm a row.
//!
//! Calls: [`give`] of a Symbol, [`nil_gives`], [`true_gives`], [`false_gives`].
#![tactic(auto)]

pub mod symbols;
pub mod truths;

pub use symbols::give;
pub use truths::{false_gives, nil_gives, true_gives};
