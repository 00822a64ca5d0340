//! The front, by tokens and texts whose trees and cores are known.
#![tactic(auto)]

#[cfg(test)]
mod ahead;
#[cfg(test)]
mod core_print;
#[cfg(test)]
mod core_tests;
#[cfg(test)]
mod page;
#[cfg(test)]
mod place_tests;
#[cfg(test)]
mod refusal_tests;
#[cfg(test)]
mod rows;
#[cfg(test)]
mod tree_print;
#[cfg(test)]
mod tree_rows;
#[cfg(test)]
mod tree_tests;
