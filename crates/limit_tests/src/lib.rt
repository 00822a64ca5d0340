//! Sources at the limits of the counts of a program, and one past them.
#![tactic(auto)]

#[cfg(test)]
mod limits;
