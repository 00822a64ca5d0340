//! Blocks, stacks, windows and environments of registers, by calls whose results are known.
#![tactic(auto)]

#[cfg(test)]
mod environments;
#[cfg(test)]
mod pool;
#[cfg(test)]
mod stacks;
