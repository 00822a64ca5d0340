//! Iterations of the core by themselves, by what their blocks are called with and how they end.
#![tactic(auto)]

#[cfg(test)]
mod iterations;
