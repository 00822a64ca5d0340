//! The methods of Array, Hash and Range that call no others, by calls whose results are known.
#![tactic(auto)]

#[cfg(test)]
mod calls;
