//! The methods of Integer and Range on plain numbers and over a store, by calls whose results are known.
#![tactic(auto)]

#[cfg(test)]
mod calls;
#[cfg(test)]
mod plain;
