//! The methods of String, Symbol, nil, true and false over a store, by calls whose results are known.
#![tactic(auto)]

#[cfg(test)]
mod calls;
