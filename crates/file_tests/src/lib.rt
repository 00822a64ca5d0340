//! Instructions, files, the verifier and the listing, by files whose answers are known.
#![tactic(auto)]

#[cfg(test)]
mod files;
#[cfg(test)]
mod instructions;
#[cfg(test)]
mod listing;
#[cfg(test)]
mod refusals;
#[cfg(test)]
mod verifier;
