//! Classes, by definitions as programs make them, with what CRuby gives.
#![tactic(auto)]

#[cfg(test)]
mod calls;
#[cfg(test)]
mod scripts;
