//! The machine at work: small programs whose output is known.
#![tactic(auto)]

#[cfg(test)]
mod assembler;
#[cfg(test)]
mod bodies;
#[cfg(test)]
mod control;
#[cfg(test)]
mod plain;
