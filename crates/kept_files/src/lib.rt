//! Files of the system of which the one that was read last is kept, so that a source that can be read once only, as a
//! pipe, is read once.
//!
//! Type: [`KeptFiles`]. Calls: `new`, and those of `Files`.
#![tactic(auto)]

pub mod files;

pub use files::KeptFiles;

#[cfg(test)]
mod tests;
