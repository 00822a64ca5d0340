//! The program over files and streams in memory.
#![tactic(auto)]

#[cfg(test)]
mod file_tests;
#[cfg(test)]
mod sample_tests;
#[cfg(test)]
mod tests;
#[cfg(test)]
mod trial;
