//! The code of whole sources, as it is listed.
#![tactic(auto)]

#[cfg(test)]
mod body_tests;
#[cfg(test)]
mod form_tests;
#[cfg(test)]
mod listed;
