//! The look-up of methods and the binding of arguments, by calls with what CRuby gives.
#![tactic(auto)]

#[cfg(test)]
mod binding;
#[cfg(test)]
mod finding;
#[cfg(test)]
mod permission;
