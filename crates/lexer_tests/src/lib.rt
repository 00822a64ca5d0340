//! The lexer, by texts whose tokens are known.
#![tactic(auto)]

#[cfg(test)]
mod depths;
#[cfg(test)]
mod heredocs;
#[cfg(test)]
mod literals;
#[cfg(test)]
mod tables;
#[cfg(test)]
mod tokens;
