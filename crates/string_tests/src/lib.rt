//! The methods of String on plain bytes, by calls whose results are known: those of CRuby 3.1.
#![tactic(auto)]

#[cfg(test)]
mod editing;
#[cfg(test)]
mod outcomes;
#[cfg(test)]
mod searching;
