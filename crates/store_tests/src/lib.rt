//! The store, by changes in place of its objects beside plain lists.
#![tactic(auto)]

#[cfg(test)]
mod elements;
#[cfg(test)]
mod facts;
#[cfg(test)]
mod pairs;
#[cfg(test)]
mod sorts;
#[cfg(test)]
mod texts;
#[cfg(test)]
mod values;
