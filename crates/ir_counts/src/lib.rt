//! The counts of each body of a core program, by which a source with too much of something is refused before its
//! code is generated. A body is the main program, a function, or what stands in a class or module; a form belongs
//! to the innermost body around it.
//!
//! [`first_past_limit`] gives the first count that exceeds its limit. What is counted is said in
//! specs/Counts.antt (a body), specs/Tables.antt (what a form adds), ir_walk's specs/Width.antt (registers of a
//! form), specs/Bodies.antt (the order of bodies) and specs/Limits.antt.
//!
//! A walk (of ir_walk) notes the forms of a body in a list; each count is then a loop over that list.
#![tactic(auto)]

mod bodies;
mod counts;
mod excess;
mod facts;
mod names;
mod shares;
mod tally;

pub use counts::form_tally;
pub use excess::{Excess, first_past_limit};
pub use tally::Tally;

#[cfg(test)]
mod tests;
