//! A list that is cheap to shorten and to lengthen at both ends, and whose values lie side by side.
//!
//! Type: [`Queue`], seen as its list. Calls: `new`, `from_vec`, `into_vec`, `as_slice`, `len`, `is_empty`, `set`,
//! `push`, `append`, `pop`, `shift`, `unshift`. Those of them that answer an error take memory.
#![tactic(auto)]

pub mod queue;

pub use queue::Queue;
