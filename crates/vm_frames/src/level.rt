//! Levels.

use crate::arguments::Arguments;
use crate::frame::Frame;
use rb_value::{ObjId, Value};
use run_calls::core_iter::Iteration;
use run_calls::run_rows::StarRow;

/// An iteration: the number of its activation, where it stands, and the answer that it goes on with.
#[derive(Drop)]
pub struct Iterating {
    pub number: u64,
    pub state: Iteration,
    pub answer: Value,
}

/// An iteration that begins: the number of its activation, its row, the receiver, the arguments and the block.
#[derive(Clone, Copy, Debug)]
pub struct Begun {
    pub number: u64,
    pub row: StarRow,
    pub receiver: Value,
    pub arguments: Arguments,
    pub block: Option<ObjId>,
}

/// A frame or an iteration.
#[derive(Drop)]
pub enum Level {
    Frame(Frame),
    Iteration(Iterating),
}
