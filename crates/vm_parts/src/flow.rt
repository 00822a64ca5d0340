//! How a run goes on.
use rb_value::{ObjId, Value};

/// How a program ended: with a status, or by an exception that nothing rescued.
#[derive(Clone, Copy, Debug, PartialEq, Eq)]
pub enum End {
    Ended(u8),
    Uncaught(ObjId),
}

/// What comes next: the frame in hand goes on, or the innermost level that waits, or the program has ended, as the parts
/// of the machine tell. It has no fields, since every instruction gives one.
#[derive(Clone, Copy, Debug, PartialEq, Eq)]
pub enum Flow {
    Stays,
    Wakes,
    Ends,
}

/// What comes after a turn: a level runs or the program has ended; or the iteration that is the innermost level that
/// waits writes, or reads a line, and goes on then.
#[derive(Drop)]
pub enum Step {
    Goes(Flow),
    Writes(Vec<u8>),
    Reads,
}

/// What a level that waits is given: a value, or an exception that is raised there.
#[derive(Clone, Copy, Debug)]
pub enum Handed {
    Value(Value),
    Exception(ObjId),
}
