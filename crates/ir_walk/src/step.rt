//! What is met on a walk.
use ir_core::{Body, Core, Term};

/// A form, or the beginning or the end of a body within that is entered.
#[derive(Clone, Copy)]
pub enum Step<'a> {
    At(&'a Term),
    Enter(&'a Body<Core>),
    Leave,
}
