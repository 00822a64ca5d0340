//! What a core method takes.
use rb_value::CoreClass;

/// What is wanted of a value.
#[derive(Clone, Copy, Debug, PartialEq, Eq)]
pub enum Wanted {
    Any,
    /// The contents of an instance of the class.
    Of(CoreClass),
    /// The same, where it is compared with.
    Comparable(CoreClass),
}

/// What else a core method needs and does.
#[derive(Clone, Copy, Debug, PartialEq, Eq)]
pub enum Marks {
    Plain,
    /// It needs a block.
    Block,
    /// It opens an activation.
    Star,
    /// It needs a block and opens an activation.
    StarBlock,
}

/// What a core method takes: at least and at most so many arguments, where none stands for no bound; what it needs; and
/// what is wanted of the receiver, of the first argument and of each further one.
#[derive(Clone, Copy, Debug, PartialEq, Eq)]
pub struct Signature {
    pub least: u64,
    pub most: Option<u64>,
    pub marks: Marks,
    pub receiver: Wanted,
    pub first: Wanted,
    pub second: Wanted,
}
