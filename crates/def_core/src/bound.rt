//! How the arguments of a call become the values of parameters.
use rb_value::Args;

/// What counts its arguments: a method, a lambda or a method made of a block, or a Proc, which doesn't.
#[derive(Clone, Copy, Debug, PartialEq, Eq)]
pub enum BindKind {
    Method,
    Lambda,
    Proc,
}

/// The outcome of binding.
#[derive(Drop)]
pub enum Bound {
    /// A value for each parameter in their order, nil for each optional one that wasn't given, and how many
    /// optional ones were given.
    Values { list: Args, filled: u8 },
    /// The number of arguments doesn't fit; so many were given.
    Wrong { given: usize },
}
