//! The local variables of a body, and its parameters.
use rb_base::Bytes;

/// A local variable of a body.
#[derive(Debug, Drop)]
pub enum Local {
    /// One of the source.
    Named(Bytes),
    /// One that lowering keeps a value in, by its number; blocks don't see it.
    Hidden(usize),
    /// The parameter at that place whose source is a pattern, or a target of a `for`.
    Pattern(usize),
    /// A rest parameter without a name.
    Rest,
}

/// The parameters of a body, in order.
#[derive(Debug, Drop)]
pub struct Parameters {
    pub required: Vec<Local>,
    pub optional: Vec<Local>,
    pub rest: Option<Local>,
    pub post: Vec<Local>,
    pub block: Option<Local>,
}
