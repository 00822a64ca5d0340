//! What a body stands for.

/// What a body stands for.
#[derive(Clone, Copy, Debug, PartialEq, Eq)]
pub enum BodyKind {
    /// The main program.
    Main,
    Method,
    /// A block or a lambda.
    Block,
    /// The body of a class or module.
    Class,
}
