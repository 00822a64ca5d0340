/// Why no tree was made.
#[derive(Clone, Copy, Debug, PartialEq, Eq)]
pub enum ParseError {
    /// The tokens aren't in the grammar, or a word stands where it may not. The place is that of a token or the text's
    /// end; for a class, module or constant inside of a method it is that of the method, for two parameters of one name
    /// that of the definition.
    Syntax { at: u32 },
    /// Memory ran out.
    NoMemory,
}
