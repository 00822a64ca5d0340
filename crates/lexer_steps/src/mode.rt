//! What a place of the text is inside of.
use lexer_literals::Delimiters;

/// A literal that is open.
#[derive(Clone, Copy, Debug, PartialEq, Eq)]
pub struct Literal {
    /// Equal ones don't nest.
    pub delimiters: Delimiters,
    /// How many opening delimiters within it wait for their closing ones.
    pub depth: usize,
    /// Whether it has the escapes of double quotes and interpolation.
    pub double: bool,
    /// Where its opening stands, if a colon after its end makes it a key.
    pub key: Option<u32>,
}

/// What a place of the text is inside of.
#[derive(Clone, Copy, Debug, PartialEq, Eq)]
pub enum Mode {
    /// `{`
    Braces,
    /// `#{`
    Interpolation,
    /// A string or a symbol in quotes.
    Text(Literal),
    /// `%w` or `%i`.
    Words(Literal),
    /// The body of a heredoc; the flag says whether it has escapes and interpolation.
    Body(bool),
}
