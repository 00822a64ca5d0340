//! Tokens: the words of a text. A string is its opening, its pieces and its end; what is interpolated stands
//! between the pieces.
use crate::keyword::Keyword;
use crate::outside::Outside;
use crate::punctuator::Punctuator;
use rb_base::Bytes;

/// What a token is. Contracts see the bytes as their list.
#[derive(Debug, Drop)]
pub enum TokenKind {
    /// The end of a line that ends a statement.
    Newline,
    Semicolon,
    /// A name that begins with a small letter or `_` and has no mark after it.
    Identifier(Bytes),
    /// A name that begins with a capital letter and has no mark after it.
    Constant(Bytes),
    /// A name that only a method has: with `?`, `!` or `=`, or a keyword or an operator where a name is wanted.
    MethodName(Bytes),
    /// With its `@`.
    InstanceVariable(Bytes),
    /// With its `$`.
    GlobalVariable(Bytes),
    /// A name with a colon directly after it; the bytes are those of the name.
    Label(Bytes),
    Keyword(Keyword),
    Punctuator(Punctuator),
    /// An integer from 0 to 2^63.
    Integer(u64),
    /// `?c`, a string of one byte.
    Character(u8),
    /// A symbol without quotes; the bytes are those after the colon.
    Symbol(Bytes),
    /// The opening of a string of any spelling: quotes, `%`, `%q`, `%Q` or a heredoc's head.
    StringBegin,
    /// The opening of a symbol in quotes.
    SymbolBegin,
    /// The opening `%w` of an Array of strings.
    WordsBegin,
    /// The opening `%i` of an Array of symbols.
    SymbolsBegin,
    /// Bytes of a string or a symbol in quotes, with escapes replaced; never empty.
    Piece(Bytes),
    /// An element of `%w` or `%i`.
    Word(Bytes),
    /// `#{`; the tokens inside it follow.
    InterpolationBegin,
    /// The `}` of `#{`.
    InterpolationEnd,
    /// The end of what began with one of the four openings.
    LiteralEnd,
    /// A token outside the language: a Float, Rational, Imaginary or WideInteger literal, a Regexp, a Backquote
    /// or PercentLiteral, the mark that is Ambiguous, a QuotedLabel (which stands for the end of its string), a
    /// NonAsciiName, a SquigglyHeredoc, a ClassVariable or a SpecialGlobal.
    Outside(Outside),
}

/// A token at a place of the text.
#[derive(Debug, Drop)]
pub struct Token {
    pub kind: TokenKind,
    /// How many bytes stand before it.
    pub at: u32,
    /// Whether white space, a comment or the end of a line stands directly before it.
    pub space: bool,
    /// Whether no other token stands before it on its line.
    pub line_start: bool,
    /// Whether a value was expected where it stands.
    pub value: bool,
}
