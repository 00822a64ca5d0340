//! What the token at the front of some tokens is, without its bytes.
use rb_syntax::{Keyword, Outside, Punctuator};

/// A token's kind.
#[derive(Clone, Copy, Debug, PartialEq, Eq)]
pub enum Word {
    /// The end of the tokens.
    Finish,
    Newline,
    Semicolon,
    Identifier,
    Constant,
    MethodName,
    InstanceVariable,
    GlobalVariable,
    Label,
    Key(Keyword),
    /// `if`, `unless`, `while`, `until` or `rescue` where no value is expected.
    Modifier(Modifier),
    Mark(Punctuator),
    Integer,
    Character,
    Symbol,
    StringBegin,
    SymbolBegin,
    WordsBegin,
    SymbolsBegin,
    Piece,
    Element,
    InterpolationBegin,
    InterpolationEnd,
    LiteralEnd,
    Other(Outside),
}

/// What stands between a statement and its condition, or what replaces it where it raises.
#[derive(Clone, Copy, Debug, PartialEq, Eq)]
pub enum Modifier {
    If,
    Unless,
    While,
    Until,
    Rescue,
}
