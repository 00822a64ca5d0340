//! The token at the front of some tokens, and what is behind it.
ghost use Rattle.std.specs.Prelude.{◌≡◌, ◌≢◌, ◌<◌, ◌≤◌, length};
ghost use Rattle.parser_tokens.specs.Tokens as front;

use crate::word::{Modifier, Word};
use rb_syntax::{Keyword, Token, TokenKind};

/// A keyword where a value is expected or not.
fn keyword_word(keyword: Keyword, value: bool) -> Word
    ensures { result ≡ front.keyword_word keyword value }
{
    match keyword {
        Keyword::If if !value => Word::Modifier(Modifier::If),
        Keyword::Unless if !value => Word::Modifier(Modifier::Unless),
        Keyword::While if !value => Word::Modifier(Modifier::While),
        Keyword::Until if !value => Word::Modifier(Modifier::Until),
        Keyword::Rescue if !value => Word::Modifier(Modifier::Rescue),
        _ => Word::Key(keyword),
    }
}

#[tactic(auto, unfolding(crate::specs::Tokens::word_of))]
fn word_of(token: &Token) -> Word
    ensures { result ≡ front.word_of token.now }
{
    match &token.kind {
        TokenKind::Newline => Word::Newline,
        TokenKind::Semicolon => Word::Semicolon,
        TokenKind::Identifier(_) => Word::Identifier,
        TokenKind::Constant(_) => Word::Constant,
        TokenKind::MethodName(_) => Word::MethodName,
        TokenKind::InstanceVariable(_) => Word::InstanceVariable,
        TokenKind::GlobalVariable(_) => Word::GlobalVariable,
        TokenKind::Label(_) => Word::Label,
        TokenKind::Keyword(keyword) => keyword_word(*keyword, token.value),
        TokenKind::Punctuator(mark) => Word::Mark(*mark),
        TokenKind::Integer(_) => Word::Integer,
        TokenKind::Character(_) => Word::Character,
        TokenKind::Symbol(_) => Word::Symbol,
        TokenKind::StringBegin => Word::StringBegin,
        TokenKind::SymbolBegin => Word::SymbolBegin,
        TokenKind::WordsBegin => Word::WordsBegin,
        TokenKind::SymbolsBegin => Word::SymbolsBegin,
        TokenKind::Piece(_) => Word::Piece,
        TokenKind::Word(_) => Word::Element,
        TokenKind::InterpolationBegin => Word::InterpolationBegin,
        TokenKind::InterpolationEnd => Word::InterpolationEnd,
        TokenKind::LiteralEnd => Word::LiteralEnd,
        TokenKind::Outside(what) => Word::Other(*what),
    }
}

/// The word at the front.
#[tactic(auto, unfolding(crate::specs::Tokens::first), using(crate::proofs::Front::behind_shorter))]
pub fn first(tokens: &[Token]) -> Word
    ensures value { result ≡ front.first tokens.now }
    ensures there { result ≢ Word.Finish → length (front.behind tokens.now) < length tokens.now }
{
    match tokens {
        [] => Word::Finish,
        [token, ..] => word_of(token),
    }
}

/// The tokens behind the one at the front.
#[tactic(auto, unfolding(crate::specs::Tokens::behind))]
pub fn skip(tokens: &[Token]) -> &[Token]
    ensures value { result.now ≡ front.behind tokens.now }
    ensures within { length result.now ≤ length tokens.now }
{
    match tokens {
        [] => tokens,
        [_, behind @ ..] => behind,
    }
}

/// The tokens behind the one at the front where there is `more`, or else all of them.
pub fn skip_if(more: bool, tokens: &[Token]) -> &[Token]
    ensures value { result.now ≡ front.skip_if more tokens.now }
    ensures within { length result.now ≤ length tokens.now }
{
    if more { skip(tokens) } else { tokens }
}

/// The bytes of the token at the front, or none where it has none.
#[tactic(auto, unfolding(crate::specs::Tokens::bytes_at))]
pub fn bytes_at(tokens: &[Token]) -> &[u8]
    ensures { result.now ≡ front.bytes_at tokens.now }
{
    match tokens {
        [] => b"",
        [token, ..] => match &token.kind {
            TokenKind::Identifier(name)
            | TokenKind::Constant(name)
            | TokenKind::MethodName(name)
            | TokenKind::InstanceVariable(name)
            | TokenKind::GlobalVariable(name)
            | TokenKind::Label(name)
            | TokenKind::Symbol(name)
            | TokenKind::Piece(name)
            | TokenKind::Word(name) => name.as_slice(),
            _ => b"",
        },
    }
}

/// The integer at the front, or 0.
#[tactic(auto, unfolding(crate::specs::Tokens::integer_at))]
pub fn integer_at(tokens: &[Token]) -> u64
    ensures { result ≡ front.integer_at tokens.now }
{
    match tokens {
        [] => 0,
        [token, ..] => match &token.kind {
            TokenKind::Integer(value) => *value,
            _ => 0,
        },
    }
}

/// The byte of the one-byte string at the front, or 0.
#[tactic(auto, unfolding(crate::specs::Tokens::character_at))]
pub fn character_at(tokens: &[Token]) -> u8
    ensures { result ≡ front.character_at tokens.now }
{
    match tokens {
        [] => 0,
        [token, ..] => match &token.kind {
            TokenKind::Character(byte) => *byte,
            _ => 0,
        },
    }
}

/// The place of the token at the front, or 0 behind the last.
#[tactic(auto, unfolding(crate::specs::Tokens::place_at))]
pub fn place_at(tokens: &[Token]) -> u32
    ensures { result ≡ front.place_at tokens.now }
{
    match tokens {
        [] => 0,
        [token, ..] => token.at,
    }
}

/// Whether white space stands before the token at the front, or there is none.
#[tactic(auto, unfolding(crate::specs::Tokens::is_apart))]
pub fn is_apart(tokens: &[Token]) -> bool
    ensures { result ≡ front.is_apart tokens.now }
{
    match tokens {
        [] => true,
        [token, ..] => token.space,
    }
}
