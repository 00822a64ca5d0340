//! Which words begin or end what.
ghost use Rattle.std.specs.Prelude.{◌≡◌, ◌<◌, length, IsSome, IsTrue};
ghost use Rattle.parser_tokens.specs.Tokens as front;
ghost use Rattle.parser_tokens.specs.Starts as starts;

use crate::tokens::{first, is_apart, place_at, skip};
use crate::word::{Modifier, Word};
use rb_syntax::{Keyword, Outside, Punctuator, Token};

fn keyword_begins_value(keyword: Keyword) -> bool
    ensures { result ≡ starts.keyword_begins_value keyword }
{
    match keyword {
        Keyword::EncodingName
        | Keyword::FileName
        | Keyword::LineNumber
        | Keyword::Begin
        | Keyword::Break
        | Keyword::Case
        | Keyword::Class
        | Keyword::Def
        | Keyword::Defined
        | Keyword::False
        | Keyword::For
        | Keyword::If
        | Keyword::Module
        | Keyword::Next
        | Keyword::Nil
        | Keyword::Redo
        | Keyword::Retry
        | Keyword::Return
        | Keyword::SelfReference
        | Keyword::Super
        | Keyword::True
        | Keyword::Unless
        | Keyword::Until
        | Keyword::While
        | Keyword::Yield => true,
        _ => false,
    }
}

fn mark_begins_value(mark: Punctuator) -> bool
    ensures { result ≡ starts.mark_begins_value mark }
{
    match mark {
        Punctuator::Plus
        | Punctuator::Minus
        | Punctuator::Star
        | Punctuator::StarStar
        | Punctuator::Not
        | Punctuator::Tilde
        | Punctuator::Ampersand
        | Punctuator::ColonColon
        | Punctuator::LambdaArrow
        | Punctuator::OpenParenthesis
        | Punctuator::OpenBracket
        | Punctuator::OpenBrace => true,
        _ => false,
    }
}

/// Whether a word begins a value, or a part of a list.
pub fn begins_value(word: Word) -> bool
    ensures { result ≡ starts.begins_value word }
{
    match word {
        Word::Identifier
        | Word::Constant
        | Word::MethodName
        | Word::InstanceVariable
        | Word::GlobalVariable
        | Word::Label
        | Word::Integer
        | Word::Character
        | Word::Symbol
        | Word::StringBegin
        | Word::SymbolBegin
        | Word::WordsBegin
        | Word::SymbolsBegin => true,
        Word::Key(keyword) => keyword_begins_value(keyword),
        Word::Mark(mark) => mark_begins_value(mark),
        Word::Other(what) => !matches!(what, Outside::Ambiguous | Outside::QuotedLabel),
        _ => false,
    }
}

/// Whether a word begins an argument and can't continue an expression; a string does only in quotes.
fn is_plain_word(word: Word) -> bool
    ensures { result ≡ starts.is_plain_word word }
{
    matches!(
        word,
        Word::Identifier
            | Word::Constant
            | Word::MethodName
            | Word::InstanceVariable
            | Word::GlobalVariable
            | Word::Integer
            | Word::Key(Keyword::Nil | Keyword::True | Keyword::False | Keyword::SelfReference)
            | Word::Mark(Punctuator::LambdaArrow)
    )
}

/// Whether the opening of the string at the front is one byte, a quote: what is in it stands directly after that.
fn is_quoted(tokens: &[Token]) -> bool
    ensures { result ≡ starts.is_quoted tokens.now }
{
    match first(tokens) {
        Word::StringBegin => {
            u64::from(place_at(skip(tokens))) == u64::from(place_at(tokens)) + 1
        }
        _ => false,
    }
}

/// Whether the tokens begin with what begins an argument wherever it stands behind a name.
#[tactic(auto, unfolding(crate::specs::Starts::is_plain_start))]
fn is_plain_start(behind: &[Token]) -> bool
    ensures { result ≡ starts.is_plain_start behind.now }
{
    is_plain_word(first(behind)) || is_quoted(behind)
}

/// Whether a word begins an argument only where no white space follows it.
fn wants_tight(word: Word) -> bool
    ensures { result ≡ starts.wants_tight word }
{
    match word {
        Word::Mark(
            Punctuator::Plus
            | Punctuator::Minus
            | Punctuator::Star
            | Punctuator::StarStar
            | Punctuator::Ampersand
            | Punctuator::ColonColon,
        ) => true,
        _ => false,
    }
}

/// Whether the tokens begin an argument behind white space.
#[tactic(auto, unfolding(crate::specs::Starts::is_spaced_start))]
fn is_spaced_start(behind: &[Token]) -> bool
    ensures { result ≡ starts.is_spaced_start behind.now }
{
    let word = first(behind);
    match word {
        Word::Mark(Punctuator::OpenBrace) => false,
        _ => {
            is_apart(behind)
                && begins_value(word)
                && (!wants_tight(word) || !is_apart(skip(behind)))
        }
    }
}

/// Whether the tokens behind a name begin the arguments of a command.
#[tactic(auto, unfolding(crate::specs::Starts::begins_argument))]
pub fn begins_argument(behind: &[Token]) -> bool
    ensures { result ≡ starts.begins_argument behind.now }
{
    is_plain_start(behind) || is_spaced_start(behind)
}

/// Whether the tokens behind a name begin its arguments in parentheses: `(` stands directly there.
#[tactic(auto, unfolding(crate::specs::Starts::opens_arguments))]
pub fn opens_arguments(behind: &[Token]) -> bool
    ensures value { result ≡ starts.opens_arguments behind.now }
    ensures there { IsTrue result → length (front.behind behind.now) < length behind.now }
{
    match first(behind) {
        Word::Mark(Punctuator::OpenParenthesis) => !is_apart(behind),
        _ => false,
    }
}

/// Whether the tokens behind a name make a call of it, even where it is a local variable or a constant: its arguments
/// begin in parentheses, or with what can't continue an expression.
#[tactic(auto, unfolding(crate::specs::Starts::makes_call))]
pub fn makes_call(behind: &[Token]) -> bool
    ensures { result ≡ starts.makes_call behind.now }
{
    opens_arguments(behind) || is_plain_start(behind)
}

/// Whether a word ends a list of statements.
pub fn ends_statements(word: Word) -> bool
    ensures { result ≡ starts.ends_statements word }
{
    match word {
        Word::Finish
        | Word::InterpolationEnd
        | Word::Key(
            Keyword::End
            | Keyword::Else
            | Keyword::Elsif
            | Keyword::When
            | Keyword::In
            | Keyword::Rescue
            | Keyword::Ensure,
        )
        | Word::Mark(Punctuator::CloseParenthesis | Punctuator::CloseBrace) => true,
        _ => false,
    }
}

/// Whether a word is a newline or a semicolon.
pub fn is_separator(word: Word) -> bool
    ensures { result ≡ starts.is_separator word }
{
    matches!(word, Word::Newline | Word::Semicolon)
}

/// Whether a word is a newline.
pub fn is_newline(word: Word) -> bool
    ensures { result ≡ starts.is_newline word }
{
    matches!(word, Word::Newline)
}

/// Whether a word ends a statement of a list.
pub fn ends_statement(word: Word) -> bool
    ensures { result ≡ starts.ends_statement word }
{
    ends_statements(word) || is_separator(word)
}

/// The modifier at the front.
pub fn modifier_at(tokens: &[Token]) -> Option<Modifier>
    ensures value { result ≡ starts.modifier_at (front.first tokens.now) }
    ensures there { IsSome result → length (front.behind tokens.now) < length tokens.now }
{
    match first(tokens) {
        Word::Modifier(modifier) => Some(modifier),
        _ => None,
    }
}

/// `return`, `break` or `next`.
#[derive(Clone, Copy, Debug, PartialEq, Eq)]
pub enum Jump {
    Return,
    Break,
    Next,
}

/// The jump at the front.
pub fn jump_at(tokens: &[Token]) -> Option<Jump>
    ensures value { result ≡ starts.jump_at (front.first tokens.now) }
    ensures there { IsSome result → length (front.behind tokens.now) < length tokens.now }
{
    match first(tokens) {
        Word::Key(Keyword::Return) => Some(Jump::Return),
        Word::Key(Keyword::Break) => Some(Jump::Break),
        Word::Key(Keyword::Next) => Some(Jump::Next),
        _ => None,
    }
}

/// What goes on behind a primary.
#[derive(Clone, Copy, Debug, PartialEq, Eq)]
pub enum Postfix {
    /// `.`
    Dot,
    /// `&.`
    Safe,
    /// `::`
    Scope,
    /// `[`
    Index,
}

/// The postfix at the front.
pub fn postfix_at(tokens: &[Token]) -> Option<Postfix>
    ensures value { result ≡ starts.postfix_at (front.first tokens.now) }
    ensures there { IsSome result → length (front.behind tokens.now) < length tokens.now }
{
    match first(tokens) {
        Word::Mark(Punctuator::Dot) => Some(Postfix::Dot),
        Word::Mark(Punctuator::AmpersandDot) => Some(Postfix::Safe),
        Word::Mark(Punctuator::ColonColon) => Some(Postfix::Scope),
        Word::Mark(Punctuator::OpenBracket) => Some(Postfix::Index),
        _ => None,
    }
}
