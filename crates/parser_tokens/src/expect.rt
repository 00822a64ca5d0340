//! Tokens that must stand at the front, and those that may.
ghost use Rattle.std.specs.Prelude.{◌≡◌, ◌<◌, ◌≤◌, length, IfOk};
ghost use Rattle.parser_tokens.specs.Tokens as front;
ghost use Rattle.parser_tokens.specs.Expect as expecting;
ghost use Rattle.parser_tokens.specs.Reads.{Gives};

use crate::failure::{Failure, syntax};
use crate::starts::{is_newline, is_separator};
use crate::tokens::{first, skip};
use crate::word::Word;
use rb_syntax::{Keyword, Punctuator, Token};

/// A word that must stand at the front.
#[derive(Clone, Copy, Debug, PartialEq, Eq)]
pub enum Wanted {
    End,
    In,
    Assign,
    Dot,
    Colon,
    OpenBrace,
    CloseBrace,
    CloseParenthesis,
    CloseBracket,
    CloseBar,
    InterpolationEnd,
    Separator,
}

fn is_wanted_mark(wanted: Wanted, mark: Punctuator) -> bool
    ensures { result ≡ expecting.is_wanted_mark wanted mark }
{
    match wanted {
        Wanted::Assign => matches!(mark, Punctuator::Assign),
        Wanted::Dot => matches!(mark, Punctuator::Dot),
        Wanted::Colon => matches!(mark, Punctuator::Colon),
        Wanted::OpenBrace => matches!(mark, Punctuator::OpenBrace),
        Wanted::CloseBrace => matches!(mark, Punctuator::CloseBrace),
        Wanted::CloseParenthesis => matches!(mark, Punctuator::CloseParenthesis),
        Wanted::CloseBracket => matches!(mark, Punctuator::CloseBracket),
        Wanted::CloseBar => matches!(mark, Punctuator::CloseBar),
        Wanted::End | Wanted::In | Wanted::InterpolationEnd | Wanted::Separator => false,
    }
}

/// Whether this word is the one that is wanted.
pub fn is_wanted(wanted: Wanted, word: Word) -> bool
    ensures { result ≡ expecting.is_wanted wanted word }
{
    match word {
        Word::Mark(mark) => is_wanted_mark(wanted, mark),
        Word::Key(Keyword::End) => matches!(wanted, Wanted::End),
        Word::Key(Keyword::In) => matches!(wanted, Wanted::In),
        Word::InterpolationEnd => matches!(wanted, Wanted::InterpolationEnd),
        Word::Newline | Word::Semicolon => matches!(wanted, Wanted::Separator),
        _ => false,
    }
}

/// The tokens behind a word that must be next.
#[tactic(auto, using(crate::proofs::Front::wanted_shorter))]
pub fn expect(tokens: &[Token], wanted: Wanted) -> Result<&[Token], Failure>
    ensures value { Gives (λ rest. rest.now) result (expecting.expect wanted tokens.now) }
    ensures shorter { IfOk result (λ rest. length rest.now < length tokens.now) }
{
    if is_wanted(wanted, first(tokens)) {
        Ok(skip(tokens))
    } else {
        Err(syntax(tokens))
    }
}

/// What is behind newlines.
#[tactic(auto, using(crate::proofs::Front::newline_turns))]
pub fn skip_newlines(tokens: &[Token]) -> &[Token]
    ensures value { result.now ≡ expecting.skip_newlines tokens.now }
    ensures within { length result.now ≤ length tokens.now }
{
    let mut rest = tokens;
    'newlines: while is_newline(first(rest)) {
        rest = skip(rest);
    }
    rest
}

/// What is behind newlines and semicolons.
#[tactic(auto, using(crate::proofs::Front::separator_turns))]
pub fn skip_separators(tokens: &[Token]) -> &[Token]
    ensures value { result.now ≡ expecting.skip_separators tokens.now }
    ensures within { length result.now ≤ length tokens.now }
{
    let mut rest = tokens;
    'separators: while is_separator(first(rest)) {
        rest = skip(rest);
    }
    rest
}

/// The tokens behind a closing bracket, before which newlines may stand.
pub fn expect_closing(tokens: &[Token], wanted: Wanted) -> Result<&[Token], Failure>
    ensures value { Gives (λ rest. rest.now) result (expecting.expect_closing wanted tokens.now) }
    ensures shorter { IfOk result (λ rest. length rest.now < length tokens.now) }
{
    expect(skip_newlines(tokens), wanted)
}

fn skip_then_word(tokens: &[Token]) -> &[Token]
    ensures value { result.now ≡ expecting.skip_then_word (front.first tokens.now) tokens.now }
    ensures within { length result.now ≤ length tokens.now }
{
    match first(tokens) {
        Word::Key(Keyword::Then) => skip(tokens),
        _ => tokens,
    }
}

/// The tokens behind a separator, `then` or both.
pub fn expect_then(tokens: &[Token]) -> Result<&[Token], Failure>
    ensures value { Gives (λ rest. rest.now) result (expecting.then_at (front.first tokens.now) tokens.now) }
    ensures shorter { IfOk result (λ rest. length rest.now < length tokens.now) }
{
    match first(tokens) {
        Word::Newline | Word::Semicolon => Ok(skip_then_word(skip(tokens))),
        Word::Key(Keyword::Then) => Ok(skip(tokens)),
        _ => Err(syntax(tokens)),
    }
}

/// The tokens behind a separator or the `do` of a loop.
pub fn expect_do(tokens: &[Token]) -> Result<&[Token], Failure>
    ensures value { Gives (λ rest. rest.now) result (expecting.do_at (front.first tokens.now) tokens.now) }
    ensures shorter { IfOk result (λ rest. length rest.now < length tokens.now) }
{
    match first(tokens) {
        Word::Newline | Word::Semicolon | Word::Key(Keyword::Do) => Ok(skip(tokens)),
        _ => Err(syntax(tokens)),
    }
}
