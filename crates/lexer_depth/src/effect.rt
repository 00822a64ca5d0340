//! What a token does to the levels of a text.
ghost use Rattle.std.specs.Prelude.{◌≡◌};
ghost use Rattle.lexer_depth.specs.Effect as effects;

use rb_syntax::{Keyword, Outside, Punctuator, Token, TokenKind};

/// What a token does to the levels of a text.
#[derive(Clone, Copy, Debug, PartialEq, Eq)]
pub enum Effect {
    Nothing,
    /// Counts in its level.
    Count,
    /// Counts, and stays counted after a comma.
    Keep,
    Comma,
    /// Ends a part of its level.
    Separate,
    /// Ends a line, and with it the head of a loop.
    EndLine,
    /// `when`, which ends a part; commas count up to the next end of one.
    When,
    /// `do`: it ends the head of a loop, or starts a level.
    Do,
    /// Starts a level.
    Open,
    /// Starts a level with the head of a loop.
    OpenLoop,
    /// Counts in its level, and starts one.
    OpenIndex,
    /// Ends a level.
    Close,
}

/// Counts directly after a name alone.
fn word_effect(after_word: bool) -> Effect
    ensures { result ≡ effects.word_effect after_word }
{
    if after_word {
        Effect::Count
    } else {
        Effect::Nothing
    }
}

/// Starts a level where a value is expected, and is a modifier elsewhere.
fn modifier_effect(value: bool, other: Effect) -> Effect
    ensures { result ≡ effects.modifier_effect value other }
{
    if value { other } else { Effect::Keep }
}

#[tactic(auto, unfolding(crate::specs::Effect::keyword_effect))]
fn keyword_effect(keyword: Keyword, value: bool, after_word: bool) -> Effect
    ensures { result ≡ effects.keyword_effect keyword value after_word }
{
    match keyword {
        Keyword::Begin | Keyword::Case | Keyword::Class | Keyword::Def | Keyword::Module => {
            Effect::Open
        }
        Keyword::For => Effect::OpenLoop,
        Keyword::If | Keyword::Unless => modifier_effect(value, Effect::Open),
        Keyword::While | Keyword::Until => modifier_effect(value, Effect::OpenLoop),
        Keyword::Rescue => modifier_effect(value, Effect::Separate),
        Keyword::Do => Effect::Do,
        Keyword::End => Effect::Close,
        Keyword::And | Keyword::Or => Effect::Keep,
        Keyword::Not | Keyword::Defined => Effect::Count,
        Keyword::Then | Keyword::Else | Keyword::Elsif | Keyword::Ensure | Keyword::In => {
            Effect::Separate
        }
        Keyword::When => Effect::When,
        Keyword::Return | Keyword::Break | Keyword::Next | Keyword::Yield | Keyword::Super =>
            word_effect(after_word),
        _ => Effect::Nothing,
    }
}

#[tactic(auto, unfolding(crate::specs::Effect::mark_effect))]
fn mark_effect(mark: Punctuator, value: bool) -> Effect
    ensures { result ≡ effects.mark_effect mark value }
{
    match mark {
        Punctuator::OpenParenthesis | Punctuator::OpenBrace => Effect::Open,
        Punctuator::OpenBracket => {
            if value {
                Effect::Open
            } else {
                Effect::OpenIndex
            }
        }
        Punctuator::CloseParenthesis | Punctuator::CloseBracket | Punctuator::CloseBrace => {
            Effect::Close
        }
        Punctuator::Comma => Effect::Comma,
        Punctuator::CloseBar => Effect::Separate,
        Punctuator::OpenBar | Punctuator::Arrow | Punctuator::LambdaArrow => Effect::Nothing,
        _ => Effect::Count,
    }
}

#[tactic(auto, unfolding(crate::specs::Effect::outside_effect))]
fn outside_effect(what: Outside, after_word: bool) -> Effect
    ensures { result ≡ effects.outside_effect what after_word }
{
    match what {
        Outside::NonAsciiName => word_effect(after_word),
        Outside::Ambiguous => Effect::Count,
        _ => Effect::Nothing,
    }
}

/// What a token does; `after_word` says whether a name, `return`, `break`, `next`, `yield` or `super` stands
/// directly before it.
#[tactic(auto, unfolding(crate::specs::Effect::kind_effect))]
pub fn effect_of(token: &Token, after_word: bool) -> Effect
    ensures { result ≡ effects.effect token.now after_word }
{
    match &token.kind {
        TokenKind::Newline | TokenKind::Semicolon => Effect::EndLine,
        TokenKind::Identifier(_) | TokenKind::Constant(_) | TokenKind::MethodName(_) => {
            word_effect(after_word)
        }
        TokenKind::Keyword(keyword) => keyword_effect(*keyword, token.value, after_word),
        TokenKind::Punctuator(mark) => mark_effect(*mark, token.value),
        TokenKind::InterpolationBegin => Effect::Open,
        TokenKind::InterpolationEnd => Effect::Close,
        TokenKind::Outside(what) => outside_effect(*what, after_word),
        _ => Effect::Nothing,
    }
}

#[tactic(auto, unfolding(crate::specs::Effect::is_word_keyword))]
fn is_word_keyword(keyword: Keyword) -> bool
    ensures { result ≡ effects.is_word_keyword keyword }
{
    match keyword {
        Keyword::Return | Keyword::Break | Keyword::Next | Keyword::Yield | Keyword::Super => true,
        _ => false,
    }
}

fn is_wide_name(what: Outside) -> bool
    ensures { result ≡ effects.is_wide_name what }
{
    what == Outside::NonAsciiName
}

/// Whether a name directly after the token counts.
#[tactic(auto, unfolding(crate::specs::Effect::is_word))]
pub fn is_word(token: &Token) -> bool
    ensures { result ≡ effects.is_word token.now.kind }
{
    match &token.kind {
        TokenKind::Identifier(_) | TokenKind::Constant(_) | TokenKind::MethodName(_) => true,
        TokenKind::Keyword(keyword) => is_word_keyword(*keyword),
        TokenKind::Outside(what) => is_wide_name(*what),
        _ => false,
    }
}
