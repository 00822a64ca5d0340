//! What begins a target of an assignment, and what stands behind a group in parentheses or a string.
ghost use Rattle.std.specs.Prelude.{◌≡◌, ◌+◌, ◌-◌, ◌^◌, ◌<◌, ◌≤◌};
ghost use Rattle.parser_ahead.specs.Groups as groups;

use parser_tokens::tokens::{first, skip};
use parser_tokens::word::Word;
use rb_syntax::{Outside, Punctuator, Token};

/// What the targets are for.
#[derive(Clone, Copy, Debug, PartialEq, Eq)]
pub enum TargetUse {
    /// A multiple assignment.
    Assignment,
    /// The head of `for`: no star, no group, and no comma at the end.
    For,
    /// A pattern among parameters: names alone, which are parameters.
    Pattern,
}

fn ends_targets(word: Word) -> bool
    ensures { result ≡ groups.ends_targets word }
{
    match word {
        Word::Finish | Word::Newline | Word::Semicolon => true,
        Word::Mark(
            Punctuator::Assign
            | Punctuator::Comma
            | Punctuator::CloseParenthesis
            | Punctuator::CloseBar,
        ) => true,
        _ => false,
    }
}

fn begins_pattern(word: Word) -> bool
    ensures { result ≡ groups.begins_pattern word }
{
    match word {
        Word::Identifier | Word::Other(Outside::NonAsciiName) => true,
        Word::Mark(Punctuator::Star | Punctuator::OpenParenthesis) => true,
        _ => false,
    }
}

/// Whether a word begins a target, where they are for this.
pub fn begins_target(target_use: TargetUse, word: Word) -> bool
    ensures { result ≡ groups.begins_target target_use word }
{
    match target_use {
        TargetUse::Pattern => begins_pattern(word),
        TargetUse::Assignment | TargetUse::For => !ends_targets(word),
    }
}

/// How many brackets are open behind a word, `count` being open before it.
#[tactic(auto, unfolding(crate::specs::Groups::bracket_step))]
fn bracket_step(word: Word, count: usize) -> usize
    requires { count < 2 ^ 64 - 1 }
    ensures value { result ≡ groups.bracket_step word count }
    ensures near { result ≤ count + 1 }
{
    match word {
        Word::Mark(Punctuator::OpenParenthesis | Punctuator::OpenBracket | Punctuator::OpenBrace)
        | Word::InterpolationBegin => count + 1,
        Word::Mark(Punctuator::CloseParenthesis | Punctuator::CloseBracket | Punctuator::CloseBrace)
        | Word::InterpolationEnd => count.saturating_sub(1),
        _ => count,
    }
}

/// The word behind the parenthesis that closes the one at the front.
#[tactic(auto, using(crate::proofs::Turns::bracket_turns))]
fn word_behind_group(tokens: &[Token]) -> Word
    ensures { result ≡ groups.word_behind_group tokens.now }
{
    let mut rest = tokens;
    let mut count: usize = 0;
    'tokens: while !rest.is_empty() {
        count = bracket_step(first(rest), count);
        rest = skip(rest);
        if count == 0 {
            return first(rest);
        }
    }
    Word::Finish
}

fn follows_targets(word: Word) -> bool
    ensures { result ≡ groups.follows_targets word }
{
    matches!(word, Word::Mark(Punctuator::Comma | Punctuator::Assign))
}

fn follows_nested(word: Word) -> bool
    ensures { result ≡ groups.follows_nested word }
{
    matches!(
        word,
        Word::Mark(Punctuator::Comma | Punctuator::Assign | Punctuator::CloseParenthesis)
    )
}

fn opens_group(word: Word) -> bool
    ensures { result ≡ groups.opens_group word }
{
    matches!(word, Word::Mark(Punctuator::OpenParenthesis))
}

/// Whether the group in parentheses at the front of a statement has targets: `,` or `=` stands behind it.
pub fn is_target_group(tokens: &[Token]) -> bool
    ensures { result ≡ groups.is_target_group tokens.now }
{
    opens_group(first(tokens)) && follows_targets(word_behind_group(tokens))
}

fn nested_use(target_use: TargetUse, tokens: &[Token]) -> bool
    ensures { result ≡ groups.nested_use target_use tokens.now }
{
    match target_use {
        TargetUse::Pattern => true,
        TargetUse::For => false,
        TargetUse::Assignment => follows_nested(word_behind_group(tokens)),
    }
}

/// Whether the group in parentheses at the front of a target has targets itself.
pub fn is_nested_group(target_use: TargetUse, tokens: &[Token]) -> bool
    ensures { result ≡ groups.is_nested_group target_use tokens.now }
{
    opens_group(first(tokens)) && nested_use(target_use, tokens)
}

/// How many literals are open behind a word, `count` being open before it.
#[tactic(auto, unfolding(crate::specs::Groups::literal_step))]
fn literal_step(word: Word, count: usize) -> usize
    requires { count < 2 ^ 64 - 1 }
    ensures value { result ≡ groups.literal_step word count }
    ensures near { result ≤ count + 1 }
{
    match word {
        Word::StringBegin | Word::SymbolBegin | Word::WordsBegin | Word::SymbolsBegin => count + 1,
        Word::LiteralEnd | Word::Other(Outside::QuotedLabel) => count.saturating_sub(1),
        _ => count,
    }
}

/// The word with which the literal at the front ends.
#[tactic(auto, using(crate::proofs::Turns::literal_turns))]
fn literal_end(tokens: &[Token]) -> Word
    ensures { result ≡ groups.literal_end 0 tokens.now }
{
    let mut rest = tokens;
    let mut count: usize = 0;
    'tokens: while !rest.is_empty() {
        let word = first(rest);
        count = literal_step(word, count);
        rest = skip(rest);
        if count == 0 {
            return word;
        }
    }
    Word::Finish
}

/// Whether a word ends a string that is a key.
pub fn is_quoted_label(word: Word) -> bool
    ensures { result ≡ groups.is_quoted_label word }
{
    matches!(word, Word::Other(Outside::QuotedLabel))
}

/// Whether the string at the front is a key: its end is a colon.
pub fn is_quoted_key(tokens: &[Token]) -> bool
    ensures { result ≡ groups.is_quoted_key tokens.now }
{
    is_quoted_label(literal_end(tokens))
}
