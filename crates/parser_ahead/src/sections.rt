//! The order of the sections of compound forms (ISO/IEC 30170:2012, 11.5.2): a section is a heading and the statements
//! behind it.
ghost use Rattle.std.specs.Prelude.{◌≡◌, ◌<◌, length, IsSome};
ghost use Rattle.parser_tokens.specs.Tokens as front;
ghost use Rattle.parser_ahead.specs.Sections as order;

use parser_tokens::tokens::first;
use parser_tokens::word::Word;
use rb_syntax::{Keyword, Token};

/// A form that is made of sections and an `end`.
#[derive(Clone, Copy, Debug, PartialEq, Eq)]
pub enum Compound {
    If,
    Unless,
    While,
    Until,
    For,
    Case,
    /// `begin`, and the body of a method, a class, a module or a `do` block.
    Body,
}

/// What a section is.
#[derive(Clone, Copy, Debug, PartialEq, Eq)]
pub enum SectionKind {
    /// A test and `then`.
    Test,
    /// A test and `do`.
    LoopTest,
    /// Targets, `in`, a value and `do`.
    Walk,
    /// A value or none, and no statements.
    Subject,
    /// Values and `then`.
    When,
    /// As `When`, outside the language; at the place of its word.
    Pattern,
    /// No heading.
    Plain,
    /// Classes, a target and `then`.
    Rescue,
    Else,
    Ensure,
}

/// The section with which a compound form begins.
pub fn first_section(compound: Compound) -> SectionKind
    ensures { result ≡ order.first_section compound }
{
    match compound {
        Compound::If | Compound::Unless => SectionKind::Test,
        Compound::While | Compound::Until => SectionKind::LoopTest,
        Compound::For => SectionKind::Walk,
        Compound::Case => SectionKind::Subject,
        Compound::Body => SectionKind::Plain,
    }
}

/// Whether a rescue clause or `else` may follow in a body.
fn takes_rescue(before: SectionKind) -> bool
    ensures { result ≡ order.takes_rescue before }
{
    match before {
        SectionKind::Plain | SectionKind::Rescue => true,
        _ => false,
    }
}

/// Whether `ensure` may follow in a body.
fn takes_ensure(before: SectionKind) -> bool
    ensures { result ≡ order.takes_ensure before }
{
    match before {
        SectionKind::Plain | SectionKind::Rescue | SectionKind::Else => true,
        _ => false,
    }
}

/// Whether a clause may follow in `case`.
fn takes_clause(before: SectionKind) -> bool
    ensures { result ≡ order.takes_clause before }
{
    match before {
        SectionKind::Subject | SectionKind::When | SectionKind::Pattern => true,
        _ => false,
    }
}

/// Whether `else` may follow in `case`.
fn takes_case_else(before: SectionKind) -> bool
    ensures { result ≡ order.takes_case_else before }
{
    match before {
        SectionKind::When | SectionKind::Pattern => true,
        _ => false,
    }
}

/// Whether `else` may follow in `if` or `unless`.
fn takes_else(before: SectionKind) -> bool
    ensures { result ≡ order.takes_else before }
{
    match before {
        SectionKind::Test => true,
        _ => false,
    }
}

fn when(may: bool, kind: SectionKind) -> Option<SectionKind>
    ensures { result ≡ order.when may kind }
{
    if may { Some(kind) } else { None }
}

fn next_in_body(before: SectionKind, keyword: Keyword) -> Option<SectionKind>
    ensures { result ≡ order.next_in_body before keyword }
{
    match keyword {
        Keyword::Rescue => when(takes_rescue(before), SectionKind::Rescue),
        Keyword::Else => when(takes_rescue(before), SectionKind::Else),
        Keyword::Ensure => when(takes_ensure(before), SectionKind::Ensure),
        _ => None,
    }
}

fn next_in_case(before: SectionKind, keyword: Keyword) -> Option<SectionKind>
    ensures { result ≡ order.next_in_case before keyword }
{
    match keyword {
        Keyword::When => when(takes_clause(before), SectionKind::When),
        Keyword::In => when(takes_clause(before), SectionKind::Pattern),
        Keyword::Else => when(takes_case_else(before), SectionKind::Else),
        _ => None,
    }
}

fn next_in_if(before: SectionKind, keyword: Keyword) -> Option<SectionKind>
    ensures { result ≡ order.next_in_if before keyword }
{
    match keyword {
        Keyword::Elsif => when(takes_else(before), SectionKind::Test),
        Keyword::Else => when(takes_else(before), SectionKind::Else),
        _ => None,
    }
}

fn next_in_unless(before: SectionKind, keyword: Keyword) -> Option<SectionKind>
    ensures { result ≡ order.next_in_unless before keyword }
{
    match keyword {
        Keyword::Else => when(takes_else(before), SectionKind::Else),
        _ => None,
    }
}

fn next_of(compound: Compound, before: SectionKind, keyword: Keyword) -> Option<SectionKind>
    ensures { result ≡ order.next_of compound before keyword }
{
    match compound {
        Compound::If => next_in_if(before, keyword),
        Compound::Unless => next_in_unless(before, keyword),
        Compound::Case => next_in_case(before, keyword),
        Compound::Body => next_in_body(before, keyword),
        Compound::While | Compound::Until | Compound::For => None,
    }
}

/// The section that the keyword at the front begins behind another one.
pub fn next_section(
    compound: Compound,
    before: SectionKind,
    tokens: &[Token],
) -> Option<SectionKind>
    ensures value { result ≡ order.next_section compound before (front.first tokens.now) }
    ensures there { IsSome result → length (front.behind tokens.now) < length tokens.now }
{
    match first(tokens) {
        Word::Key(keyword) => next_of(compound, before, keyword),
        _ => None,
    }
}
