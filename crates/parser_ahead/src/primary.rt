//! What a primary, a phrase or a part of a list begins with.
ghost use Rattle.std.specs.Prelude.{◌≡◌, ◌<◌, length, IsSome, IsTrue};
ghost use Rattle.parser_tokens.specs.Tokens as front;
ghost use Rattle.parser_ahead.specs.Primary as begins;

use crate::groups::{is_quoted_key, is_target_group};
use crate::names::Names;
use crate::sections::Compound;
use parser_tokens::starts::{Jump, begins_argument, begins_value, jump_at, makes_call};
use parser_tokens::tokens::{bytes_at, first, skip};
use parser_tokens::word::Word;
use rb_syntax::{Keyword, Outside, Punctuator, Token};

/// What a primary begins with.
#[derive(Clone, Copy, Debug, PartialEq, Eq)]
pub enum Primary {
    Local,
    /// A name that is called.
    Name,
    /// The same, not of ASCII.
    OutsideName,
    Super,
    Yield,
    Text,
    QuotedSymbol,
    Group,
    Bracket,
    Brace,
    Lambda,
    /// `defined?` and a parenthesis.
    Defined,
    Compound(Compound),
    Define,
    Class,
    Module,
    /// One word, or nothing that is a primary.
    Leaf,
}

fn mark_primary(mark: Punctuator) -> Primary
    ensures { result ≡ begins.mark_primary mark }
{
    match mark {
        Punctuator::OpenParenthesis => Primary::Group,
        Punctuator::OpenBracket => Primary::Bracket,
        Punctuator::OpenBrace => Primary::Brace,
        Punctuator::LambdaArrow => Primary::Lambda,
        _ => Primary::Leaf,
    }
}

fn keyword_primary(keyword: Keyword, behind: &[Token]) -> Primary
    ensures { result ≡ begins.keyword_primary keyword behind.now }
{
    match keyword {
        Keyword::Super => Primary::Super,
        Keyword::Yield => Primary::Yield,
        Keyword::Def => Primary::Define,
        Keyword::Class => Primary::Class,
        Keyword::Module => Primary::Module,
        Keyword::Defined => match first(behind) {
            Word::Mark(Punctuator::OpenParenthesis) => Primary::Defined,
            _ => Primary::Leaf,
        },
        Keyword::If => Primary::Compound(Compound::If),
        Keyword::Unless => Primary::Compound(Compound::Unless),
        Keyword::While => Primary::Compound(Compound::While),
        Keyword::Until => Primary::Compound(Compound::Until),
        Keyword::For => Primary::Compound(Compound::For),
        Keyword::Case => Primary::Compound(Compound::Case),
        Keyword::Begin => Primary::Compound(Compound::Body),
        _ => Primary::Leaf,
    }
}

/// What the primary at the front begins with.
#[tactic(auto, unfolding(crate::specs::Primary::primary_at))]
pub fn primary_at(names: &Names, tokens: &[Token]) -> Primary
    ensures { result ≡ begins.primary_at names.now tokens.now }
{
    let behind = skip(tokens);
    match first(tokens) {
        Word::Identifier => {
            if !names.is_known(bytes_at(tokens)) {
                Primary::Name
            } else if makes_call(behind) {
                Primary::Name
            } else {
                Primary::Local
            }
        }
        Word::MethodName => Primary::Name,
        Word::Constant => {
            if makes_call(behind) {
                Primary::Name
            } else {
                Primary::Leaf
            }
        }
        Word::Other(Outside::NonAsciiName) => Primary::OutsideName,
        Word::StringBegin | Word::Character => Primary::Text,
        Word::SymbolBegin => Primary::QuotedSymbol,
        Word::Mark(mark) => mark_primary(mark),
        Word::Key(keyword) => keyword_primary(keyword, behind),
        _ => Primary::Leaf,
    }
}

/// Where a phrase stands.
#[derive(Clone, Copy, Debug, PartialEq, Eq)]
pub enum Place {
    /// At the start of a statement.
    Statement,
    /// Where a command is allowed.
    Command,
    /// Where none is.
    Argument,
}

impl Place {
    ghost use Rattle.std.specs.Prelude.{◌≡◌};
    ghost use Rattle.parser_ahead.specs.Primary as begins;

    /// Whether this is the start of a statement.
    pub fn is_statement(self) -> bool
        ensures { result ≡ begins.is_statement self }
    {
        match self {
            Place::Statement => true,
            Place::Command | Place::Argument => false,
        }
    }

    /// Whether a command is allowed.
    pub fn allows_command(self) -> bool
        ensures { result ≡ begins.allows_command self }
    {
        match self {
            Place::Statement | Place::Command => true,
            Place::Argument => false,
        }
    }

    /// The place of an assigned value.
    pub fn of_value(self) -> Place
        ensures { result ≡ begins.of_value self }
    {
        match self {
            Place::Statement | Place::Command => Place::Command,
            Place::Argument => Place::Argument,
        }
    }
}

/// What a phrase begins with.
#[derive(Clone, Copy, Debug, PartialEq, Eq)]
pub enum Start {
    /// `defined?` without a parenthesis.
    Defined,
    /// `!` where a command is allowed.
    Not,
    /// `return`, `break` or `next` with a list.
    Jump(Jump),
    /// `yield` with a list.
    Yield,
    /// The targets of a multiple assignment.
    Targets,
    Operand,
}

fn yield_start(behind: &[Token]) -> Start
    ensures { result ≡ begins.yield_start behind.now }
{
    if begins_argument(behind) {
        Start::Yield
    } else {
        Start::Operand
    }
}

#[tactic(auto, unfolding(crate::specs::Primary::command_start))]
fn command_start(tokens: &[Token]) -> Start
    ensures { result ≡ begins.command_start tokens.now }
{
    let behind = skip(tokens);
    match jump_at(tokens) {
        Some(jump) => {
            if begins_value(first(behind)) {
                Start::Jump(jump)
            } else {
                Start::Operand
            }
        }
        None => match first(tokens) {
            Word::Mark(Punctuator::Not) => Start::Not,
            Word::Key(Keyword::Yield) => yield_start(behind),
            _ => Start::Operand,
        },
    }
}

fn other_start(place: Place, tokens: &[Token]) -> Start
    ensures { result ≡ begins.other_start place tokens.now }
{
    if place.is_statement() && is_target_group(tokens) {
        Start::Targets
    } else if place.allows_command() {
        command_start(tokens)
    } else {
        Start::Operand
    }
}

/// What the phrase at the front begins with.
#[tactic(auto, unfolding(crate::specs::Primary::start_at))]
pub fn start_at(place: Place, tokens: &[Token]) -> Start
    ensures { result ≡ begins.start_at place tokens.now }
{
    match first(tokens) {
        Word::Key(Keyword::Defined) => match first(skip(tokens)) {
            Word::Mark(Punctuator::OpenParenthesis) => Start::Operand,
            _ => Start::Defined,
        },
        Word::Mark(Punctuator::Star) => {
            if place.is_statement() {
                Start::Targets
            } else {
                other_start(place, tokens)
            }
        }
        _ => other_start(place, tokens),
    }
}

/// What a part of a list begins with.
#[derive(Clone, Copy, Debug, PartialEq, Eq)]
pub enum PartStart {
    Splat,
    DoubleSplat,
    Block,
    Label,
    QuotedKey,
    Value,
}

/// What the part of a list at the front begins with.
#[tactic(auto, unfolding(crate::specs::Primary::part_at))]
pub fn part_at(tokens: &[Token]) -> PartStart
    ensures { result ≡ begins.part_at tokens.now }
{
    match first(tokens) {
        Word::Mark(Punctuator::Star) => PartStart::Splat,
        Word::Mark(Punctuator::StarStar) => PartStart::DoubleSplat,
        Word::Mark(Punctuator::Ampersand) => PartStart::Block,
        Word::Label => PartStart::Label,
        Word::StringBegin => {
            if is_quoted_key(tokens) {
                PartStart::QuotedKey
            } else {
                PartStart::Value
            }
        }
        _ => PartStart::Value,
    }
}

/// Whom a `do` belongs to.
#[derive(Clone, Copy, Debug, PartialEq, Eq)]
pub enum DoOwner {
    /// The call before it.
    Call,
    /// A command around it.
    Command,
    /// The loop whose head is open.
    Loop,
}

impl DoOwner {
    ghost use Rattle.std.specs.Prelude.{◌≡◌};
    ghost use Rattle.parser_ahead.specs.Primary as begins;

    /// Whether the call before it takes it.
    fn call_takes(self) -> bool
        ensures { result ≡ begins.call_takes self }
    {
        match self {
            DoOwner::Call => true,
            DoOwner::Command | DoOwner::Loop => false,
        }
    }

    /// Whether the lambda before it takes it.
    fn lambda_takes(self) -> bool
        ensures { result ≡ begins.lambda_takes self }
    {
        match self {
            DoOwner::Call | DoOwner::Command => true,
            DoOwner::Loop => false,
        }
    }

    /// Whom it belongs to among the arguments of a command.
    pub fn in_command(self) -> DoOwner
        ensures { result ≡ begins.in_command self }
    {
        match self {
            DoOwner::Call | DoOwner::Command => DoOwner::Command,
            DoOwner::Loop => DoOwner::Loop,
        }
    }
}

/// How a block is written.
#[derive(Clone, Copy, Debug, PartialEq, Eq)]
pub enum BlockStyle {
    Brace,
    Do,
}

fn block_of(takes: bool, tokens: &[Token]) -> Option<BlockStyle>
    ensures value { result ≡ begins.block_of takes (front.first tokens.now) }
    ensures there { IsSome result → length (front.behind tokens.now) < length tokens.now }
{
    match first(tokens) {
        Word::Mark(Punctuator::OpenBrace) => Some(BlockStyle::Brace),
        Word::Key(Keyword::Do) => { if takes { Some(BlockStyle::Do) } else { None } }
        _ => None,
    }
}

/// The block that opens directly behind a call.
pub fn block_at(owner: DoOwner, tokens: &[Token]) -> Option<BlockStyle>
    ensures value { result ≡ begins.block_at owner tokens.now }
    ensures there { IsSome result → length (front.behind tokens.now) < length tokens.now }
{
    block_of(owner.call_takes(), tokens)
}

/// The block that opens directly behind `->` and its parameters.
pub fn lambda_block_at(owner: DoOwner, tokens: &[Token]) -> Option<BlockStyle>
    ensures value { result ≡ begins.lambda_block_at owner tokens.now }
    ensures there { IsSome result → length (front.behind tokens.now) < length tokens.now }
{
    block_of(owner.lambda_takes(), tokens)
}

/// Whether a comma stands at the front.
pub fn is_comma(tokens: &[Token]) -> bool
    ensures value { result ≡ begins.is_comma_word (front.first tokens.now) }
    ensures there { IsTrue result → length (front.behind tokens.now) < length tokens.now }
{
    matches!(first(tokens), Word::Mark(Punctuator::Comma))
}

/// Whether `=>` stands at the front.
pub fn is_arrow(tokens: &[Token]) -> bool
    ensures value { result ≡ begins.is_arrow_word (front.first tokens.now) }
    ensures there { IsTrue result → length (front.behind tokens.now) < length tokens.now }
{
    matches!(first(tokens), Word::Mark(Punctuator::Arrow))
}

/// Whether the name of a method stands at the front.
pub fn is_name(tokens: &[Token]) -> bool
    ensures value { result ≡ begins.is_name_word (front.first tokens.now) }
    ensures there { IsTrue result → length (front.behind tokens.now) < length tokens.now }
{
    matches!(
        first(tokens),
        Word::Identifier | Word::Constant | Word::MethodName
    )
}

/// Whether a word that `alias` and `undef` name a method with stands at the front: a name, or a symbol.
pub fn is_method(tokens: &[Token]) -> bool
    ensures value { result ≡ begins.is_method_word (front.first tokens.now) }
    ensures there { IsTrue result → length (front.behind tokens.now) < length tokens.now }
{
    matches!(
        first(tokens),
        Word::Identifier | Word::Constant | Word::MethodName | Word::Symbol
    )
}
