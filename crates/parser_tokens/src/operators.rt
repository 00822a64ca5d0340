//! The operators between operands, with their levels, those before an operand, and those of assignments.
ghost use Rattle.std.specs.Prelude.{◌≡◌, ◌<◌, length, IsSome};
ghost use Rattle.parser_tokens.specs.Tokens as front;
ghost use Rattle.parser_tokens.specs.Operators as operators;

use crate::tokens::{first, skip};
use crate::word::Word;
use parser_tree::{AssignmentOperator, BinaryOperator, UnaryOperator};
use rb_syntax::{Keyword, Outside, Punctuator, Token};

/// An operator between two operands.
#[derive(Clone, Copy, Debug, PartialEq, Eq)]
pub enum Infix {
    Operation(BinaryOperator),
    And,
    Or,
    /// `..`
    Range,
    /// `...`, which leaves the end out.
    RangeExclusive,
    /// `=~` or `!~`, outside the language.
    Match,
    /// A mark that may begin a literal, outside the language.
    Ambiguous,
}

/// The operator that a mark is between operands.
fn infix_mark(mark: Punctuator) -> Option<Infix>
    ensures { result ≡ operators.infix_mark mark }
{
    match mark {
        Punctuator::StarStar => Some(Infix::Operation(BinaryOperator::Power)),
        Punctuator::Star => Some(Infix::Operation(BinaryOperator::Times)),
        Punctuator::Slash => Some(Infix::Operation(BinaryOperator::Divide)),
        Punctuator::Percent => Some(Infix::Operation(BinaryOperator::Modulo)),
        Punctuator::Plus => Some(Infix::Operation(BinaryOperator::Plus)),
        Punctuator::Minus => Some(Infix::Operation(BinaryOperator::Minus)),
        Punctuator::ShiftLeft => Some(Infix::Operation(BinaryOperator::ShiftLeft)),
        Punctuator::ShiftRight => Some(Infix::Operation(BinaryOperator::ShiftRight)),
        Punctuator::Ampersand => Some(Infix::Operation(BinaryOperator::BitAnd)),
        Punctuator::Bar => Some(Infix::Operation(BinaryOperator::BitOr)),
        Punctuator::Caret => Some(Infix::Operation(BinaryOperator::BitXor)),
        Punctuator::Greater => Some(Infix::Operation(BinaryOperator::Greater)),
        Punctuator::GreaterEqual => Some(Infix::Operation(BinaryOperator::GreaterEqual)),
        Punctuator::Less => Some(Infix::Operation(BinaryOperator::Less)),
        Punctuator::LessEqual => Some(Infix::Operation(BinaryOperator::LessEqual)),
        Punctuator::Compare => Some(Infix::Operation(BinaryOperator::Compare)),
        Punctuator::Equal => Some(Infix::Operation(BinaryOperator::Equal)),
        Punctuator::CaseEqual => Some(Infix::Operation(BinaryOperator::CaseEqual)),
        Punctuator::NotEqual => Some(Infix::Operation(BinaryOperator::NotEqual)),
        Punctuator::Match | Punctuator::NotMatch => Some(Infix::Match),
        Punctuator::AndAnd => Some(Infix::And),
        Punctuator::OrOr => Some(Infix::Or),
        Punctuator::DotDot => Some(Infix::Range),
        Punctuator::DotDotDot => Some(Infix::RangeExclusive),
        _ => None,
    }
}

fn infix_of(word: Word) -> Option<Infix>
    ensures { result ≡ operators.infix_of word }
{
    match word {
        Word::Mark(mark) => infix_mark(mark),
        Word::Other(Outside::Ambiguous) => Some(Infix::Ambiguous),
        _ => None,
    }
}

/// The level of a method's operator: the lower, the tighter.
fn operation_level(operator: BinaryOperator) -> u8
    ensures { result ≡ operators.operation_level operator }
{
    match operator {
        BinaryOperator::Power => 2,
        BinaryOperator::Times | BinaryOperator::Divide | BinaryOperator::Modulo => 4,
        BinaryOperator::Plus | BinaryOperator::Minus => 5,
        BinaryOperator::ShiftLeft | BinaryOperator::ShiftRight => 6,
        BinaryOperator::BitAnd => 7,
        BinaryOperator::BitOr | BinaryOperator::BitXor => 8,
        BinaryOperator::Greater
        | BinaryOperator::GreaterEqual
        | BinaryOperator::Less
        | BinaryOperator::LessEqual => 9,
        BinaryOperator::Compare
        | BinaryOperator::Equal
        | BinaryOperator::CaseEqual
        | BinaryOperator::NotEqual => 10,
    }
}

/// Whether an operator compares for equality or order, with one result for all.
fn is_comparison(operator: BinaryOperator) -> bool
    ensures { result ≡ operators.is_comparison operator }
{
    match operator {
        BinaryOperator::Compare
        | BinaryOperator::Equal
        | BinaryOperator::CaseEqual
        | BinaryOperator::NotEqual => true,
        _ => false,
    }
}

impl Infix {
    ghost use Rattle.std.specs.Prelude.{◌≡◌};
    ghost use Rattle.parser_tokens.specs.Operators as operators;

    /// The level: the lower, the tighter.
    pub fn level(self) -> u8
        ensures { result ≡ operators.level self }
    {
        match self {
            Infix::Operation(operator) => operation_level(operator),
            Infix::Ambiguous => 4,
            Infix::Match => 10,
            Infix::And => 11,
            Infix::Or => 12,
            Infix::Range | Infix::RangeExclusive => 13,
        }
    }

    /// The loosest level of operators in its right operand.
    pub fn right_level(self) -> u8
        ensures { result ≡ operators.right_level self }
    {
        match self {
            Infix::Operation(BinaryOperator::Power) => 2,
            Infix::Operation(
                BinaryOperator::Times | BinaryOperator::Divide | BinaryOperator::Modulo,
            )
            | Infix::Ambiguous => 3,
            Infix::Operation(BinaryOperator::Plus | BinaryOperator::Minus) => 4,
            Infix::Operation(BinaryOperator::ShiftLeft | BinaryOperator::ShiftRight) => 5,
            Infix::Operation(BinaryOperator::BitAnd) => 6,
            Infix::Operation(BinaryOperator::BitOr | BinaryOperator::BitXor) => 7,
            Infix::Operation(
                BinaryOperator::Greater
                | BinaryOperator::GreaterEqual
                | BinaryOperator::Less
                | BinaryOperator::LessEqual,
            ) => 8,
            Infix::Operation(
                BinaryOperator::Compare
                | BinaryOperator::Equal
                | BinaryOperator::CaseEqual
                | BinaryOperator::NotEqual,
            )
            | Infix::Match => 9,
            Infix::And => 10,
            Infix::Or => 11,
            Infix::Range | Infix::RangeExclusive => 12,
        }
    }

    /// Whether no second operator of its level may follow its right operand.
    pub fn is_single(self) -> bool
        ensures { result ≡ operators.is_single self }
    {
        match self {
            Infix::Operation(operator) => is_comparison(operator),
            Infix::Match | Infix::Range | Infix::RangeExclusive => true,
            Infix::And | Infix::Or | Infix::Ambiguous => false,
        }
    }
}

/// The operator at the front, where its level is at most `loosest`.
#[tactic(auto, unfolding(crate::specs::Operators::infix_at))]
pub fn infix_at(tokens: &[Token], loosest: u8) -> Option<Infix>
    ensures value { result ≡ operators.infix_at loosest (front.first tokens.now) }
    ensures there { IsSome result → length (front.behind tokens.now) < length tokens.now }
{
    match infix_of(first(tokens)) {
        Some(infix) if infix.level() <= loosest => Some(infix),
        _ => None,
    }
}

/// Whether an operator that wants no second of its level has one behind its right operand.
pub fn clashes(operator: Infix, tokens: &[Token]) -> bool
    ensures { result ≡ operators.clashes operator (front.first tokens.now) }
{
    operator.is_single() && infix_at(tokens, operator.level()).is_some()
}

/// An operator before its operand.
#[derive(Clone, Copy, Debug, PartialEq, Eq)]
pub enum Prefix {
    Not,
    Operation(UnaryOperator),
}

/// Whether the tokens behind a `-` make it the sign of an integer: digits stand directly there, and no `**`
/// behind them.
#[tactic(auto, unfolding(crate::specs::Operators::is_sign))]
pub fn is_sign(behind: &[Token]) -> bool
    ensures { result ≡ operators.is_sign behind.now }
{
    match first(behind) {
        Word::Integer if !crate::tokens::is_apart(behind) => {
            !matches!(first(skip(behind)), Word::Mark(Punctuator::StarStar))
        }
        _ => false,
    }
}

/// The operator before an operand, where there is one. The sign of an integer is none.
#[tactic(auto, unfolding(crate::specs::Operators::prefix_at))]
pub fn prefix_at(tokens: &[Token]) -> Option<Prefix>
    ensures value { result ≡ operators.prefix_at tokens.now }
    ensures there { IsSome result → length (front.behind tokens.now) < length tokens.now }
{
    match first(tokens) {
        Word::Mark(Punctuator::Not) => Some(Prefix::Not),
        Word::Mark(Punctuator::Tilde) => Some(Prefix::Operation(UnaryOperator::Complement)),
        Word::Mark(Punctuator::Plus) => Some(Prefix::Operation(UnaryOperator::Plus)),
        Word::Mark(Punctuator::Minus) if !is_sign(skip(tokens)) => {
            Some(Prefix::Operation(UnaryOperator::Minus))
        }
        _ => None,
    }
}

/// `=`, or an operator with `=` behind it.
#[derive(Clone, Copy, Debug, PartialEq, Eq)]
pub enum Assignment {
    Plain,
    Operation(AssignmentOperator),
}

fn assignment_mark(mark: Punctuator) -> Option<Assignment>
    ensures { result ≡ operators.assignment_mark mark }
{
    let operator = match mark {
        Punctuator::Assign => return Some(Assignment::Plain),
        Punctuator::AndAndAssign => {
            return Some(Assignment::Operation(AssignmentOperator::And));
        }
        Punctuator::OrOrAssign => return Some(Assignment::Operation(AssignmentOperator::Or)),
        Punctuator::PlusAssign => BinaryOperator::Plus,
        Punctuator::MinusAssign => BinaryOperator::Minus,
        Punctuator::StarAssign => BinaryOperator::Times,
        Punctuator::SlashAssign => BinaryOperator::Divide,
        Punctuator::PercentAssign => BinaryOperator::Modulo,
        Punctuator::StarStarAssign => BinaryOperator::Power,
        Punctuator::ShiftLeftAssign => BinaryOperator::ShiftLeft,
        Punctuator::ShiftRightAssign => BinaryOperator::ShiftRight,
        Punctuator::AmpersandAssign => BinaryOperator::BitAnd,
        Punctuator::BarAssign => BinaryOperator::BitOr,
        Punctuator::CaretAssign => BinaryOperator::BitXor,
        _ => return None,
    };
    Some(Assignment::Operation(AssignmentOperator::Operation(operator)))
}

/// The assignment operator at the front.
pub fn assignment_at(tokens: &[Token]) -> Option<Assignment>
    ensures value { result ≡ operators.assignment_at (front.first tokens.now) }
    ensures there { IsSome result → length (front.behind tokens.now) < length tokens.now }
{
    match first(tokens) {
        Word::Mark(mark) => assignment_mark(mark),
        _ => None,
    }
}

/// `and` or `or`.
#[derive(Clone, Copy, Debug, PartialEq, Eq)]
pub enum Junction {
    And,
    Or,
}

/// The `and` or `or` at the front.
pub fn junction_at(tokens: &[Token]) -> Option<Junction>
    ensures value { result ≡ operators.junction_at (front.first tokens.now) }
    ensures there { IsSome result → length (front.behind tokens.now) < length tokens.now }
{
    match first(tokens) {
        Word::Key(Keyword::And) => Some(Junction::And),
        Word::Key(Keyword::Or) => Some(Junction::Or),
        _ => None,
    }
}
