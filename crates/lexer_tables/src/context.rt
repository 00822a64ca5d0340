//! What the tokens before a place say of the token there.
use rb_syntax::{Keyword, Punctuator};

/// What stands before a place.
#[derive(Clone, Copy, Debug, PartialEq, Eq)]
pub enum Context {
    /// The text's beginning, the end of a line, a label or what can't end a statement.
    Start,
    /// The `?` of a conditional: as `Start`.
    Question,
    /// `{` or `do`: as `Start`, and a `|` opens the parameters of a block.
    Block,
    /// `rescue`, `case` or the `|` that closes parameters.
    Value,
    /// `return`, `break` or `next`.
    Jump,
    /// An identifier or the name of a method.
    Name,
    /// Anything else that can end a statement.
    Operand,
    /// `def`.
    Def,
    /// The first name after `def`.
    DefName,
    /// The dot after that name.
    DefDot,
    /// `.`, `&.` or `::`.
    Dot,
    /// `alias`.
    Alias,
    /// The first name after `alias`.
    AliasName,
    /// `undef`, or a comma among its names.
    Undef,
    /// A name after `undef`.
    UndefName,
}

impl Context {
    ghost use Rattle.std.specs.Prelude.{◌≡◌};
    ghost use Rattle.lexer_tables.specs.Following as following;

    /// Whether a value is expected.
    pub fn expects_value(self) -> bool
        ensures { result ≡ following.expects_value self }
    {
        match self {
            Context::Start
            | Context::Question
            | Context::Block
            | Context::Value
            | Context::Jump
            | Context::DefDot
            | Context::Dot
            | Context::Alias
            | Context::Undef => true,
            Context::Name
            | Context::Operand
            | Context::Def
            | Context::DefName
            | Context::AliasName
            | Context::UndefName => false,
        }
    }

    /// Whether a statement can end here, so that the end of a line is a token.
    pub fn can_end(self) -> bool
        ensures { result ≡ following.can_end self }
    {
        match self {
            Context::Start
            | Context::Question
            | Context::Block
            | Context::DefDot
            | Context::Dot
            | Context::Alias
            | Context::Undef => false,
            Context::Value
            | Context::Jump
            | Context::Name
            | Context::Operand
            | Context::Def
            | Context::DefName
            | Context::AliasName
            | Context::UndefName => true,
        }
    }

    /// Whether keywords and operators are names here.
    pub fn wants_name(self) -> bool
        ensures { result ≡ following.wants_name self }
    {
        match self {
            Context::Def
            | Context::DefDot
            | Context::Dot
            | Context::Alias
            | Context::AliasName
            | Context::Undef => true,
            Context::Start
            | Context::Question
            | Context::Block
            | Context::Value
            | Context::Jump
            | Context::Name
            | Context::Operand
            | Context::DefName
            | Context::UndefName => false,
        }
    }

    /// Whether the name of the method that `def` makes stands here.
    pub fn is_def(self) -> bool
        ensures { result ≡ following.is_def self }
    {
        self == Context::Def || self == Context::DefDot
    }

    /// Whether an identifier or the name of a method stands before.
    pub fn is_name(self) -> bool
        ensures { result ≡ following.is_name self }
    {
        self == Context::Name
    }

    /// Whether `{` or `do` stands before.
    pub fn is_block(self) -> bool
        ensures { result ≡ following.is_block self }
    {
        self == Context::Block
    }

    /// Whether the `?` of a conditional stands before.
    pub fn is_question(self) -> bool
        ensures { result ≡ following.is_question self }
    {
        self == Context::Question
    }

    /// What stands after a name here.
    pub fn after_name(self) -> Context
        ensures { result ≡ following.after_name self }
    {
        match self {
            Context::Def => Context::DefName,
            Context::DefDot => Context::Operand,
            Context::Alias => Context::AliasName,
            Context::Undef => Context::UndefName,
            Context::Start
            | Context::Question
            | Context::Block
            | Context::Value
            | Context::Jump
            | Context::Name
            | Context::Operand
            | Context::DefName
            | Context::Dot
            | Context::AliasName
            | Context::UndefName => Context::Name,
        }
    }

    /// What stands after a constant here.
    pub fn after_constant(self) -> Context
        ensures { result ≡ following.after_constant self }
    {
        match self.after_name() {
            Context::Name => Context::Operand,
            other => other,
        }
    }

    /// What stands after a symbol here: `alias` and `undef` take symbols for names.
    pub fn after_symbol(self) -> Context
        ensures { result ≡ following.after_symbol self }
    {
        match self {
            Context::Alias => Context::AliasName,
            Context::Undef => Context::UndefName,
            Context::Start
            | Context::Question
            | Context::Block
            | Context::Value
            | Context::Jump
            | Context::Name
            | Context::Operand
            | Context::Def
            | Context::DefName
            | Context::DefDot
            | Context::Dot
            | Context::AliasName
            | Context::UndefName => Context::Operand,
        }
    }

    /// What stands after a mark here.
    #[tactic(auto, unfolding(crate::specs::Following::after_mark))]
    pub fn after_mark(self, mark: Punctuator) -> Context
        ensures { result ≡ following.after_mark self mark }
    {
        match mark {
            Punctuator::Dot => {
                if self == Context::DefName {
                    Context::DefDot
                } else {
                    Context::Dot
                }
            }
            Punctuator::AmpersandDot | Punctuator::ColonColon => Context::Dot,
            Punctuator::Comma => {
                if self == Context::UndefName {
                    Context::Undef
                } else {
                    Context::Start
                }
            }
            Punctuator::OpenBrace => Context::Block,
            Punctuator::Question => Context::Question,
            Punctuator::CloseBar => Context::Value,
            Punctuator::CloseParenthesis | Punctuator::CloseBracket | Punctuator::CloseBrace => {
                Context::Operand
            }
            _ => Context::Start,
        }
    }

    /// Whether a keyword is a modifier where a value is expected at another token here.
    fn is_cut_off(self, keyword: Keyword) -> bool
        ensures { result ≡ following.is_cut_off self keyword }
    {
        self == Context::Jump && can_modify(keyword)
    }

    /// Whether a value is expected at this keyword: after `return` and its kin one that can be a modifier is one.
    pub fn expects_value_at(self, keyword: Keyword) -> bool
        ensures { result ≡ following.expects_value_at self keyword }
    {
        self.expects_value() && !self.is_cut_off(keyword)
    }
}

ghost use Rattle.std.specs.Prelude.{◌≡◌};
ghost use Rattle.lexer_tables.specs.Following as following;

/// Whether the keyword is a modifier where no value is expected.
#[tactic(auto, unfolding(crate::specs::Following::can_modify))]
pub fn can_modify(keyword: Keyword) -> bool
    ensures { result ≡ following.can_modify keyword }
{
    matches!(
        keyword,
        Keyword::If | Keyword::Unless | Keyword::While | Keyword::Until | Keyword::Rescue
    )
}

/// What stands after a keyword.
#[tactic(auto, unfolding(crate::specs::Following::after_keyword))]
pub fn after_keyword(keyword: Keyword) -> Context
    ensures { result ≡ following.after_keyword keyword }
{
    match keyword {
        Keyword::Alias => Context::Alias,
        Keyword::Undef => Context::Undef,
        Keyword::Def => Context::Def,
        Keyword::Do => Context::Block,
        Keyword::Return | Keyword::Break | Keyword::Next => Context::Jump,
        Keyword::Rescue | Keyword::Case => Context::Value,
        Keyword::And
        | Keyword::Begin
        | Keyword::Else
        | Keyword::Elsif
        | Keyword::Ensure
        | Keyword::If
        | Keyword::In
        | Keyword::Module
        | Keyword::Not
        | Keyword::Or
        | Keyword::Then
        | Keyword::Unless
        | Keyword::Until
        | Keyword::When
        | Keyword::While
        | Keyword::Defined => Context::Start,
        _ => Context::Operand,
    }
}
