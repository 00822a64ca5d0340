/// A mark that is a token: an operator, an assignment operator, a bracket or a separator. A unary `+` or `-`
/// is the mark of the binary one where a value is expected.
#[derive(Clone, Copy, Debug, PartialEq, Eq)]
pub enum Punctuator {
    Plus,
    Minus,
    Star,
    Slash,
    Percent,
    StarStar,
    /// `!`
    Not,
    /// `~`
    Tilde,
    /// `==`
    Equal,
    /// `===`
    CaseEqual,
    /// `!=`
    NotEqual,
    /// `=~`
    Match,
    /// `!~`
    NotMatch,
    Less,
    LessEqual,
    Greater,
    GreaterEqual,
    /// `<=>`
    Compare,
    ShiftLeft,
    ShiftRight,
    /// `&`
    Ampersand,
    /// `|` as an operator
    Bar,
    /// `|` that opens the parameters of a block
    OpenBar,
    /// `|` that closes them
    CloseBar,
    /// `^`
    Caret,
    /// `&&`
    AndAnd,
    /// `||`
    OrOr,
    /// `=`
    Assign,
    PlusAssign,
    MinusAssign,
    StarAssign,
    SlashAssign,
    PercentAssign,
    StarStarAssign,
    ShiftLeftAssign,
    ShiftRightAssign,
    AmpersandAssign,
    BarAssign,
    CaretAssign,
    AndAndAssign,
    OrOrAssign,
    /// `..`
    DotDot,
    /// `...`
    DotDotDot,
    Question,
    Colon,
    /// `::`
    ColonColon,
    /// `=>`
    Arrow,
    /// `->`
    LambdaArrow,
    Dot,
    /// `&.`
    AmpersandDot,
    Comma,
    OpenParenthesis,
    CloseParenthesis,
    OpenBracket,
    CloseBracket,
    OpenBrace,
    CloseBrace,
}
