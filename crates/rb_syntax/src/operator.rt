ghost use Rattle.std.specs.Prelude.{◌≡◌};

/// A binary operator whose call is a core method of Integer.
#[derive(Clone, Copy, Debug, PartialEq, Eq)]
pub enum Operator {
    Plus,
    Minus,
    Times,
    Equal,
    Less,
    LessEqual,
    Greater,
    GreaterEqual,
}

impl Operator {
    ghost use Rattle.rb_syntax.specs.Operator.{name_of};

    /// The name of the method.
    pub fn name(self) -> &'static [u8]
        ensures { result.now ≡ name_of self }
    {
        match self {
            Operator::Plus => b"+",
            Operator::Minus => b"-",
            Operator::Times => b"*",
            Operator::Equal => b"==",
            Operator::Less => b"<",
            Operator::LessEqual => b"<=",
            Operator::Greater => b">",
            Operator::GreaterEqual => b">=",
        }
    }
}
