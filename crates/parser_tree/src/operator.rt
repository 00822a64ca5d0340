ghost use Rattle.std.specs.Prelude.{◌≡◌};

/// An operator between two operands that is the call of a method (ISO/IEC 30170:2012, 11.4).
#[derive(Clone, Copy, Debug, PartialEq, Eq)]
pub enum BinaryOperator {
    Power,
    Times,
    Divide,
    Modulo,
    Plus,
    Minus,
    ShiftLeft,
    ShiftRight,
    BitAnd,
    BitOr,
    BitXor,
    Greater,
    GreaterEqual,
    Less,
    LessEqual,
    Compare,
    Equal,
    CaseEqual,
    NotEqual,
}

/// An operator before its operand that is the call of a method. `!` is a rule of its own.
#[derive(Clone, Copy, Debug, PartialEq, Eq)]
pub enum UnaryOperator {
    Plus,
    Minus,
    Complement,
}

/// What stands before the `=` of an abbreviated assignment (ISO/IEC 30170:2012, 11.4.2.3).
#[derive(Clone, Copy, Debug, PartialEq, Eq)]
pub enum AssignmentOperator {
    Operation(BinaryOperator),
    And,
    Or,
}

impl BinaryOperator {
    ghost use Rattle.parser_tree.specs.Operator as operators;

    /// The name of its method.
    pub fn name(self) -> &'static [u8]
        ensures { result.now ≡ operators.binary_name self }
    {
        match self {
            BinaryOperator::Power => b"**",
            BinaryOperator::Times => b"*",
            BinaryOperator::Divide => b"/",
            BinaryOperator::Modulo => b"%",
            BinaryOperator::Plus => b"+",
            BinaryOperator::Minus => b"-",
            BinaryOperator::ShiftLeft => b"<<",
            BinaryOperator::ShiftRight => b">>",
            BinaryOperator::BitAnd => b"&",
            BinaryOperator::BitOr => b"|",
            BinaryOperator::BitXor => b"^",
            BinaryOperator::Greater => b">",
            BinaryOperator::GreaterEqual => b">=",
            BinaryOperator::Less => b"<",
            BinaryOperator::LessEqual => b"<=",
            BinaryOperator::Compare => b"<=>",
            BinaryOperator::Equal => b"==",
            BinaryOperator::CaseEqual => b"===",
            BinaryOperator::NotEqual => b"!=",
        }
    }
}

impl UnaryOperator {
    ghost use Rattle.parser_tree.specs.Operator as operators;

    /// The name of its method.
    pub fn name(self) -> &'static [u8]
        ensures { result.now ≡ operators.unary_name self }
    {
        match self {
            UnaryOperator::Plus => b"+@",
            UnaryOperator::Minus => b"-@",
            UnaryOperator::Complement => b"~",
        }
    }
}
