//! Operators.
ghost use Rattle.std.specs.Prelude.{◌≡◌, IfSome};
ghost use Rattle.integer_operators.specs.Operators as operators;

/// The number of the first row of Integer.
pub const INTEGER_ROWS: u16 = 14 * 256;

/// An operator with an instruction of its own.
#[derive(Clone, Copy, Debug, PartialEq, Eq)]
pub enum Operator {
    Add,
    Subtract,
    Multiply,
    Divide,
    Equal,
    Less,
    AtMost,
    Greater,
    AtLeast,
}

impl Operator {
    /// Whether it compares.
    #[inline(always)]
    pub fn compares(self) -> bool
        ensures { result ≡ operators.compares self }
    {
        match self {
            Operator::Add | Operator::Subtract | Operator::Multiply | Operator::Divide => false,
            Operator::Equal
            | Operator::Less
            | Operator::AtMost
            | Operator::Greater
            | Operator::AtLeast => true,
        }
    }

    /// The row of Integer that its method is.
    pub fn row(self) -> u16
        ensures { result ≡ operators.row_of self }
    {
        let place = match self {
            Operator::Add => 0,
            Operator::Subtract => 1,
            Operator::Multiply => 2,
            Operator::Divide => 3,
            Operator::Equal => 17,
            Operator::Less => 19,
            Operator::AtMost => 20,
            Operator::Greater => 21,
            Operator::AtLeast => 22,
        };
        INTEGER_ROWS + place
    }

    /// The operator whose method a row of Integer is; nothing for the row of any other method.
    #[inline(always)]
    pub fn of_row(row: u16) -> Option<Operator>
        ensures { IfSome result (λ operator. operators.row_of operator ≡ row) }
    {
        match row.checked_sub(INTEGER_ROWS)? {
            0 => Some(Operator::Add),
            1 => Some(Operator::Subtract),
            2 => Some(Operator::Multiply),
            3 => Some(Operator::Divide),
            17 => Some(Operator::Equal),
            19 => Some(Operator::Less),
            20 => Some(Operator::AtMost),
            21 => Some(Operator::Greater),
            22 => Some(Operator::AtLeast),
            _ => None,
        }
    }
}
