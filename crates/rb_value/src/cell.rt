//! What a register takes in memory.
ghost use Rattle.std.specs.Prelude.{◌≡◌};
ghost use Rattle.rb_value.specs.Cell as cells;

use crate::value::{ObjId, SymId, Value};

/// A value, or the mark that an exit is kept for the register beside the registers. It takes 16 bytes, where a
/// [`Slot`](crate::Slot) takes 40.
#[derive(Clone, Copy, Debug, Default, PartialEq, Eq)]
pub enum Cell {
    #[default]
    Nil,
    True,
    False,
    Int(i64),
    Sym(SymId),
    Obj(ObjId),
    Kept,
}

impl Cell {
    /// The cell of a value.
    pub fn of(value: Value) -> Cell
        ensures { result ≡ cells.cell_of value }
    {
        match value {
            Value::Nil => Cell::Nil,
            Value::True => Cell::True,
            Value::False => Cell::False,
            Value::Int(number) => Cell::Int(number),
            Value::Sym(symbol) => Cell::Sym(symbol),
            Value::Obj(id) => Cell::Obj(id),
        }
    }

    /// The value; nil where an exit is kept.
    pub fn value(self) -> Value
        ensures { result ≡ cells.value_of self }
    {
        match self {
            Cell::Nil | Cell::Kept => Value::Nil,
            Cell::True => Value::True,
            Cell::False => Value::False,
            Cell::Int(number) => Value::Int(number),
            Cell::Sym(symbol) => Value::Sym(symbol),
            Cell::Obj(id) => Value::Obj(id),
        }
    }

    /// Whether an exit is kept.
    pub fn is_kept(self) -> bool
        ensures { result ≡ cells.is_kept self }
    {
        matches!(self, Cell::Kept)
    }
}
