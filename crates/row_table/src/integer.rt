//! The methods of Integer (ISO/IEC 30170:2012, 15.2.8).
use crate::line::{CoreRow, Line};
use crate::signature::{Marks, Signature, Wanted};
use rb_value::CoreClass;

const ANY: Wanted = Wanted::Any;

const INTEGER: Wanted = Wanted::Of(CoreClass::Integer);

const COMPARABLE: Wanted = Wanted::Comparable(CoreClass::Integer);

/// A method of Integer.
#[derive(Clone, Copy, Debug, PartialEq, Eq)]
pub enum IntegerMethod {
    Plus,
    Minus,
    Times,
    Divide,
    Percent,
    Power,
    Div,
    Modulo,
    Divmod,
    Negate,
    Itself,
    Complement,
    And,
    Or,
    Xor,
    Left,
    Right,
    Equal,
    Order,
    Less,
    AtMost,
    Greater,
    AtLeast,
    Absolute,
    Successor,
    Next,
    Predecessor,
    Character,
    Ordinal,
    ToInteger,
    ToText,
    Inspect,
    IsZero,
    IsEven,
    IsOdd,
    IsPositive,
    IsNegative,
    IsBetween,
    Clamp,
}

macro_rules! integer_rows {
    ($make:ident) => {
        $make! { Integer IntegerMethod INTEGER;
            Plus b"+" 1 Some(1), Marks::Plain, INTEGER, ANY;
            Minus b"-" 1 Some(1), Marks::Plain, INTEGER, ANY;
            Times b"*" 1 Some(1), Marks::Plain, INTEGER, ANY;
            Divide b"/" 1 Some(1), Marks::Plain, INTEGER, ANY;
            Percent b"%" 1 Some(1), Marks::Plain, INTEGER, ANY;
            Power b"**" 1 Some(1), Marks::Plain, INTEGER, ANY;
            Div b"div" 1 Some(1), Marks::Plain, INTEGER, ANY;
            Modulo b"modulo" 1 Some(1), Marks::Plain, INTEGER, ANY;
            Divmod b"divmod" 1 Some(1), Marks::Plain, INTEGER, ANY;
            Negate b"-@" 0 Some(0), Marks::Plain, ANY, ANY;
            Itself b"+@" 0 Some(0), Marks::Plain, ANY, ANY;
            Complement b"~" 0 Some(0), Marks::Plain, ANY, ANY;
            And b"&" 1 Some(1), Marks::Plain, INTEGER, ANY;
            Or b"|" 1 Some(1), Marks::Plain, INTEGER, ANY;
            Xor b"^" 1 Some(1), Marks::Plain, INTEGER, ANY;
            Left b"<<" 1 Some(1), Marks::Plain, INTEGER, ANY;
            Right b">>" 1 Some(1), Marks::Plain, INTEGER, ANY;
            Equal b"==" 1 Some(1), Marks::Plain, ANY, ANY;
            Order b"<=>" 1 Some(1), Marks::Plain, ANY, ANY;
            Less b"<" 1 Some(1), Marks::Plain, COMPARABLE, ANY;
            AtMost b"<=" 1 Some(1), Marks::Plain, COMPARABLE, ANY;
            Greater b">" 1 Some(1), Marks::Plain, COMPARABLE, ANY;
            AtLeast b">=" 1 Some(1), Marks::Plain, COMPARABLE, ANY;
            Absolute b"abs" 0 Some(0), Marks::Plain, ANY, ANY;
            Successor b"succ" 0 Some(0), Marks::Plain, ANY, ANY;
            Next b"next" 0 Some(0), Marks::Plain, ANY, ANY;
            Predecessor b"pred" 0 Some(0), Marks::Plain, ANY, ANY;
            Character b"chr" 0 Some(0), Marks::Plain, ANY, ANY;
            Ordinal b"ord" 0 Some(0), Marks::Plain, ANY, ANY;
            ToInteger b"to_i" 0 Some(0), Marks::Plain, ANY, ANY;
            ToText b"to_s" 0 Some(1), Marks::Plain, INTEGER, ANY;
            Inspect b"inspect" 0 Some(0), Marks::Plain, ANY, ANY;
            IsZero b"zero?" 0 Some(0), Marks::Plain, ANY, ANY;
            IsEven b"even?" 0 Some(0), Marks::Plain, ANY, ANY;
            IsOdd b"odd?" 0 Some(0), Marks::Plain, ANY, ANY;
            IsPositive b"positive?" 0 Some(0), Marks::Plain, ANY, ANY;
            IsNegative b"negative?" 0 Some(0), Marks::Plain, ANY, ANY;
            IsBetween b"between?" 2 Some(2), Marks::Plain, INTEGER, INTEGER;
            Clamp b"clamp" 2 Some(2), Marks::Plain, INTEGER, INTEGER;
        }
    };
}

/// In the order of the rows.
pub const INTEGER_ROWS: [Line; 39] = integer_rows!(lines);

/// The names of the methods, in the order of the rows.
pub const INTEGER_NAMES: [&[u8]; 39] = integer_rows!(names);
