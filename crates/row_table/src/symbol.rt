//! The methods of Symbol (ISO/IEC 30170:2012, 15.2.11).
use crate::line::{CoreRow, Line};
use crate::signature::{Marks, Signature, Wanted};
use rb_value::CoreClass;

const ANY: Wanted = Wanted::Any;

const SYMBOL: Wanted = Wanted::Of(CoreClass::Symbol);

/// A method of Symbol.
#[derive(Clone, Copy, Debug, PartialEq, Eq)]
pub enum SymbolMethod {
    ToText,
    ToSymbol,
    Inspect,
    Length,
    Size,
    Order,
}

macro_rules! symbol_rows {
    ($make:ident) => {
        $make! { Symbol SymbolMethod SYMBOL;
            ToText b"to_s" 0 Some(0), Marks::Plain, ANY, ANY;
            ToSymbol b"to_sym" 0 Some(0), Marks::Plain, ANY, ANY;
            Inspect b"inspect" 0 Some(0), Marks::Plain, ANY, ANY;
            Length b"length" 0 Some(0), Marks::Plain, ANY, ANY;
            Size b"size" 0 Some(0), Marks::Plain, ANY, ANY;
            Order b"<=>" 1 Some(1), Marks::Plain, ANY, ANY;
        }
    };
}

/// In the order of the rows.
pub const SYMBOL_ROWS: [Line; 6] = symbol_rows!(lines);

/// The names of the methods, in the order of the rows.
pub const SYMBOL_NAMES: [&[u8]; 6] = symbol_rows!(names);
