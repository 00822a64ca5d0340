//! The methods of nil, true and false (ISO/IEC 30170:2012, 15.2.4 to 15.2.6).
use crate::line::{CoreRow, Line};
use crate::signature::{Marks, Signature, Wanted};
use rb_value::CoreClass;

const ANY: Wanted = Wanted::Any;

const NIL: Wanted = Wanted::Of(CoreClass::NilClass);

const TRUE: Wanted = Wanted::Of(CoreClass::TrueClass);

const FALSE: Wanted = Wanted::Of(CoreClass::FalseClass);

/// A method of nil.
#[derive(Clone, Copy, Debug, PartialEq, Eq)]
pub enum NilMethod {
    ToText,
    Inspect,
    And,
    Or,
    Xor,
    ToArray,
    ToInteger,
}

macro_rules! nil_rows {
    ($make:ident) => {
        $make! { Nil NilMethod NIL;
            ToText b"to_s" 0 Some(0), Marks::Plain, ANY, ANY;
            Inspect b"inspect" 0 Some(0), Marks::Plain, ANY, ANY;
            And b"&" 1 Some(1), Marks::Plain, ANY, ANY;
            Or b"|" 1 Some(1), Marks::Plain, ANY, ANY;
            Xor b"^" 1 Some(1), Marks::Plain, ANY, ANY;
            ToArray b"to_a" 0 Some(0), Marks::Plain, ANY, ANY;
            ToInteger b"to_i" 0 Some(0), Marks::Plain, ANY, ANY;
        }
    };
}

/// In the order of the rows.
pub const NIL_ROWS: [Line; 7] = nil_rows!(lines);

/// The names of the methods of nil, in the order of the rows.
pub const NIL_NAMES: [&[u8]; 7] = nil_rows!(names);

/// A method of true, and of false.
#[derive(Clone, Copy, Debug, PartialEq, Eq)]
pub enum TruthMethod {
    ToText,
    Inspect,
    And,
    Or,
    Xor,
}

macro_rules! truth_rows {
    ($make:ident $segment:ident $receiver:ident) => {
        $make! { $segment TruthMethod $receiver;
            ToText b"to_s" 0 Some(0), Marks::Plain, ANY, ANY;
            Inspect b"inspect" 0 Some(0), Marks::Plain, ANY, ANY;
            And b"&" 1 Some(1), Marks::Plain, ANY, ANY;
            Or b"|" 1 Some(1), Marks::Plain, ANY, ANY;
            Xor b"^" 1 Some(1), Marks::Plain, ANY, ANY;
        }
    };
}

/// In the order of the rows.
pub const TRUE_ROWS: [Line; 5] = truth_rows!(lines True TRUE);

/// In the order of the rows.
pub const FALSE_ROWS: [Line; 5] = truth_rows!(lines False FALSE);

/// The names of the methods of true and of false, in the order of the rows.
pub const TRUTH_NAMES: [&[u8]; 5] = truth_rows!(names True TRUE);
