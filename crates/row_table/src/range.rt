//! The methods of Range (ISO/IEC 30170:2012, 15.2.14).
use crate::line::{CoreRow, Line};
use crate::signature::{Marks, Signature, Wanted};
use rb_value::CoreClass;

const ANY: Wanted = Wanted::Any;

const INTEGER: Wanted = Wanted::Of(CoreClass::Integer);

const RANGE: Wanted = Wanted::Of(CoreClass::Range);

const CLASS: Wanted = Wanted::Of(CoreClass::Class);

/// A method of Range.
#[derive(Clone, Copy, Debug, PartialEq, Eq)]
pub enum RangeMethod {
    First,
    Last,
    Begin,
    End,
    Size,
    IsExclusive,
    Includes,
    HasMember,
    Matches,
    Equal,
    ToText,
    Inspect,
}

macro_rules! range_rows {
    ($make:ident) => {
        $make! { Range RangeMethod RANGE;
            First b"first" 0 Some(1), Marks::Plain, INTEGER, ANY;
            Last b"last" 0 Some(0), Marks::Plain, ANY, ANY;
            Begin b"begin" 0 Some(0), Marks::Plain, ANY, ANY;
            End b"end" 0 Some(0), Marks::Plain, ANY, ANY;
            Size b"size" 0 Some(0), Marks::Plain, ANY, ANY;
            IsExclusive b"exclude_end?" 0 Some(0), Marks::Plain, ANY, ANY;
            Includes b"include?" 1 Some(1), Marks::Plain, ANY, ANY;
            HasMember b"member?" 1 Some(1), Marks::Plain, ANY, ANY;
            Matches b"===" 1 Some(1), Marks::Plain, ANY, ANY;
            Equal b"==" 1 Some(1), Marks::Plain, ANY, ANY;
            ToText b"to_s" 0 Some(0), Marks::Plain, ANY, ANY;
            Inspect b"inspect" 0 Some(0), Marks::Plain, ANY, ANY;
        }
    };
}

/// In the order of the rows.
pub const RANGE_ROWS: [Line; 12] = range_rows!(lines);

/// The names of the methods, in the order of the rows.
pub const RANGE_NAMES: [&[u8]; 12] = range_rows!(names);

/// A method of the class Range itself.
#[derive(Clone, Copy, Debug, PartialEq, Eq)]
pub enum RangeClassMethod {
    New,
}

macro_rules! range_class_rows {
    ($make:ident) => {
        $make! { RangeClass RangeClassMethod CLASS;
            New b"new" 2 Some(3), Marks::Plain, ANY, ANY;
        }
    };
}

/// In the order of the rows.
pub const RANGE_CLASS_ROWS: [Line; 1] = range_class_rows!(lines);

/// The names of the methods, in the order of the rows.
pub const RANGE_CLASS_NAMES: [&[u8]; 1] = range_class_rows!(names);
