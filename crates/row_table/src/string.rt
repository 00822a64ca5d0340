//! The methods of String (ISO/IEC 30170:2012, 15.2.10) that open no activation.
use crate::line::{CoreRow, Line};
use crate::signature::{Marks, Signature, Wanted};
use rb_value::CoreClass;

const ANY: Wanted = Wanted::Any;

const INTEGER: Wanted = Wanted::Of(CoreClass::Integer);

const STRING: Wanted = Wanted::Of(CoreClass::String);

const COMPARABLE: Wanted = Wanted::Comparable(CoreClass::String);

const CLASS: Wanted = Wanted::Of(CoreClass::Class);

/// A method of String.
#[derive(Clone, Copy, Debug, PartialEq, Eq)]
pub enum StringMethod {
    Plus,
    Times,
    Equal,
    Order,
    Less,
    AtMost,
    Greater,
    AtLeast,
    Element,
    SetElement,
    Length,
    Size,
    ByteSize,
    Bytes,
    Characters,
    Lines,
    Upcase,
    Downcase,
    Capitalize,
    Swapcase,
    Reverse,
    Strip,
    LeftStrip,
    RightStrip,
    Chomp,
    Chop,
    Append,
    Concat,
    Replace,
    Insert,
    Includes,
    StartsWith,
    EndsWith,
    Index,
    LastIndex,
    Substitute,
    SubstituteAll,
    Split,
    Center,
    LeftJustify,
    RightJustify,
    ToInteger,
    ToText,
    ToSymbol,
    Intern,
    IsEmpty,
    Ordinal,
    Inspect,
}

macro_rules! string_rows {
    ($make:ident) => {
        $make! { String StringMethod STRING;
            Plus b"+" 1 Some(1), Marks::Plain, STRING, ANY;
            Times b"*" 1 Some(1), Marks::Plain, INTEGER, ANY;
            Equal b"==" 1 Some(1), Marks::Plain, ANY, ANY;
            Order b"<=>" 1 Some(1), Marks::Plain, ANY, ANY;
            Less b"<" 1 Some(1), Marks::Plain, COMPARABLE, ANY;
            AtMost b"<=" 1 Some(1), Marks::Plain, COMPARABLE, ANY;
            Greater b">" 1 Some(1), Marks::Plain, COMPARABLE, ANY;
            AtLeast b">=" 1 Some(1), Marks::Plain, COMPARABLE, ANY;
            Element b"[]" 1 Some(2), Marks::Plain, ANY, ANY;
            SetElement b"[]=" 2 Some(3), Marks::Plain, INTEGER, ANY;
            Length b"length" 0 Some(0), Marks::Plain, ANY, ANY;
            Size b"size" 0 Some(0), Marks::Plain, ANY, ANY;
            ByteSize b"bytesize" 0 Some(0), Marks::Plain, ANY, ANY;
            Bytes b"bytes" 0 Some(0), Marks::Plain, ANY, ANY;
            Characters b"chars" 0 Some(0), Marks::Plain, ANY, ANY;
            Lines b"lines" 0 Some(0), Marks::Plain, ANY, ANY;
            Upcase b"upcase" 0 Some(0), Marks::Plain, ANY, ANY;
            Downcase b"downcase" 0 Some(0), Marks::Plain, ANY, ANY;
            Capitalize b"capitalize" 0 Some(0), Marks::Plain, ANY, ANY;
            Swapcase b"swapcase" 0 Some(0), Marks::Plain, ANY, ANY;
            Reverse b"reverse" 0 Some(0), Marks::Plain, ANY, ANY;
            Strip b"strip" 0 Some(0), Marks::Plain, ANY, ANY;
            LeftStrip b"lstrip" 0 Some(0), Marks::Plain, ANY, ANY;
            RightStrip b"rstrip" 0 Some(0), Marks::Plain, ANY, ANY;
            Chomp b"chomp" 0 Some(0), Marks::Plain, ANY, ANY;
            Chop b"chop" 0 Some(0), Marks::Plain, ANY, ANY;
            Append b"<<" 1 Some(1), Marks::Plain, STRING, ANY;
            Concat b"concat" 0 None, Marks::Plain, STRING, STRING;
            Replace b"replace" 1 Some(1), Marks::Plain, STRING, ANY;
            Insert b"insert" 2 Some(2), Marks::Plain, INTEGER, STRING;
            Includes b"include?" 1 Some(1), Marks::Plain, STRING, ANY;
            StartsWith b"start_with?" 0 None, Marks::Plain, STRING, STRING;
            EndsWith b"end_with?" 0 None, Marks::Plain, STRING, STRING;
            Index b"index" 1 Some(2), Marks::Plain, STRING, INTEGER;
            LastIndex b"rindex" 1 Some(1), Marks::Plain, STRING, ANY;
            Substitute b"sub" 2 Some(2), Marks::Plain, STRING, STRING;
            SubstituteAll b"gsub" 2 Some(2), Marks::Plain, STRING, STRING;
            Split b"split" 0 Some(1), Marks::Plain, STRING, ANY;
            Center b"center" 1 Some(2), Marks::Plain, INTEGER, STRING;
            LeftJustify b"ljust" 1 Some(2), Marks::Plain, INTEGER, STRING;
            RightJustify b"rjust" 1 Some(2), Marks::Plain, INTEGER, STRING;
            ToInteger b"to_i" 0 Some(1), Marks::Plain, INTEGER, ANY;
            ToText b"to_s" 0 Some(0), Marks::Plain, ANY, ANY;
            ToSymbol b"to_sym" 0 Some(0), Marks::Plain, ANY, ANY;
            Intern b"intern" 0 Some(0), Marks::Plain, ANY, ANY;
            IsEmpty b"empty?" 0 Some(0), Marks::Plain, ANY, ANY;
            Ordinal b"ord" 0 Some(0), Marks::Plain, ANY, ANY;
            Inspect b"inspect" 0 Some(0), Marks::Plain, ANY, ANY;
        }
    };
}

/// In the order of the rows.
pub const STRING_ROWS: [Line; 48] = string_rows!(lines);

/// The names of the methods, in the order of the rows.
pub const STRING_NAMES: [&[u8]; 48] = string_rows!(names);

/// A method of the class String itself.
#[derive(Clone, Copy, Debug, PartialEq, Eq)]
pub enum StringClassMethod {
    New,
}

macro_rules! string_class_rows {
    ($make:ident) => {
        $make! { StringClass StringClassMethod CLASS;
            New b"new" 0 Some(1), Marks::Plain, STRING, ANY;
        }
    };
}

/// In the order of the rows.
pub const STRING_CLASS_ROWS: [Line; 1] = string_class_rows!(lines);

/// The names of the methods, in the order of the rows.
pub const STRING_CLASS_NAMES: [&[u8]; 1] = string_class_rows!(names);
