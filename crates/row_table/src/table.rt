//! The rows by their numbers.
ghost use Rattle.std.specs.Prelude.{◌≡◌, map};
ghost use Rattle.row_table.specs.RowTable as table;
ghost use Rattle.row_table.specs.Names as spelled;

use crate::integer::{INTEGER_NAMES, INTEGER_ROWS};
use crate::line::Line;
use crate::range::{RANGE_CLASS_NAMES, RANGE_CLASS_ROWS, RANGE_NAMES, RANGE_ROWS};
use crate::string::{STRING_CLASS_NAMES, STRING_CLASS_ROWS, STRING_NAMES, STRING_ROWS};
use crate::symbol::{SYMBOL_NAMES, SYMBOL_ROWS};
use crate::truth::{FALSE_ROWS, NIL_NAMES, NIL_ROWS, TRUE_ROWS, TRUTH_NAMES};

/// The segments that have rows, in the order of their numbers.
pub const SEGMENTS: [u16; 9] = [14, 16, 18, 20, 22, 23, 24, 30, 31];

/// The rows of a segment.
#[tactic(auto, unfolding(crate::specs::RowTable::segment))]
fn segment(number: u16) -> &'static [Line]
    ensures { result.now ≡ table.segment number }
{
    if number == 14 {
        return &INTEGER_ROWS;
    }
    if number == 16 {
        return &NIL_ROWS;
    }
    if number == 18 {
        return &TRUE_ROWS;
    }
    if number == 20 {
        return &FALSE_ROWS;
    }
    if number == 22 {
        return &STRING_ROWS;
    }
    if number == 23 {
        return &STRING_CLASS_ROWS;
    }
    if number == 24 {
        return &SYMBOL_ROWS;
    }
    if number == 30 {
        return &RANGE_ROWS;
    }
    if number == 31 {
        return &RANGE_CLASS_ROWS;
    }
    &[]
}

/// The names of the methods of a segment, in the order of the rows.
#[tactic(auto, unfolding(crate::specs::Names::integer_names, crate::specs::Names::nil_names, crate::specs::Names::truth_names, crate::specs::Names::string_names, crate::specs::Names::string_class_names, crate::specs::Names::symbol_names, crate::specs::Names::range_names, crate::specs::Names::range_class_names))]
pub fn names(number: u16) -> &'static [&'static [u8]]
    ensures { map (λ name. name.now) result.now ≡ spelled.names number }
{
    if number == 14 {
        return &INTEGER_NAMES;
    }
    if number == 16 {
        return &NIL_NAMES;
    }
    if number == 18 {
        return &TRUTH_NAMES;
    }
    if number == 20 {
        return &TRUTH_NAMES;
    }
    if number == 22 {
        return &STRING_NAMES;
    }
    if number == 23 {
        return &STRING_CLASS_NAMES;
    }
    if number == 24 {
        return &SYMBOL_NAMES;
    }
    if number == 30 {
        return &RANGE_NAMES;
    }
    if number == 31 {
        return &RANGE_CLASS_NAMES;
    }
    &[]
}

/// The row of that number, where there is one.
#[tactic(auto, unfolding(crate::specs::RowTable::line_at))]
pub fn line_at(row: u16) -> Option<Line>
    ensures { result ≡ table.line_at row }
{
    segment(row / 256).get((row % 256) as usize).copied()
}
