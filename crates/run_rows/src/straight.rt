//! What rows give straight on, where they only read.
ghost use Rattle.std.specs.Prelude.{◌≡◌};
ghost use Rattle.run_rows.specs.Straight.{read, read_of_table, read_plain};

use crate::row::{PlainRow, Row};
use iter_items::heap::Heap;
use rb_value::Value;
use row_table::CoreRow;
use straight_rows::read_text;

/// What a row beyond the table reads.
#[inline(always)]
fn plain(heap: &Heap, row: PlainRow, receiver: Value) -> Option<Value>
    ensures { read_plain row heap.now receiver ≡ (result, heap.now) }
{
    match row {
        PlainRow::Array(row) => rows_array::read_alone(heap, row, receiver),
        PlainRow::Hash(row) => rows_hash::read_alone(heap, row, receiver),
        _ => None,
    }
}

/// What a row of the table reads.
#[inline(always)]
fn of_table(heap: &Heap, row: CoreRow, receiver: Value) -> Option<Value>
    ensures { read_of_table row heap.now receiver ≡ (result, heap.now) }
{
    match row {
        CoreRow::String(method) => read_text(heap, method, receiver),
        _ => None,
    }
}

/// What a row without arguments reads straight on; nothing of any other row and receiver.
#[inline(always)]
pub fn read_alone(heap: &Heap, row: Row, receiver: Value) -> Option<Value>
    ensures { read row heap.now receiver ≡ (result, heap.now) }
{
    match row {
        Row::Plain(row) => plain(heap, row, receiver),
        Row::OfTable(Some(row)) => of_table(heap, row, receiver),
        Row::OfTable(None) | Row::Star(_) => None,
    }
}
