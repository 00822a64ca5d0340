//! The rows by their numbers.
ghost use Rattle.std.specs.Prelude.{◌≡◌, ◌/◌, ◌%◌, map};
ghost use Rattle.run_rows.specs.Named as named;
ghost use Rattle.run_rows.specs.Numbered as numbered;

use crate::naming::{kernel_rows, visit_rows};
use crate::row::{KernelRow, PlainRow, Row, StarRow};
use iter_items::core_calls::hidden::HIDDEN;
use row_table::{line_at, names};

/// The row of `method_missing` of Object.
pub const METHOD_MISSING_ROW: u16 = 1;

/// The hidden rows before those of the items.
static HIDDEN_ROWS: [(&[u8], Row); 3] = [
    (b"", Row::Star(StarRow::Kernel(KernelRow::SendKept))),
    (b"", Row::Plain(PlainRow::Collect)),
    (b"", Row::Star(StarRow::Kernel(KernelRow::Yield))),
];

/// The row at a place, or how far the place is behind these rows.
fn at<R: Copy>(rows: &[(&[u8], R)], place: usize) -> Result<R, usize>
    ensures { result ≡ numbered.row_in (map (λ r. (r.0.now, r.1)) rows.now) place }
{
    match rows.get(place) {
        Some((_, row)) => Ok(*row),
        None => Err(place.saturating_sub(rows.len())),
    }
}

/// The row at a place of a segment among those that give their outcome at once, or how far the place is behind them.
fn plain_at(segment: u16, place: usize) -> Result<PlainRow, usize>
    ensures { result ≡ numbered.row_in (named.plain segment) place }
{
    let place = match at(rows_object::rows_of(segment), place) {
        Ok(row) => return Ok(PlainRow::Object(row)),
        Err(place) => place,
    };
    let place = match at(rows_class::rows_of(segment), place) {
        Ok(row) => return Ok(PlainRow::Class(row)),
        Err(place) => place,
    };
    let place = match at(iter_items::rows_items::rows_of(segment), place) {
        Ok(row) => return Ok(PlainRow::Item(row)),
        Err(place) => place,
    };
    let place = match at(rows_array::rows_of(segment), place) {
        Ok(row) => return Ok(PlainRow::Array(row)),
        Err(place) => place,
    };
    match at(rows_hash::rows_of(segment), place) {
        Ok(row) => Ok(PlainRow::Hash(row)),
        Err(place) => Err(place),
    }
}

/// The row at a place of a segment among those that call others, or how far the place is behind them.
fn star_at(segment: u16, place: usize) -> Result<StarRow, usize>
    ensures { result ≡ numbered.row_in (named.star segment) place }
{
    let place = match at(kernel_rows(segment), place) {
        Ok(row) => return Ok(StarRow::Kernel(row)),
        Err(place) => place,
    };
    let place = match at(visit_rows(segment), place) {
        Ok(row) => return Ok(StarRow::Visit(row)),
        Err(place) => place,
    };
    match at(iter_items::rows_of(segment), place) {
        Ok(row) => Ok(StarRow::Items(row)),
        Err(place) => Err(place),
    }
}

/// The row at a place of a segment beyond the table, or how far the place is behind them.
fn beyond(segment: u16, place: usize) -> Result<Row, usize>
    ensures { result ≡ numbered.row_in (named.beyond segment) place }
{
    let place = match plain_at(segment, place) {
        Ok(row) => return Ok(Row::Plain(row)),
        Err(place) => place,
    };
    match star_at(segment, place) {
        Ok(row) => Ok(Row::Star(row)),
        Err(place) => Err(place),
    }
}

/// The row of a number among those of the table and the first hidden ones, or how far its place is behind them.
#[tactic(auto, unfolding(crate::specs::Named::hidden_rows))]
fn first(number: u16) -> Result<Row, usize>
    ensures { result ≡ numbered.row_in (named.first (number / 256)) (number % 256) }
{
    let segment = number / 256;
    let place = usize::from(number % 256);
    if segment == HIDDEN {
        return at(&HIDDEN_ROWS, place);
    }
    match line_at(number) {
        Some(line) => Ok(Row::OfTable(Some(line.row))),
        None => Err(place.saturating_sub(names(segment).len())),
    }
}

/// What the row of a number is. It takes no memory.
#[tactic(auto, using(crate::proofs::Placed::in_first, crate::proofs::Placed::in_second))]
pub fn row_at(number: u16) -> Row
    ensures { result ≡ numbered.row_at number }
{
    let place = match first(number) {
        Ok(row) => return row,
        Err(place) => place,
    };
    match beyond(number / 256, place) {
        Ok(row) => row,
        Err(_) => Row::OfTable(None),
    }
}
