//! The numbers of rows, and the heap in which a program starts.
use crate::naming::{kernel_rows, visit_rows};
use crate::{METHOD_MISSING_ROW, PlainRow, Row, StarRow, opening_heap, row_at};
use def_core::Found;
use iter_items::core_calls::hidden::{COLLECT_ROW, SEND_KEPT_ROW, YIELD_ROW};
use iter_items::heap::Heap;
use rb_value::{Method, Value};
use row_table::names;
use std::alloc::{AllocError, Global};
use std::process::Abort;
use std::test::Fail;

/// The number of the row that a call of that name enters.
fn number_of(heap: &mut Heap, receiver: Value, name: &[u8]) -> Result<Option<u16>, AllocError> {
    let name = heap.intern(name)?;
    let found: Option<Found> = heap.find_for(receiver, name)?;
    match found {
        Some(found) => match found.method {
            Method::Core(number) => Ok(Some(number)),
            _ => Ok(None),
        },
        None => Ok(None),
    }
}

#[test]
fn method_missing_has_its_number(rt: HostRuntime) -> Result<(), Fail> {
    let mut heap = opening_heap(rt.alloc())?;
    let main = heap.main_object();
    let number = number_of(&mut heap, main, b"method_missing")?;
    assert_eq!(rt; number, Some(METHOD_MISSING_ROW));
    Ok(())
}

#[test]
fn hidden_rows_have_their_numbers(rt: HostRuntime) -> Result<(), Fail> {
    assert!(rt; row_at(COLLECT_ROW) == Row::Plain(PlainRow::Collect));
    assert!(rt; matches!(row_at(SEND_KEPT_ROW), Row::Star(StarRow::Kernel(_))));
    assert!(rt; matches!(row_at(YIELD_ROW), Row::Star(StarRow::Kernel(_))));
    assert!(rt; row_at(u16::MAX) == Row::OfTable(None));
    Ok(())
}

/// Puts names after those that are there.
fn add_names<R>(
    all: &mut Vec<&'static [u8]>,
    rows: &[(&'static [u8], R)],
) -> Result<(), AllocError> {
    'rows: for (name, _) in rows {
        all.push(*name)?;
    }
    Ok(())
}

/// The names of the methods of a segment, in the order of their rows.
fn all_names(alloc: Global, segment: u16) -> Result<Vec<&'static [u8]>, AllocError> {
    let mut all = Vec::from_slice(alloc, names(segment))?;
    add_names(&mut all, rows_object::rows_of(segment))?;
    add_names(&mut all, rows_class::rows_of(segment))?;
    add_names(&mut all, iter_items::rows_items::rows_of(segment))?;
    add_names(&mut all, rows_array::rows_of(segment))?;
    add_names(&mut all, rows_hash::rows_of(segment))?;
    add_names(&mut all, kernel_rows(segment))?;
    add_names(&mut all, visit_rows(segment))?;
    add_names(&mut all, iter_items::rows_of(segment))?;
    Ok(all)
}

/// Whether a name comes twice.
fn has_twice(names: &[&'static [u8]]) -> bool {
    'names: for (i, name) in names.iter().enumerate() {
        'others: for (j, other) in names.iter().enumerate() {
            if j > i && *name == *other {
                return true;
            }
        }
    }
    false
}

#[test]
fn no_name_comes_twice(rt: HostRuntime) -> Result<(), Fail> {
    'segments: for segment in 0..76 {
        let all = all_names(rt.alloc(), segment)?;
        assert!(rt; !has_twice(&all));
        assert!(rt; all.len() <= 256);
    }
    Ok(())
}
