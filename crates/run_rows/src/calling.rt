//! Calls of rows that give their outcome at once.
ghost use Rattle.std.specs.Prelude.{◌≡◌, IfOk, OnOk};
ghost use Rattle.rb_value.specs.declared.value.Value.TheVariants.{Nil};
ghost use Rattle.run_values.specs.declared.given.Given.TheVariants as gives;
ghost use Rattle.run_rows.specs.Calls as calls;

use crate::row::{PlainRow, Row};
use iter_items::core_calls::Call;
use iter_items::heap::{Given, Heap};
use rb_value::Value;
use row_table::CoreRow;
use std::alloc::AllocError;

/// What a Proc is called with as one value: several values as one new Array, none as nil.
fn as_one(heap: &mut Heap, args: &[Value]) -> Result<Value, AllocError>
    ensures value { IfOk result (λ v. v ≡ (calls.as_one heap.old args.now).0) }
    ensures made { OnOk result (heap.new ≡ (calls.as_one heap.old args.now).1) }
{
    match args {
        [] => Ok(Value::Nil),
        [only] => Ok(*only),
        several => {
            let several = Vec::from_slice(heap.alloc(), several)?;
            heap.make_array(several)
        }
    }
}

/// Puts what a Proc is called with after the elements of the Array that it keeps.
fn collect(heap: &mut Heap, call: Call<'_>) -> Result<Given, AllocError>
    ensures value { IfOk result (λ g. g ≡ gives.Gives Nil) }
    ensures collected { OnOk result
        (heap.new ≡ calls.collected heap.old call.entry.receiver call.entry.args.now) }
{
    let item = as_one(heap, call.args)?;
    if let Some(array) = heap.an_array(call.receiver) {
        heap.push(array, item)?;
    }
    Ok(Given::Gives(Value::Nil))
}

/// Calls a row that gives its outcome at once, and gives its value or raises.
pub fn call_plain(heap: &mut Heap, row: PlainRow, call: Call<'_>) -> Result<Given, AllocError>
    ensures { IfOk result (λ g. calls.CallsPlain row heap.old call.entry.receiver call.entry.args.now call.entry.block
        g heap.new) }
{
    match row {
        PlainRow::Object(row) => rows_object::call(heap, row, call),
        PlainRow::Class(row) => rows_class::call(heap, row, call),
        PlainRow::Item(row) => iter_items::rows_items::call(heap, row, call),
        PlainRow::Array(row) => rows_array::call(heap, row, call),
        PlainRow::Hash(row) => rows_hash::call(heap, row, call),
        PlainRow::Collect => collect(heap, call),
    }
}

/// What a row of the table gives straight on; nothing where it is called by its number.
#[inline(always)]
fn straight_on(
    heap: &mut Heap,
    row: Option<CoreRow>,
    call: Call<'_>,
) -> Result<Option<Value>, AllocError>
    ensures { IfOk result (λ found.
        calls.straight_on row heap.old call.entry.receiver call.entry.args.now ≡ (found, heap.new)) }
{
    match row {
        Some(row) => straight_rows::give(heap, row, call.receiver, call.args),
        None => Ok(None),
    }
}

/// Calls a row of the table by its number, and gives its value or raises.
#[tactic(auto, using(crate::proofs::Called::gives_so))]
pub fn call_of_table(
    heap: &mut Heap,
    number: u16,
    row: Option<CoreRow>,
    call: Call<'_>,
) -> Result<Given, AllocError>
    ensures { IfOk result (λ g. calls.CallsOfTable number row heap.old call.entry.receiver call.entry.args.now
        call.entry.block g heap.new) }
{
    match straight_on(heap, row, call)? {
        Some(value) => Ok(Given::Gives(value)),
        None => heap.call_row(number, call.receiver, call.args, call.block),
    }
}

/// Calls a row that calls no others, and gives its value or raises; nothing of any other row, which does nothing then.
pub fn call_at_once(
    heap: &mut Heap,
    number: u16,
    row: Row,
    call: Call<'_>,
) -> Result<Option<Given>, AllocError>
    ensures { IfOk result (λ found. calls.CallsAtOnce row number heap.old call.entry.receiver call.entry.args.now
        call.entry.block found heap.new) }
{
    match row {
        Row::OfTable(row) => Ok(Some(call_of_table(heap, number, row, call)?)),
        Row::Plain(row) => Ok(Some(call_plain(heap, row, call)?)),
        Row::Star(_) => Ok(None),
    }
}
