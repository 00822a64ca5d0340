//! The core methods of items that call no others.
ghost use Rattle.std.specs.Prelude.{◌≡◌, drop, get_or, map, IfOk};
ghost use Rattle.rb_value.specs.declared.value.Value.TheVariants.{Nil};
ghost use Rattle.def_core.specs.Bind.{elements_in};
ghost use Rattle.rows_items.specs.Items.{items_of};
ghost use Rattle.rows_items.specs.Named as named;
ghost use Rattle.rows_items.specs.Outcome.{Called, Comes, ToldBy};
ghost use Rattle.rows_items.specs.Rows as rows;
ghost use Rattle.rows_items.specs.Told.{Told};

use crate::checks::count;
use crate::error::{RowError, settle};
use crate::items::{first_items, items_of};
use crate::keyed::{tallied, unique};
use crate::sorting::{Extreme, extreme_place, sorted};
use crate::zipping::zipped;
use core_calls::heap::{Given, Heap};
use core_calls::{Call, argument, miscounted};
use rb_value::{CoreClass, RangeContents, RangeEnds, Value};
use std::alloc::AllocError;

/// A core method of items.
#[derive(Clone, Copy, Debug, PartialEq, Eq)]
pub enum ItemRow {
    /// `to_a` of an Array gives the Array, and of one of a class below Array a new Array.
    ToArray,
    Entries,
    First,
    Take,
    Drop,
    Min,
    Max,
    Sort,
    Uniq,
    Tally,
    Zip,
}

/// The methods of Range.
static RANGE_ROWS: [(&[u8], ItemRow); 10] = [
    (b"to_a", ItemRow::ToArray),
    (b"entries", ItemRow::Entries),
    (b"take", ItemRow::Take),
    (b"drop", ItemRow::Drop),
    (b"min", ItemRow::Min),
    (b"max", ItemRow::Max),
    (b"sort", ItemRow::Sort),
    (b"uniq", ItemRow::Uniq),
    (b"tally", ItemRow::Tally),
    (b"zip", ItemRow::Zip),
];

/// The methods of Array and of Hash.
static LIST_ROWS: [(&[u8], ItemRow); 11] = [
    (b"to_a", ItemRow::ToArray),
    (b"entries", ItemRow::Entries),
    (b"first", ItemRow::First),
    (b"take", ItemRow::Take),
    (b"drop", ItemRow::Drop),
    (b"min", ItemRow::Min),
    (b"max", ItemRow::Max),
    (b"sort", ItemRow::Sort),
    (b"uniq", ItemRow::Uniq),
    (b"tally", ItemRow::Tally),
    (b"zip", ItemRow::Zip),
];

/// The methods of a segment, by their names.
#[tactic(auto, unfolding(crate::specs::Named::list_rows, crate::specs::Named::range_rows))]
pub fn rows_of(segment: u16) -> &'static [(&'static [u8], ItemRow)]
    ensures { map (λ r. (r.0.now, r.1)) result.now ≡ named.rows segment }
{
    match segment {
        26 | 28 => &LIST_ROWS,
        30 => &RANGE_ROWS,
        _ => &[],
    }
}

/// At least and at most how many arguments a method takes.
fn arity(row: ItemRow) -> (u64, Option<u64>)
    ensures { result ≡ rows.arity row }
{
    match row {
        ItemRow::First => (0, Some(1)),
        ItemRow::Take | ItemRow::Drop => (1, Some(1)),
        ItemRow::Zip => (1, None),
        ItemRow::ToArray
        | ItemRow::Entries
        | ItemRow::Min
        | ItemRow::Max
        | ItemRow::Sort
        | ItemRow::Uniq
        | ItemRow::Tally => (0, Some(0)),
    }
}

/// A new Array of the first items, so many.
fn take(heap: &mut Heap, receiver: Value, wanted: Value) -> Result<Value, RowError>
    ensures { Comes (rows.take heap.old receiver wanted) result heap.new }
{
    let wanted = count(heap, wanted)?;
    let items = first_items(heap, receiver, wanted)?;
    Ok(heap.make_array(items)?)
}

/// The first of values; nil where there are none.
fn first_of(values: &[Value]) -> Value
    ensures { result ≡ get_or values.now 0 Nil }
{
    values.first().copied().unwrap_or(Value::Nil)
}

/// The first item.
fn first_item(heap: &mut Heap, receiver: Value) -> Result<Value, RowError>
    ensures { Comes (rows.first_item heap.old receiver (elements_in heap.old.store.objects receiver)) result heap.new }
{
    if let Some(elements) = heap.elements_of(receiver) {
        return Ok(first_of(elements));
    }
    let items = first_items(heap, receiver, 1)?;
    Ok(first_of(&items))
}

/// The first item, or a new Array of the first ones.
fn first(heap: &mut Heap, receiver: Value, args: &[Value]) -> Result<Value, RowError>
    ensures { Comes (rows.first heap.old receiver args.now) result heap.new }
{
    match args.first().copied() {
        Some(wanted) => take(heap, receiver, wanted),
        None => first_item(heap, receiver),
    }
}

/// The values behind the first, so many.
fn behind(values: &[Value], count: usize) -> &[Value]
    ensures { result.now ≡ drop count values.now }
{
    match values.get(count..) {
        Some(rest) => rest,
        None => &[],
    }
}

/// A new Array of the items behind the first, so many.
fn drop_first(heap: &mut Heap, receiver: Value, wanted: Value) -> Result<Value, RowError>
    ensures { Comes (rows.drop_first heap.old receiver wanted) result heap.new }
{
    let wanted = count(heap, wanted)?;
    let items = items_of(heap, receiver)?;
    let rest = Vec::from_slice(heap.alloc(), behind(&items, wanted))?;
    Ok(heap.make_array(rest)?)
}

/// The first and the last Integer of a Range that has one.
fn numbers_in(contents: RangeContents) -> Option<(i64, i64)>
    ensures { result ≡ rows.numbers_in contents.ends contents.exclusive }
{
    let RangeEnds::Integers { first, last } = contents.ends else {
        return None;
    };
    if contents.exclusive {
        if first < last {
            Some((first, last.wrapping_sub(1)))
        } else {
            None
        }
    } else if first <= last {
        Some((first, last))
    } else {
        None
    }
}

/// The least or the greatest of two ends.
fn end_of(wanted: Extreme, ends: (i64, i64)) -> Value
    ensures { result ≡ rows.end_of wanted ends }
{
    match wanted {
        Extreme::Least => Value::Int(ends.0),
        Extreme::Greatest => Value::Int(ends.1),
    }
}

/// The value at a place, or nil where there is no place.
fn item_at(values: &[Value], place: Option<usize>) -> Value
    ensures { result ≡ rows.item_at values.now place }
{
    match place {
        Some(place) => values.get(place).copied().unwrap_or(Value::Nil),
        None => Value::Nil,
    }
}

/// The least or greatest of values.
fn extreme_of(heap: &Heap, values: &[Value], wanted: Extreme) -> Result<Value, RowError>
    ensures { Told result (rows.extreme_of heap.now.store values.now wanted) }
{
    let place = extreme_place(heap, values, wanted)?;
    Ok(item_at(values, place))
}

/// The least or greatest of all items.
fn extreme_item(heap: &mut Heap, receiver: Value, wanted: Extreme) -> Result<Value, RowError>
    ensures { Comes (rows.with_items (rows.extreme_in wanted) heap.old (items_of heap.old receiver)) result heap.new }
{
    let items = items_of(heap, receiver)?;
    extreme_of(heap, &items, wanted)
}

/// The least or greatest of the elements of an Array, and of other items.
fn least_or_greatest(heap: &mut Heap, receiver: Value, wanted: Extreme) -> Result<Value, RowError>
    ensures { Comes (rows.least_or_greatest wanted heap.old receiver) result heap.new }
{
    if let Some(elements) = heap.elements_of(receiver) {
        return extreme_of(heap, elements, wanted);
    }
    match heap.range_of(receiver).and_then(numbers_in) {
        Some(ends) => Ok(end_of(wanted, ends)),
        None => extreme_item(heap, receiver, wanted),
    }
}

/// Whether a value is an Array of no class below Array.
fn is_plain_array(heap: &Heap, value: Value) -> bool
    ensures { result ≡ rows.is_plain_array heap.now.store value }
{
    heap.an_array(value).is_some()
        && heap.plain_class_of(value) == heap.class_object(CoreClass::Array)
}

/// A new Array of the items.
fn entries(heap: &mut Heap, receiver: Value) -> Result<Value, RowError>
    ensures { Comes (rows.entries heap.old receiver) result heap.new }
{
    let items = items_of(heap, receiver)?;
    Ok(heap.make_array(items)?)
}

/// An Array itself, and a new Array of other items.
fn to_array(heap: &mut Heap, receiver: Value) -> Result<Value, RowError>
    ensures { Comes (rows.to_array heap.old receiver) result heap.new }
{
    if is_plain_array(heap, receiver) {
        Ok(receiver)
    } else {
        entries(heap, receiver)
    }
}

/// A new Array of the items in order.
fn sort(heap: &mut Heap, receiver: Value) -> Result<Value, RowError>
    ensures { ToldBy (rows.SortsItems heap.old (items_of heap.old receiver)) result heap.new }
{
    let items = items_of(heap, receiver)?;
    let items = sorted(heap, items)?;
    Ok(heap.make_array(items)?)
}

/// A new Array of the first of the items that are equal as keys.
fn uniq(heap: &mut Heap, receiver: Value) -> Result<Value, RowError>
    ensures { Comes (rows.with_items rows.uniq heap.old (items_of heap.old receiver)) result heap.new }
{
    let items = items_of(heap, receiver)?;
    let items = unique(heap, &items)?;
    Ok(heap.make_array(items)?)
}

/// A new Hash that tells how often each item is there.
fn tally(heap: &mut Heap, receiver: Value) -> Result<Value, RowError>
    ensures { Comes (rows.with_items rows.tally heap.old (items_of heap.old receiver)) result heap.new }
{
    let items = items_of(heap, receiver)?;
    tallied(heap, &items)
}

/// A new Array of an Array for each item, with the elements at its place of other Arrays.
fn zip(heap: &mut Heap, receiver: Value, args: &[Value]) -> Result<Value, RowError>
    ensures { Comes (rows.with_items (rows.zip args.now) heap.old (items_of heap.old receiver)) result heap.new }
{
    let items = items_of(heap, receiver)?;
    zipped(heap, &items, args)
}

/// What a method gives, where it takes so many arguments.
fn answer(heap: &mut Heap, row: ItemRow, call: Call<'_>) -> Result<Value, RowError>
    ensures { ToldBy (rows.Answers row heap.old call.entry.receiver call.entry.args.now) result heap.new }
{
    let receiver = call.receiver;
    match row {
        ItemRow::ToArray => to_array(heap, receiver),
        ItemRow::Entries => entries(heap, receiver),
        ItemRow::First => first(heap, receiver, call.args),
        ItemRow::Take => take(heap, receiver, argument(call.args, 0)),
        ItemRow::Drop => drop_first(heap, receiver, argument(call.args, 0)),
        ItemRow::Min => least_or_greatest(heap, receiver, Extreme::Least),
        ItemRow::Max => least_or_greatest(heap, receiver, Extreme::Greatest),
        ItemRow::Sort => sort(heap, receiver),
        ItemRow::Uniq => uniq(heap, receiver),
        ItemRow::Tally => tally(heap, receiver),
        ItemRow::Zip => zip(heap, receiver, call.args),
    }
}

/// What a method gives, or why it can't take so many arguments.
fn outcome(heap: &mut Heap, row: ItemRow, call: Call<'_>) -> Result<Value, RowError>
    ensures { ToldBy (rows.Calls row heap.old call.entry.receiver call.entry.args.now) result heap.new }
{
    let (least, most) = arity(row);
    match miscounted(call.args.len(), least, most) {
        Some(cause) => Err(RowError::Fails(cause)),
        None => answer(heap, row, call),
    }
}

/// Calls a core method of items.
#[tactic(auto, using(crate::proofs::Settled::called_so))]
pub fn call(heap: &mut Heap, row: ItemRow, call: Call<'_>) -> Result<Given, AllocError>
    ensures { IfOk result (λ g. Called (rows.Calls row heap.old call.entry.receiver call.entry.args.now) g heap.new) }
{
    let outcome = outcome(heap, row, call);
    settle(heap, outcome)
}
