//! The rows of Array.
ghost use Rattle.std.specs.Prelude.{◌≡◌, pos, length, map, IfOk};
ghost use Rattle.rb_value.specs.declared.value.Value.TheVariants.{Int};
ghost use Rattle.def_core.specs.Parts.{elements_at};
ghost use Rattle.rows_items.specs.Outcome.{Called, ToldBy};
ghost use Rattle.rows_items.specs.Told.{Leaves};
ghost use Rattle.rows_array.specs.Named as named;
ghost use Rattle.rows_array.specs.Rows as rows;

use crate::{arranging, changing, ending, flattening, reading, storing};
use rb_value::{CoreClass, ObjId, Value};
use rows_items::core_calls::{Call, argument, miscounted};
use rows_items::heap::{Given, Heap};
use rows_items::{RowError, settle};
use std::alloc::AllocError;

/// A core method of Array.
#[derive(Clone, Copy, Debug, PartialEq, Eq)]
pub enum ArrayRow {
    Element,
    SetElement,
    At,
    ValuesAt,
    Last,
    Push,
    Append,
    Pop,
    Shift,
    Unshift,
    Insert,
    Concat,
    Plus,
    Length,
    IsEmpty,
    DeleteAt,
    Reverse,
    ReverseInPlace,
    SortInPlace,
    Rotate,
    Flatten,
    Compact,
    Transpose,
    Fill,
    Clear,
    Replace,
}

/// The methods of Array.
static ARRAY_ROWS: [(&[u8], ArrayRow); 29] = [
    (b"[]", ArrayRow::Element),
    (b"slice", ArrayRow::Element),
    (b"[]=", ArrayRow::SetElement),
    (b"at", ArrayRow::At),
    (b"values_at", ArrayRow::ValuesAt),
    (b"last", ArrayRow::Last),
    (b"push", ArrayRow::Push),
    (b"append", ArrayRow::Push),
    (b"<<", ArrayRow::Append),
    (b"pop", ArrayRow::Pop),
    (b"shift", ArrayRow::Shift),
    (b"unshift", ArrayRow::Unshift),
    (b"insert", ArrayRow::Insert),
    (b"concat", ArrayRow::Concat),
    (b"+", ArrayRow::Plus),
    (b"length", ArrayRow::Length),
    (b"size", ArrayRow::Length),
    (b"empty?", ArrayRow::IsEmpty),
    (b"delete_at", ArrayRow::DeleteAt),
    (b"reverse", ArrayRow::Reverse),
    (b"reverse!", ArrayRow::ReverseInPlace),
    (b"sort!", ArrayRow::SortInPlace),
    (b"rotate", ArrayRow::Rotate),
    (b"flatten", ArrayRow::Flatten),
    (b"compact", ArrayRow::Compact),
    (b"transpose", ArrayRow::Transpose),
    (b"fill", ArrayRow::Fill),
    (b"clear", ArrayRow::Clear),
    (b"replace", ArrayRow::Replace),
];

/// The methods of a segment, by their names.
#[tactic(auto, unfolding(crate::specs::Named::array_rows))]
pub fn rows_of(segment: u16) -> &'static [(&'static [u8], ArrayRow)]
    ensures { map (λ r. (r.0.now, r.1)) result.now ≡ named.rows segment }
{
    match segment {
        26 => &ARRAY_ROWS,
        _ => &[],
    }
}

/// At least and at most how many arguments a method takes.
fn arity(row: ArrayRow) -> (u64, Option<u64>)
    ensures { result ≡ rows.arity row }
{
    match row {
        ArrayRow::Element => (1, Some(2)),
        ArrayRow::SetElement => (2, Some(3)),
        ArrayRow::ValuesAt | ArrayRow::Push | ArrayRow::Unshift | ArrayRow::Concat => (0, None),
        ArrayRow::Last | ArrayRow::Pop | ArrayRow::Shift | ArrayRow::Rotate => (0, Some(1)),
        ArrayRow::Insert => (2, None),
        ArrayRow::At
        | ArrayRow::Append
        | ArrayRow::Plus
        | ArrayRow::DeleteAt
        | ArrayRow::Fill
        | ArrayRow::Replace => (1, Some(1)),
        ArrayRow::Length
        | ArrayRow::IsEmpty
        | ArrayRow::Reverse
        | ArrayRow::ReverseInPlace
        | ArrayRow::SortInPlace
        | ArrayRow::Flatten
        | ArrayRow::Compact
        | ArrayRow::Transpose
        | ArrayRow::Clear => (0, Some(0)),
    }
}

/// How many elements there are.
#[inline(always)]
pub(crate) fn length(heap: &Heap, id: ObjId) -> Value
    ensures { result ≡ Int (pos (length (elements_at heap.now.store.objects id))) }
{
    match i64::try_from(heap.elements(id).len()) {
        Ok(length) => Value::Int(length),
        Err(_) => Value::Nil,
    }
}

/// Whether there are no elements.
fn is_empty(heap: &Heap, id: ObjId) -> Value
    ensures { result ≡ rows.is_empty heap.now id }
{
    Value::from_truth(heap.elements(id).is_empty())
}

/// Changes an Array by a method that gives the Array.
fn change(heap: &mut Heap, row: ArrayRow, id: ObjId, args: &[Value]) -> Result<(), RowError>
    ensures { Leaves heap.old heap.new result (rows.left row heap.old id args.now) }
{
    let first = argument(args, 0);
    match row {
        ArrayRow::Push => Ok(heap.append(id, args)?),
        ArrayRow::Append => Ok(heap.push(id, first)?),
        ArrayRow::Unshift => Ok(ending::unshift(heap, id, args)?),
        ArrayRow::Insert => storing::insert(heap, id, args),
        ArrayRow::Concat => ending::concat(heap, id, args),
        ArrayRow::ReverseInPlace => Ok(changing::reverse_in_place(heap, id)?),
        ArrayRow::Fill => Ok(changing::fill(heap, id, first)?),
        ArrayRow::Replace => changing::replace(heap, id, first),
        ArrayRow::Clear => {
            changing::clear(heap, id);
            Ok(())
        }
        _ => Ok(()),
    }
}

/// What a method gives, where it takes so many arguments.
#[tactic(auto, using(rows_items::proofs::Settled::given_comes))]
fn answer(heap: &mut Heap, row: ArrayRow, id: ObjId, args: &[Value]) -> Result<Value, RowError>
    ensures { ToldBy (rows.Answers row heap.old id args.now) result heap.new }
{
    let first = argument(args, 0);
    match row {
        ArrayRow::Element => reading::element(heap, id, args),
        ArrayRow::SetElement => storing::set_element(heap, id, args),
        ArrayRow::At => reading::at(heap, id, first),
        ArrayRow::ValuesAt => reading::values_at(heap, id, args),
        ArrayRow::Last => reading::last(heap, id, args),
        ArrayRow::Pop => ending::pop(heap, id, args),
        ArrayRow::Shift => ending::shift(heap, id, args),
        ArrayRow::Plus => reading::plus(heap, id, first),
        ArrayRow::Length => Ok(length(heap, id)),
        ArrayRow::IsEmpty => Ok(is_empty(heap, id)),
        ArrayRow::DeleteAt => storing::delete_at(heap, id, first),
        ArrayRow::Reverse => Ok(arranging::reverse(heap, id)?),
        ArrayRow::SortInPlace => changing::sort_in_place(heap, id),
        ArrayRow::Rotate => arranging::rotate(heap, id, args),
        ArrayRow::Flatten => flattening::flatten(heap, id),
        ArrayRow::Compact => Ok(arranging::compact(heap, id)?),
        ArrayRow::Transpose => arranging::transpose(heap, id),
        ArrayRow::Push
        | ArrayRow::Append
        | ArrayRow::Unshift
        | ArrayRow::Insert
        | ArrayRow::Concat
        | ArrayRow::ReverseInPlace
        | ArrayRow::Fill
        | ArrayRow::Clear
        | ArrayRow::Replace => {
            change(heap, row, id, args)?;
            Ok(Value::Obj(id))
        }
    }
}

/// What a method gives, where it takes so many arguments, or why it can't take such a receiver.
fn on_array(heap: &mut Heap, row: ArrayRow, call: Call<'_>) -> Result<Value, RowError>
    ensures { ToldBy (rows.OnArray row heap.old call.entry.receiver call.entry.args.now) result heap.new }
{
    match heap.an_array(call.receiver) {
        Some(id) => answer(heap, row, id, call.args),
        None => Err(RowError::Fails(heap.refusal(CoreClass::Array, call.receiver))),
    }
}

/// What a method gives, or why it can't take so many arguments.
fn outcome(heap: &mut Heap, row: ArrayRow, call: Call<'_>) -> Result<Value, RowError>
    ensures { ToldBy (rows.Calls row heap.old call.entry.receiver call.entry.args.now) result heap.new }
{
    let (least, most) = arity(row);
    match miscounted(call.args.len(), least, most) {
        Some(cause) => Err(RowError::Fails(cause)),
        None => on_array(heap, row, call),
    }
}

/// Calls a core method of Array.
#[tactic(auto, using(rows_items::proofs::Settled::called_so))]
pub fn call(heap: &mut Heap, row: ArrayRow, call: Call<'_>) -> Result<Given, AllocError>
    ensures { IfOk result (λ g. Called (rows.Calls row heap.old call.entry.receiver call.entry.args.now) g heap.new) }
{
    let outcome = outcome(heap, row, call);
    settle(heap, outcome)
}
