//! The rows of Hash.
ghost use Rattle.std.specs.Prelude.{◌≡◌, Some, length, nat_eq, map, IfOk};
ghost use Rattle.rb_value.specs.Value.{truth};
ghost use Rattle.rb_value.specs.declared.kind.Sort.TheVariants as sorts;
ghost use Rattle.rb_value.specs.declared.value.Value.TheVariants.{Obj};
ghost use Rattle.heap.specs.Changes.{without_pairs};
ghost use Rattle.heap.specs.Reading.{sort_of_value};
ghost use Rattle.rows_items.specs.Outcome.{Called, Comes, gives};
ghost use Rattle.rows_items.specs.Told.{Gives};
ghost use Rattle.rows_hash.specs.Named as named;
ghost use Rattle.rows_hash.specs.Pairs as defined;
ghost use Rattle.rows_hash.specs.Rows as rows;

use crate::pairs;
use rb_value::{ObjId, Value};
use rows_items::core_calls::{Call, argument, miscounted};
use rows_items::heap::{Given, Heap};
use rows_items::{RowError, settle};
use std::alloc::AllocError;

/// A core method of Hash.
#[derive(Clone, Copy, Debug, PartialEq, Eq)]
pub enum HashRow {
    Store,
    HasKey,
    Keys,
    Values,
    Length,
    IsEmpty,
    Delete,
    Merge,
    Update,
    Invert,
    Clear,
    Default,
    SetDefault,
    ToHash,
}

/// The methods of Hash.
static HASH_ROWS: [(&[u8], HashRow); 20] = [
    (b"[]=", HashRow::Store),
    (b"store", HashRow::Store),
    (b"key?", HashRow::HasKey),
    (b"has_key?", HashRow::HasKey),
    (b"include?", HashRow::HasKey),
    (b"member?", HashRow::HasKey),
    (b"keys", HashRow::Keys),
    (b"values", HashRow::Values),
    (b"length", HashRow::Length),
    (b"size", HashRow::Length),
    (b"empty?", HashRow::IsEmpty),
    (b"delete", HashRow::Delete),
    (b"merge", HashRow::Merge),
    (b"merge!", HashRow::Update),
    (b"update", HashRow::Update),
    (b"invert", HashRow::Invert),
    (b"clear", HashRow::Clear),
    (b"default", HashRow::Default),
    (b"default=", HashRow::SetDefault),
    (b"to_h", HashRow::ToHash),
];

/// The methods of a segment, by their names.
#[tactic(auto, unfolding(crate::specs::Named::hash_rows))]
pub fn rows_of(segment: u16) -> &'static [(&'static [u8], HashRow)]
    ensures { map (λ r. (r.0.now, r.1)) result.now ≡ named.rows segment }
{
    match segment {
        28 => &HASH_ROWS,
        _ => &[],
    }
}

/// How many arguments a method takes.
fn arity(row: HashRow) -> u64
    ensures { result ≡ rows.arity row }
{
    match row {
        HashRow::Store => 2,
        HashRow::HasKey
        | HashRow::Delete
        | HashRow::Merge
        | HashRow::Update
        | HashRow::SetDefault => 1,
        HashRow::Keys
        | HashRow::Values
        | HashRow::Length
        | HashRow::IsEmpty
        | HashRow::Invert
        | HashRow::Clear
        | HashRow::Default
        | HashRow::ToHash => 0,
    }
}

/// How many pairs there are.
pub(crate) fn length(heap: &Heap, id: ObjId) -> Value
    ensures { result ≡ defined.count_value (length (defined.pairs heap.now.store id)) }
{
    match i64::try_from(heap.pair_count(id)) {
        Ok(length) => Value::Int(length),
        Err(_) => Value::Nil,
    }
}

/// Whether there is no pair.
pub(crate) fn is_empty(heap: &Heap, id: ObjId) -> Value
    ensures { result ≡ truth (nat_eq (length (defined.pairs heap.now.store id)) 0) }
{
    Value::from_truth(heap.pair_count(id) == 0)
}

/// A new Array of the keys.
fn key_array(heap: &mut Heap, id: ObjId) -> Result<Value, RowError>
    ensures { Gives heap.old heap.new result (defined.key_array heap.old id) }
{
    let keys = pairs::keys(heap, id)?;
    Ok(heap.make_array(keys)?)
}

/// A new Array of the values.
fn value_array(heap: &mut Heap, id: ObjId) -> Result<Value, RowError>
    ensures { Gives heap.old heap.new result (defined.value_array heap.old id) }
{
    let values = pairs::values(heap, id)?;
    Ok(heap.make_array(values)?)
}

/// Whether a key is there, as a value.
fn key_told(heap: &Heap, id: ObjId, key: Value) -> Result<Value, RowError>
    ensures { Gives heap.now heap.now result (rows.key_told heap.now id key) }
{
    Ok(Value::from_truth(pairs::has_key(heap, id, key)?))
}

/// Takes all pairs out of a Hash, and gives it.
fn cleared(heap: &mut Heap, id: ObjId) -> Result<Value, RowError>
    ensures { Comes (gives (without_pairs heap.old id) (Obj id)) result heap.new }
{
    pairs::clear(heap, id)?;
    Ok(Value::Obj(id))
}

/// What a method gives, where it takes so many arguments.
#[tactic(auto, using(rows_items::proofs::Settled::given_comes))]
fn answer(heap: &mut Heap, row: HashRow, id: ObjId, args: &[Value]) -> Result<Value, RowError>
    ensures { sort_of_value heap.old.store (Obj id) ≡ Some sorts.Hash
        → Comes (rows.answer row heap.old id args.now) result heap.new }
{
    let first = argument(args, 0);
    match row {
        HashRow::Store => pairs::store(heap, id, first, argument(args, 1)),
        HashRow::HasKey => key_told(heap, id, first),
        HashRow::Keys => key_array(heap, id),
        HashRow::Values => value_array(heap, id),
        HashRow::Length => Ok(length(heap, id)),
        HashRow::IsEmpty => Ok(is_empty(heap, id)),
        HashRow::Delete => pairs::delete(heap, id, first),
        HashRow::Merge => pairs::merge(heap, id, first),
        HashRow::Update => pairs::update(heap, id, first),
        HashRow::Invert => pairs::invert(heap, id),
        HashRow::Clear => cleared(heap, id),
        HashRow::Default => Ok(heap.absent_of(id).0),
        HashRow::ToHash => Ok(Value::Obj(id)),
        HashRow::SetDefault => {
            heap.set_absent(id, first, None);
            Ok(first)
        }
    }
}

/// What a method gives, where it takes so many arguments, or why it can't take such a receiver.
#[tactic(auto, using(crate::proofs::Receiver::receiver_sorted))]
fn on_hash(heap: &mut Heap, row: HashRow, call: Call<'_>) -> Result<Value, RowError>
    ensures { Comes (rows.on_hash row heap.old call.entry.receiver call.entry.args.now) result heap.new }
{
    match pairs::a_hash(heap, call.receiver) {
        Ok(id) => answer(heap, row, id, call.args),
        Err(cause) => Err(RowError::Fails(cause)),
    }
}

/// What a method gives, or why it can't take so many arguments.
fn outcome(heap: &mut Heap, row: HashRow, call: Call<'_>) -> Result<Value, RowError>
    ensures { Comes (rows.call row heap.old call.entry.receiver call.entry.args.now) result heap.new }
{
    let arity = arity(row);
    match miscounted(call.args.len(), arity, Some(arity)) {
        Some(cause) => Err(RowError::Fails(cause)),
        None => on_hash(heap, row, call),
    }
}

/// Calls a core method of Hash.
#[tactic(auto, using(rows_items::proofs::Settled::called_so))]
pub fn call(heap: &mut Heap, row: HashRow, call: Call<'_>) -> Result<Given, AllocError>
    ensures { IfOk result (λ g.
        Called (λ o. rows.call row heap.old call.entry.receiver call.entry.args.now ≡ o) g heap.new) }
{
    let outcome = outcome(heap, row, call);
    settle(heap, outcome)
}
