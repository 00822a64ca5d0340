//! `-`, `&` and `|` of Arrays whose elements are Integers, and Strings, that have the `==` of their class: such values are
//! equal exactly where their keys are, so each is sought once.
ghost use Rattle.std.specs.Prelude.{◌≡◌, [], IfOk};
ghost use Rattle.iter_comparing.specs.Keyed as keyed;

use crate::asking::row_of;
use crate::sifting::{Sieve, Sifting};
use core_calls::heap::{Heap, Site};
use pair_table::PairTable;
use rb_value::{Key, SymId, Value};
use row_table::{CoreRow, IntegerMethod, StringMethod, line_at};
use std::alloc::AllocError;

/// Whether a value is an Integer and a row of the table `==` of Integer, or a String and `==` of String.
fn is_own_equality(heap: &Heap, value: Value, row: u16) -> bool
    ensures { result ≡ keyed.is_own_equality heap.now.store value row }
{
    let Some(line) = line_at(row) else {
        return false;
    };
    match line.row {
        CoreRow::Integer(IntegerMethod::Equal) => matches!(value, Value::Int(_)),
        CoreRow::String(StringMethod::Equal) => heap.a_string(value).is_some(),
        _ => false,
    }
}

/// Whether a value is an Integer or a String that has the `==` of its class.
fn has_own_equality(
    heap: &mut Heap,
    site: &mut Site,
    equal: SymId,
    value: Value,
) -> Result<bool, AllocError>
    ensures has { IfOk result (λ has. has ≡ keyed.has_own_equality heap.old.store equal value) }
    ensures same { heap.new ≡ heap.old }
{
    match row_of(heap.find_at(site, value, equal)?) {
        Some(row) => Ok(is_own_equality(heap, value, row)),
        None => Ok(false),
    }
}

/// Whether all of some values are such.
pub(crate) fn have_own_equality(
    heap: &mut Heap,
    equal: SymId,
    values: &[Value],
) -> Result<bool, AllocError>
    ensures have { IfOk result (λ have. have ≡ keyed.have_own_equality heap.old.store equal values.now) }
    ensures same { heap.new ≡ heap.old }
{
    let mut site = Site::default();
    'values: for value in values {
        if !has_own_equality(heap, &mut site, equal, *value)? {
            return Ok(false);
        }
    }
    Ok(true)
}

/// The key of a value; Integers and Strings have one.
fn key_of(heap: &Heap, value: Value) -> Result<Key, AllocError>
    ensures { IfOk result (λ key. key ≡ keyed.key_in heap.now.store value) }
{
    match heap.key_of(value)? {
        Some(key) => Ok(key),
        None => Ok(Key::Plain(Value::Nil)),
    }
}

/// Values by their keys.
fn noted(heap: &Heap, values: &[Value]) -> Result<PairTable<Key, Value>, AllocError>
    ensures { IfOk result (λ seen. seen ≡ keyed.noted heap.now.store [] values.now) }
{
    let mut seen: PairTable<Key, Value> = PairTable::new(heap.alloc());
    'values: for value in values {
        let key = key_of(heap, *value)?;
        seen.insert(key, *value)?;
    }
    Ok(seen)
}

/// Whether a value is wanted that is among others or isn't, where those are wanted that are or those that aren't.
fn is_wanted(among: bool, there: bool) -> bool
    ensures { result ≡ keyed.is_wanted among there }
{
    if among { there } else { !there }
}

/// The values that are among others, or those that aren't.
fn sought(
    heap: &Heap,
    values: &[Value],
    others: &[Value],
    among: bool,
) -> Result<Vec<Value>, AllocError>
    ensures { IfOk result (λ list. list.items ≡ keyed.sought heap.now.store (keyed.noted heap.now.store [] others.now) among values.now) }
{
    let seen = noted(heap, others)?;
    let mut list = Vec::new(heap.alloc());
    'values: for value in values {
        let key = key_of(heap, *value)?;
        if is_wanted(among, seen.get(&key).is_some()) {
            list.push(*value)?;
        }
    }
    Ok(list)
}

/// The first of the values that are equal.
fn firsts(heap: &Heap, values: &[Value]) -> Result<Vec<Value>, AllocError>
    ensures { IfOk result (λ list. list.items ≡ keyed.firsts heap.now.store [] values.now) }
{
    let mut seen: PairTable<Key, Value> = PairTable::new(heap.alloc());
    let mut list = Vec::new(heap.alloc());
    'values: for value in values {
        let key = key_of(heap, *value)?;
        if seen.insert(key, *value)?.is_none() {
            list.push(*value)?;
        }
    }
    Ok(list)
}

/// What stays of the values.
pub(crate) fn sifted(heap: &Heap, work: &Sifting) -> Result<Vec<Value>, AllocError>
    ensures { IfOk result (λ list. list.items ≡ keyed.sifted heap.now.store work.now) }
{
    let values = work.values.as_slice();
    let others = work.others.as_slice();
    match work.sieve {
        Sieve::Difference => sought(heap, values, others, false),
        Sieve::Intersection => {
            let both = sought(heap, values, others, true)?;
            firsts(heap, both.as_slice())
        }
        Sieve::Union => firsts(heap, values),
    }
}
