//! One String with others.
ghost use Rattle.std.specs.Prelude.{◌≡◌, IfOk};
ghost use Rattle.rb_string.specs.Searching as searches;
ghost use Rattle.def_rows.specs.StringRows as rows;

use crate::answers::{longer, number, place};
use core_rows::operands::{integer, is_text, text};
use rb_base::Bytes;
use rb_store::Store;
use rb_string::{comparison, numeral, searching};
use rb_value::Value;
use row_answer::Plain;
use std::alloc::AllocError;

/// Whether a value is a String of these bytes.
pub(crate) fn equals(st: &Store, bytes: &[u8], value: Value) -> bool
    ensures { result ≡ rows.equals st.now.store.objects bytes.now value }
{
    is_text(st, value) && bytes == text(st, value)
}

/// The order between these bytes and a value.
pub(crate) fn order(st: &Store, bytes: &[u8], value: Value) -> Plain
    ensures { result ≡ rows.order st.now.store.objects bytes.now value }
{
    if is_text(st, value) {
        Plain::Int(comparison::order(bytes, text(st, value)))
    } else {
        Plain::Nil
    }
}

/// The bytes of all these Strings, one after the other.
#[tactic(auto, using(crate::proofs::Steps::joined_step))]
fn joined(st: &Store, values: &[Value]) -> Result<Vec<u8>, AllocError>
    ensures { IfOk result (λ v. v.items ≡ rows.joined st.now.store.objects values.now) }
{
    let mut bytes = Vec::new(st.alloc());
    'values: for place in 0..values.len() {
        bytes.extend_from_slice(text(st, values[place]))?;
    }
    Ok(bytes)
}

/// `text << other`.
pub(crate) fn append(st: &Store, bytes: &[u8], other: Value) -> Result<Plain, AllocError>
    ensures { IfOk result (λ a. a ≡ rows.append st.now.store.objects bytes.now other) }
{
    Ok(longer(bytes, Bytes::from_slice(st.alloc(), text(st, other))?))
}

/// `text.concat(other, ..)`.
pub(crate) fn concat(st: &Store, bytes: &[u8], others: &[Value]) -> Result<Plain, AllocError>
    ensures { IfOk result (λ a. a ≡ rows.concat st.now.store.objects bytes.now others.now) }
{
    Ok(longer(bytes, Bytes::from_vec(joined(st, others)?)))
}

/// `text.start_with?(other, ..)`.
pub(crate) fn begins_with(st: &Store, bytes: &[u8], others: &[Value]) -> bool
    ensures { result ≡ rows.begins_with st.now.store.objects bytes.now others.now }
{
    others
        .iter()
        .any(|other| searching::starts_with(bytes, text(st, *other)))
}

/// `text.end_with?(other, ..)`.
pub(crate) fn closes_with(st: &Store, bytes: &[u8], others: &[Value]) -> bool
    ensures { result ≡ rows.closes_with st.now.store.objects bytes.now others.now }
{
    others
        .iter()
        .any(|other| searching::ends_with(bytes, text(st, *other)))
}

/// `text.index(other)` and `text.index(other, from)`.
pub(crate) fn index(bytes: &[u8], other: &[u8], from: i64) -> Plain
    ensures { result ≡ rows.place (searches.index bytes.now other.now from) }
{
    place(bytes, searching::index(bytes, other, from))
}

/// `text.rindex(other)`.
pub(crate) fn last_index(bytes: &[u8], other: &[u8]) -> Plain
    ensures { result ≡ rows.place (searches.last_index bytes.now other.now) }
{
    place(bytes, searching::last_index(bytes, other))
}

/// `text.to_i` and `text.to_i(base)`.
pub(crate) fn to_integer(bytes: &[u8], args: &[Value]) -> Plain
    ensures { result ≡ rows.to_integer bytes.now args.now }
{
    if args.is_empty() {
        number(numeral::to_integer(bytes, 10))
    } else {
        number(numeral::to_integer(bytes, integer(args[0])))
    }
}
