//! What the tests of core methods over a store share: calls of a method by its row, and what the store holds afterwards.
#![tactic(auto)]

ghost use Rattle.std.specs.Prelude.{◌≡◌, true};
ghost use Rattle.def_core.specs.Sound.{Sound, census, IsValue};

use core_methods::call;
use rb_store::Store;
use rb_value::Value::{False, Int, Nil, Obj, Sym, True};
use rb_value::{CoreClass, KindRef, Method, Outcome, SymId, Value};
use row_table::line_at;
use std::alloc::AllocError;

/// Whether the value is one of the store; not told of a Symbol.
#[tactic(auto, using(def_core::proofs::Good::has_role))]
fn is_value(st: &Store, value: Value) -> bool
    ensures { result ≡ true → IsValue (census st.now.store) value }
{
    match value {
        Nil | True | False | Int(_) => true,
        Sym(_) => false,
        Obj(id) => st.has(id),
    }
}

/// What a call of a row with up to three arguments comes to: none where there is no such row, or where the receiver or an
/// argument isn't of the store.
pub fn called(
    st: &mut Store,
    row: u16,
    receiver: Value,
    args: &[Value],
) -> Result<Option<Outcome>, AllocError>
    requires { Sound st.old.store }
    ensures { Sound st.new.store }
{
    if line_at(row).is_none() || !is_value(st, receiver) {
        return Ok(None);
    }
    if args.is_empty() {
        return Ok(Some(call(st, row, receiver, &[], None)?));
    }
    let first = args[0];
    if !is_value(st, first) {
        return Ok(None);
    }
    if args.len() == 1 {
        return Ok(Some(call(st, row, receiver, &[first], None)?));
    }
    let second = args[1];
    if !is_value(st, second) {
        return Ok(None);
    }
    if args.len() == 2 {
        return Ok(Some(call(st, row, receiver, &[first, second], None)?));
    }
    let third = args[2];
    if !is_value(st, third) {
        return Ok(None);
    }
    Ok(Some(call(st, row, receiver, &[first, second, third], None)?))
}

/// The row that a class has under a name.
pub fn row_of(st: &Store, class: CoreClass, name: SymId) -> Option<u16> {
    let id = st.class_object(class);
    if id.0 >= st.len() {
        return None;
    }
    match st.get(id).kind() {
        KindRef::Class(contents) => match contents.get().methods.get(name) {
            Some(entry) => match entry.method {
                Method::Core(row) => Some(row),
                _ => None,
            },
            None => None,
        },
        _ => None,
    }
}

/// Whether the value is a String of those bytes.
pub fn is_text(st: &Store, value: Value, text: &[u8]) -> bool {
    let Obj(id) = value else {
        return false;
    };
    if id.0 >= st.len() {
        return false;
    }
    match st.get(id).kind() {
        KindRef::String(bytes) => bytes == text,
        _ => false,
    }
}

/// Whether the items are those Integers.
pub fn are_integers(items: &[Value], numbers: &[i64]) -> bool {
    if items.len() != numbers.len() {
        return false;
    }
    for (item, number) in items.iter().zip(numbers) {
        match item {
            Int(found) => {
                if found != number {
                    return false;
                }
            }
            _ => return false,
        }
    }
    true
}

/// Whether the items are Strings of those bytes.
pub fn are_texts(st: &Store, items: &[Value], texts: &[&[u8]]) -> bool {
    if items.len() != texts.len() {
        return false;
    }
    for (item, text) in items.iter().zip(texts) {
        if !is_text(st, *item, text) {
            return false;
        }
    }
    true
}

/// The items of an Array; none of another value.
pub fn items_of(st: &Store, value: Value) -> Option<&[Value]> {
    let Obj(id) = value else {
        return None;
    };
    if id.0 >= st.len() {
        return None;
    }
    match st.get(id).kind() {
        KindRef::Array(items) => Some(items),
        _ => None,
    }
}
