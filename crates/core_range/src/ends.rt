//! Values as operands of Ranges.
ghost use Rattle.std.specs.Prelude.{◌≡◌};
ghost use Rattle.def_rows.specs.RangeRows as rows;

use core_integer::core_rows::operands::{place_of, text};
use rb_integer::{Bounds, Ends, Item};
use rb_store::Store;
use rb_value::{KindRef, RangeEnds, Sort, Value};

fn bounds_of(ends: RangeEnds) -> Bounds
    ensures { result ≡ rows.bounds_of ends }
{
    match ends {
        RangeEnds::Integers { first, last } => Bounds::Integers(first, last),
        RangeEnds::Bytes { first, last } => Bounds::Bytes(first, last),
    }
}

/// The ends of a Range, if the value is one.
pub fn range_of(st: &Store, value: Value) -> Option<Ends>
    ensures { result ≡ rows.range_of st.now.store.objects value }
{
    match st.get(place_of(st, Sort::Range, value)?).kind() {
        KindRef::Range(contents) => Some(Ends {
            bounds: bounds_of(contents.ends),
            is_exclusive: contents.exclusive,
        }),
        _ => None,
    }
}

/// The ends of a Range; of any other value those of a Range without items.
pub(crate) fn range(st: &Store, value: Value) -> Ends
    ensures { result ≡ rows.range st.now.store.objects value }
{
    match range_of(st, value) {
        Some(ends) => ends,
        None => Ends {
            bounds: Bounds::Integers(0, 0),
            is_exclusive: true,
        },
    }
}

/// The byte of a text of one byte.
fn single(text: &[u8]) -> Option<Item>
    ensures { result ≡ rows.single text.now }
{
    if text.len() == 1 {
        Some(Item::Byte(text[0]))
    } else {
        None
    }
}

/// What may be an item or an end: an Integer, or a String of one byte.
pub(crate) fn item_of(st: &Store, value: Value) -> Option<Item>
    ensures { result ≡ rows.item_of st.now.store.objects value }
{
    match value {
        Value::Int(number) => Some(Item::Integer(number)),
        Value::Obj(_) => single(text(st, value)),
        _ => None,
    }
}

/// Whether it is one of the items.
pub(crate) fn has_item(st: &Store, ends: Ends, value: Value) -> bool
    ensures { result ≡ rows.has_item ends (rows.item_of st.now.store.objects value) }
{
    match item_of(st, value) {
        Some(item) => ends.includes(item),
        None => false,
    }
}

/// Whether it is a Range with the same ends.
#[tactic(auto, using(crate::proofs::SameEnds::same_as))]
pub(crate) fn same_ends(st: &Store, ends: Ends, value: Value) -> bool
    ensures { result ≡ rows.same_ends ends (rows.range_of st.now.store.objects value) }
{
    match range_of(st, value) {
        Some(other) => ends.is_equal(other),
        None => false,
    }
}
