//! Items of a Range.
ghost use Rattle.std.specs.Prelude.{◌≡◌, ◌≤◌, ◌++◌, ◌∷◌, [], IfOk, OnOk};
ghost use Rattle.rb_integer.specs.Ends as numbers;
ghost use Rattle.def_rows.specs.RangeRows as rows;

use rb_base::{Bytes, List};
use rb_integer::{Bounds, Ends, Item};
use row_answer::Plain;
use std::alloc::{AllocError, Global};

/// An Integer as it is, and a byte as a text.
pub(crate) fn item(alloc: Global, item: Item) -> Result<Plain, AllocError>
    ensures { IfOk result (λ a. a ≡ rows.of_item item) }
{
    match item {
        Item::Integer(number) => Ok(Plain::Int(number)),
        Item::Byte(byte) => Ok(Plain::Text(Bytes::from_slice(alloc, &[byte])?)),
    }
}

/// Puts an item that is an Integer after the others.
fn put_integer(integers: &mut List<i64>, item: Item) -> Result<(), AllocError>
    ensures { OnOk result (integers.new ≡ integers.old ++ rows.integers_of (item ∷ [])) }
{
    match item {
        Item::Integer(number) => integers.push(number)?,
        Item::Byte(_) => {}
    }
    Ok(())
}

/// The Integers among the first items of a Range.
#[tactic(auto, using(crate::proofs::MoreItems::integers_more))]
fn integers(alloc: Global, ends: Ends, count: u64) -> Result<List<i64>, AllocError>
    requires { count ≤ numbers.count ends.bounds ends.is_exclusive }
    ensures { IfOk result (λ list. list ≡ rows.integers_of (rows.items ends.bounds count)) }
{
    let mut integers = List::new(alloc);
    'places: for place in 0..count {
        put_integer(&mut integers, ends.item(place))?;
    }
    Ok(integers)
}

/// Puts an item that is a byte after the others, as a text.
fn put_text(alloc: Global, texts: &mut List<Bytes>, item: Item) -> Result<(), AllocError>
    ensures { OnOk result (texts.new ≡ texts.old ++ rows.texts_of (item ∷ [])) }
{
    match item {
        Item::Integer(_) => {}
        Item::Byte(byte) => texts.push(Bytes::from_slice(alloc, &[byte])?)?,
    }
    Ok(())
}

/// The bytes among the first items of a Range, as texts.
#[tactic(auto, using(crate::proofs::MoreItems::texts_more))]
fn texts(alloc: Global, ends: Ends, count: u64) -> Result<List<Bytes>, AllocError>
    requires { count ≤ numbers.count ends.bounds ends.is_exclusive }
    ensures { IfOk result (λ list. list ≡ rows.texts_of (rows.items ends.bounds count)) }
{
    let mut texts = List::new(alloc);
    'places: for place in 0..count {
        put_text(alloc, &mut texts, ends.item(place))?;
    }
    Ok(texts)
}

/// The first items of a Range.
pub(crate) fn items(alloc: Global, ends: Ends, count: u64) -> Result<Plain, AllocError>
    requires { count ≤ numbers.count ends.bounds ends.is_exclusive }
    ensures { IfOk result (λ a. a ≡ rows.of_items ends.bounds count) }
{
    match ends.bounds {
        Bounds::Integers(_, _) => Ok(Plain::Numbers(integers(alloc, ends, count)?)),
        Bounds::Bytes(_, _) => Ok(Plain::Texts(texts(alloc, ends, count)?)),
    }
}
