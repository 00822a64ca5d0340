//! Long lists of texts and of pool entries, of which no two are equal.
ghost use Rattle.std.specs.Prelude.{◌≡◌, ◌≤◌, ◌-◌, [], ◌∷◌, ◌++◌, length, slice_range, IfOk, IsTrue};
ghost use Rattle.std.specs.Prelude as prelude;
ghost use Rattle.std.specs.Str.{bytes_eq};
ghost use Rattle.rite_file.specs.Gives.{Gives};
ghost use Rattle.rite_file.specs.Record as specs;
ghost use Rattle.rite_file.specs.Seen.{AreSeen, StandsBefore};
ghost use Rattle.rite_code.specs.declared.code.PoolItem.{PoolItem as PoolItemValue};

use crate::error::LoadError;
use crate::lists::item_at;
use crate::reading::{bad, text_at};
use integer_set::IntegerSet;
use rb_base::{Bytes, List};
use rite_code::PoolItem;
use std::alloc::{AllocError, Global};
use text_set::TextSet;

/// So many bytes before a place.
fn bytes_before(bytes: &[u8], end: usize, len: usize) -> &[u8]
    requires within { end ≤ length bytes.now }
    requires enough { len ≤ end }
    ensures { result.now ≡ slice_range bytes.now (end - len) end }
{
    &bytes[end - len..end]
}

/// So many texts, no two of them equal: each is looked for in a set of those before.
pub fn many_texts_at(
    alloc: Global,
    count: u16,
    bytes: &[u8],
    at: usize,
) -> Result<(List<Bytes>, usize), LoadError>
    requires { at ≤ length bytes.now }
    ensures value { Gives result (specs.list_at (specs.is_new bytes_eq) specs.text_at [] count bytes.now at) }
    ensures within { IfOk result (λ x. x.1 ≤ length bytes.now) }
{
    let mut texts = List::new(alloc);
    let mut seen = TextSet::new(alloc);
    let mut next = at;
    'entries: for _ in 0..count {
        let (text, after) = text_at(alloc, bytes, next)?;
        let fresh = seen.add(bytes_before(bytes, after, text.len()))?;
        if !fresh {
            return Err(bad(next));
        }
        texts.push(text)?;
        next = after;
    }
    Ok((texts, next))
}

/// Adds an entry, which ends at this place, to those before, and says whether it is none of them.
fn add_item<'a>(
    integers: &mut IntegerSet,
    texts: &mut TextSet<'a>,
    item: &PoolItem,
    bytes: &'a [u8],
    end: usize,
) -> Result<bool, AllocError>
    requires within { end ≤ length bytes.now }
    requires stands { StandsBefore bytes.now end item.now }
    ensures fresh { IfOk result (λ new. (items : prelude.List PoolItemValue) → AreSeen items integers.old texts.old
        → new ≡ specs.is_new specs.item_eq items item.now) }
    ensures grown { IfOk result (λ new. (items : prelude.List PoolItemValue) → AreSeen items integers.old texts.old
        → IsTrue new → AreSeen (items ++ item.now ∷ []) integers.new texts.new) }
{
    match item {
        PoolItem::Int(number) => {
            let new = integers.add(*number)?;
            Ok(new)
        }
        PoolItem::Text(text) => {
            let new = texts.add(bytes_before(bytes, end, text.len()))?;
            Ok(new)
        }
    }
}

/// So many pool entries, no two of them equal: each is looked for in sets of those before.
pub fn many_items_at(
    alloc: Global,
    count: u16,
    bytes: &[u8],
    at: usize,
) -> Result<(List<PoolItem>, usize), LoadError>
    requires { at ≤ length bytes.now }
    ensures value { Gives result (specs.list_at (specs.is_new specs.item_eq) specs.item_at [] count bytes.now at) }
    ensures within { IfOk result (λ x. x.1 ≤ length bytes.now) }
{
    let mut items = List::new(alloc);
    let mut integers = IntegerSet::new(alloc);
    let mut texts = TextSet::new(alloc);
    let mut next = at;
    'entries: for _ in 0..count {
        let (item, after) = item_at(alloc, bytes, next)?;
        let fresh = add_item(&mut integers, &mut texts, &item, bytes, after)?;
        if !fresh {
            return Err(bad(next));
        }
        items.push(item)?;
        next = after;
    }
    Ok((items, next))
}
