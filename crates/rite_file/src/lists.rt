//! The lists of a record: catch entries, pool and symbols.
ghost use Rattle.std.specs.Prelude.{◌≡◌, ◌≤◌, [], length, IfOk};
ghost use Rattle.std.specs.List.{list_any};
ghost use Rattle.std.specs.Str.{bytes_eq};
ghost use Rattle.rite_file.specs.Gives.{Gives};
ghost use Rattle.rite_file.specs.Record as specs;

use crate::distinct::{many_items_at, many_texts_at};
use crate::error::LoadError;
use crate::reading::{bad, i64_at, text_at, u8_at, u16_at, u32_at};
use rb_base::{Bytes, List};
use rite_code::{CatchEntry, PoolItem};
use std::alloc::Global;

/// From so many entries on, each is looked for in a set of those before.
const MANY: u16 = 16;

#[tactic(auto, unfolding(crate::specs::Record::catch_at, crate::specs::Record::tested_at))]
fn catch_at(bytes: &[u8], at: usize) -> Result<(CatchEntry, usize), LoadError>
    requires { at ≤ length bytes.now }
    ensures value { result ≡ specs.catch_at bytes.now at }
    ensures within { IfOk result (λ x. x.1 ≤ length bytes.now) }
{
    let (kind, next) = u8_at(bytes, at)?;
    if kind > 1 {
        return Err(bad(at));
    }
    let (begin, next) = u32_at(bytes, next)?;
    let (end, next) = u32_at(bytes, next)?;
    let (target, next) = u32_at(bytes, next)?;
    let rescue = kind == 0;
    Ok((
        CatchEntry {
            rescue,
            begin,
            end,
            target,
        },
        next,
    ))
}

/// So many catch entries.
#[tactic(auto, unfolding(crate::specs::Record::catches_at))]
pub fn catches_at(
    alloc: Global,
    count: u16,
    bytes: &[u8],
    at: usize,
) -> Result<(List<CatchEntry>, usize), LoadError>
    requires { at ≤ length bytes.now }
    ensures value { Gives result (specs.catches_at count bytes.now at) }
    ensures within { IfOk result (λ x. x.1 ≤ length bytes.now) }
{
    let mut catches = List::new(alloc);
    let mut next = at;
    'entries: for _ in 0..count {
        let (entry, after) = catch_at(bytes, next)?;
        catches.push(entry)?;
        next = after;
    }
    Ok((catches, next))
}

/// A pool entry: a text after the tag 0, or an integer after the tag 1.
#[tactic(auto, unfolding(crate::specs::Record::item_at, crate::specs::Record::tested_at))]
pub(crate) fn item_at(
    alloc: Global,
    bytes: &[u8],
    at: usize,
) -> Result<(PoolItem, usize), LoadError>
    requires { at ≤ length bytes.now }
    ensures value { Gives result (specs.item_at bytes.now at) }
    ensures within { IfOk result (λ x. x.1 ≤ length bytes.now) }
{
    let (tag, next) = u8_at(bytes, at)?;
    if tag > 1 {
        return Err(bad(at));
    }
    if tag == 0 {
        let (text, next) = text_at(alloc, bytes, next)?;
        Ok((PoolItem::Text(text), next))
    } else {
        let (number, next) = i64_at(bytes, next)?;
        Ok((PoolItem::Int(number), next))
    }
}

fn is_same_item(left: &PoolItem, right: &PoolItem) -> bool
    ensures { result ≡ specs.item_eq left.now right.now }
{
    match left {
        PoolItem::Int(m) => match right {
            PoolItem::Int(n) => m == n,
            PoolItem::Text(_) => false,
        },
        PoolItem::Text(x) => match right {
            PoolItem::Int(_) => false,
            PoolItem::Text(y) => x.as_slice() == y.as_slice(),
        },
    }
}

fn has_item(seen: &[PoolItem], item: &PoolItem) -> bool
    ensures { result ≡ list_any (λ y. specs.item_eq y item.now) seen.now }
{
    seen.iter().any(|other| is_same_item(other, item))
}

fn has_text(seen: &[Bytes], text: &Bytes) -> bool
    ensures { result ≡ list_any (λ y. bytes_eq y text.now) seen.now }
{
    seen.iter().any(|other| other.as_slice() == text.as_slice())
}

/// The pool: a count and so many entries, no two of them equal.
#[tactic(auto, unfolding(crate::specs::Record::pool_at))]
pub fn pool_at(alloc: Global, bytes: &[u8], at: usize) -> Result<(List<PoolItem>, usize), LoadError>
    requires { at ≤ length bytes.now }
    ensures value { Gives result (specs.pool_at bytes.now at) }
    ensures within { IfOk result (λ x. x.1 ≤ length bytes.now) }
{
    let (count, start) = u16_at(bytes, at)?;
    if count < MANY {
        items_at(alloc, count, bytes, start)
    } else {
        many_items_at(alloc, count, bytes, start)
    }
}

fn items_at(
    alloc: Global,
    count: u16,
    bytes: &[u8],
    at: usize,
) -> Result<(List<PoolItem>, usize), LoadError>
    requires { at ≤ length bytes.now }
    ensures value { Gives result (specs.list_at (specs.is_new specs.item_eq) specs.item_at [] count bytes.now at) }
    ensures within { IfOk result (λ x. x.1 ≤ length bytes.now) }
{
    let mut items = List::new(alloc);
    let mut next = at;
    'entries: for _ in 0..count {
        let (item, after) = item_at(alloc, bytes, next)?;
        if has_item(items.as_slice(), &item) {
            return Err(bad(next));
        }
        items.push(item)?;
        next = after;
    }
    Ok((items, next))
}

/// The symbols: a count and so many texts, no two of them equal.
#[tactic(auto, unfolding(crate::specs::Record::symbols_at))]
pub fn symbols_at(alloc: Global, bytes: &[u8], at: usize) -> Result<(List<Bytes>, usize), LoadError>
    requires { at ≤ length bytes.now }
    ensures value { Gives result (specs.symbols_at bytes.now at) }
    ensures within { IfOk result (λ x. x.1 ≤ length bytes.now) }
{
    let (count, start) = u16_at(bytes, at)?;
    if count < MANY {
        texts_at(alloc, count, bytes, start)
    } else {
        many_texts_at(alloc, count, bytes, start)
    }
}

fn texts_at(
    alloc: Global,
    count: u16,
    bytes: &[u8],
    at: usize,
) -> Result<(List<Bytes>, usize), LoadError>
    requires { at ≤ length bytes.now }
    ensures value { Gives result (specs.list_at (specs.is_new bytes_eq) specs.text_at [] count bytes.now at) }
    ensures within { IfOk result (λ x. x.1 ≤ length bytes.now) }
{
    let mut texts = List::new(alloc);
    let mut next = at;
    'entries: for _ in 0..count {
        let (text, after) = text_at(alloc, bytes, next)?;
        if has_text(texts.as_slice(), &text) {
            return Err(bad(next));
        }
        texts.push(text)?;
        next = after;
    }
    Ok((texts, next))
}
