//! The items of an Array, a Hash or a Range, one after another.
ghost use Rattle.std.specs.Prelude.{◌≡◌, IfOk, OnOk};
ghost use Rattle.iter_items.specs.Sources as sources;

use iter_comparing::pairs_of;
use rb_base::List;
use rb_value::{HashItem, ObjId, RangeContents, RangeEnds, Value};
use rows_items::heap::Heap;
use std::alloc::AllocError;

/// Integers from one to another, of which so many are left; they stand for themselves, or for Strings of one byte.
#[derive(Clone, Copy, Debug)]
pub(crate) struct Numbers {
    first: i64,
    last: i64,
    left: u64,
    as_bytes: bool,
}

/// What is left of the items: the elements of an Array from or up to a place, where its length is read anew each time;
/// the pairs that a Hash had, of each of which a new Array is made; or the items of a Range.
#[derive(Drop)]
pub(crate) enum Source {
    Elements { array: ObjId, place: usize },
    Pairs { pairs: List<HashItem>, place: usize },
    Numbers(Numbers),
}

/// The first and the last end as numbers.
fn ends_of(ends: RangeEnds) -> (i64, i64)
    ensures first { result.0 ≡ sources.first_end ends }
    ensures last { result.1 ≡ sources.last_end ends }
{
    match ends {
        RangeEnds::Integers { first, last } => (first, last),
        RangeEnds::Bytes { first, last } => (i64::from(first), i64::from(last)),
    }
}

/// Whether numbers stand for Strings of one byte.
fn are_bytes(ends: RangeEnds) -> bool
    ensures { result ≡ sources.are_bytes ends }
{
    match ends {
        RangeEnds::Integers { first: _, last: _ } => false,
        RangeEnds::Bytes { first: _, last: _ } => true,
    }
}

/// How many numbers there are from one to another, without the last.
fn without_end(first: i64, last: i64) -> u64
    ensures { result ≡ sources.without_end first last }
{
    if first > last {
        0
    } else {
        first.abs_diff(last)
    }
}

/// How many there are with the last.
fn with_end(first: i64, last: i64) -> u64
    ensures { result ≡ sources.with_end first last }
{
    let others = without_end(first, last);
    if first <= last {
        others.saturating_add(1)
    } else {
        others
    }
}

impl Numbers {
    /// The items of a Range.
    fn of(contents: RangeContents) -> Numbers
        ensures { result ≡ sources.numbers_of contents }
    {
        let (first, last) = ends_of(contents.ends);
        let as_bytes = are_bytes(contents.ends);
        if contents.exclusive {
            Numbers {
                first,
                last: last.wrapping_sub(1),
                left: without_end(first, last),
                as_bytes,
            }
        } else {
            Numbers {
                first,
                last,
                left: with_end(first, last),
                as_bytes,
            }
        }
    }

    /// The item that a number stands for.
    fn item(&self, heap: &mut Heap, number: i64) -> Result<Value, AllocError>
        ensures item { IfOk result (λ v. v ≡ (sources.number_item heap.old self.now.as_bytes number).value) }
        ensures made { OnOk result (heap.new ≡ (sources.number_item heap.old self.now.as_bytes number).held) }
    {
        if self.as_bytes {
            heap.make_text(&[u8::try_from(number).unwrap_or(0)])
        } else {
            Ok(Value::Int(number))
        }
    }

    /// The next item, which is passed.
    fn next(&mut self, heap: &mut Heap) -> Result<Option<Value>, AllocError>
        ensures item { IfOk result (λ v. v ≡ (sources.next_number_of heap.old self.old).item) }
        ensures left { OnOk result (self.new ≡ (sources.next_number_of heap.old self.old).source) }
        ensures heap { OnOk result (heap.new ≡ (sources.next_number_of heap.old self.old).held) }
    {
        if self.left == 0 {
            return Ok(None);
        }
        let number = self.first;
        self.first = number.wrapping_add(1);
        self.left = self.left.saturating_sub(1);
        Ok(Some(self.item(heap, number)?))
    }

    /// The last item, which is passed.
    fn previous(&mut self, heap: &mut Heap) -> Result<Option<Value>, AllocError>
        ensures item { IfOk result (λ v. v ≡ (sources.previous_number_of heap.old self.old).item) }
        ensures left { OnOk result (self.new ≡ (sources.previous_number_of heap.old self.old).source) }
        ensures heap { OnOk result (heap.new ≡ (sources.previous_number_of heap.old self.old).held) }
    {
        if self.left == 0 {
            return Ok(None);
        }
        let number = self.last;
        self.last = number.wrapping_sub(1);
        self.left = self.left.saturating_sub(1);
        Ok(Some(self.item(heap, number)?))
    }
}

/// A new Array of a key and its value.
fn pair_item(heap: &mut Heap, pair: HashItem) -> Result<Value, AllocError>
    ensures item { IfOk result (λ v. v ≡ (sources.pair_item heap.old pair).value) }
    ensures made { OnOk result (heap.new ≡ (sources.pair_item heap.old pair).held) }
{
    let mut items = Vec::with_capacity(heap.alloc(), 2)?;
    items.push(pair.shown)?;
    items.push(pair.value)?;
    heap.make_array(items)
}

/// The place at which items begin: before the first, or behind the last.
pub(crate) fn place_for(backwards: bool) -> usize
    ensures { result ≡ sources.place_for backwards }
{
    if backwards { usize::MAX } else { 0 }
}

/// The pair before a place.
fn pair_behind(pairs: &[HashItem], place: usize) -> Option<HashItem>
    ensures { result ≡ sources.pair_behind pairs.now place }
{
    pairs.get(place.checked_sub(1)?).copied()
}

/// The place of the last element before a place of a list that is so long.
fn place_before(place: usize, length: usize) -> Option<usize>
    ensures { result ≡ sources.place_before place length }
{
    place.min(length).checked_sub(1)
}

impl Source {
    /// The items of a value, from the first on or from the last one back.
    pub(crate) fn of(
        heap: &Heap,
        value: Value,
        backwards: bool,
    ) -> Result<Option<Source>, AllocError>
        ensures { IfOk result (λ found. found ≡ sources.source_of heap.now.store value backwards) }
    {
        let place = place_for(backwards);
        if let Some(array) = heap.an_array(value) {
            return Ok(Some(Source::Elements { array, place }));
        }
        if let Some(hash) = heap.a_hash(value) {
            let pairs = List::from_vec(pairs_of(heap, hash)?);
            return Ok(Some(Source::Pairs { pairs, place }));
        }
        match heap.range_of(value) {
            Some(contents) => Ok(Some(Source::Numbers(Numbers::of(contents)))),
            None => Ok(None),
        }
    }

    /// The next item, which is passed.
    pub(crate) fn next(&mut self, heap: &mut Heap) -> Result<Option<Value>, AllocError>
        ensures item { IfOk result (λ v. v ≡ (sources.next heap.old self.old).item) }
        ensures left { OnOk result (self.new ≡ (sources.next heap.old self.old).source) }
        ensures heap { OnOk result (heap.new ≡ (sources.next heap.old self.old).held) }
    {
        match self {
            Source::Elements { array, place } => {
                let item = heap.elements(*array).get(*place).copied();
                *place = place.saturating_add(1);
                Ok(item)
            }
            Source::Pairs { pairs, place } => {
                let pair = pairs.as_slice().get(*place).copied();
                *place = place.saturating_add(1);
                match pair {
                    Some(pair) => Ok(Some(pair_item(heap, pair)?)),
                    None => Ok(None),
                }
            }
            Source::Numbers(numbers) => numbers.next(heap),
        }
    }

    /// The item before, which is passed.
    pub(crate) fn previous(&mut self, heap: &mut Heap) -> Result<Option<Value>, AllocError>
        ensures item { IfOk result (λ v. v ≡ (sources.previous heap.old self.old).item) }
        ensures left { OnOk result (self.new ≡ (sources.previous heap.old self.old).source) }
        ensures heap { OnOk result (heap.new ≡ (sources.previous heap.old self.old).held) }
    {
        match self {
            Source::Elements { array, place } => {
                let elements = heap.elements(*array);
                let Some(before) = place_before(*place, elements.len()) else {
                    return Ok(None);
                };
                *place = before;
                Ok(elements.get(before).copied())
            }
            Source::Pairs { pairs, place } => {
                let Some(before) = place_before(*place, pairs.len()) else {
                    return Ok(None);
                };
                *place = before;
                match pairs.as_slice().get(before).copied() {
                    Some(pair) => Ok(Some(pair_item(heap, pair)?)),
                    None => Ok(None),
                }
            }
            Source::Numbers(numbers) => numbers.previous(heap),
        }
    }

    /// How many items are left.
    pub(crate) fn left(&self, heap: &Heap) -> u64
        ensures { result ≡ sources.left heap.now.store self.now }
    {
        match self {
            Source::Elements { array, place } => {
                heap.elements(*array).len().saturating_sub(*place) as u64
            }
            Source::Pairs { pairs, place } => pairs.len().saturating_sub(*place) as u64,
            Source::Numbers(numbers) => numbers.left,
        }
    }

    /// Whether the items are the pairs of a Hash.
    pub(crate) fn is_pairs(&self) -> bool
        ensures { result ≡ sources.is_pairs self.now }
    {
        match self {
            Source::Pairs { pairs: _, place: _ } => true,
            Source::Elements { array: _, place: _ } => false,
            Source::Numbers(_) => false,
        }
    }

    /// The pair of a Hash that was passed last.
    pub(crate) fn passed_pair(&self) -> Option<HashItem>
        ensures { result ≡ sources.passed_pair self.now }
    {
        match self {
            Source::Pairs { pairs, place } => pair_behind(pairs.as_slice(), *place),
            _ => None,
        }
    }
}
