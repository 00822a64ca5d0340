//! Groups of items that stand one after another.
ghost use Rattle.std.specs.Prelude.{◌≡◌, drop, IfOk, OnOk};
ghost use Rattle.iter_items.specs.Asking as asking;

use crate::asking::call_block;
use crate::source::Source;
use crate::visit::Visit;
use crate::wish::Wish;
use rb_base::List;
use rb_value::Value;
use rows_items::core_calls::Passed;
use rows_items::heap::Heap;
use std::alloc::AllocError;

/// Takes the next items, at most so many.
#[tactic(auto, using(crate::proofs::Taken::take_more, crate::proofs::Taken::take_none, crate::proofs::Taken::take_all))]
pub(crate) fn take(
    heap: &mut Heap,
    source: &mut Source,
    most: u64,
) -> Result<Vec<Value>, AllocError>
    ensures items { IfOk result (λ items. items.items ≡ (asking.taken most heap.old source.old).items) }
    ensures source { OnOk result (source.new ≡ (asking.taken most heap.old source.old).source) }
    ensures heap { OnOk result (heap.new ≡ (asking.taken most heap.old source.old).held) }
{
    let mut items = Vec::new(heap.alloc());
    'items: for _taken in 0..most {
        match source.next(heap)? {
            Some(item) => items.push(item)?,
            None => return Ok(items),
        }
    }
    Ok(items)
}

/// Calls the block with a new Array of items.
fn call_group(heap: &mut Heap, visit: &Visit, items: Vec<Value>) -> Result<Option<Wish>, AllocError>
    ensures { asking.IsWished (asking.group_called heap.old visit.now items.items) result visit.now heap.new }
{
    let group = heap.make_array(items)?;
    Ok(Some(call_block(visit, Passed::One(group))))
}

/// Calls the block with the next items, as many as a group has, or those that are left.
pub(crate) fn next_slice(heap: &mut Heap, visit: &mut Visit) -> Result<Option<Wish>, AllocError>
    ensures { asking.IsWished (asking.next_slice heap.old visit.old) result visit.new heap.new }
{
    let size = visit.size;
    let items = take(heap, &mut visit.source, size)?;
    if items.is_empty() {
        return Ok(None);
    }
    call_group(heap, visit, items)
}

/// The group whose items are passed first, where so many are left.
fn first_window(heap: &mut Heap, visit: &mut Visit) -> Result<bool, AllocError>
    ensures whole { IfOk result (λ whole. whole ≡ (asking.first_window heap.old visit.old).whole) }
    ensures visit { OnOk result (visit.new ≡ (asking.first_window heap.old visit.old).visit) }
    ensures heap { OnOk result (heap.new ≡ (asking.first_window heap.old visit.old).held) }
{
    let size = visit.size;
    let items = take(heap, &mut visit.source, size)?;
    visit.kept = List::from_vec(items);
    Ok(visit.kept.len() as u64 == size)
}

/// The items of a group without its first, and another behind them.
fn slid(heap: &Heap, group: &[Value], item: Value) -> Result<Vec<Value>, AllocError>
    ensures { IfOk result (λ items. items.items ≡ asking.slid group.now item) }
{
    let mut items = Vec::new(heap.alloc());
    if let Some((_, rest)) = group.split_first() {
        items.extend_from_slice(rest)?;
    }
    items.push(item)?;
    Ok(items)
}

/// The items of the next group: those of the last one without its first, and the next item.
fn slide(heap: &mut Heap, visit: &mut Visit) -> Result<bool, AllocError>
    ensures whole { IfOk result (λ whole. whole ≡ (asking.slide heap.old visit.old).whole) }
    ensures visit { OnOk result (visit.new ≡ (asking.slide heap.old visit.old).visit) }
    ensures heap { OnOk result (heap.new ≡ (asking.slide heap.old visit.old).held) }
{
    if visit.kept.is_empty() {
        return first_window(heap, visit);
    }
    match visit.source.next(heap)? {
        Some(item) => {
            let items = slid(heap, visit.kept.as_slice(), item)?;
            visit.kept = List::from_vec(items);
            Ok(true)
        }
        None => Ok(false),
    }
}

/// Calls the block with the next group of items that stand one after another, as many as a group has.
pub(crate) fn next_window(heap: &mut Heap, visit: &mut Visit) -> Result<Option<Wish>, AllocError>
    ensures { asking.IsWished (asking.next_window heap.old visit.old) result visit.new heap.new }
{
    if !slide(heap, visit)? {
        return Ok(None);
    }
    let items = Vec::from_slice(heap.alloc(), visit.kept.as_slice())?;
    call_group(heap, visit, items)
}
