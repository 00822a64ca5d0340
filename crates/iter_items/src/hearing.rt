//! What an answer comes to.
ghost use Rattle.std.specs.Prelude.{◌≡◌, Some, OnOk};
ghost use Rattle.rb_value.specs.Value.{is_true};
ghost use Rattle.rb_store.specs.Held.{Held};
ghost use Rattle.rows_items.specs.Keyed as keyed;
ghost use Rattle.iter_items.specs.Hearing as hearing;

use crate::groups::take;
use crate::row::Task;
use crate::visit::Visit;
use crate::wish::Wish;
use def_core::Cause;
use rb_base::List;
use rb_value::{HashItem, ObjId, Value};
use rows_items::heap::Heap;
use rows_items::{RowError, put_pair};
use std::alloc::AllocError;
use std::mem;

/// Puts a pair into the Hash that is made; where the key is refused all is as before.
fn put(
    heap: &mut Heap,
    visit: &Visit,
    hash: ObjId,
    key: Value,
    value: Value,
) -> Result<Option<Wish>, AllocError>
    ensures { hearing.Hears (hearing.put visit.now heap.old (keyed.put heap.old hash key value)) result visit.now heap.new }
{
    match put_pair(heap, hash, key, value) {
        Ok(()) => Ok(None),
        Err(RowError::Fails(cause)) => Ok(Some(Wish::Fails(cause))),
        Err(RowError::NoMemory) => Err(AllocError),
    }
}

/// Keeps the pair of a Hash in the Hash that is made, and any other item among the items.
fn keep_pair(
    heap: &mut Heap,
    visit: &mut Visit,
    pair: Option<HashItem>,
) -> Result<Option<Wish>, AllocError>
    ensures { hearing.Hears (hearing.keep_pair heap.old visit.old visit.old.made pair) result visit.new heap.new }
{
    match (visit.made, pair) {
        (Some(hash), Some(pair)) => put(heap, visit, hash, pair.shown, pair.value),
        _ => {
            visit.kept.push(visit.item)?;
            Ok(None)
        }
    }
}

/// Keeps the item: in the Hash that is made, or among the items.
fn keep_item(heap: &mut Heap, visit: &mut Visit) -> Result<Option<Wish>, AllocError>
    ensures { hearing.Hears (hearing.keep_item heap.old visit.old) result visit.new heap.new }
{
    let pair = visit.source.passed_pair();
    keep_pair(heap, visit, pair)
}

/// Keeps values behind those that were kept.
fn keep_all(heap: &Heap, visit: &mut Visit, more: &[Value]) -> Result<(), AllocError>
    ensures { OnOk result (visit.new ≡ hearing.keeping visit.old more.now) }
{
    let mut kept = mem::replace(&mut visit.kept, List::new(heap.alloc())).into_vec();
    kept.extend_from_slice(more)?;
    visit.kept = List::from_vec(kept);
    Ok(())
}

/// Keeps an answer: of an Array its elements.
fn keep_flat(heap: &Heap, visit: &mut Visit, answer: Value) -> Result<(), AllocError>
    ensures { OnOk result (visit.new ≡ hearing.keep_flat heap.now visit.old answer) }
{
    match heap.elements_of(answer) {
        Some(elements) => keep_all(heap, visit, elements),
        None => visit.kept.push(answer),
    }
}

/// Puts the item into the part of those that the answer is true of, or into the other one.
fn part(visit: &mut Visit, answer: Value) -> Result<(), AllocError>
    ensures { OnOk result (visit.new ≡ hearing.part visit.old answer) }
{
    if answer.is_true() {
        visit.kept.push(visit.item)
    } else {
        visit.others.push(visit.item)
    }
}

/// Puts the item into a new group of a Hash.
fn begin_group(
    heap: &mut Heap,
    visit: &Visit,
    hash: ObjId,
    key: Value,
) -> Result<Option<Wish>, AllocError>
    ensures { hearing.Hears (hearing.begin_group heap.old visit.now hash key) result visit.now heap.new }
{
    let items = Vec::from_slice(heap.alloc(), &[visit.item])?;
    let group = heap.make_array(items)?;
    put(heap, visit, hash, key, group)
}

/// Puts the item into a group that is there.
fn into_group(
    heap: &mut Heap,
    visit: &Visit,
    group: Option<ObjId>,
) -> Result<Option<Wish>, AllocError>
    ensures { hearing.Hears (hearing.into_group heap.old visit.now group) result visit.now heap.new }
{
    if let Some(group) = group {
        heap.push(group, visit.item)?;
    }
    Ok(None)
}

/// Puts the item into the group of a key in a Hash.
fn group_in(
    heap: &mut Heap,
    visit: &Visit,
    hash: ObjId,
    answer: Value,
) -> Result<Option<Wish>, AllocError>
    ensures { hearing.Hears (hearing.group_in heap.old visit.now answer (Some hash)) result visit.now heap.new }
{
    let Some(key) = heap.key_of(answer)? else {
        return Ok(Some(Wish::Fails(Cause::StackTooDeep)));
    };
    match heap.pair(hash, &key) {
        Some(pair) => into_group(heap, visit, heap.an_array(pair.value)),
        None => begin_group(heap, visit, hash, answer),
    }
}

/// Puts the item into the group of a key.
fn group(heap: &mut Heap, visit: &Visit, answer: Value) -> Result<Option<Wish>, AllocError>
    ensures { hearing.Hears (hearing.group heap.old visit.now answer) result visit.now heap.new }
{
    match visit.made {
        Some(hash) => group_in(heap, visit, hash, answer),
        None => Ok(None),
    }
}

/// Ends where the answer decides.
fn decide(visit: &Visit, answer: Value) -> Option<Wish>
    ensures { result ≡ hearing.decide visit.now.task visit.now (is_true answer) }
{
    match (visit.task, answer.is_true()) {
        (Task::Find, true) => Some(Wish::Ends(visit.item)),
        (Task::FindIndex, true) => Some(Wish::Ends(visit.tally_value())),
        (Task::All, false) | (Task::Never, true) => Some(Wish::Ends(Value::False)),
        (Task::Any, true) => Some(Wish::Ends(Value::True)),
        _ => None,
    }
}

/// Ends with the items that were gathered.
fn give_kept(heap: &mut Heap, visit: &mut Visit) -> Result<Option<Wish>, AllocError>
    ensures { hearing.Hears (hearing.going (hearing.give_kept heap.old visit.old)) result visit.new heap.new }
{
    let kept = mem::replace(&mut visit.kept, List::new(heap.alloc()));
    Ok(Some(Wish::Ends(heap.make_array(kept.into_vec())?)))
}

/// Gathers the item and all that are left.
fn take_rest(heap: &mut Heap, visit: &mut Visit) -> Result<Option<Wish>, AllocError>
    ensures { hearing.Hears (hearing.take_rest heap.old visit.old) result visit.new heap.new }
{
    let left = visit.source.left(heap);
    let items = take(heap, &mut visit.source, left)?;
    visit.kept.push(visit.item)?;
    keep_all(heap, visit, &items)?;
    give_kept(heap, visit)
}

/// What the answer for a sum comes to: it is the sum, or what is added next.
fn add(visit: &mut Visit, answer: Value) -> Option<Wish>
    ensures { (held : Held) → hearing.added held visit.old answer
        ≡ record { wish = result; visit = visit.new; held = held } }
{
    if visit.called {
        visit.called = false;
        Some(Wish::Asks {
            receiver: visit.value_or_nil(),
            argument: answer,
        })
    } else {
        visit.value = Some(answer);
        None
    }
}

/// One item more came, or counts.
fn tally(visit: &mut Visit)
    ensures { visit.new ≡ hearing.tallied visit.old }
{
    visit.tally = visit.tally.saturating_add(1);
}

/// Keeps the item with the answer that orders it.
fn keep_keyed(visit: &mut Visit, answer: Value) -> Result<(), AllocError>
    ensures { OnOk result (visit.new ≡ hearing.keyed_by visit.old answer) }
{
    visit.kept.push(visit.item)?;
    visit.others.push(answer)
}

/// What an answer comes to that tells whether the item stays.
fn sift(heap: &mut Heap, visit: &mut Visit, answer: Value) -> Result<Option<Wish>, AllocError>
    ensures { hearing.Hears (hearing.sifted visit.old.task heap.old visit.old answer) result visit.new heap.new }
{
    match (visit.task, answer.is_true()) {
        (Task::Select, true) | (Task::Reject, false) => keep_item(heap, visit),
        (Task::TakeWhile, false) => give_kept(heap, visit),
        (Task::DropWhile, false) => take_rest(heap, visit),
        (Task::TakeWhile, true) => {
            visit.kept.push(visit.item)?;
            Ok(None)
        }
        _ => Ok(None),
    }
}

/// Keeps the answer, its elements, or the item with it.
fn gather(heap: &Heap, visit: &mut Visit, answer: Value) -> Result<(), AllocError>
    ensures { OnOk result (visit.new ≡ hearing.gathered visit.old.task heap.now visit.old answer) }
{
    match visit.task {
        Task::Map => visit.kept.push(answer),
        Task::FlatMap => keep_flat(heap, visit, answer),
        Task::Partition => part(visit, answer),
        Task::MinBy | Task::MaxBy | Task::SortBy => keep_keyed(visit, answer),
        _ => Ok(()),
    }
}

/// Takes an answer, and gives what the visit wants by it before the next item.
pub(crate) fn hear(
    heap: &mut Heap,
    visit: &mut Visit,
    answer: Value,
) -> Result<Option<Wish>, AllocError>
    ensures { hearing.Hears (hearing.heard heap.old visit.old answer) result visit.new heap.new }
{
    match visit.task {
        Task::Find | Task::FindIndex | Task::All | Task::Any | Task::Never => {
            let wish = decide(visit, answer);
            tally(visit);
            Ok(wish)
        }
        Task::EachWithIndex => {
            tally(visit);
            Ok(None)
        }
        Task::Count => {
            if answer.is_true() {
                tally(visit);
            }
            Ok(None)
        }
        Task::Inject => {
            visit.value = Some(answer);
            Ok(None)
        }
        Task::Sum => Ok(add(visit, answer)),
        Task::GroupBy => group(heap, visit, answer),
        Task::Select | Task::Reject | Task::TakeWhile | Task::DropWhile => sift(
            heap, visit, answer,
        ),
        _ => {
            gather(heap, visit, answer)?;
            Ok(None)
        }
    }
}
