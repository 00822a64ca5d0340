//! What a visit wants next.
ghost use Rattle.std.specs.Prelude.{◌≡◌, Some, IfOk, OnOk};
ghost use Rattle.rb_store.specs.Held.{Held};
ghost use Rattle.iter_items.specs.Asking as asking;
ghost use Rattle.iter_items.specs.Sources.{next};

use crate::groups::{next_slice, next_window};
use crate::row::Task;
use crate::visit::Visit;
use crate::wish::Wish;
use rb_value::Value;
use rows_items::core_calls::{Beat, Passed};
use rows_items::heap::Heap;
use std::alloc::AllocError;

/// Calls the block with values. A visit that has none ends.
pub(crate) fn call_block(visit: &Visit, passed: Passed) -> Wish
    ensures { result ≡ asking.call_block visit.now passed }
{
    match visit.block {
        Some(callee) => Wish::Calls(Beat { callee, passed }),
        None => Wish::Ends(Value::Nil),
    }
}

/// Whether an item that isn't asked decides whether all, any or none of the items are true.
fn decides(task: Task, item: Value) -> bool
    ensures { result ≡ asking.decides task item }
{
    match task {
        Task::All => !item.is_true(),
        _ => item.is_true(),
    }
}

/// Whether a method is `any?`.
fn is_any(task: Task) -> bool
    ensures { result ≡ asking.is_any task }
{
    match task {
        Task::Any => true,
        _ => false,
    }
}

/// What no item has decided.
fn undecided(visit: &Visit) -> Wish
    ensures { result ≡ asking.undecided visit.now }
{
    Wish::Ends(Value::from_truth(!is_any(visit.task)))
}

/// Whether all, any or none of the items are true.
#[tactic(auto, using(crate::proofs::Taken::tested_more, crate::proofs::Taken::tested_found, crate::proofs::Taken::tested_none))]
fn test_all(heap: &mut Heap, visit: &mut Visit) -> Result<Option<Wish>, AllocError>
    ensures { asking.IsWished (asking.tested heap.old visit.old) result visit.new heap.new }
{
    'items: for _passed in 0..visit.source.left(heap) {
        match visit.source.next(heap)? {
            Some(item) => if decides(visit.task, item) {
                return Ok(Some(Wish::Ends(Value::from_truth(is_any(visit.task)))));
            },
            None => return Ok(Some(undecided(visit))),
        }
    }
    Ok(Some(undecided(visit)))
}

/// Asks whether the item is the value that is counted, where there is one.
fn ask_count(visit: &Visit, item: Value) -> Wish
    ensures { result ≡ asking.count_item visit.now item visit.now.value }
{
    match visit.value {
        Some(argument) => Wish::Asks {
            receiver: item,
            argument,
        },
        None => call_block(visit, Passed::One(item)),
    }
}

/// Makes a value of the one so far and an item: by the method, or else by the block.
fn combine(visit: &Visit, item: Value) -> Wish
    ensures { result ≡ asking.combine visit.now item }
{
    let value = visit.value_or_nil();
    if visit.name.is_some() {
        Wish::Asks {
            receiver: value,
            argument: item,
        }
    } else {
        call_block(visit, Passed::Two(value, item))
    }
}

/// Adds an item, or what the block makes of it.
fn add(visit: &mut Visit, item: Value) -> Wish
    ensures { (held : Held) → asking.add held visit.old item
        ≡ record { wish = Some result; visit = visit.new; held = held } }
{
    if visit.block.is_some() {
        visit.called = true;
        call_block(visit, Passed::One(item))
    } else {
        combine(visit, item)
    }
}

/// What is done with an item.
fn ask_of(visit: &mut Visit, item: Value) -> Wish
    ensures { (held : Held) → asking.ask_of visit.old.task held visit.old item
        ≡ record { wish = Some result; visit = visit.new; held = held } }
{
    match visit.task {
        Task::EachWithIndex => call_block(visit, Passed::Two(item, visit.tally_value())),
        Task::EachWithObject => call_block(visit, Passed::Two(item, visit.value_or_nil())),
        Task::Count => ask_count(visit, item),
        Task::Inject => combine(visit, item),
        Task::Sum => add(visit, item),
        _ => call_block(visit, Passed::One(item)),
    }
}

/// Whether the items are visited from the last one back.
pub(crate) fn is_backwards(task: Task) -> bool
    ensures { result ≡ asking.is_backwards task }
{
    match task {
        Task::ReverseEach => true,
        _ => false,
    }
}

/// The next item, from the first on or from the last one back.
fn next_item(heap: &mut Heap, visit: &mut Visit) -> Result<Option<Value>, AllocError>
    ensures item { IfOk result (λ item. item ≡ (asking.passed heap.old visit.old).item) }
    ensures visit { OnOk result (visit.new ≡ asking.with_source visit.old (asking.passed heap.old visit.old)) }
    ensures heap { OnOk result (heap.new ≡ (asking.passed heap.old visit.old).held) }
{
    if is_backwards(visit.task) {
        visit.source.previous(heap)
    } else {
        visit.source.next(heap)
    }
}

/// What a visit wants for its next item; nothing where there is none.
fn ask_item(heap: &mut Heap, visit: &mut Visit) -> Result<Option<Wish>, AllocError>
    ensures { asking.IsWished (asking.visited heap.old visit.old) result visit.new heap.new }
{
    match next_item(heap, visit)? {
        Some(item) => {
            visit.item = item;
            Ok(Some(ask_of(visit, item)))
        }
        None => Ok(None),
    }
}

/// `inject` begins with the first item.
fn begin_inject(heap: &mut Heap, visit: &mut Visit) -> Result<Option<Wish>, AllocError>
    ensures { asking.IsWished (asking.begun_by visit.old (next heap.old visit.old.source)) result visit.new heap.new }
{
    visit.value = visit.source.next(heap)?;
    ask_item(heap, visit)
}

/// `inject` begins with the first item, where no value was given.
fn inject(heap: &mut Heap, visit: &mut Visit) -> Result<Option<Wish>, AllocError>
    ensures { asking.IsWished (asking.injected heap.old visit.old visit.old.value) result visit.new heap.new }
{
    match visit.value {
        Some(_) => ask_item(heap, visit),
        None => begin_inject(heap, visit),
    }
}

/// Asks whether all, any or none of the items are true: the block, or without one the items themselves.
fn ask_all(heap: &mut Heap, visit: &mut Visit) -> Result<Option<Wish>, AllocError>
    ensures { asking.IsWished (asking.all_asked heap.old visit.old) result visit.new heap.new }
{
    if visit.block.is_none() {
        test_all(heap, visit)
    } else {
        ask_item(heap, visit)
    }
}

/// Counts the items: those that a block or a value tells, or all that are left.
fn count(heap: &mut Heap, visit: &mut Visit) -> Result<Option<Wish>, AllocError>
    ensures { asking.IsWished (asking.counted heap.old visit.old) result visit.new heap.new }
{
    if visit.block.is_none() && visit.value.is_none() {
        visit.tally = visit.source.left(heap);
        Ok(None)
    } else {
        ask_item(heap, visit)
    }
}

/// What a visit wants for its next item; nothing where there is none.
pub(crate) fn ask(heap: &mut Heap, visit: &mut Visit) -> Result<Option<Wish>, AllocError>
    ensures { asking.IsWished (asking.asked heap.old visit.old) result visit.new heap.new }
{
    match visit.task {
        Task::EachSlice => next_slice(heap, visit),
        Task::EachCons => next_window(heap, visit),
        Task::All | Task::Any | Task::Never => ask_all(heap, visit),
        Task::Count => count(heap, visit),
        Task::Inject => inject(heap, visit),
        _ => ask_item(heap, visit),
    }
}
