//! What a visit gives once all items were visited.
ghost use Rattle.std.specs.Prelude.{◌≡◌, IfOk};
ghost use Rattle.iter_items.specs.Driving as driving;

use crate::keyed::{extreme_item, sorted_items};
use crate::row::Task;
use crate::visit::Visit;
use crate::wish::Wish;
use rb_base::List;
use rb_value::Value;
use rows_items::heap::Heap;
use rows_items::{Extreme, RowError};
use std::alloc::AllocError;
use std::mem;

/// A new Array of what was kept.
fn kept_array(heap: &mut Heap, visit: &mut Visit) -> Result<Wish, AllocError>
    ensures { IfOk result (λ wish. driving.IsLeft (driving.given_by heap.old visit.old None) wish visit.new heap.new) }
{
    let kept = mem::replace(&mut visit.kept, List::new(heap.alloc()));
    Ok(Wish::Ends(heap.make_array(kept.into_vec())?))
}

/// The two parts of the items.
fn both_parts(heap: &mut Heap, visit: &mut Visit) -> Result<Wish, AllocError>
    ensures { IfOk result (λ wish. driving.IsLeft (driving.both_parts heap.old visit.old) wish visit.new heap.new) }
{
    let kept = mem::replace(&mut visit.kept, List::new(heap.alloc()));
    let others = mem::replace(&mut visit.others, List::new(heap.alloc()));
    let first = heap.make_array(kept.into_vec())?;
    let second = heap.make_array(others.into_vec())?;
    let parts = Vec::from_slice(heap.alloc(), &[first, second])?;
    Ok(Wish::Ends(heap.make_array(parts)?))
}

/// What an item of the least or greatest key comes to.
fn ended_by(outcome: Result<Value, RowError>) -> Result<Wish, AllocError>
    ensures { IfOk result (λ wish. driving.IsEndOf outcome wish) }
{
    match outcome {
        Ok(value) => Ok(Wish::Ends(value)),
        Err(RowError::Fails(cause)) => Ok(Wish::Fails(cause)),
        Err(RowError::NoMemory) => Err(AllocError),
    }
}

/// The item whose key is the least or the greatest.
#[tactic(auto, using(crate::proofs::Ended::extreme_so))]
fn extreme(heap: &Heap, visit: &Visit, wanted: Extreme) -> Result<Wish, AllocError>
    ensures { IfOk result (λ wish. driving.IsLeft (driving.extreme heap.now visit.now wanted) wish visit.now heap.now) }
{
    let outcome = extreme_item(heap, visit.kept.as_slice(), visit.others.as_slice(), wanted);
    ended_by(outcome)
}

/// A new Array of the items in the order of their keys.
#[tactic(auto, using(crate::proofs::Ended::sorts_so, crate::proofs::Ended::gives_so))]
fn sorted(heap: &mut Heap, visit: &Visit) -> Result<Wish, AllocError>
    ensures { IfOk result (λ wish. driving.IsSorted heap.old visit.now wish visit.now heap.new) }
{
    match sorted_items(heap, visit.kept.as_slice(), visit.others.as_slice()) {
        Ok(items) => Ok(Wish::Ends(heap.make_array(items)?)),
        Err(RowError::Fails(cause)) => Ok(Wish::Fails(cause)),
        Err(RowError::NoMemory) => Err(AllocError),
    }
}

/// What was gathered: the Hash that was made, or else the items.
fn gathered(heap: &mut Heap, visit: &mut Visit) -> Result<Wish, AllocError>
    ensures { IfOk result (λ wish. driving.IsLeft (driving.kept_given heap.old visit.old) wish visit.new heap.new) }
{
    match visit.made {
        Some(hash) => Ok(Wish::Ends(Value::Obj(hash))),
        None => kept_array(heap, visit),
    }
}

/// What the visit gives once all items were visited.
pub(crate) fn end(heap: &mut Heap, visit: &mut Visit) -> Result<Wish, AllocError>
    ensures { IfOk result (λ wish.
        driving.Ends visit.old.task heap.old visit.old wish visit.new heap.new) }
{
    match visit.task {
        Task::Map
        | Task::FlatMap
        | Task::Select
        | Task::Reject
        | Task::GroupBy
        | Task::TakeWhile
        | Task::DropWhile => gathered(heap, visit),
        Task::Partition => both_parts(heap, visit),
        Task::MinBy => extreme(heap, visit, Extreme::Least),
        Task::MaxBy => extreme(heap, visit, Extreme::Greatest),
        Task::SortBy => sorted(heap, visit),
        Task::EachWithIndex | Task::EachSlice | Task::EachCons | Task::ReverseEach => {
            Ok(Wish::Ends(visit.receiver))
        }
        Task::EachWithObject | Task::Inject | Task::Sum => Ok(Wish::Ends(visit.value_or_nil())),
        Task::Find | Task::FindIndex => Ok(Wish::Ends(Value::Nil)),
        Task::All | Task::Never => Ok(Wish::Ends(Value::True)),
        Task::Any => Ok(Wish::Ends(Value::False)),
        Task::Count => Ok(Wish::Ends(visit.tally_value())),
    }
}
