//! `raise`.
ghost use Rattle.std.specs.Prelude.{◌≡◌, Ok, Some};
ghost use Rattle.rb_value.specs.declared.kind.Sort.TheVariants as sorts;
ghost use Rattle.def_plans.specs.Plan.{Plans, Meets};
ghost use Rattle.heap.specs.Reading.{sort_of_value};
ghost use Rattle.core_iter.specs.Raising as raising;
ghost use Rattle.core_iter.specs.Stage.{stage_of};

use crate::iteration::Iteration;
use crate::sending::send_named;
use def_core::Cause;
use rb_value::{CoreClass, Sort, Value};
use run_rows::core_calls::Plan;
use run_rows::heap::Heap;
use std::alloc::AllocError;

/// Raises a RuntimeError with a String as its message.
fn raise_text(heap: &mut Heap, text: Value) -> Result<Plan<Iteration>, AllocError>
    ensures { Plans stage_of heap.new result (raising.text heap.old text) }
{
    let class = heap.class_object(CoreClass::RuntimeError);
    let id = heap.make_exception(class, text, Value::Nil)?;
    Ok(Plan::Raises(id))
}

/// Raises a copy of an exception with another message.
#[tactic(auto, using(heap::proofs::Fresh::held_is))]
fn raise_copy(heap: &mut Heap, raised: Value, message: Value) -> Result<Plan<Iteration>, AllocError>
    ensures { sort_of_value heap.old.store raised ≡ Some sorts.Exception
        → Plans stage_of heap.new result (raising.again heap.old raised message) }
{
    let copy = heap.copy(raised)?;
    match heap.an_exception(copy) {
        Some(id) => {
            heap.set_message(id, message);
            Ok(Plan::Raises(id))
        }
        None => Ok(Plan::Fails(Cause::NotException)),
    }
}

/// Raises a String, or an exception, which a message may follow.
fn raise_object(
    heap: &mut Heap,
    raised: Value,
    more: &[Value],
) -> Result<Plan<Iteration>, AllocError>
    ensures { Meets stage_of heap.new result
        (raising.Object heap.old raised (sort_of_value heap.old.store raised) more.now) }
{
    match (heap.sort(raised), more) {
        (Some(Sort::Exception), []) => Ok(raise_made(heap, raised)),
        (Some(Sort::Exception), [message]) => raise_copy(heap, raised, *message),
        (Some(Sort::String), []) => raise_text(heap, raised),
        _ => Ok(Plan::Fails(Cause::NotException)),
    }
}

/// Begins `raise` with its arguments; without any a RuntimeError is raised.
pub(crate) fn raise_all(heap: &mut Heap, args: &[Value]) -> Result<Plan<Iteration>, AllocError>
    ensures { Meets stage_of heap.new result (raising.Raises heap.old args.now) }
{
    let [first, more @ ..] = args else {
        return Ok(Plan::Fails(Cause::Unhandled));
    };
    match heap.sort(*first) {
        Some(Sort::Class | Sort::Singleton) => {
            let more = Vec::from_slice(heap.alloc(), more)?;
            send_named(heap, Iteration::Raising, *first, b"new", more, None)
        }
        _ => raise_object(heap, *first, more),
    }
}

/// Raises an exception, such as a class made.
pub(crate) fn raise_made(heap: &Heap, made: Value) -> Plan<Iteration>
    ensures { Plans stage_of heap.now (Ok result) (raising.made heap.now made) }
{
    match heap.an_exception(made) {
        Some(id) => Plan::Raises(id),
        None => Plan::Fails(Cause::NotException),
    }
}
