//! Calls of the source of an Enumerator, and of the Proc of a Yielder.
ghost use Rattle.std.specs.Prelude.{◌≡◌, IfOk, OnOk};
ghost use Rattle.rb_value.specs.declared.value.Value.TheVariants.{Nil};
ghost use Rattle.def_core.specs.Store.{next_number};
ghost use Rattle.heap.specs.Made.{with_core_proc};
ghost use Rattle.def_plans.specs.Plan.{Plans};
ghost use Rattle.iter_enumerators.specs.Sources as sources;

use crate::state::EnumeratorState;
use core_calls::Plan;
use core_calls::heap::{Cursor, Heap};
use core_calls::hidden::YIELD_ROW;
use rb_value::{CoreClass, EnumeratorSource, ObjId, Value};
use std::alloc::AllocError;

/// The object of a number as the only argument, where there is one.
fn alone(heap: &Heap, object: Option<ObjId>) -> Result<Vec<Value>, AllocError>
    ensures { IfOk result (λ args. args.items ≡ sources.alone object) }
{
    match object {
        Some(id) => Vec::from_slice(heap.alloc(), &[Value::Obj(id)]),
        None => Ok(Vec::new(heap.alloc())),
    }
}

/// Calls the source of an Enumerator with a block: the method of its receiver, or its Proc with a Yielder.
fn call_source(
    heap: &mut Heap,
    then: EnumeratorState,
    source: &EnumeratorSource,
    block: ObjId,
) -> Result<Plan<EnumeratorState>, AllocError>
    ensures { Plans (λ s. s) heap.new result (sources.source_called heap.old then block source.now) }
{
    match source {
        EnumeratorSource::Call {
            receiver,
            name,
            args,
        } => Ok(Plan::Sends {
            then,
            receiver: *receiver,
            name: *name,
            args: Vec::from_slice(heap.alloc(), args.as_slice())?,
            block: Some(block),
            public: false,
        }),
        EnumeratorSource::Block(callee) => {
            let yielder = heap.make_yielder(block)?;
            Ok(Plan::Calls {
                then,
                callee: *callee,
                args: alone(heap, yielder)?,
                block: None,
            })
        }
    }
}

/// Calls the source of an Enumerator with a block, and goes on as it is said.
pub(crate) fn run(
    heap: &mut Heap,
    then: EnumeratorState,
    enumerator: ObjId,
    block: ObjId,
) -> Result<Plan<EnumeratorState>, AllocError>
    ensures { Plans (λ s. s) heap.new result (sources.run heap.old then enumerator block) }
{
    match heap.source_of(enumerator)? {
        Some(source) => call_source(heap, then, &source, block),
        None => Ok(Plan::Fails(heap.refusal(CoreClass::Enumerator, Value::Obj(enumerator)))),
    }
}

/// The fiber of an Enumerator, where one has begun.
fn fiber_of(cursor: Option<Cursor>) -> Option<ObjId>
    ensures { result ≡ sources.fiber_of cursor }
{
    match cursor {
        Some(cursor) => cursor.fiber,
        None => None,
    }
}

/// A new Proc that yields its arguments.
#[tactic(auto, unfolding(rb_value::specs::CoreClass::core_classes))]
fn make_yielding(heap: &mut Heap) -> Result<ObjId, AllocError>
    ensures number { IfOk result (λ id. id ≡ next_number heap.old.store) }
    ensures made { OnOk result (heap.new ≡ with_core_proc heap.old sources.yield_row Nil) }
{
    heap.make_core_proc(YIELD_ROW, Value::Nil)
}

/// Runs the source of an Enumerator in its fiber, with a block that yields each item.
pub(crate) fn enumerate(
    heap: &mut Heap,
    enumerator: ObjId,
) -> Result<Plan<EnumeratorState>, AllocError>
    ensures { Plans (λ s. s) heap.new result (sources.enumerate heap.old enumerator) }
{
    let fiber = fiber_of(heap.cursor_of(enumerator));
    let block = make_yielding(heap)?;
    run(
        heap,
        EnumeratorState::Runs { enumerator, fiber },
        enumerator,
        block,
    )
}

/// Calls the Proc of a Yielder.
pub(crate) fn put(
    heap: &Heap,
    then: EnumeratorState,
    yielder: Value,
    args: &[Value],
) -> Result<Plan<EnumeratorState>, AllocError>
    ensures { Plans (λ s. s) heap.now result (sources.put heap.now then yielder args.now) }
{
    let callee = match yielder {
        Value::Obj(id) => heap.yielder_of(id),
        _ => None,
    };
    match callee {
        Some(callee) => Ok(Plan::Calls {
            then,
            callee,
            args: Vec::from_slice(heap.alloc(), args)?,
            block: None,
        }),
        None => Ok(Plan::Fails(heap.refusal(CoreClass::Yielder, yielder))),
    }
}
