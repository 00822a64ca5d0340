//! `[]` and `fetch` of a Hash.
ghost use Rattle.def_plans.specs.Plan.{Plans};
ghost use Rattle.iter_comparing.specs.Stage.{stage_of};
ghost use Rattle.iter_comparing.specs.Fetching as fetching;

use crate::state::ComparingState;
use core_calls::heap::Heap;
use core_calls::{Call, Plan, argument};
use def_core::Cause;
use rb_value::{ObjId, Value};
use std::alloc::AllocError;

/// Calls a Proc, whose value is given.
fn call_proc(heap: &Heap, callee: ObjId, args: &[Value]) -> Result<Plan<ComparingState>, AllocError>
    ensures { Plans stage_of heap.now result (fetching.called heap.now callee args.now) }
{
    Ok(Plan::Calls {
        then: ComparingState::Hands,
        callee,
        args: Vec::from_slice(heap.alloc(), args)?,
        block: None,
    })
}

/// What an absent key comes to: what the Hash's Proc gives, or its default.
fn default_of(heap: &Heap, hash: ObjId, key: Value) -> Result<Plan<ComparingState>, AllocError>
    ensures { Plans stage_of heap.now result (fetching.default_of heap.now hash key) }
{
    match heap.absent_of(hash) {
        (_, Some(callee)) => call_proc(heap, callee, &[Value::Obj(hash), key]),
        (default, None) => Ok(Plan::Finishes(default)),
    }
}

/// The value under a key; of an absent one what its Proc or its default gives.
pub(crate) fn element(
    heap: &Heap,
    hash: ObjId,
    key: Value,
) -> Result<Plan<ComparingState>, AllocError>
    ensures { Plans stage_of heap.now result (fetching.element heap.now hash key) }
{
    let Some(found) = heap.key_of(key)? else {
        return Ok(Plan::Fails(Cause::StackTooDeep));
    };
    match heap.pair(hash, &found) {
        Some(item) => Ok(Plan::Finishes(item.value)),
        None => default_of(heap, hash, key),
    }
}

/// What an absent key comes to: what the block gives, the second argument, or a failure that shows the key.
fn absent(heap: &mut Heap, call: Call<'_>) -> Result<Plan<ComparingState>, AllocError>
    ensures { Plans stage_of heap.new result (fetching.absent_by heap.old call.entry.args.now call.entry.block) }
{
    let key = argument(call.args, 0);
    if let Some(block) = call.block {
        return call_proc(heap, block, &[key]);
    }
    if let Some(value) = call.args.get(1) {
        return Ok(Plan::Finishes(*value));
    }
    let name = heap.intern(b"inspect")?;
    Ok(Plan::Sends {
        then: ComparingState::Missing,
        receiver: key,
        name,
        args: Vec::new(heap.alloc()),
        block: None,
        public: false,
    })
}

/// The value under a key; of an absent one what the block gives, or the second argument.
pub(crate) fn fetch(
    heap: &mut Heap,
    hash: ObjId,
    call: Call<'_>,
) -> Result<Plan<ComparingState>, AllocError>
    ensures { Plans stage_of heap.new result (fetching.fetch heap.old hash call.entry.args.now call.entry.block) }
{
    let Some(key) = heap.key_of(argument(call.args, 0))? else {
        return Ok(Plan::Fails(Cause::StackTooDeep));
    };
    match heap.pair(hash, &key) {
        Some(item) => Ok(Plan::Finishes(item.value)),
        None => absent(heap, call),
    }
}

/// Fails since a key isn't there, which is shown by this value.
pub(crate) fn fail_absent(heap: &mut Heap, shown: Value) -> Result<Plan<ComparingState>, AllocError>
    ensures { Plans stage_of heap.new result (fetching.fail_absent heap.old shown) }
{
    let text = heap.text_of_value(shown)?;
    match heap.make_string(text)? {
        Value::Obj(id) => Ok(Plan::Fails(Cause::KeyNotFound(id))),
        other => Ok(Plan::Finishes(other)),
    }
}
