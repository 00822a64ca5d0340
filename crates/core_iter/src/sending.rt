//! Calls of methods and Procs.
ghost use Rattle.std.specs.Prelude.{◌≡◌, drop, get_or, false, Ok};
ghost use Rattle.rb_value.specs.declared.value.Value.TheVariants.{Nil};
ghost use Rattle.def_core.specs.declared.cause.Cause.TheVariants.{NoBlockGiven};
ghost use Rattle.def_plans.specs.Plan.{Plans, Meets, plan_of, fails, refuses, expected};
ghost use Rattle.core_iter.specs.Sending as sending;
ghost use Rattle.core_iter.specs.Stage.{stage_of};

use crate::iteration::Iteration;
use def_core::Cause;
use rb_value::{CoreClass, ObjId, Value};
use run_rows::core_calls::{Beat, Call, Passed, Plan, argument, name_in};
use run_rows::heap::Heap;
use std::alloc::AllocError;

/// Fails since a value isn't of the class that is wanted.
pub(crate) fn refuse(heap: &Heap, class: CoreClass, value: Value) -> Plan<Iteration>
    ensures { Plans stage_of heap.now (Ok result) (refuses heap.now (expected heap.now class value)) }
{
    Plan::Fails(heap.refusal(class, value))
}

/// Calls a method by a name of the language, with these arguments and that block.
pub(crate) fn send_named(
    heap: &mut Heap,
    then: Iteration,
    receiver: Value,
    name: &[u8],
    args: Vec<Value>,
    block: Option<ObjId>,
) -> Result<Plan<Iteration>, AllocError>
    ensures { Plans stage_of heap.new result
        (sending.send_named heap.old (stage_of then) receiver name.now args.items block) }
{
    let name = heap.intern(name)?;
    Ok(Plan::Sends {
        then,
        receiver,
        name,
        args,
        block,
        public: false,
    })
}

/// Asks a value for what a method without arguments gives.
pub(crate) fn ask(
    heap: &mut Heap,
    then: Iteration,
    receiver: Value,
    name: &[u8],
) -> Result<Plan<Iteration>, AllocError>
    ensures { Plans stage_of heap.new result (sending.ask heap.old (stage_of then) receiver name.now) }
{
    let args = Vec::new(heap.alloc());
    send_named(heap, then, receiver, name, args, None)
}

/// Calls a block, and goes on then.
pub(crate) fn call_beat(
    heap: &Heap,
    then: Iteration,
    beat: Beat,
) -> Result<Plan<Iteration>, AllocError>
    ensures { Plans stage_of heap.now result (sending.call_beat heap.now (stage_of then) beat) }
{
    Ok(Plan::Calls {
        then,
        callee: beat.callee,
        args: beat.passed.args(heap.alloc())?,
        block: None,
    })
}

/// The call of a block with one value.
pub(crate) fn with_one(callee: ObjId, value: Value) -> Beat
    ensures { result ≡ sending.with_one callee value }
{
    Beat {
        callee,
        passed: Passed::One(value),
    }
}

/// Calls a Proc with one value.
pub(crate) fn call_with(
    heap: &Heap,
    then: Iteration,
    callee: ObjId,
    value: Value,
) -> Result<Plan<Iteration>, AllocError>
    ensures { Plans stage_of heap.now result (sending.call_with heap.now (stage_of then) callee value) }
{
    call_beat(heap, then, with_one(callee, value))
}

/// The arguments behind the first.
fn behind_first(args: &[Value]) -> &[Value]
    ensures { result.now ≡ drop 1 args.now }
{
    match args {
        [_, more @ ..] => more,
        [] => &[],
    }
}

/// Calls the method whose name a Symbol or a String is.
fn send_to(
    heap: &mut Heap,
    receiver: Value,
    name: Value,
    call: Call<'_>,
    public: bool,
) -> Result<Plan<Iteration>, AllocError>
    ensures { Meets stage_of heap.new result
        (sending.Sends heap.old receiver name call.entry.args.now call.entry.block public) }
{
    match name_in(heap, name)? {
        Ok(name) => Ok(Plan::Sends {
            then: Iteration::Handing,
            receiver,
            name,
            args: Vec::from_slice(heap.alloc(), behind_first(call.args))?,
            block: call.block,
            public,
        }),
        Err(cause) => Ok(Plan::Fails(cause)),
    }
}

/// Begins `send`, where the first argument is the name.
pub(crate) fn begin_send(
    heap: &mut Heap,
    call: Call<'_>,
    public: bool,
) -> Result<Plan<Iteration>, AllocError>
    ensures { Meets stage_of heap.new result (sending.Sends heap.old call.entry.receiver
        (get_or call.entry.args.now 0 Nil) call.entry.args.now call.entry.block public) }
{
    send_to(heap, call.receiver, argument(call.args, 0), call, public)
}

/// Begins to send the kept name to the first argument.
pub(crate) fn begin_kept(heap: &mut Heap, call: Call<'_>) -> Result<Plan<Iteration>, AllocError>
    ensures { Meets stage_of heap.new result (sending.Sends heap.old (get_or call.entry.args.now 0 Nil)
        call.entry.receiver call.entry.args.now call.entry.block false) }
{
    send_to(heap, argument(call.args, 0), call.receiver, call, false)
}

/// Calls a Proc without arguments, again and again.
pub(crate) fn loop_next(heap: &Heap, block: ObjId) -> Plan<Iteration>
    ensures { Plans stage_of heap.now (Ok result) (sending.looped heap.now block) }
{
    Plan::Calls {
        then: Iteration::Looping(block),
        callee: block,
        args: Vec::new(heap.alloc()),
        block: None,
    }
}

/// Begins the call of a Proc.
pub(crate) fn begin_call(heap: &Heap, call: Call<'_>) -> Result<Plan<Iteration>, AllocError>
    ensures { Plans stage_of heap.now result
        (sending.call heap.now call.entry.receiver call.entry.args.now call.entry.block) }
{
    match heap.a_proc(call.receiver) {
        Some(callee) => Ok(Plan::Calls {
            then: Iteration::Handing,
            callee,
            args: Vec::from_slice(heap.alloc(), call.args)?,
            block: call.block,
        }),
        None => Ok(refuse(heap, CoreClass::Proc, call.receiver)),
    }
}

/// Begins to resume a fiber.
pub(crate) fn begin_resume(heap: &Heap, call: Call<'_>) -> Result<Plan<Iteration>, AllocError>
    ensures { Plans stage_of heap.now result (sending.resume heap.now call.entry.receiver call.entry.args.now) }
{
    match heap.a_fiber(call.receiver) {
        Some(fiber) => Ok(Plan::Resumes {
            then: Iteration::Handing,
            fiber,
            args: Vec::from_slice(heap.alloc(), call.args)?,
        }),
        None => Ok(refuse(heap, CoreClass::Fiber, call.receiver)),
    }
}

/// Yields the arguments to what resumed the fiber.
pub(crate) fn begin_yield(heap: &Heap, args: &[Value]) -> Result<Plan<Iteration>, AllocError>
    ensures { Plans stage_of heap.now result (sending.yields_all heap.now args.now) }
{
    Ok(Plan::Yields {
        then: Iteration::Handing,
        args: Vec::from_slice(heap.alloc(), args)?,
    })
}

/// Fails since a block is wanted and none is given.
pub(crate) fn blockless() -> Plan<Iteration>
    ensures { plan_of stage_of result ≡ fails NoBlockGiven }
{
    Plan::Fails(Cause::NoBlockGiven)
}
