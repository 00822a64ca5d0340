//! One plan of an iteration.
ghost use Rattle.std.specs.Prelude.{◌≡◌, IfOk, OnOk};
ghost use Rattle.vm_parts.specs.Below.frames.level as level;
ghost use Rattle.vm_parts.specs.Beside as beside;
ghost use Rattle.vm_parts.specs.Leaving as leaving;
ghost use Rattle.vm_parts.specs.Known as known;
ghost use Rattle.vm_iterations.specs.Following as following;

use def_core::{Cause, Found};
use rb_value::{ObjId, SymId, Value};
use std::alloc::AllocError;
use vm_parts::core_calls::{Call, Plan};
use vm_parts::core_iter::{Iteration, next, start};
use vm_parts::entering::{enter_above, enter_called, enter_first};
use vm_parts::exits::{hand_out, handed, raise_out, receive};
use vm_parts::fiber_switch::Resumed;
use vm_parts::flow::{Flow, Step};
use vm_parts::heap::Given;
use vm_parts::known::Usual;
use vm_parts::loaded::Loaded;
use vm_parts::parts::Parts;
use vm_parts::run_calls::{Request, enter_proc, one_of, send_by_core};
use vm_parts::run_rows::call_at_once;
use vm_parts::vm_frames::{Begun, Frame, Iterating};

/// An iteration that waits.
pub fn waiting(number: u64, then: Iteration) -> Iterating
    ensures { level.Iteration result ≡ following.waiting number then }
{
    Iterating {
        number,
        state: then,
        answer: Value::Nil,
    }
}

/// A method that an iteration calls by its name.
#[derive(Drop)]
struct Sent {
    receiver: Value,
    name: SymId,
    args: Vec<Value>,
    block: Option<ObjId>,
    public: bool,
}

/// What a core method gives that calls no others and may be private, where an iteration calls it and that is remembered;
/// nothing of any other call, which does nothing then.
fn given_at_once(parts: &mut Parts, sent: &Sent) -> Result<Option<Given>, AllocError>
    ensures given { IfOk result (λ given. following.GivenAtOnce (beside.of parts.old) sent.now given parts.new.heap) }
    ensures alone { beside.of parts.new ≡ beside.with_heap (beside.of parts.old) parts.new.heap }
{
    if sent.public {
        return Ok(None);
    }
    let class = parts.heap.class_of(sent.receiver);
    let call = Call {
        receiver: sent.receiver,
        args: sent.args.as_slice(),
        block: sent.block,
    };
    match parts.known.look_in(&parts.heap, class, sent.name) {
        Some(Usual::Core { number, row }) => call_at_once(&mut parts.heap, number, row, call),
        _ => Ok(None),
    }
}

/// Calls the method that an iteration calls, which waits.
fn send(
    code: &Loaded,
    hot: &mut Frame,
    parts: &mut Parts,
    waiting: Iterating,
    sent: Sent,
) -> Result<Flow, AllocError>
    ensures { IfOk result (λ flow. following.Sends code.now (beside.of parts.old) hot.old (level.Iteration waiting) sent
        flow hot.new (beside.of parts.new)) }
{
    match given_at_once(parts, &sent)? {
        Some(given) => {
            parts.frames.push_iteration(waiting)?;
            hand_out(code, parts, handed(given))
        }
        None => enter_sent(code, hot, parts, waiting, sent),
    }
}

/// What is found for a call of an iteration, which is remembered where later ones may be made at once.
fn find_sent(parts: &mut Parts, sent: &Sent) -> Result<Option<Found>, AllocError>
    ensures found { IfOk result (λ found. found ≡ following.found (beside.of parts.old) sent.now) }
    ensures noted { OnOk result (known.of parts.new.known ≡ following.noted (beside.of parts.old) sent.now
        (following.found (beside.of parts.old) sent.now)) }
    ensures alone { beside.of parts.new ≡ record (beside.of parts.old) { known = parts.new.known } }
{
    let found = parts.heap.find_for(sent.receiver, sent.name)?;
    if let Some(found) = found {
        let class = parts.heap.class_of(sent.receiver);
        let _usual = parts.known.note(&parts.heap, class, sent.name, found);
    }
    Ok(found)
}

/// Enters the method that an iteration calls.
fn enter_sent(
    code: &Loaded,
    hot: &mut Frame,
    parts: &mut Parts,
    waiting: Iterating,
    sent: Sent,
) -> Result<Flow, AllocError>
    ensures { IfOk result (λ flow. following.EntersSent code.now (beside.of parts.old) hot.old (level.Iteration waiting)
        sent flow hot.new (beside.of parts.new)) }
{
    let arguments = parts.frames.keep_all(sent.args.as_slice())?;
    let found = find_sent(parts, &sent)?;
    let request = Request {
        name: sent.name,
        call: Call {
            receiver: sent.receiver,
            args: sent.args.as_slice(),
            block: sent.block,
        },
        next: parts.next_activation()?,
    };
    let entry = send_by_core(&mut parts.heap, sent.public, found, request)?;
    parts.frames.push_iteration(waiting)?;
    enter_above(code, hot, parts, entry, &arguments)
}

/// Enters the Proc that an iteration calls.
fn call(
    code: &Loaded,
    hot: &mut Frame,
    parts: &mut Parts,
    waiting: Iterating,
    callee: ObjId,
    args: Vec<Value>,
    block: Option<ObjId>,
) -> Result<Flow, AllocError>
    ensures { IfOk result (λ flow. following.Calls code.now (beside.of parts.old) hot.old (level.Iteration waiting)
        callee args.items block flow hot.new (beside.of parts.new)) }
{
    let arguments = parts.frames.keep_all(args.as_slice())?;
    parts.frames.push_iteration(waiting)?;
    enter_called(code, hot, parts, callee, block, &arguments)
}

/// Begins the fiber whose line runs now: its Proc is entered.
fn begin_fiber(
    code: &Loaded,
    hot: &mut Frame,
    parts: &mut Parts,
    block: ObjId,
    args: Vec<Value>,
) -> Result<Flow, AllocError>
    ensures { IfOk result (λ flow. following.BeginsFiber code.now (beside.of parts.old) hot.old block args.items flow
        hot.new (beside.of parts.new)) }
{
    let arguments = parts.frames.keep_all(args.as_slice())?;
    let next = parts.next_activation()?;
    let call = Call {
        receiver: Value::Nil,
        args: args.as_slice(),
        block: None,
    };
    let entry = enter_proc(&mut parts.heap, block, call, next)?;
    enter_first(code, hot, parts, entry, &arguments)
}

/// The innermost level that waits is given what a resume or a yield hands over: nil, one value, or an Array of more.
fn hand_over(code: &Loaded, parts: &mut Parts, args: Vec<Value>) -> Result<Flow, AllocError>
    ensures { IfOk result (λ flow. following.HandsOver code.now (beside.of parts.old) args.items flow
        (beside.of parts.new)) }
{
    let given = one_of(&mut parts.heap, args.as_slice())?;
    hand_out(code, parts, handed(given))
}

/// The innermost level that waits fails by a cause.
pub fn fail_out(code: &Loaded, parts: &mut Parts, cause: Cause) -> Result<Flow, AllocError>
    ensures { IfOk result (λ flow. following.FailsOut code.now (beside.of parts.old) cause flow (beside.of parts.new)) }
{
    let given = parts.heap.fail(cause)?;
    hand_out(code, parts, handed(given))
}

/// Resumes a fiber for an iteration, which waits.
fn resume(
    code: &Loaded,
    hot: &mut Frame,
    parts: &mut Parts,
    waiting: Iterating,
    fiber: ObjId,
    args: Vec<Value>,
) -> Result<Flow, AllocError>
    ensures { IfOk result (λ flow. following.Resumes code.now (beside.of parts.old) hot.old (level.Iteration waiting)
        fiber args.items flow hot.new (beside.of parts.new)) }
{
    parts.frames.push_iteration(waiting)?;
    match parts.fibers.resume(&parts.heap, &mut parts.frames, fiber)? {
        Resumed::Refused(cause) => fail_out(code, parts, cause),
        Resumed::Begins(block) => begin_fiber(code, hot, parts, block, args),
        Resumed::Continues => hand_over(code, parts, args),
    }
}

/// Yields to the fiber that resumed this one, for an iteration, which waits.
fn yield_back(
    code: &Loaded,
    parts: &mut Parts,
    waiting: Iterating,
    args: Vec<Value>,
) -> Result<Flow, AllocError>
    ensures { IfOk result (λ flow. following.Yields code.now (beside.of parts.old) (level.Iteration waiting) args.items
        flow (beside.of parts.new)) }
{
    parts.frames.push_iteration(waiting)?;
    if parts.fibers.yield_back(&mut parts.frames) {
        hand_over(code, parts, args)
    } else {
        fail_out(code, parts, Cause::RootYield)
    }
}

/// Carries out a plan that neither reads nor writes.
fn carry_out(
    code: &Loaded,
    hot: &mut Frame,
    parts: &mut Parts,
    number: u64,
    plan: Plan<Iteration>,
) -> Result<Flow, AllocError>
    ensures { IfOk result (λ flow. following.Carries plan code.now (beside.of parts.old) hot.old number flow hot.new
        (beside.of parts.new)) }
{
    match plan {
        Plan::Finishes(value) => Ok(receive(parts, value)),
        Plan::Fails(cause) => fail_out(code, parts, cause),
        Plan::Raises(exception) => raise_out(code, parts, exception),
        Plan::Sends {
            then,
            receiver,
            name,
            args,
            block,
            public,
        } => {
            let sent = Sent {
                receiver,
                name,
                args,
                block,
                public,
            };
            send(code, hot, parts, waiting(number, then), sent)
        }
        Plan::Calls {
            then,
            callee,
            args,
            block,
        } => call(code, hot, parts, waiting(number, then), callee, args, block),
        Plan::Resumes { then, fiber, args } => {
            resume(code, hot, parts, waiting(number, then), fiber, args)
        }
        Plan::Yields { then, args } => yield_back(code, parts, waiting(number, then), args),
        _ => Ok(Flow::Stays),
    }
}

/// An iteration waits for its writing or reading.
fn wait(parts: &mut Parts, number: u64, then: Iteration) -> Result<(), AllocError>
    ensures { OnOk result (beside.of parts.new ≡ following.waits (beside.of parts.old) (following.waiting number then)) }
{
    parts.frames.push_iteration(waiting(number, then))
}

/// Carries out a plan of an iteration. A body that it enters is the frame in hand then.
fn follow(
    code: &Loaded,
    hot: &mut Frame,
    parts: &mut Parts,
    number: u64,
    plan: Plan<Iteration>,
) -> Result<Step, AllocError>
    ensures { IfOk result (λ step. following.Follows plan code.now (beside.of parts.old) hot.old number step hot.new
        (beside.of parts.new)) }
{
    match plan {
        Plan::Writes { then, bytes } => {
            wait(parts, number, then)?;
            Ok(Step::Writes(bytes))
        }
        Plan::Reads { then } => {
            wait(parts, number, then)?;
            Ok(Step::Reads)
        }
        other => Ok(Step::Goes(carry_out(code, hot, parts, number, other)?)),
    }
}

/// The first plan of an iteration. A body that it enters is the frame in hand then.
pub fn begin_by_plan(
    code: &Loaded,
    hot: &mut Frame,
    parts: &mut Parts,
    begun: Begun,
) -> Result<Step, AllocError>
    ensures { IfOk result (λ step. following.Begins code.now (beside.of parts.old) hot.old begun step hot.new
        (beside.of parts.new)) }
{
    let call = Call {
        receiver: begun.receiver,
        args: parts.frames.given(begun.arguments),
        block: begun.block,
    };
    let plan = start(&mut parts.heap, begun.row, call)?;
    parts.frames.drop_arguments(begun.arguments);
    follow(code, hot, parts, begun.number, plan)
}

/// The next plan of an iteration. A body that it enters is the frame in hand then.
pub fn iterate(
    code: &Loaded,
    hot: &mut Frame,
    parts: &mut Parts,
    iterating: Iterating,
) -> Result<Step, AllocError>
    ensures { IfOk result (λ step. following.Iterates code.now (beside.of parts.old) hot.old iterating.number
        iterating.state iterating.answer step hot.new (beside.of parts.new)) }
{
    let number = iterating.number;
    let plan = next(&mut parts.heap, iterating.state, iterating.answer)?;
    follow(code, hot, parts, number, plan)
}

/// The iteration that read, the innermost level that waits, has its answer, or fails.
pub fn answer_read(code: &Loaded, parts: &mut Parts, given: Given) -> Result<Flow, AllocError>
    ensures { IfOk result (λ flow. leaving.HandedOut code.now.code (beside.of parts.old) (leaving.handed_of given) flow
        (beside.of parts.new)) }
{
    hand_out(code, parts, handed(given))
}
