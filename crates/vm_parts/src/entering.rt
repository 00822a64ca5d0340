//! Entering what a call enters.
ghost use Rattle.std.specs.Prelude.{◌≡◌, ◌+◌, true, false, not, is_some, None, IfOk, OnOk};
ghost use Rattle.fiber_switch.specs.Frames.levels as levels;
ghost use Rattle.vm_parts.specs.Arguments as passing;
ghost use Rattle.vm_parts.specs.Beside as beside;
ghost use Rattle.vm_parts.specs.Calling as calling;
ghost use Rattle.vm_parts.specs.Entering as entering;
ghost use Rattle.vm_parts.specs.Leaving as leaving;
ghost use Rattle.vm_parts.specs.declared.flow.Flow.TheVariants.{Stays, Wakes};

use crate::exits::{after, hand_out, handed};
use crate::flow::Flow;
use crate::loaded::Loaded;
use crate::parts::Parts;
use def_core::{BindKind, Cause};
use fiber_switch::core_calls::{Beat, Call, Passed};
use fiber_switch::heap::Given;
use fiber_switch::run_calls::{
    Activation, Beginning, Entry, Opening, enter_proc, proc_binds, proc_running, settle,
};
use fiber_switch::vm_frames::{Arguments, Begun, Frame};
use rb_value::{ObjId, SymId, Value};
use std::alloc::AllocError;

/// The arguments, after the name where there is one.
#[inline(always)]
fn after_name(
    parts: &mut Parts,
    arguments: Arguments,
    name: Option<SymId>,
) -> Result<Arguments, AllocError>
    ensures arguments { IfOk result (λ args. args ≡ passing.named (beside.of parts.old).seen arguments name) }
    ensures kept { OnOk result (beside.of parts.new ≡ beside.with_seen (beside.of parts.old)
        (passing.named_kept (beside.of parts.old).seen arguments name)) }
{
    match name {
        Some(name) => parts.frames.keep_before(arguments, Value::Sym(name)),
        None => Ok(arguments),
    }
}

/// A body that is entered: its number, the innermost of the scopes around it, the block that it is given, and how its
/// arguments are bound.
#[derive(Clone, Copy)]
pub struct Entered {
    pub body: u32,
    pub outer: Option<u64>,
    pub block: Option<ObjId>,
    pub binds: BindKind,
}

/// Opens a frame of a body, which is the one in hand then, as the activation of that number.
#[inline(always)]
pub fn open_body(
    code: &Loaded,
    hot: &mut Frame,
    parts: &mut Parts,
    number: u64,
    activation: &Activation,
    entered: Entered,
    arguments: &Arguments,
) -> Result<(), AllocError>
    ensures frame { OnOk result (hot.new ≡ entering.frame_of (beside.of parts.old).seen hot.old number
        (entering.registers code.now entered.body) activation.now entered arguments.now) }
    ensures opened { OnOk result (beside.of parts.new ≡ entering.body_opened (beside.of parts.old) number
        (entering.registers code.now entered.body) activation.now) }
{
    let registers = code.registers(entered.body);
    parts.frames.open(hot, activation, registers, *arguments)?;
    hot.number = number;
    hot.body = entered.body;
    hot.outer = match entered.outer {
        Some(list) => parts.frames.env_of(list),
        None => None,
    };
    hot.classes = activation.classes;
    hot.block = entered.block;
    hot.yields = activation.block;
    hot.binds = entered.binds;
    parts.activations = number;
    Ok(())
}

/// Opens a frame as a call wants it, with arguments. It is the one in hand then.
fn open_frame(
    code: &Loaded,
    hot: &mut Frame,
    parts: &mut Parts,
    opening: &Opening,
    arguments: &Arguments,
) -> Result<(), AllocError>
    ensures frame { OnOk result (hot.new ≡ entering.opening_frame code.now (beside.of parts.old) hot.old opening.now
        arguments.now) }
    ensures opened { OnOk result (beside.of parts.new ≡ entering.opening_done code.now (beside.of parts.old) opening.now
        arguments.now) }
{
    let arguments = after_name(parts, *arguments, opening.name_first)?;
    let number = parts.next_activation()?;
    let entered = Entered {
        body: opening.body,
        outer: opening.outer,
        block: opening.block,
        binds: opening.binds,
    };
    open_body(
        code,
        hot,
        parts,
        number,
        &opening.activation,
        entered,
        &arguments,
    )
}

/// Opens a frame of a Proc's body, which is the one in hand then; false where the object is no Proc with a body.
#[inline(always)]
pub fn open_proc(
    code: &Loaded,
    hot: &mut Frame,
    parts: &mut Parts,
    number: u64,
    id: ObjId,
    block: Option<ObjId>,
    arguments: &Arguments,
) -> Result<bool, AllocError>
    ensures there { IfOk result (λ there. there ≡ is_some (entering.proc_of (beside.of parts.old) id)) }
    ensures frame { OnOk result (hot.new ≡ entering.proc_frame code.now (beside.of parts.old) hot.old number id block
        arguments.now (entering.proc_of (beside.of parts.old) id)) }
    ensures opened { OnOk result (beside.of parts.new ≡ entering.proc_opened code.now (beside.of parts.old) number id
        (entering.proc_of (beside.of parts.old) id)) }
{
    let (activation, entered) = match parts.heap.proc_of(id) {
        Some(contents) => (
            proc_running(id, contents, number),
            Entered {
                body: contents.code,
                outer: contents.scopes.as_slice().first().copied(),
                block,
                binds: proc_binds(contents.lambda),
            },
        ),
        None => return Ok(false),
    };
    open_body(code, hot, parts, number, &activation, entered, arguments)?;
    Ok(true)
}

/// Begins an iteration with arguments.
fn begin_iteration(
    parts: &mut Parts,
    beginning: &Beginning,
    arguments: &Arguments,
) -> Result<Flow, AllocError>
    ensures flow { IfOk result (λ flow. flow ≡ Wakes) }
    ensures begun { OnOk result (beside.of parts.new ≡ entering.iteration_begun (beside.of parts.old) beginning.now
        arguments.now) }
{
    let arguments = after_name(parts, *arguments, beginning.name_first)?;
    let number = parts.next_activation()?;
    parts.activations = number;
    parts.frames.begin(Begun {
        number,
        row: beginning.row,
        receiver: beginning.receiver,
        arguments,
        block: beginning.block,
    });
    Ok(Flow::Wakes)
}

/// The frame in hand has no room for one level more.
#[cold]
fn too_deep(
    code: &Loaded,
    hot: &mut Frame,
    parts: &mut Parts,
    block: Option<ObjId>,
    arguments: &Arguments,
    a: u16,
) -> Result<Flow, AllocError>
    ensures { IfOk result (λ flow. calling.TooDeep code.now (beside.of parts.old) hot.old block arguments.now a flow
        hot.new (beside.of parts.new)) }
{
    settle(&mut parts.heap, block, None);
    parts.frames.drop_arguments(*arguments);
    let given = parts.heap.fail(Cause::StackTooDeep)?;
    after(code, hot, parts, given, a)
}

/// What a call of the frame in hand with that block argument gave goes into register `a`.
#[inline(always)]
pub fn answer(
    code: &Loaded,
    hot: &mut Frame,
    parts: &mut Parts,
    given: Given,
    block: Option<ObjId>,
    a: u16,
) -> Result<Flow, AllocError>
    ensures { IfOk result (λ flow. leaving.After code.now.code (calling.call_ended (beside.of parts.old) block) hot.old
        given a flow hot.new (beside.of parts.new)) }
{
    settle(&mut parts.heap, block, None);
    after(code, hot, parts, given, a)
}

/// Enters a body for a call of the frame in hand, which waits for register `a`, as the activation of the next number.
#[inline(always)]
pub fn enter_body(
    code: &Loaded,
    hot: &mut Frame,
    parts: &mut Parts,
    activation: &Activation,
    entered: Entered,
    arguments: &Arguments,
    a: u16,
) -> Result<Flow, AllocError>
    ensures full { entering.is_full (beside.of parts.old) ≡ true → IfOk result (λ flow. calling.TooDeep code.now
        (beside.of parts.old) hot.old entered.block arguments.now a flow hot.new (beside.of parts.new)) }
    ensures entered { entering.is_full (beside.of parts.old) ≡ false → IfOk result (λ flow. calling.EntersBody code.now
        (beside.of parts.old) hot.old activation.now entered arguments.now a flow hot.new (beside.of parts.new)) }
{
    if parts.frames.is_full() {
        return too_deep(code, hot, parts, entered.block, arguments, a);
    }
    let number = parts.next_activation()?;
    settle(&mut parts.heap, entered.block, Some(number));
    parts.frames.push_caller(hot, a)?;
    open_body(code, hot, parts, number, activation, entered, arguments)?;
    Ok(Flow::Stays)
}

/// Keeps the frame in hand, whose register `a` waits for the value of a call with that block, which opens the next
/// activation; false where there is room for no frame more.
#[inline(always)]
fn keep_caller(
    hot: &mut Frame,
    parts: &mut Parts,
    block: Option<ObjId>,
    a: u16,
) -> Result<bool, AllocError>
    ensures room { IfOk result (λ there. there ≡ not (entering.is_full (beside.of parts.old))) }
    ensures full { entering.is_full (beside.of parts.old) ≡ true
        → OnOk result ((hot.new ≡ hot.old) × (beside.of parts.new ≡ beside.of parts.old)) }
    ensures kept { entering.is_full (beside.of parts.old) ≡ false → OnOk result ((hot.new ≡ levels.waiting_in hot.old a)
        × (beside.of parts.new ≡ entering.caller_kept (beside.of parts.old) hot.old block a)) }
{
    if parts.frames.is_full() {
        return Ok(false);
    }
    let number = parts.next_activation()?;
    settle(&mut parts.heap, block, Some(number));
    parts.frames.push_caller(hot, a)?;
    Ok(true)
}

/// Enters a body as a call of the frame in hand with that block argument wants it; its value goes into register `a`.
fn enter_opening(
    code: &Loaded,
    hot: &mut Frame,
    parts: &mut Parts,
    opening: &Opening,
    block: Option<ObjId>,
    arguments: &Arguments,
    a: u16,
) -> Result<Flow, AllocError>
    ensures full { entering.is_full (beside.of parts.old) ≡ true → IfOk result (λ flow. calling.TooDeep code.now
        (beside.of parts.old) hot.old block arguments.now a flow hot.new (beside.of parts.new)) }
    ensures entered { entering.is_full (beside.of parts.old) ≡ false → IfOk result (λ flow. calling.EntersOpening
        code.now (beside.of parts.old) hot.old opening.now block arguments.now a flow hot.new (beside.of parts.new)) }
{
    if !keep_caller(hot, parts, block, a)? {
        return too_deep(code, hot, parts, block, arguments, a);
    }
    open_frame(code, hot, parts, opening, arguments)?;
    Ok(Flow::Stays)
}

/// Calls a Proc for a call of the frame in hand without a block argument; its value goes into register `a`. False where
/// the object is no Proc with a body.
#[inline(always)]
pub fn enter_yielded(
    code: &Loaded,
    hot: &mut Frame,
    parts: &mut Parts,
    id: ObjId,
    arguments: &Arguments,
    a: u16,
) -> Result<bool, AllocError>
    ensures there { IfOk result (λ there. there ≡ calling.yields_here (beside.of parts.old) id) }
    ensures refused { calling.yields_here (beside.of parts.old) id ≡ false
        → OnOk result ((hot.new ≡ hot.old) × (beside.of parts.new ≡ beside.of parts.old)) }
    ensures entered { calling.yields_here (beside.of parts.old) id ≡ true → IfOk result (λ there. calling.CallsProc
        code.now (calling.caller_waits (beside.of parts.old) hot.old a) (levels.waiting_in hot.old a) id None
        arguments.now Stays hot.new (beside.of parts.new)) }
{
    let number = parts.next_activation()?;
    if parts.frames.is_full() || parts.heap.proc_of(id).is_none() {
        return Ok(false);
    }
    parts.frames.push_caller(hot, a)?;
    open_proc(code, hot, parts, number, id, None, arguments)
}

/// Begins an iteration for a call of the frame in hand with that block argument; its value goes into register `a`.
pub fn enter_beginning(
    code: &Loaded,
    hot: &mut Frame,
    parts: &mut Parts,
    beginning: &Beginning,
    block: Option<ObjId>,
    arguments: &Arguments,
    a: u16,
) -> Result<Flow, AllocError>
    ensures full { entering.is_full (beside.of parts.old) ≡ true → IfOk result (λ flow. calling.TooDeep code.now
        (beside.of parts.old) hot.old block arguments.now a flow hot.new (beside.of parts.new)) }
    ensures begun { entering.is_full (beside.of parts.old) ≡ false → IfOk result (λ flow. calling.BeginsAbove
        (beside.of parts.old) hot.old beginning.now block arguments.now a flow hot.new (beside.of parts.new)) }
{
    if !keep_caller(hot, parts, block, a)? {
        return too_deep(code, hot, parts, block, arguments, a);
    }
    begin_iteration(parts, beginning, arguments)
}

/// Enters what a call of the frame in hand with that block argument calls; its value goes into register `a`.
pub fn enter(
    code: &Loaded,
    hot: &mut Frame,
    parts: &mut Parts,
    entry: Entry,
    block: Option<ObjId>,
    arguments: &Arguments,
    a: u16,
) -> Result<Flow, AllocError>
    ensures { IfOk result (λ flow. calling.Enters code.now (beside.of parts.old) hot.old entry block arguments.now a flow
        hot.new (beside.of parts.new)) }
{
    match entry {
        Entry::Answers(given) => {
            parts.frames.drop_arguments(*arguments);
            answer(code, hot, parts, given, block, a)
        }
        Entry::Enters(opening) => enter_opening(code, hot, parts, &opening, block, arguments, a),
        Entry::Begins(beginning) => enter_beginning(
            code, hot, parts, &beginning, block, arguments, a,
        ),
    }
}

/// Calls a block with values for the iteration that is the innermost level that waits; a body that it enters is the
/// frame in hand then.
pub fn enter_block(
    code: &Loaded,
    hot: &mut Frame,
    parts: &mut Parts,
    beat: Beat,
) -> Result<Flow, AllocError>
    ensures { IfOk result (λ flow. calling.CallsWith code.now (beside.of parts.old) hot.old beat.callee beat.passed flow
        hot.new (beside.of parts.new)) }
{
    let arguments = keep_passed(parts, beat.passed)?;
    enter_called(code, hot, parts, beat.callee, None, &arguments)
}

/// Calls a Proc for the innermost level that waits; a body that it enters is the frame in hand then.
pub fn enter_called(
    code: &Loaded,
    hot: &mut Frame,
    parts: &mut Parts,
    callee: ObjId,
    block: Option<ObjId>,
    arguments: &Arguments,
) -> Result<Flow, AllocError>
    ensures { IfOk result (λ flow. calling.CallsCallee code.now (beside.of parts.old) hot.old callee block arguments.now
        flow hot.new (beside.of parts.new)) }
{
    if parts.frames.has_room() {
        enter_with_room(code, hot, parts, callee, block, arguments)
    } else {
        enter_other(code, hot, parts, callee, block, arguments)
    }
}

/// Calls a Proc, for which there is room, for the innermost level that waits.
#[inline(always)]
#[tactic(auto, using(crate::proofs::Unopened::unopened))]
fn enter_with_room(
    code: &Loaded,
    hot: &mut Frame,
    parts: &mut Parts,
    callee: ObjId,
    block: Option<ObjId>,
    arguments: &Arguments,
) -> Result<Flow, AllocError>
    ensures { IfOk result (λ flow. calling.CallsWithRoom code.now (beside.of parts.old) hot.old callee block
        arguments.now flow hot.new (beside.of parts.new)) }
{
    let number = parts.next_activation()?;
    if open_proc(code, hot, parts, number, callee, block, arguments)? {
        Ok(Flow::Stays)
    } else {
        enter_other(code, hot, parts, callee, block, arguments)
    }
}

/// The values that a block is called with, as arguments.
#[inline(always)]
pub fn keep_passed(parts: &mut Parts, passed: Passed) -> Result<Arguments, AllocError>
    ensures arguments { IfOk result (λ args. args ≡ calling.passed_arguments (beside.of parts.old).seen passed) }
    ensures kept { OnOk result (beside.of parts.new ≡ beside.with_seen (beside.of parts.old)
        (calling.passed_kept (beside.of parts.old).seen passed)) }
{
    let arguments = parts.frames.no_arguments();
    match passed {
        Passed::Nothing => Ok(arguments),
        Passed::One(value) => parts.frames.keep_after(arguments, value),
        Passed::Two(left, right) => {
            let arguments = parts.frames.keep_after(arguments, left)?;
            parts.frames.keep_after(arguments, right)
        }
    }
}

/// Calls a Proc without a body, or one for which there is no room, for the innermost level that waits.
#[cold]
fn enter_other(
    code: &Loaded,
    hot: &mut Frame,
    parts: &mut Parts,
    callee: ObjId,
    block: Option<ObjId>,
    arguments: &Arguments,
) -> Result<Flow, AllocError>
    ensures { IfOk result (λ flow. calling.CallsOther code.now (beside.of parts.old) hot.old callee block arguments.now
        flow hot.new (beside.of parts.new)) }
{
    let next = parts.next_activation()?;
    let call = Call {
        receiver: Value::Nil,
        args: parts.frames.given(*arguments),
        block,
    };
    let entry = enter_proc(&mut parts.heap, callee, call, next)?;
    enter_above(code, hot, parts, entry, arguments)
}

/// Enters what the innermost level that waits calls, where there is room for it; a body that it enters is the frame in
/// hand then.
pub fn enter_above(
    code: &Loaded,
    hot: &mut Frame,
    parts: &mut Parts,
    entry: Entry,
    arguments: &Arguments,
) -> Result<Flow, AllocError>
    ensures { IfOk result (λ flow. calling.EntersAbove code.now (beside.of parts.old) hot.old entry arguments.now flow
        hot.new (beside.of parts.new)) }
{
    match entry {
        Entry::Enters(_) | Entry::Begins(_) if !parts.frames.has_room() => {
            too_deep_from(code, parts, arguments)
        }
        entry => enter_first(code, hot, parts, entry, arguments),
    }
}

/// An iteration, the innermost level that waits, has no room for one level more.
#[cold]
fn too_deep_from(
    code: &Loaded,
    parts: &mut Parts,
    arguments: &Arguments,
) -> Result<Flow, AllocError>
    ensures { IfOk result (λ flow. calling.TooDeepAbove code.now (beside.of parts.old) arguments.now flow
        (beside.of parts.new)) }
{
    parts.frames.drop_arguments(*arguments);
    let given = parts.heap.fail(Cause::StackTooDeep)?;
    hand_out(code, parts, handed(given))
}

/// Enters what is called above the levels that wait, of which there may be none; a body that it enters is the frame in
/// hand then.
pub fn enter_first(
    code: &Loaded,
    hot: &mut Frame,
    parts: &mut Parts,
    entry: Entry,
    arguments: &Arguments,
) -> Result<Flow, AllocError>
    ensures { IfOk result (λ flow. calling.EntersFirst code.now (beside.of parts.old) hot.old entry arguments.now flow
        hot.new (beside.of parts.new)) }
{
    match entry {
        Entry::Answers(given) => {
            parts.frames.drop_arguments(*arguments);
            hand_out(code, parts, handed(given))
        }
        Entry::Enters(opening) => {
            open_frame(code, hot, parts, &opening, arguments)?;
            Ok(Flow::Stays)
        }
        Entry::Begins(beginning) => begin_iteration(parts, &beginning, arguments),
    }
}
