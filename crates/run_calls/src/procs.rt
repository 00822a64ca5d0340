//! What the call of a Proc enters.
ghost use Rattle.std.specs.Prelude.{◌≡◌, IfOk};
ghost use Rattle.run_calls.specs.Activations as activations;
ghost use Rattle.run_calls.specs.Entering as entering;

use crate::activation::{Activation, Runs};
use crate::entry::{Entry, Opening};
use crate::rows::enter_row;
use core_iter::core_calls::Call;
use core_iter::heap::Heap;
use def_core::BindKind;
use rb_value::{KindRef, ObjId, ProcContents, Value};
use std::alloc::AllocError;

/// What a Proc is to its call: a body, or a row with the value that it keeps.
#[derive(Clone, Copy)]
enum Callee {
    Body(Opening),
    Row { row: u16, kept: Value },
}

/// The activation of a Proc's body: that of a lambda is the home of its returns itself.
#[inline(always)]
pub fn proc_running(id: ObjId, contents: &ProcContents, next: u64) -> Activation
    ensures { result ≡ activations.proc_running id contents.now next }
{
    Activation {
        runs: if contents.lambda {
            Runs::LambdaBody
        } else {
            Runs::BlockBody(id)
        },
        receiver: contents.receiver,
        owner: contents.owner,
        name: contents.name,
        home: if contents.lambda { next } else { contents.home },
        classes: contents.classes,
        block: contents.block,
    }
}

/// The activation of a block that was made a method: it has the receiver as `self`, and return and break end it.
fn method_activation(receiver: Value, contents: &ProcContents, next: u64) -> Activation
    ensures { result ≡ entering.block_running receiver contents.now next }
{
    Activation {
        runs: Runs::LambdaBody,
        receiver,
        owner: contents.owner,
        name: contents.name,
        home: next,
        classes: contents.classes,
        block: contents.block,
    }
}

/// The body of a Proc in an activation.
#[inline(always)]
fn opening(
    contents: &ProcContents,
    activation: Activation,
    block: Option<ObjId>,
    binds: BindKind,
) -> Opening
    ensures { result ≡ entering.opening_of contents.now activation block binds }
{
    Opening {
        body: contents.code,
        outer: contents.scopes.as_slice().first().copied(),
        activation,
        name_first: None,
        block,
        binds,
    }
}

/// How the arguments of a Proc are bound.
#[inline(always)]
pub fn proc_binds(lambda: bool) -> BindKind
    ensures { result ≡ activations.proc_binds lambda }
{
    if lambda {
        BindKind::Lambda
    } else {
        BindKind::Proc
    }
}

/// What the call of a Proc with a body opens; nothing of another object.
#[inline(always)]
fn proc_opening(heap: &Heap, id: ObjId, block: Option<ObjId>, next: u64) -> Option<Opening>
    ensures { result ≡ entering.opened_by heap.now id block next }
{
    let contents = heap.proc_of(id)?;
    let activation = proc_running(id, contents, next);
    Some(opening(contents, activation, block, proc_binds(contents.lambda)))
}

/// What an object is to a call, where it is a Proc.
fn proc_callee(heap: &Heap, id: ObjId, block: Option<ObjId>, next: u64) -> Option<Callee>
    ensures { result ≡ entering.proc_callee heap.now id block next }
{
    match proc_opening(heap, id, block, next) {
        Some(opening) => Some(Callee::Body(opening)),
        None => row_callee(heap, id),
    }
}

/// What a Proc without a body is to a call.
fn row_callee(heap: &Heap, id: ObjId) -> Option<Callee>
    ensures { result ≡ entering.kept_in (entering.kind_of heap.now id) }
{
    match heap.kind(id)? {
        KindRef::CoreProc { row, kept } => Some(Callee::Row { row, kept }),
        _ => None,
    }
}

/// What a Proc that was made a method is to a call.
fn method_callee(heap: &Heap, id: ObjId, call: Call<'_>, next: u64) -> Option<Callee>
    ensures { result ≡ entering.block_callee heap.entry.now id call.entry.receiver call.entry.block next }
{
    match heap.proc_of(id) {
        Some(contents) => {
            let activation = method_activation(call.receiver, contents, next);
            let opening = opening(contents, activation, call.block, BindKind::Lambda);
            Some(Callee::Body(opening))
        }
        None => row_callee(heap, id),
    }
}

/// What the call of what may be a Proc enters; what is none raises.
fn enter_callee(
    heap: &mut Heap,
    callee: Option<Callee>,
    call: Call<'_>,
) -> Result<Entry, AllocError>
    ensures { IfOk result (λ e. entering.EntersCallee callee heap.old call.entry.args.now call.entry.block e heap.new) }
{
    match callee {
        Some(Callee::Body(opening)) => Ok(Entry::Enters(opening)),
        Some(Callee::Row { row, kept }) => {
            let on_kept = Call {
                receiver: kept,
                ..call
            };
            enter_row(heap, row, on_kept)
        }
        None => Ok(Entry::Answers(heap.wrong_value(b"CALL")?)),
    }
}

/// What the call of an object enters, where it is a Proc; what is none raises. The receiver of the call plays no part.
pub fn enter_proc(
    heap: &mut Heap,
    id: ObjId,
    call: Call<'_>,
    next: u64,
) -> Result<Entry, AllocError>
    ensures { IfOk result (λ e. entering.EntersProc id heap.old (entering.sent call.entry.receiver call.entry.args.now call.entry.block next) e heap.new) }
{
    let callee = proc_callee(heap, id, call.block, next);
    enter_callee(heap, callee, call)
}

/// What the call of a method enters that was made of a block.
pub(crate) fn enter_block(
    heap: &mut Heap,
    id: ObjId,
    call: Call<'_>,
    next: u64,
) -> Result<Entry, AllocError>
    ensures { IfOk result (λ e. entering.EntersBlock id heap.old (entering.sent call.entry.receiver call.entry.args.now call.entry.block next) e heap.new) }
{
    let callee = method_callee(heap, id, call, next);
    enter_callee(heap, callee, call)
}

/// What the call of a value itself enters; what is no Proc raises.
pub fn enter_value(heap: &mut Heap, call: Call<'_>, next: u64) -> Result<Entry, AllocError>
    ensures { IfOk result (λ e. entering.EntersValue heap.old (entering.sent call.entry.receiver call.entry.args.now call.entry.block next) e heap.new) }
{
    match call.receiver {
        Value::Obj(id) => enter_proc(heap, id, call, next),
        _ => Ok(Entry::Answers(heap.wrong_value(b"CALL")?)),
    }
}
