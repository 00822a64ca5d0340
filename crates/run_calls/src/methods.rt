//! What the call of a method enters.
ghost use Rattle.std.specs.Prelude.{◌≡◌, IfOk};
ghost use Rattle.run_calls.specs.Activations as activations;
ghost use Rattle.core_iter.specs.Called.calls.{FollowsBy};
ghost use Rattle.run_calls.specs.Entering as entering;

use crate::activation::{Activation, Runs};
use crate::entry::{Entry, Opening, Request};
use crate::procs::enter_block;
use crate::rows::enter_row;
use core_iter::core_calls::{Call, argument};
use core_iter::heap::{Given, Heap};
use def_core::{BindKind, Cause, Found};
use rb_value::{Method, ObjId, SymId, Value};
use std::alloc::AllocError;

/// The activation of a method's body.
#[inline(always)]
pub fn method_running(
    owner: ObjId,
    classes: u64,
    name: SymId,
    receiver: Value,
    block: Option<ObjId>,
    number: u64,
) -> Activation
    ensures { result ≡ activations.method_running owner classes name receiver block number }
{
    Activation {
        runs: Runs::MethodBody,
        receiver,
        owner: Some(owner),
        name: Some(name),
        home: number,
        classes,
        block,
    }
}

/// The body of a method, which is around no other.
#[inline(always)]
fn body_opening(owner: ObjId, body: u32, classes: u64, request: Request<'_>) -> Opening
    ensures { result ≡ entering.body_opening owner body classes request.entry.name
        (entering.sent request.entry.call.receiver request.entry.call.args.now request.entry.call.block request.entry.next) }
{
    Opening {
        body,
        outer: None,
        activation: method_running(
            owner,
            classes,
            request.name,
            request.call.receiver,
            request.call.block,
            request.next,
        ),
        name_first: None,
        block: request.call.block,
        binds: BindKind::Method,
    }
}

/// Raises since another number of arguments is wanted.
#[tactic(auto, unfolding(heap::specs::Told::told))]
fn miscounted(heap: &mut Heap, given: usize, wanted: u64) -> Result<Given, AllocError>
    ensures { IfOk result (λ g. FollowsBy (entering.miscounted given wanted) heap.old g heap.new) }
{
    heap.fail(Cause::WrongCount {
        given: given as u64,
        least: wanted,
        most: Some(wanted),
    })
}

/// Gives the value of an instance variable, to a call without arguments.
fn read_variable(heap: &mut Heap, name: SymId, call: Call<'_>) -> Result<Given, AllocError>
    ensures { IfOk result (λ g. entering.Counted 0 heap.old call.entry.args.now
        (entering.Reads heap.old call.entry.receiver name) g heap.new) }
{
    if call.args.is_empty() {
        Ok(Given::Gives(heap.instance_variable(call.receiver, name)))
    } else {
        miscounted(heap, call.args.len(), 0)
    }
}

/// Sets an instance variable to the argument of a call that has one.
fn write_variable(heap: &mut Heap, name: SymId, call: Call<'_>) -> Result<Given, AllocError>
    ensures { IfOk result (λ g. entering.Counted 1 heap.old call.entry.args.now
        (entering.Sets heap.old call.entry.receiver name call.entry.args.now) g heap.new) }
{
    if call.args.len() == 1 {
        heap.set_instance_variable(call.receiver, name, argument(call.args, 0))
    } else {
        miscounted(heap, call.args.len(), 1)
    }
}

/// Raises since a method is undefined.
fn undefined(heap: &mut Heap, name: SymId, receiver: Value) -> Result<Given, AllocError>
    ensures { IfOk result (λ g. FollowsBy (entering.undefined heap.old name receiver) heap.old g heap.new) }
{
    let class = heap.plain_class_of(receiver);
    heap.fail(Cause::UndefinedMethod { name, class })
}

/// What the call of a method enters that was found: a body, what a core method or a block enters, or nothing, where it
/// reads or writes an instance variable.
pub fn enter_found(
    heap: &mut Heap,
    found: &Found,
    request: Request<'_>,
) -> Result<Entry, AllocError>
    ensures { IfOk result (λ e. entering.EntersFound found.now request.entry.name heap.old
        (entering.sent request.entry.call.receiver request.entry.call.args.now request.entry.call.block request.entry.next) e
        heap.new) }
{
    let call = request.call;
    match found.method {
        Method::Body { code, scope } => Ok(Entry::Enters(body_opening(
            found.owner,
            code,
            scope,
            request,
        ))),
        Method::Core(row) => enter_row(heap, row, call),
        Method::Reader(name) => Ok(Entry::Answers(read_variable(heap, name, call)?)),
        Method::Writer(name) => Ok(Entry::Answers(write_variable(heap, name, call)?)),
        Method::Block(id) => enter_block(heap, id, call, request.next),
        Method::Undefined => { Ok(Entry::Answers(undefined(heap, request.name, call.receiver)?)) }
    }
}
