//! What a call by a name enters.
ghost use Rattle.std.specs.Prelude.{◌≡◌, IfOk, not};
ghost use Rattle.def_calls.specs.Calls as calls;
ghost use Rattle.run_calls.specs.Entering as entering;

use crate::activation::Activation;
use crate::entry::{Entry, Request};
use crate::methods::enter_found;
use crate::missing::missing;
use core_iter::core_calls::Call;
use core_iter::heap::Heap;
use def_core::{Cause, Found};
use rb_value::{SymId, Value, Visibility};
use std::alloc::AllocError;

/// How a call names its method: by a name with a receiver or arguments, or by a name alone, which may be a variable
/// that isn't there.
#[derive(Clone, Copy, Debug, PartialEq, Eq)]
pub enum Naming {
    ByName,
    ByBareName,
}

/// Whether a name may be that of a variable: it ends with no mark.
fn may_be_variable(heap: &Heap, name: SymId) -> bool
    ensures { result ≡ not (entering.is_marked (entering.text_of heap.now name)) }
{
    !matches!(heap.symbol_name(name).last().copied(), Some(b'?' | b'!'))
}

/// Why a call fails that finds nothing.
fn undefined(heap: &Heap, naming: Naming, name: SymId, receiver: Value) -> Cause
    ensures { result ≡ entering.unknown_in heap.now naming name receiver }
{
    let class = heap.plain_class_of(receiver);
    match naming {
        Naming::ByBareName if may_be_variable(heap, name) => Cause::UndefinedName { name, class },
        _ => Cause::UndefinedMethod { name, class },
    }
}

/// Why a method that is found isn't allowed.
fn forbidden(heap: &Heap, visibility: Visibility, name: SymId, receiver: Value) -> Cause
    ensures { result ≡ calls.forbidden visibility name (entering.plain_class heap.now receiver) }
{
    let class = heap.plain_class_of(receiver);
    match visibility {
        Visibility::Public => Cause::UndefinedMethod { name, class },
        Visibility::Private => Cause::PrivateMethod { name, class },
        Visibility::Protected => Cause::ProtectedMethod { name, class },
    }
}

/// What the call of a method enters that was found, where the caller may call it.
#[inline(always)]
fn enter_allowed(
    heap: &mut Heap,
    caller: Value,
    found: &Found,
    request: Request<'_>,
) -> Result<Entry, AllocError>
    ensures { IfOk result (λ e. entering.EntersAllowed found.now caller request.entry.name heap.old
        (entering.sent request.entry.call.receiver request.entry.call.args.now request.entry.call.block request.entry.next) e
        heap.new) }
{
    if heap.allowed(caller, request.call.receiver, found) {
        enter_found(heap, found, request)
    } else {
        let cause = forbidden(heap, found.visibility, request.name, request.call.receiver);
        missing(heap, cause, request)
    }
}

/// What a call by a name enters, by what is found for its receiver.
#[inline(always)]
pub fn enter_named(
    heap: &mut Heap,
    caller: &Activation,
    naming: Naming,
    found: Option<Found>,
    request: Request<'_>,
) -> Result<Entry, AllocError>
    ensures { IfOk result (λ e. entering.EntersBy found caller.now.receiver naming request.entry.name heap.old
        (entering.sent request.entry.call.receiver request.entry.call.args.now request.entry.call.block request.entry.next) e
        heap.new) }
{
    match found {
        Some(found) => enter_allowed(heap, caller.receiver, &found, request),
        None => {
            let cause = undefined(heap, naming, request.name, request.call.receiver);
            missing(heap, cause, request)
        }
    }
}

/// What a core method's own call by a name enters, by what is found for its receiver: it isn't checked, or has to be
/// public.
pub fn send_by_core(
    heap: &mut Heap,
    public: bool,
    found: Option<Found>,
    request: Request<'_>,
) -> Result<Entry, AllocError>
    ensures { IfOk result (λ e. entering.EntersUnchecked found public request.entry.name heap.old
        (entering.sent request.entry.call.receiver request.entry.call.args.now request.entry.call.block request.entry.next) e
        heap.new) }
{
    let receiver = request.call.receiver;
    match found {
        Some(found) => if !public || found.visibility == Visibility::Public {
            enter_found(heap, &found, request)
        } else {
            let cause = forbidden(heap, found.visibility, request.name, receiver);
            missing(heap, cause, request)
        },
        None => {
            let cause = undefined(heap, Naming::ByName, request.name, receiver);
            missing(heap, cause, request)
        }
    }
}

/// The method above the one that an activation runs.
fn above(heap: &Heap, running: &Activation) -> Option<Found>
    ensures { result ≡ entering.above heap.now running.now }
{
    match (running.owner, running.name) {
        (Some(owner), Some(name)) => {
            heap.find_super(heap.class_of(running.receiver), owner, name)
        }
        _ => None,
    }
}

/// What `super` enters in the method of that name.
fn enter_above(
    heap: &mut Heap,
    running: &Activation,
    request: Request<'_>,
) -> Result<Entry, AllocError>
    ensures { IfOk result (λ e. entering.EntersAbove (entering.above heap.old running.now) request.entry.name heap.old
        (entering.sent request.entry.call.receiver request.entry.call.args.now request.entry.call.block request.entry.next) e
        heap.new) }
{
    match above(heap, running) {
        Some(found) => enter_found(heap, &found, request),
        None => {
            let class = heap.plain_class_of(request.call.receiver);
            let cause = Cause::NoSuperMethod {
                name: request.name,
                class,
            };
            missing(heap, cause, request)
        }
    }
}

/// What `super` enters: the method of the running method's name above its owner. Outside of methods it raises.
pub fn enter_super(
    heap: &mut Heap,
    running: &Activation,
    call: Call<'_>,
    next: u64,
) -> Result<Entry, AllocError>
    ensures { IfOk result (λ e. entering.EntersSuper running.now heap.old (entering.sent call.entry.receiver call.entry.args.now call.entry.block next) e heap.new) }
{
    match running.name {
        Some(name) => enter_above(heap, running, Request { name, call, next }),
        None => Ok(Entry::Answers(heap.fail(Cause::SuperOutside)?)),
    }
}
