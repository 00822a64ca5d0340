//! What a call enters where nothing is found, or what is found isn't allowed: `method_missing`, and where that is the
//! core method the exception of the cause.
ghost use Rattle.std.specs.Prelude.{◌≡◌, ◌∷◌, IfOk};
ghost use Rattle.rb_value.specs.declared.value.Value.TheVariants.{Sym};
ghost use Rattle.run_calls.specs.Entering as entering;

use crate::entry::{Entry, Request};
use crate::methods::enter_found;
use core_iter::core_calls::Call;
use core_iter::heap::Heap;
use core_iter::run_rows::METHOD_MISSING_ROW;
use def_core::{Cause, Found};
use rb_value::{Method, SymId, Value};
use std::alloc::{AllocError, Global};

/// The arguments after the name.
fn named(alloc: Global, name: SymId, args: &[Value]) -> Result<Vec<Value>, AllocError>
    ensures { IfOk result (λ all. all.items ≡ Sym name ∷ args.now) }
{
    let mut all = Vec::new(alloc);
    all.push(Value::Sym(name))?;
    all.extend_from_slice(args)?;
    Ok(all)
}

/// Whether the exception of the cause comes at once: what is found is the core method, or undefined.
fn is_core(found: &Found) -> bool
    ensures { result ≡ entering.fails_at_once found.now.method }
{
    match found.method {
        Method::Core(row) => row == METHOD_MISSING_ROW,
        Method::Undefined => true,
        _ => false,
    }
}

/// Enters what was found by the name `method_missing`, with the name of the call before the arguments.
fn enter_after_name(
    heap: &mut Heap,
    called: SymId,
    found: &Found,
    request: Request<'_>,
) -> Result<Entry, AllocError>
    ensures { IfOk result (λ e. entering.EntersNamed called found.now request.entry.name heap.old
        (entering.sent request.entry.call.receiver request.entry.call.args.now request.entry.call.block request.entry.next) e
        heap.new) }
{
    let all = named(heap.alloc(), request.name, request.call.args)?;
    let renamed = Request {
        name: called,
        call: Call {
            args: all.as_slice(),
            ..request.call
        },
        next: request.next,
    };
    let entry = enter_found(heap, found, renamed)?;
    Ok(entry.after(request.name))
}

/// What a call enters that finds no method, or none that is allowed, for that cause.
#[cold]
pub(crate) fn missing(
    heap: &mut Heap,
    cause: Cause,
    request: Request<'_>,
) -> Result<Entry, AllocError>
    ensures { IfOk result (λ e. entering.Misses cause request.entry.name heap.old
        (entering.sent request.entry.call.receiver request.entry.call.args.now request.entry.call.block request.entry.next) e
        heap.new) }
{
    let called = heap.intern(b"method_missing")?;
    match heap.find_for(request.call.receiver, called)? {
        Some(found) => if is_core(&found) {
            Ok(Entry::Answers(heap.fail(cause)?))
        } else {
            enter_after_name(heap, called, &found, request)
        },
        None => Ok(Entry::Answers(heap.fail(cause)?)),
    }
}
