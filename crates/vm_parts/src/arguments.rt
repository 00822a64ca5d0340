//! The arguments of an instruction's call: so many registers after the receiver, or the elements of an Array.
ghost use Rattle.std.specs.Prelude.{◌≡◌, IfOk, OnOk};
ghost use Rattle.def_core.specs.Bind.{elements_in};
ghost use Rattle.vm_parts.specs.Arguments as passing;
ghost use Rattle.vm_parts.specs.Beside as beside;

use crate::parts::{Parts, behind};
use fiber_switch::vm_frames::{Arguments, Frame};
use rb_value::{ObjId, Value};
use std::alloc::AllocError;

/// The count that stands for one Array of all arguments.
pub const IN_ARRAY: u16 = 255;

/// The count by which a call on `self` is of a bare name.
pub const BARE_NAME: u16 = 254;

/// How many registers hold the arguments.
#[inline(always)]
pub fn registers_of(count: u16) -> u16
    ensures { result ≡ passing.registers_of count }
{
    if count == IN_ARRAY { 1 } else { count }
}

/// The value of the parameter for the block.
#[inline(always)]
pub fn block_value(block: Option<ObjId>) -> Value
    ensures { result ≡ passing.block_value block }
{
    match block {
        Some(block) => Value::Obj(block),
        None => Value::Nil,
    }
}

/// The elements of an Array, or another value itself, as arguments.
#[cold]
fn keep_elements(parts: &mut Parts, value: Value) -> Result<Arguments, AllocError>
    ensures arguments { IfOk result (λ args. args ≡ passing.elements_given (beside.of parts.old).seen
        (elements_in parts.old.heap.store.objects value)) }
    ensures kept { OnOk result (beside.of parts.new ≡ beside.with_seen (beside.of parts.old)
        (passing.elements_kept (beside.of parts.old).seen (elements_in parts.old.heap.store.objects value) value)) }
{
    match parts.heap.elements_of(value) {
        Some(elements) => parts.frames.keep_all(elements),
        None => {
            let arguments = parts.frames.no_arguments();
            parts.frames.keep_after(arguments, value)
        }
    }
}

/// The arguments of a call on register `a` that are registers, so many.
#[inline(always)]
pub fn arguments_in_registers(hot: &Frame, parts: &Parts, a: u16, count: u16) -> Arguments
    ensures { result ≡ passing.in_registers (beside.of parts.now).seen hot.now a count }
{
    parts.frames.registers_as_arguments(hot, behind(a), count)
}

/// The arguments of a call on register `a`.
pub fn arguments_of(
    hot: &Frame,
    parts: &mut Parts,
    a: u16,
    count: u16,
) -> Result<Arguments, AllocError>
    ensures arguments { IfOk result (λ args. args ≡ passing.given parts.old.heap.store (beside.of parts.old).seen
        hot.now a count) }
    ensures kept { OnOk result (beside.of parts.new ≡ beside.with_seen (beside.of parts.old)
        (passing.kept parts.old.heap.store (beside.of parts.old).seen hot.now a count)) }
{
    if count == IN_ARRAY {
        let value = parts.get(hot, behind(a));
        keep_elements(parts, value)
    } else {
        Ok(arguments_in_registers(hot, parts, a, count))
    }
}
