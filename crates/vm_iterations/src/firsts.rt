//! What the first turn of an iteration does, where it is done in place.
ghost use Rattle.std.specs.Prelude.{◌≡◌, IfOk, OnOk};
ghost use Rattle.heap.specs.Reading.{sort_of_value};
ghost use Rattle.vm_parts.specs.Below.frames.opening as opening;
ghost use Rattle.vm_parts.specs.Below.frames.seen as seen;
ghost use Rattle.vm_parts.specs.Beside as beside;
ghost use Rattle.vm_parts.specs.Known as known;
ghost use Rattle.vm_iterations.specs.Beginning as beginning;

use crate::enumerating::first_of_enumerator;
use iter_enumerators::EnumeratorState;
use rb_value::{ObjId, Sort, SymId, Value};
use std::alloc::AllocError;
use vm_parts::core_calls::{Call, Passed};
use vm_parts::core_iter::making::blank_for;
use vm_parts::heap::{Blank, Given, Heap};
use vm_parts::known::{MethodBody, Usual};
use vm_parts::parts::Parts;
use vm_parts::run_rows::iter_items::ItemsRow;
use vm_parts::run_rows::iter_items::iter_comparing::ComparingRow;
use vm_parts::run_rows::row_table::CoreRow;
use vm_parts::run_rows::rows_object::ObjectRow;
use vm_parts::run_rows::{KernelRow, PlainRow, Row, StarRow, call_of_table};
use vm_parts::vm_frames::{Arguments, Begun};
use vm_plain::pair_value;

/// What `initialize` of a class is: a body, or a core method that calls no other.
#[derive(Clone, Copy)]
pub enum Initialize {
    Body(MethodBody),
    Core(PlainRow),
}

/// What the first turn of an iteration does in place: it ends with a value, has an answer and ends with a value in its next
/// turn, calls a Proc whose answer is handed on or gives way to a value, resumes a fiber with at most one value, or with
/// none for the next item of an Enumerator, yields at most one, makes an object of a class, has a class make one, which is
/// raised, raises an exception, or asks its receiver for what a core method gives.
#[derive(Clone, Copy)]
pub enum First {
    Gives(Value),
    Tells(Value),
    Calls(ObjId),
    Puts {
        callee: ObjId,
        given: Value,
    },
    Enumerates {
        fiber: ObjId,
        then: EnumeratorState,
    },
    Resumes {
        fiber: ObjId,
        passed: Passed,
    },
    Yields(Passed),
    Makes {
        class: ObjId,
        blank: Blank,
        initialize: Initialize,
    },
    Raises(Value),
    Throws(ObjId),
    Asks {
        number: u16,
        row: Row,
    },
}

/// Arguments that are at most one.
fn passed_of(parts: &Parts, arguments: Arguments) -> Option<Passed>
    ensures { result ≡ beginning.passed_in (opening.given (seen.of parts.now.frames) arguments) }
{
    match parts.frames.given(arguments) {
        [] => Some(Passed::Nothing),
        [value] => Some(Passed::One(*value)),
        _ => None,
    }
}

/// The element of a Hash by a key, where it is there at once.
fn first_of_element(parts: &Parts, begun: &Begun) -> Result<Option<First>, AllocError>
    ensures { IfOk result (λ found. found ≡ beginning.element (beside.of parts.now) begun.now) }
{
    match (
        parts.heap.a_hash(begun.receiver),
        parts.frames.given(begun.arguments),
    ) {
        (Some(hash), [key]) => match pair_value(&parts.heap, hash, *key)? {
            Some(value) => Ok(Some(First::Gives(value))),
            None => Ok(None),
        },
        _ => Ok(None),
    }
}

/// What a class finds under a name, which is remembered where it is called straight on.
fn found_in(parts: &mut Parts, class: ObjId, name: SymId) -> Result<Option<Usual>, AllocError>
    ensures found { IfOk result (λ usual. usual ≡ beginning.found_in (beside.of parts.old) class name) }
    ensures noted { OnOk result (known.of parts.new.known ≡ beginning.noted_in (beside.of parts.old) class name) }
    ensures alone { beside.of parts.new ≡ record (beside.of parts.old) { known = parts.new.known } }
{
    if let Some(usual) = parts.known.look_in(&parts.heap, class, name) {
        return Ok(Some(usual));
    }
    match parts.heap.find(class, name)? {
        Some(found) => Ok(parts.known.note(&parts.heap, class, name, found)),
        None => Ok(None),
    }
}

/// What `initialize` of a class is, where it is called straight on and there is room for it.
fn initialize_of(parts: &mut Parts, class: ObjId) -> Result<Option<Initialize>, AllocError>
    ensures found { IfOk result (λ found. found ≡ beginning.initialize_of (beside.of parts.old) class) }
    ensures noted { OnOk result (known.of parts.new.known ≡ beginning.noted_in (beside.of parts.old) class
        (beside.of parts.old).names.initialize) }
    ensures alone { beside.of parts.new ≡ record (beside.of parts.old) { known = parts.new.known } }
{
    match found_in(parts, class, parts.names.initialize)? {
        Some(Usual::Body(method)) if !parts.frames.is_full() => Ok(Some(Initialize::Body(method))),
        Some(
            Usual::Core {
                number: _,
                row: Row::Plain(row),
            },
        ) => Ok(Some(Initialize::Core(row))),
        _ => Ok(None),
    }
}

/// Whether a value is a class.
fn is_class(heap: &Heap, value: Value) -> bool
    ensures { result ≡ beginning.is_class (sort_of_value heap.now.store value) }
{
    matches!(heap.sort(value), Some(Sort::Class))
}

/// The class that a value is.
fn a_class(heap: &Heap, value: Value) -> Option<ObjId>
    ensures { result ≡ beginning.a_class heap.now.store value }
{
    match value {
        Value::Obj(id) if is_class(heap, value) => Some(id),
        _ => None,
    }
}

/// What a raise is given, where it makes an exception of that.
fn raised_of(args: &[Value]) -> Option<Value>
    ensures { result ≡ beginning.raised_in args.now }
{
    match args {
        [raised] | [raised, _] => Some(*raised),
        _ => None,
    }
}

/// Whether a value is a class, and there is room for a level more.
fn can_raise(parts: &Parts, raised: Value) -> bool
    ensures { result ≡ beginning.can_raise (beside.of parts.now) raised }
{
    is_class(&parts.heap, raised) && !parts.frames.is_full()
}

/// A class is raised, where what its `new` is, is the core method.
fn raises(raised: Value, usual: Option<Usual>) -> Option<First>
    ensures { result ≡ beginning.raises_by raised usual }
{
    match usual {
        Some(
            Usual::Core {
                number: _,
                row: Row::Star(StarRow::Kernel(KernelRow::NewObject)),
            },
        ) => Some(First::Raises(raised)),
        _ => None,
    }
}

/// A class that is raised makes an object, where its `new` is the core method and there is room for it.
fn first_of_raised(parts: &mut Parts, raised: Value) -> Result<Option<First>, AllocError>
    ensures { IfOk result (λ found. beginning.Raised raised (beside.of parts.old) found (beside.of parts.new)) }
{
    if !can_raise(parts, raised) {
        return Ok(None);
    }
    let class = parts.heap.class_of(raised);
    let usual = found_in(parts, class, parts.names.new)?;
    Ok(raises(raised, usual))
}

/// What a raise does in place.
fn first_of_raise(parts: &mut Parts, begun: &Begun) -> Result<Option<First>, AllocError>
    ensures { IfOk result (λ found. beginning.RaiseOf (beginning.raised_in (beginning.given (beside.of parts.old)
        begun.now)) (beside.of parts.old) found (beside.of parts.new)) }
{
    match raised_of(parts.frames.given(begun.arguments)) {
        Some(raised) => first_of_raised(parts, raised),
        None => Ok(None),
    }
}

/// An object of a class is made, where what its `initialize` is is called straight on.
fn makes(class: ObjId, blank: Blank, initialize: Option<Initialize>) -> Option<First>
    ensures { result ≡ beginning.makes class blank initialize }
{
    match initialize {
        Some(initialize) => Some(First::Makes {
            class,
            blank,
            initialize,
        }),
        None => None,
    }
}

/// A new object of a class that holds so much.
fn first_of_blank(
    parts: &mut Parts,
    class: ObjId,
    blank: Blank,
) -> Result<Option<First>, AllocError>
    ensures { IfOk result (λ found. beginning.Makes blank (beside.of parts.old) class found (beside.of parts.new)) }
{
    let initialize = initialize_of(parts, class)?;
    Ok(makes(class, blank, initialize))
}

/// A new object of a class.
fn first_of_object(parts: &mut Parts, begun: &Begun) -> Result<Option<First>, AllocError>
    ensures { IfOk result (λ found. beginning.ObjectOf (beginning.a_class parts.old.heap.store begun.now.receiver)
        (beside.of parts.old) found (beside.of parts.new)) }
{
    let Some(class) = a_class(&parts.heap, begun.receiver) else {
        return Ok(None);
    };
    match blank_for(&parts.heap, class) {
        Some(blank) => first_of_blank(parts, class, blank),
        None => Ok(None),
    }
}

/// What the first turn of an iteration that calls a Proc or moves between fibers does, where it is done in place.
fn first_of_call(parts: &Parts, begun: &Begun, row: KernelRow) -> Option<First>
    ensures { result ≡ beginning.call_by row (beside.of parts.now) begun.now }
{
    match row {
        KernelRow::CallProc => Some(First::Calls(parts.heap.a_proc(begun.receiver)?)),
        KernelRow::Resume => Some(First::Resumes {
            fiber: parts.heap.a_fiber(begun.receiver)?,
            passed: passed_of(parts, begun.arguments)?,
        }),
        KernelRow::Yield => Some(First::Yields(passed_of(parts, begun.arguments)?)),
        _ => None,
    }
}

/// Whether an exception was made with no object but a String, so that what its `to_s` gives is its message.
fn has_text(heap: &Heap, exception: ObjId) -> bool
    ensures { result ≡ beginning.has_text heap.now.store (beginning.message_in heap.now exception) }
{
    match heap.message_of(exception) {
        Value::Obj(id) => matches!(heap.sort(Value::Obj(id)), Some(Sort::String)),
        _ => true,
    }
}

/// An exception is asked for its `to_s`, where that is remembered and calls no others.
fn first_of_message(parts: &Parts, begun: &Begun) -> Option<First>
    ensures { result ≡ beginning.message (beside.of parts.now) begun.now }
{
    let exception = parts.heap.an_exception(begun.receiver)?;
    if begun.arguments.count > 0 || !has_text(&parts.heap, exception) {
        return None;
    }
    let class = parts.heap.class_of(begun.receiver);
    match parts.known.look_in(&parts.heap, class, parts.names.to_s)? {
        Usual::Core {
            number: _,
            row: Row::Star(_),
        } => None,
        Usual::Core { number, row } => Some(First::Asks { number, row }),
        _ => None,
    }
}

/// The value that tells whether something holds, or its negation.
fn told(negating: bool, holds: bool) -> Value
    ensures { result ≡ beginning.told negating holds }
{
    Value::from_truth(holds != negating)
}

/// Whether a value is `==` another, or isn't, by a row of the table.
fn first_by_table(
    parts: &mut Parts,
    begun: &Begun,
    negating: bool,
    number: u16,
    row: Option<CoreRow>,
) -> Result<Option<First>, AllocError>
    ensures { IfOk result (λ found. beginning.ByTable negating number row (beside.of parts.old) begun.now found
        (beside.of parts.new)) }
{
    let args = parts.frames.given(begun.arguments);
    if args.len() != 1 {
        return Ok(None);
    }
    let call = Call {
        receiver: begun.receiver,
        args,
        block: None,
    };
    match call_of_table(&mut parts.heap, number, row, call)? {
        Given::Gives(answer) => { Ok(Some(First::Gives(told(negating, answer.is_true())))) }
        Given::Raises(exception) => Ok(Some(First::Throws(exception))),
    }
}

/// Whether a value is `==` another, or isn't, by being that value.
fn first_by_identity(parts: &Parts, begun: &Begun, negating: bool) -> Option<First>
    ensures { result ≡ beginning.tells_same negating begun.now.receiver (beginning.given (beside.of parts.now)
        begun.now) }
{
    match parts.frames.given(begun.arguments) {
        [other] => { Some(First::Tells(told(negating, begun.receiver == *other))) }
        _ => None,
    }
}

/// Whether a value is `==` another, or isn't, by what its class finds, where that is a core method of the table, or the one
/// of every object.
fn first_by_usual(
    parts: &mut Parts,
    begun: &Begun,
    negating: bool,
    usual: Option<Usual>,
) -> Result<Option<First>, AllocError>
    ensures { IfOk result (λ found. beginning.EqualBy usual negating (beside.of parts.old) begun.now found
        (beside.of parts.new)) }
{
    match usual {
        Some(
            Usual::Core {
                number,
                row: Row::OfTable(row),
            },
        ) => first_by_table(parts, begun, negating, number, row),
        Some(
            Usual::Core {
                number: _,
                row: Row::Plain(PlainRow::Object(ObjectRow::Same)),
            },
        ) => Ok(first_by_identity(parts, begun, negating)),
        _ => Ok(None),
    }
}

/// Whether a value is `==` another, or isn't, where what its class finds is remembered or is then.
fn first_of_equal(
    parts: &mut Parts,
    begun: &Begun,
    negating: bool,
) -> Result<Option<First>, AllocError>
    ensures { IfOk result (λ found. beginning.Equal negating (beside.of parts.old) begun.now found
        (beside.of parts.new)) }
{
    let class = parts.heap.class_of(begun.receiver);
    let usual = found_in(parts, class, parts.names.equal)?;
    first_by_usual(parts, begun, negating, usual)
}

/// What the first turn of a method that compares does, where it is done in place.
#[inline(always)]
fn first_of_compared(
    parts: &mut Parts,
    begun: &Begun,
    row: ComparingRow,
) -> Result<Option<First>, AllocError>
    ensures { IfOk result (λ found. beginning.FindsCompared row (beside.of parts.old) begun.now found
        (beside.of parts.new)) }
{
    match row {
        ComparingRow::HashElement => first_of_element(parts, begun),
        ComparingRow::Matches => first_of_equal(parts, begun, false),
        ComparingRow::Differs => first_of_equal(parts, begun, true),
        _ => Ok(None),
    }
}

/// What the first turn of a method of several items does, where it is done in place.
#[inline(always)]
fn first_of_items(
    parts: &mut Parts,
    begun: &Begun,
    row: ItemsRow,
) -> Result<Option<First>, AllocError>
    ensures { IfOk result (λ found. beginning.FindsItems row (beside.of parts.old) begun.now found
        (beside.of parts.new)) }
{
    match row {
        ItemsRow::Compares(row) => first_of_compared(parts, begun, row),
        ItemsRow::Enumerates(row) => Ok(first_of_enumerator(parts, begun, row)),
        _ => Ok(None),
    }
}

/// What the first turn of a method of every object, a class, a Proc, a fiber or an exception does, where it is done in place.
#[inline(always)]
fn first_of_kernel(
    parts: &mut Parts,
    begun: &Begun,
    row: KernelRow,
) -> Result<Option<First>, AllocError>
    ensures { IfOk result (λ found. beginning.FindsKernel row (beside.of parts.old) begun.now found
        (beside.of parts.new)) }
{
    match row {
        KernelRow::NewObject => first_of_object(parts, begun),
        KernelRow::Raise => first_of_raise(parts, begun),
        KernelRow::Message => Ok(first_of_message(parts, begun)),
        row => Ok(first_of_call(parts, begun, row)),
    }
}

/// What the first turn of an iteration does, where it is done in place.
pub fn first_of(parts: &mut Parts, begun: &Begun) -> Result<Option<First>, AllocError>
    ensures { IfOk result (λ found. beginning.FindsFirst begun.now.row (beside.of parts.old) begun.now found
        (beside.of parts.new)) }
{
    match begun.row {
        StarRow::Items(row) => first_of_items(parts, begun, row),
        StarRow::Kernel(row) => first_of_kernel(parts, begun, row),
        _ => Ok(None),
    }
}
