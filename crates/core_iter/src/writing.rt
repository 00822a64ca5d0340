//! `puts`, `print` and `p`.
ghost use Rattle.std.specs.Prelude.{◌≡◌, IfOk, OnOk};
ghost use Rattle.def_plans.specs.Plan.{Plans};
ghost use Rattle.core_iter.specs.Stage.{stage_of};
ghost use Rattle.core_iter.specs.Writing as writing;

use crate::iteration::{Iteration, Rest};
use crate::sending::ask;
use def_core::Cause;
use rb_base::List;
use rb_value::Value;
use run_rows::core_calls::{Empty, Plan, flattened};
use run_rows::heap::Heap;
use std::alloc::AllocError;

/// The arguments as values of which none is passed.
pub(crate) fn all_of(heap: &Heap, args: &[Value]) -> Result<Rest, AllocError>
    ensures { IfOk result (λ rest. rest ≡ writing.all_of args.now) }
{
    Ok(Rest {
        values: List::from_vec(Vec::from_slice(heap.alloc(), args)?),
        place: 0,
    })
}

/// Whether a line is whole by its last byte.
fn is_newline(last: Option<u8>) -> bool
    ensures { result ≡ writing.is_newline last }
{
    match last {
        Some(byte) => byte == b'\n',
        None => false,
    }
}

/// Ends a line with one newline.
fn end_line(text: &mut Vec<u8>) -> Result<(), AllocError>
    ensures { OnOk result (text.new.items ≡ writing.line text.old.items) }
{
    if is_newline(text.last().copied()) {
        return Ok(());
    }
    text.push(b'\n')?;
    Ok(())
}

/// Writes an empty line, and goes on with the rest.
fn empty_line(heap: &Heap, rest: Rest) -> Result<Plan<Iteration>, AllocError>
    ensures { Plans stage_of heap.now result (writing.empty_line heap.now rest) }
{
    Ok(Plan::Writes {
        then: Iteration::Putting(rest),
        bytes: Vec::from_slice(heap.alloc(), b"\n")?,
    })
}

/// The next line of `puts`: nil is an empty one, and any other value is asked for its text.
pub(crate) fn put_next(heap: &mut Heap, rest: Rest) -> Result<Plan<Iteration>, AllocError>
    ensures { Plans stage_of heap.new result (writing.put_next heap.old rest) }
{
    let mut rest = rest;
    match rest.take() {
        Some(Value::Nil) => empty_line(heap, rest),
        Some(value) => ask(heap, Iteration::PuttingText(rest), value, b"to_s"),
        None => Ok(Plan::Finishes(Value::Nil)),
    }
}

/// Begins `puts`: the elements of Arrays stand on lines of their own, and no arguments are an empty line.
pub(crate) fn put_all(heap: &mut Heap, args: &[Value]) -> Result<Plan<Iteration>, AllocError>
    ensures { Plans stage_of heap.new result (writing.put_all heap.old args.now) }
{
    if args.is_empty() {
        let rest = all_of(heap, args)?;
        return empty_line(heap, rest);
    }
    match flattened(heap, args, Empty::Vanishes)? {
        Some(values) => {
            let rest = Rest {
                values: List::from_vec(values),
                place: 0,
            };
            put_next(heap, rest)
        }
        None => Ok(Plan::Fails(Cause::StackTooDeep)),
    }
}

/// Writes the text of a value as a line.
pub(crate) fn put_text(heap: &Heap, rest: Rest, text: Value) -> Result<Plan<Iteration>, AllocError>
    ensures { Plans stage_of heap.now result (writing.put_text heap.now rest text) }
{
    let mut bytes = heap.text_of_value(text)?;
    end_line(&mut bytes)?;
    Ok(Plan::Writes {
        then: Iteration::Putting(rest),
        bytes,
    })
}

/// Asks the next value of `print` for its text.
pub(crate) fn print_next(heap: &mut Heap, rest: Rest) -> Result<Plan<Iteration>, AllocError>
    ensures { Plans stage_of heap.new result (writing.print_next heap.old rest) }
{
    let mut rest = rest;
    match rest.take() {
        Some(value) => ask(heap, Iteration::PrintingText(rest), value, b"to_s"),
        None => Ok(Plan::Finishes(Value::Nil)),
    }
}

/// Writes the text of a value of `print`.
pub(crate) fn print_text(
    heap: &Heap,
    rest: Rest,
    text: Value,
) -> Result<Plan<Iteration>, AllocError>
    ensures { Plans stage_of heap.now result (writing.print_text heap.now rest text) }
{
    Ok(Plan::Writes {
        then: Iteration::Printing(rest),
        bytes: heap.text_of_value(text)?,
    })
}

/// What `p` gives: nil, its argument, or an Array of its arguments.
fn give_all(heap: &mut Heap, values: List<Value>) -> Result<Plan<Iteration>, AllocError>
    ensures { Plans stage_of heap.new result (writing.give_all heap.old values) }
{
    match values.as_slice() {
        [] => Ok(Plan::Finishes(Value::Nil)),
        [only] => Ok(Plan::Finishes(*only)),
        _ => Ok(Plan::Finishes(heap.make_array(values.into_vec())?)),
    }
}

/// Asks the next value of `p` what stands for it, or gives all.
pub(crate) fn inspect_next(heap: &mut Heap, rest: Rest) -> Result<Plan<Iteration>, AllocError>
    ensures { Plans stage_of heap.new result (writing.inspect_next heap.old rest) }
{
    let mut rest = rest;
    match rest.take() {
        Some(value) => ask(heap, Iteration::InspectingText(rest), value, b"inspect"),
        None => give_all(heap, rest.values),
    }
}

/// Writes what stands for a value of `p`, and a newline.
pub(crate) fn inspect_text(
    heap: &Heap,
    rest: Rest,
    text: Value,
) -> Result<Plan<Iteration>, AllocError>
    ensures { Plans stage_of heap.now result (writing.inspect_text heap.now rest text) }
{
    let mut bytes = heap.text_of_value(text)?;
    bytes.push(b'\n')?;
    Ok(Plan::Writes {
        then: Iteration::Inspecting(rest),
        bytes,
    })
}
