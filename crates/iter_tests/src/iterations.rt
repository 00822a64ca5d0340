//! Iterations by themselves: each call of a Proc is noted, and what it is called with is the answer.
use core_iter::run_rows::core_calls::hidden::COLLECT_ROW;
use core_iter::run_rows::core_calls::{Call, Plan};
use core_iter::run_rows::heap::{Given, Heap};
use core_iter::run_rows::{KernelRow, Row, StarRow, VisitRow, call_plain, opening_heap, row_at};
use core_iter::{Iteration, next, start};
use rb_value::{Method, ObjId, SymId, Value};
use std::alloc::AllocError;
use std::process::Abort;
use std::test::Fail;

/// Whether a text is that.
fn reads(text: &[u8], other: &[u8]) -> bool {
    text == other
}

/// What was written, and how it ended.
#[derive(Drop)]
struct Seen {
    text: Vec<u8>,
    end: Option<Value>,
}

impl Seen {
    fn put(&mut self, bytes: &[u8]) -> Result<(), AllocError> {
        self.text.extend_from_slice(bytes)
    }

    /// Notes what a block is called with.
    fn note(&mut self, heap: &mut Heap, args: &[Value]) -> Result<(), AllocError> {
        let name = heap.intern(b"to_s")?;
        'values: for value in args {
            let text = sent(heap, *value, name, &[])?;
            let shown = heap.text_of_value(text)?;
            self.put(&shown)?;
            self.put(b" ")?;
        }
        Ok(())
    }
}

/// What a method gives that calls no other; nil where there is none.
fn sent(
    heap: &mut Heap,
    receiver: Value,
    name: SymId,
    args: &[Value],
) -> Result<Value, AllocError> {
    let call = Call {
        receiver,
        args,
        block: None,
    };
    let Some(found) = heap.find_for(receiver, name)? else {
        return Ok(Value::Nil);
    };
    let Method::Core(number) = found.method else {
        return Ok(Value::Nil);
    };
    let given = match row_at(number) {
        Row::OfTable(_) => heap.call_row(number, receiver, args, None)?,
        Row::Plain(row) => call_plain(heap, row, call)?,
        Row::Star(_) => Given::Gives(Value::Nil),
    };
    match given {
        Given::Gives(value) => Ok(value),
        Given::Raises(_) => Ok(Value::Nil),
    }
}

/// The first of the values that a Proc is called with.
fn first_of(args: &[Value]) -> Value {
    args.first().copied().unwrap_or(Value::Nil)
}

/// Takes one plan, and gives the next where there is one.
fn turn(
    heap: &mut Heap,
    seen: &mut Seen,
    plan: Plan<Iteration>,
) -> Result<Option<Plan<Iteration>>, AllocError> {
    match plan {
        Plan::Calls { then, args, .. } => {
            seen.note(heap, args.as_slice())?;
            Ok(Some(next(heap, then, first_of(&args))?))
        }
        Plan::Sends {
            then,
            receiver,
            name,
            args,
            ..
        } => {
            let answer = sent(heap, receiver, name, args.as_slice())?;
            Ok(Some(next(heap, then, answer)?))
        }
        Plan::Writes { then, bytes } => {
            seen.put(&bytes)?;
            Ok(Some(next(heap, then, Value::Nil)?))
        }
        Plan::Finishes(value) => {
            seen.end = Some(value);
            Ok(None)
        }
        _ => Ok(None),
    }
}

/// Takes the plans of a row to their end.
fn seen_of(
    heap: &mut Heap,
    row: StarRow,
    receiver: Value,
    args: &[Value],
) -> Result<Seen, AllocError> {
    let kept = heap.make_array(Vec::new(heap.alloc()))?;
    let block = heap.make_core_proc(COLLECT_ROW, kept)?;
    let call = Call {
        receiver,
        args,
        block: Some(block),
    };
    let mut seen = Seen {
        text: Vec::new(heap.alloc()),
        end: None,
    };
    let mut plan = start(heap, row, call)?;
    'turns: for _ in 0..100 {
        match turn(heap, &mut seen, plan)? {
            Some(other) => plan = other,
            None => return Ok(seen),
        }
    }
    Ok(seen)
}

/// A visit of a receiver with arguments, and what it calls its block with.
#[derive(Clone, Copy)]
struct Visit<'a> {
    row: VisitRow,
    receiver: Value,
    args: &'a [Value],
    calls: &'a [u8],
}

/// A visit without arguments, and what it calls its block with.
fn plain_visit<'a>(row: VisitRow, receiver: Value, calls: &'a [u8]) -> Visit<'a> {
    Visit {
        row,
        receiver,
        args: &[],
        calls,
    }
}

/// The place of the first of the visits that calls its block with something else, if there is one.
fn first_other(heap: &mut Heap, visits: &[Visit<'_>]) -> Result<Option<usize>, AllocError> {
    'visits: for (place, visit) in visits.iter().enumerate() {
        let seen = seen_of(heap, StarRow::Visit(visit.row), visit.receiver, visit.args)?;
        if !reads(&seen.text, visit.calls) {
            return Ok(Some(place));
        }
    }
    Ok(None)
}

/// An Array of these Integers.
fn array(heap: &mut Heap, numbers: &[i64]) -> Result<Value, AllocError> {
    let mut elements = Vec::new(heap.alloc());
    'numbers: for number in numbers {
        elements.push(Value::Int(*number))?;
    }
    heap.make_array(elements)
}

#[test]
fn integers_count(rt: HostRuntime) -> Result<(), Fail> {
    let mut heap = opening_heap(rt.alloc())?;
    let visits = [
        plain_visit(VisitRow::Times, Value::Int(3), b"0 1 2 "),
        Visit {
            row: VisitRow::Downto,
            receiver: Value::Int(3),
            args: &[Value::Int(1)],
            calls: b"3 2 1 ",
        },
        Visit {
            row: VisitRow::Step,
            receiver: Value::Int(1),
            args: &[Value::Int(8), Value::Int(3)],
            calls: b"1 4 7 ",
        },
        Visit {
            row: VisitRow::Upto,
            receiver: Value::Int(i64::MAX),
            args: &[Value::Int(i64::MAX)],
            calls: b"9223372036854775807 ",
        },
    ];
    assert_eq!(rt; first_other(&mut heap, &visits)?, None);
    Ok(())
}

#[test]
fn texts_are_walked_over(rt: HostRuntime) -> Result<(), Fail> {
    let mut heap = opening_heap(rt.alloc())?;
    let text = heap.make_text(b"a\nbc")?;
    let visits = [
        plain_visit(VisitRow::EachByte, text, b"97 10 98 99 "),
        plain_visit(VisitRow::EachCharacter, text, b"a \n b c "),
        plain_visit(VisitRow::EachLine, text, b"a\n bc "),
    ];
    assert_eq!(rt; first_other(&mut heap, &visits)?, None);
    Ok(())
}

#[test]
fn arrays_are_visited(rt: HostRuntime) -> Result<(), Fail> {
    let mut heap = opening_heap(rt.alloc())?;
    let three = array(&mut heap, &[5, 6, 7])?;
    let visits = [
        plain_visit(VisitRow::EachElement, three, b"5 6 7 "),
        plain_visit(VisitRow::EachIndex, three, b"0 1 2 "),
        plain_visit(VisitRow::DeleteElements, three, b"5 6 7 "),
        // (they are deleted)
        plain_visit(VisitRow::EachElement, three, b""),
    ];
    assert_eq!(rt; first_other(&mut heap, &visits)?, None);
    Ok(())
}

#[test]
fn lines_are_written(rt: HostRuntime) -> Result<(), Fail> {
    let mut heap = opening_heap(rt.alloc())?;
    let inner = array(&mut heap, &[1, 2])?;
    let outer = heap.make_array(Vec::from_slice(rt.alloc(), &[inner, Value::Nil, Value::True])?)?;
    let main = heap.main_object();
    let seen = seen_of(&mut heap, StarRow::Kernel(KernelRow::Puts), main, &[outer])?;
    assert!(rt; reads(&seen.text, b"1\n2\n\ntrue\n"));
    Ok(())
}

#[test]
fn what_is_inspected_is_given(rt: HostRuntime) -> Result<(), Fail> {
    let mut heap = opening_heap(rt.alloc())?;
    let main = heap.main_object();
    let row = StarRow::Kernel(KernelRow::Inspect);
    let seen = seen_of(&mut heap, row, main, &[Value::True])?;
    assert!(rt; reads(&seen.text, b"true\n"));
    assert!(rt; seen.end == Some(Value::True));
    Ok(())
}
