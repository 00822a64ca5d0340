//! Calls over the store at the start, with results and messages from outside.
ghost use Rattle.std.specs.Prelude.{IfOk};
ghost use Rattle.def_core.specs.Sound.{Sound};

mod failures;
mod results;
mod singletons;

use Operand::{Between, Bounded, Letters, Nothing, Number};
use Wanted::{Changed, Gives, Integers, Name, Put, Raises, Same, Text, Texts};
use rb_base::Bytes;
use rb_store::Store;
use rb_value::Value::{False, Int, Nil, Obj, Sym, True};
use rb_value::{CoreClass, ObjId, Outcome, Value};
use row_calls::{are_integers, are_texts, called, is_text, items_of, row_of};
use std::alloc::{AllocError, Global};

/// An argument.
#[derive(Clone, Copy)]
enum Operand {
    Nothing,
    Number(i64),
    Letters(&'static [u8]),
    /// A Range of Integers, which leaves out its end or doesn't.
    Between(i64, i64, bool),
    /// A Range of Strings.
    Bounded(&'static [u8], &'static [u8]),
}

/// What a call gives or raises.
#[derive(Clone, Copy)]
enum Wanted {
    Gives(Value),
    Text(&'static [u8]),
    /// The Symbol of the name.
    Name(&'static [u8]),
    Integers(&'static [i64]),
    Texts(&'static [&'static [u8]]),
    /// The receiver as it was.
    Same,
    /// The receiver, which has these bytes.
    Changed(&'static [u8]),
    /// The last argument, where the receiver has these bytes.
    Put(&'static [u8]),
    Raises(CoreClass, &'static [u8]),
}

/// A call of a String: the name of the method, the bytes of the receiver, the arguments, and what it gives.
type Case = (&'static [u8], &'static [u8], &'static [Operand], Wanted);

const NOTHING: Wanted = Gives(Nil);

const YES: Wanted = Gives(True);

const NO: Wanted = Gives(False);

const SAME: Wanted = Same;

/// The classes Range and String.
const RANGE: Value = Obj(ObjId(15));

/// The row of `Range.new`.
const NEW_RANGE: u16 = 31 * 256;

/// Whether the Array has those items.
fn has_items(st: &Store, value: Value, wanted: Wanted) -> bool {
    let Some(items) = items_of(st, value) else {
        return false;
    };
    match wanted {
        Integers(numbers) => are_integers(items, numbers),
        Texts(texts) => are_texts(st, items, texts),
        _ => false,
    }
}

/// Whether the value is the one that a call with that receiver and that last argument is to give.
fn is_value_wanted(
    st: &mut Store,
    value: Value,
    receiver: Value,
    last: Value,
    wanted: Wanted,
) -> Result<bool, AllocError> {
    Ok(match wanted {
        Gives(plain) => value == plain,
        Text(text) => value != receiver && is_text(st, value, text),
        Name(name) => value == Sym(st.intern(name)?),
        Integers(_) | Texts(_) => has_items(st, value, wanted),
        Same => value == receiver,
        Changed(text) => value == receiver && is_text(st, value, text),
        Put(text) => value == last && is_text(st, receiver, text),
        Raises(_, _) => false,
    })
}

/// Whether a call gave or raised what it is to.
fn is_wanted(
    st: &mut Store,
    outcome: Outcome,
    receiver: Value,
    last: Value,
    wanted: Wanted,
) -> Result<bool, AllocError> {
    match outcome {
        Outcome::Value(value) => is_value_wanted(st, value, receiver, last, wanted),
        Outcome::Raise(failure) => match wanted {
            Raises(class, text) => Ok(
                failure.class == class
                    && failure.detail == Nil
                    && is_text(st, Obj(failure.message), text),
            ),
            _ => Ok(false),
        },
    }
}

/// Whether the receiver is as it was, unless the call is to change it.
fn is_kept(st: &Store, receiver: Value, bytes: &[u8], wanted: Wanted) -> bool {
    match wanted {
        Changed(_) | Put(_) => true,
        _ => is_text(st, receiver, bytes),
    }
}

/// A new String.
fn string(st: &mut Store, text: &[u8]) -> Result<Value, AllocError>
    requires { Sound st.old.store }
    ensures { Sound st.new.store }
{
    let bytes = Bytes::from_slice(st.alloc(), text)?;
    Ok(Obj(rb_raise::new_string(st, bytes)?))
}

/// A new Range, or nil.
fn range(st: &mut Store, ends: &[Value]) -> Result<Value, AllocError>
    requires { Sound st.old.store }
    ensures { Sound st.new.store }
{
    match called(st, NEW_RANGE, RANGE, ends)? {
        Some(Outcome::Value(value)) => Ok(value),
        _ => Ok(Nil),
    }
}

/// The value of an operand, with new objects.
fn value_of(st: &mut Store, operand: Operand) -> Result<Value, AllocError>
    requires { Sound st.old.store }
    ensures { Sound st.new.store }
{
    match operand {
        Nothing => Ok(Nil),
        Number(number) => Ok(Int(number)),
        Letters(text) => string(st, text),
        Between(first, last, exclusive) => {
            range(st, &[Int(first), Int(last), Value::from_truth(exclusive)])
        }
        Bounded(first, last) => {
            let first = string(st, first)?;
            let last = string(st, last)?;
            range(st, &[first, last])
        }
    }
}

/// The values of operands.
fn values_of(st: &mut Store, operands: &[Operand]) -> Result<Vec<Value>, AllocError>
    requires { Sound st.old.store }
    ensures { Sound st.new.store }
{
    let mut values = Vec::with_capacity(st.alloc(), operands.len())?;
    'operands: for operand in operands {
        values.push(value_of(st, *operand)?)?;
    }
    Ok(values)
}

/// Whether a call gives what it is to.
fn is_right(st: &mut Store, row: u16, case: &Case) -> Result<bool, AllocError>
    requires { Sound st.old.store }
{
    let (_, bytes, operands, wanted) = *case;
    let receiver = string(st, bytes)?;
    let args = values_of(st, operands)?;
    let last = args.last().copied().unwrap_or(Nil);
    match called(st, row, receiver, args.as_slice())? {
        Some(outcome) => Ok(
            is_wanted(st, outcome, receiver, last, wanted)? && is_kept(st, receiver, bytes, wanted),
        ),
        None => Ok(false),
    }
}

/// The store at the start.
fn opened(alloc: Global) -> Result<Store, AllocError>
    ensures { IfOk result (λ store. Sound store.store) }
{
    Store::new(alloc)
}

/// Whether the call of that name gives what it is to, over a store of its own.
fn gives(alloc: Global, names: &mut Store, case: &Case) -> Result<bool, AllocError> {
    let symbol = names.intern(case.0)?;
    let Some(row) = row_of(names, CoreClass::String, symbol) else {
        return Ok(false);
    };
    is_right(&mut opened(alloc)?, row, case)
}

/// The number of the first case that gives something else; none where all give what they are to.
fn first_wrong(alloc: Global, cases: &[Case]) -> Result<Option<usize>, AllocError> {
    let mut names = opened(alloc)?;
    'cases: for (i, case) in cases.iter().enumerate() {
        if !gives(alloc, &mut names, case)? {
            return Ok(Some(i));
        }
    }
    Ok(None)
}

#[test]
fn strings_give_what_ruby_gives(rt: HostRuntime) -> Result<(), AllocError> {
    assert_eq!(rt; first_wrong(rt.alloc(), &results::RESULTS_1)?, None);
    assert_eq!(rt; first_wrong(rt.alloc(), &results::RESULTS_2)?, None);
    assert_eq!(rt; first_wrong(rt.alloc(), &results::RESULTS_3)?, None);
    assert_eq!(rt; first_wrong(rt.alloc(), &results::RESULTS_4)?, None);
    assert_eq!(rt; first_wrong(rt.alloc(), &results::RESULTS_5)?, None);
    Ok(())
}

#[test]
fn strings_fail_as_the_library_says(rt: HostRuntime) -> Result<(), AllocError> {
    assert_eq!(rt; first_wrong(rt.alloc(), &failures::FAILURES)?, None);
    Ok(())
}
