//! Calls over the store at the start, with results and messages from outside.
ghost use Rattle.std.specs.Prelude.{IfOk};
ghost use Rattle.def_core.specs.Sound.{Sound};

mod integers;
mod ranges;

use Wanted::{Gives, Integers, Raises, Text, Texts};
use rb_base::Bytes;
use rb_store::Store;
use rb_value::Value::{False, Int, Nil, Obj, True};
use rb_value::{CoreClass, ObjId, Outcome, Value};
use row_calls::{are_integers, are_texts, called, is_text, items_of, row_of};
use std::alloc::{AllocError, Global};

/// What a call gives or raises.
#[derive(Clone, Copy)]
enum Wanted {
    Gives(Value),
    Text(&'static [u8]),
    Integers(&'static [i64]),
    Texts(&'static [&'static [u8]]),
    Raises(CoreClass, &'static [u8]),
}

/// A call: the name of the method, the receiver, the arguments, and what it gives.
type Case = (&'static [u8], Value, &'static [Value], Wanted);

const NOTHING: Wanted = Gives(Nil);

const YES: Wanted = Gives(True);

const NO: Wanted = Gives(False);

const OVERFLOW: Wanted = Raises(CoreClass::RangeError, b"integer overflow");

const GOT_NIL: Wanted = Raises(CoreClass::TypeError, b"expected Integer, got NilClass");

const GIVEN_0_FOR_1: Wanted = Raises(
    CoreClass::ArgumentError,
    b"wrong number of arguments (given 0, expected 1)",
);

const GIVEN_1_FOR_0: Wanted = Raises(
    CoreClass::ArgumentError,
    b"wrong number of arguments (given 1, expected 0)",
);

const GIVEN_2_FOR_0_TO_1: Wanted = Raises(
    CoreClass::ArgumentError,
    b"wrong number of arguments (given 2, expected 0..1)",
);

/// Objects that stand after those of the store at the start, in this order.
const LETTER_A: Value = Obj(ObjId(42));

const LETTER_C: Value = Obj(ObjId(43));

const TWO_LETTERS: Value = Obj(ObjId(44));

const NO_LETTER: Value = Obj(ObjId(45));

const NEWLINE: Value = Obj(ObjId(46));

const BYTE_128: Value = Obj(ObjId(47));

const QUOTE: Value = Obj(ObjId(48));

const TEXTS: [&[u8]; 7] = [b"a", b"c", b"ab", b"", b"\n", b"\x80", b"\""];

const ONE_TO_THREE: Value = Obj(ObjId(49));

const ONE_TO_TWO: Value = Obj(ObjId(50));

const A_TO_C: Value = Obj(ObjId(51));

const A_TO_B: Value = Obj(ObjId(52));

const DOWNWARD: Value = Obj(ObjId(53));

const BYTES: Value = Obj(ObjId(54));

const FROM_QUOTE: Value = Obj(ObjId(55));

const ALL_INTEGERS: Value = Obj(ObjId(56));

const RANGES: [[Value; 3]; 8] = [
    [Int(1), Int(3), Nil],
    [Int(1), Int(3), True],
    [LETTER_A, LETTER_C, False],
    [LETTER_A, LETTER_C, Int(0)],
    [Int(5), Int(1), Nil],
    [NEWLINE, BYTE_128, Nil],
    [QUOTE, LETTER_A, Nil],
    [Int(i64::MIN), Int(i64::MAX), Nil],
];

/// The class Range, and the module Kernel.
const RANGE: Value = Obj(ObjId(15));

const KERNEL: Value = Obj(ObjId(1));

/// The row of `Range.new`.
const NEW_RANGE: u16 = 31 * 256;

/// Whether the value is what a call is to give.
fn is_value_wanted(st: &Store, value: Value, wanted: Wanted) -> bool {
    match wanted {
        Gives(plain) => value == plain,
        Text(text) => is_text(st, value, text),
        Integers(numbers) => match items_of(st, value) {
            Some(items) => are_integers(items, numbers),
            None => false,
        },
        Texts(texts) => match items_of(st, value) {
            Some(items) => are_texts(st, items, texts),
            None => false,
        },
        Raises(_, _) => false,
    }
}

/// Whether a call gave or raised what it is to.
fn is_wanted(st: &Store, outcome: Outcome, wanted: Wanted) -> bool {
    match outcome {
        Outcome::Value(value) => is_value_wanted(st, value, wanted),
        Outcome::Raise(failure) => match wanted {
            Raises(class, text) => {
                failure.class == class
                    && failure.detail == Nil
                    && is_text(st, Obj(failure.message), text)
            }
            _ => false,
        },
    }
}

/// The store at the start.
fn opened(alloc: Global) -> Result<Store, AllocError>
    ensures { IfOk result (λ store. Sound store.store) }
{
    Store::new(alloc)
}

/// The store at the start with the objects above after its own.
fn prepared(alloc: Global) -> Result<Store, AllocError>
    ensures { IfOk result (λ store. Sound store.store) }
{
    let mut st = opened(alloc)?;
    'texts: for text in TEXTS {
        let bytes = Bytes::from_slice(alloc, text)?;
        rb_raise::new_string(&mut st, bytes)?;
    }
    'made: for args in RANGES {
        called(&mut st, NEW_RANGE, RANGE, &args)?;
    }
    Ok(st)
}

/// The number of the first case that gives something else; none where all give what they are to.
fn first_wrong(
    alloc: Global,
    class: CoreClass,
    cases: &[Case],
) -> Result<Option<usize>, AllocError> {
    let mut names = Store::new(alloc)?;
    let mut st = prepared(alloc)?;
    'cases: for (i, case) in cases.iter().enumerate() {
        let (name, receiver, args, wanted) = *case;
        let symbol = names.intern(name)?;
        let row = if name == b"new".as_slice() {
            Some(NEW_RANGE)
        } else {
            row_of(&names, class, symbol)
        };
        let Some(row) = row else {
            return Ok(Some(i));
        };
        match called(&mut st, row, receiver, args)? {
            Some(outcome) => {
                if !is_wanted(&st, outcome, wanted) {
                    return Ok(Some(i));
                }
            }
            None => return Ok(Some(i)),
        }
    }
    Ok(None)
}
