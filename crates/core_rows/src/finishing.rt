//! From what a core method gives to the outcome of its call.
ghost use Rattle.std.specs.Prelude.{◌≡◌};
ghost use Rattle.def_core.specs.Changes.{intern};
ghost use Rattle.def_core.specs.Sound.{Sound, census, IsValue};
ghost use Rattle.rb_value.specs.declared.kind.Sort.TheVariants as sorts;
ghost use Rattle.def_rows.specs.Operands.{place_of as place};
ghost use Rattle.def_rows.specs.Answers as answers;
ghost use Rattle.core_rows.specs.Belonging as belonging;
ghost use Rattle.core_rows.specs.Completes.{Does, Completes};

use crate::making::{make, make_items, make_numbers, make_text, make_texts};
use crate::operands::place_of;
use def_core::Cause;
use def_rows::Answer;
use rb_base::{Bytes, List};
use rb_raise::raise;
use rb_store::Store;
use rb_value::{Items, Kind, Object, Outcome, SmallBytes, Sort, Value};
use row_answer::{Fault, Plain};
use std::alloc::AllocError;

/// The cause of a fault.
fn cause_of(fault: Fault) -> Cause
    ensures { result ≡ answers.cause_of fault }
{
    match fault {
        Fault::NegativeExponent => Cause::NegativeExponent,
        Fault::NegativeCount => Cause::NegativeCount,
        Fault::BadBase => Cause::BadBase,
        Fault::BadRange => Cause::BadRange,
        Fault::InvalidInteger => Cause::InvalidInteger,
        Fault::ComparisonFailed => Cause::ComparisonFailed,
        Fault::TooFewItems => Cause::TooFewItems,
        Fault::ArrayTooBig => Cause::ArrayTooBig,
        Fault::StringTooLong => Cause::StringTooLong,
        Fault::IntegerOverflow => Cause::IntegerOverflow,
        Fault::DividedByZero => Cause::DividedByZero,
        Fault::IndexOutOfRange(index) => Cause::IndexOutOfRange(index),
        Fault::CharOutOfRange(number) => Cause::CharOutOfRange(number),
    }
}

/// Gives the receiver with more bytes after its own, where it is a String.
fn append(st: &mut Store, recv: Value, more: &[u8]) -> Result<Outcome, AllocError>
    ensures { Does st.old st.new result (answers.appends st.old.store recv more.now) }
{
    if let Some(id) = place_of(st, Sort::String, recv) {
        st.append_bytes(id, more)?;
    }
    Ok(Outcome::Value(recv))
}

/// Gives the receiver with other bytes, where it is a String.
fn rewrite(st: &mut Store, recv: Value, bytes: Bytes) -> Outcome
    ensures outcome { result ≡ answers.given recv }
    ensures store { st.new ≡ record st.old { store = answers.rewritten st.old.store bytes (place st.old.store.objects sorts.String recv) } }
{
    if let Some(id) = place_of(st, Sort::String, recv) {
        st.replace_text(id, SmallBytes::from_vec(bytes.into_vec()));
    }
    Outcome::Value(recv)
}

/// Gives a value, where the receiver, if it is a String, has other bytes.
fn put(st: &mut Store, recv: Value, bytes: Bytes, given: Value) -> Outcome
    ensures outcome { result ≡ answers.given given }
    ensures store { st.new ≡ record st.old { store = answers.rewritten st.old.store bytes (place st.old.store.objects sorts.String recv) } }
{
    let _ = rewrite(st, recv, bytes);
    Outcome::Value(given)
}

/// Gives the symbol of a name.
fn symbol(st: &mut Store, name: &[u8]) -> Result<Outcome, AllocError>
    ensures { Does st.old st.new result (answers.interned (intern st.old.store name.now)) }
{
    let symbol = st.intern(name)?;
    Ok(Outcome::Value(Value::Sym(symbol)))
}

/// Gives what belongs to every store.
fn finish_plain(st: &mut Store, recv: Value, answer: Plain) -> Result<Outcome, AllocError>
    requires { Sound st.old.store }
    ensures { Does st.old st.new result (answers.finish_plain st.old.store recv answer) }
{
    match answer {
        Plain::Nil => Ok(Outcome::Value(Value::Nil)),
        Plain::Truth(truth) => Ok(Outcome::Value(Value::from_truth(truth))),
        Plain::Int(number) => Ok(Outcome::Value(Value::Int(number))),
        Plain::Receiver => Ok(Outcome::Value(recv)),
        Plain::Text(bytes) => make_text(st, bytes),
        Plain::Symbol(name) => symbol(st, name.as_slice()),
        Plain::Texts(texts) => make_texts(st, texts),
        Plain::Numbers(numbers) => make_numbers(st, numbers.as_slice()),
        Plain::Append(more) => append(st, recv, more.as_slice()),
        Plain::Replace(bytes) => Ok(rewrite(st, recv, bytes)),
        Plain::Fail(fault) => raise(st, cause_of(fault)),
    }
}

/// Gives the receiver with more elements after its own, where it is an Array.
fn push(st: &mut Store, recv: Value, more: &[Value]) -> Result<Outcome, AllocError>
    ensures { Does st.old st.new result (answers.pushes st.old.store recv more.now) }
{
    if let Some(id) = place_of(st, Sort::Array, recv) {
        st.append(id, more)?;
    }
    Ok(Outcome::Value(recv))
}

/// Gives the receiver with other elements, where it is an Array.
fn replace(st: &mut Store, recv: Value, items: List<Value>) -> Outcome
    ensures outcome { result ≡ answers.given recv }
    ensures store { st.new ≡ record st.old { store = answers.replaced st.old.store items (place st.old.store.objects sorts.Array recv) } }
{
    if let Some(id) = place_of(st, Sort::Array, recv) {
        st.replace_elements(id, Items::from_vec(items.into_vec()));
    }
    Outcome::Value(recv)
}

/// Gives the answer, or raises.
fn give(st: &mut Store, recv: Value, answer: Answer) -> Result<Outcome, AllocError>
    requires sound { Sound st.old.store }
    requires answer { belonging.SoundAnswer (census st.old.store) answer }
    ensures { Does st.old st.new result (answers.finish st.old.store recv answer) }
{
    match answer {
        Answer::Plain(plain) => finish_plain(st, recv, plain),
        Answer::Value(value) => Ok(Outcome::Value(value)),
        Answer::Items(items) => make_items(st, items.into_vec()),
        Answer::Range { class, contents } => make(st, Object::new(class, Kind::Range(contents))),
        Answer::String { class, bytes } => {
            let kind = Kind::String(SmallBytes::from_vec(bytes.into_vec()));
            make(st, Object::new(class, kind))
        }
        Answer::Put { bytes, given } => Ok(put(st, recv, bytes, given)),
        Answer::Push(more) => push(st, recv, more.as_slice()),
        Answer::Replace(items) => Ok(replace(st, recv, items)),
        Answer::Fail(cause) => raise(st, cause),
    }
}

/// Gives the answer of a call to a receiver, or raises. Where memory runs out the store is as before.
pub fn finish(st: &mut Store, recv: Value, answer: Answer) -> Result<Outcome, AllocError>
    requires sound { Sound st.old.store }
    requires recv { IsValue (census st.old.store) recv }
    requires answer { belonging.SoundAnswer (census st.old.store) answer }
    ensures { Completes st.old st.new result (answers.finish st.old.store recv answer) }
{
    give(st, recv, answer)
}
