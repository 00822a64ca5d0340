//! Methods of Exception and of those under it.
ghost use Rattle.std.specs.Prelude.{◌≡◌, IfOk, OnOk};
ghost use Rattle.rb_value.specs.declared.value.Value.TheVariants.{Obj};
ghost use Rattle.rb_value.specs.declared.core_class.CoreClass.TheVariants as classes;
ghost use Rattle.rb_value.specs.declared.kind.Kind.TheVariants as kinds;
ghost use Rattle.def_core.specs.Store.{core, next_number};
ghost use Rattle.heap.specs.Made.{with_new};
ghost use Rattle.rows_object.specs.Answered.{Answered};
ghost use Rattle.rows_object.specs.Exceptions as defined;
ghost use Rattle.rows_object.specs.Rows as rows;

use core_calls::heap::{Given, Heap};
use rb_integer::numeral::decimal;
use rb_value::{CoreClass, ObjId, Value};
use std::alloc::{AllocError, Global};

/// `initialize`: the exception has another message.
#[tactic(auto, unfolding(def_calls::specs::World::fail), using(crate::proofs::Held::message_of_store))]
pub(crate) fn initialize(
    heap: &mut Heap,
    receiver: Value,
    message: Value,
) -> Result<Given, AllocError>
    ensures { Answered heap.old heap.new result (defined.initialize receiver message) }
{
    let Some(id) = heap.an_exception(receiver) else {
        return heap.unexpected(CoreClass::Exception, receiver);
    };
    heap.set_message(id, message);
    Ok(Given::Gives(Value::Nil))
}

/// `to_s`: the message as a text.
#[tactic(auto, unfolding(def_calls::specs::World::fail))]
pub(crate) fn message_text(heap: &mut Heap, receiver: Value) -> Result<Given, AllocError>
    ensures { Answered heap.old heap.new result (defined.message_text receiver) }
{
    match heap.an_exception(receiver) {
        Some(id) => message(heap, id, receiver),
        None => heap.unexpected(CoreClass::Exception, receiver),
    }
}

/// `status` of SystemExit.
#[tactic(auto, unfolding(def_calls::specs::World::fail))]
pub(crate) fn status(heap: &mut Heap, receiver: Value) -> Result<Given, AllocError>
    ensures { Answered heap.old heap.new result (defined.status receiver) }
{
    let Some(id) = heap.an_exception(receiver) else {
        return heap.unexpected(CoreClass::Exception, receiver);
    };
    match heap.detail_of(id) {
        Value::Nil => Ok(Given::Gives(Value::Int(0))),
        status => Ok(Given::Gives(status)),
    }
}

/// `name` of NameError and `result` of StopIteration.
#[tactic(auto, unfolding(def_calls::specs::World::fail))]
pub(crate) fn detail(heap: &mut Heap, receiver: Value) -> Result<Given, AllocError>
    ensures { Answered heap.old heap.new result (defined.detail receiver) }
{
    match heap.an_exception(receiver) {
        Some(id) => Ok(Given::Gives(heap.detail_of(id))),
        None => heap.unexpected(CoreClass::Exception, receiver),
    }
}

/// The name of the class of a value.
fn class_name(heap: &Heap, value: Value) -> Result<Vec<u8>, AllocError>
    ensures { IfOk result (λ name. name.items ≡ rows.class_text heap.now.store value) }
{
    let class = heap.plain_class_of(value);
    Vec::from_slice(heap.alloc(), heap.class_name(class))
}

/// `to_s`: the message, of an Integer, a Symbol, true and false the text, and the name of the class where there is none.
fn message(heap: &mut Heap, id: ObjId, receiver: Value) -> Result<Given, AllocError>
    ensures { Answered heap.old heap.new result (defined.message id receiver) }
{
    match heap.message_of(id) {
        Value::Nil => {
            let name = class_name(heap, receiver)?;
            Ok(Given::Gives(heap.make_string(name)?))
        }
        Value::Obj(of) => Ok(Given::Gives(Value::Obj(of))),
        plain => {
            let text = shown(heap, plain)?;
            Ok(Given::Gives(heap.make_string(text)?))
        }
    }
}

/// A message as it stands in a text.
fn shown(heap: &Heap, message: Value) -> Result<Vec<u8>, AllocError>
    ensures { IfOk result (λ text. text.items ≡ defined.shown heap.now.store message) }
{
    let alloc = heap.alloc();
    match message {
        Value::Int(number) => Vec::from_slice(alloc, decimal(number).as_slice()),
        Value::Sym(name) => Vec::from_slice(alloc, heap.symbol_name(name)),
        Value::True => Vec::from_slice(alloc, b"true"),
        Value::False => Vec::from_slice(alloc, b"false"),
        _ => heap.text_of_value(message),
    }
}

/// A class and a message, and the name of the class alone where the message is empty.
fn inspected(alloc: Global, name: Vec<u8>, message: &[u8]) -> Result<Vec<u8>, AllocError>
    ensures { IfOk result (λ text. text.items ≡ defined.inspected name.items message.now) }
{
    if message.is_empty() {
        return Ok(name);
    }
    let mut text = Vec::from_slice(alloc, b"#<")?;
    text.extend_from_slice(&name)?;
    text.extend_from_slice(b": ")?;
    text.extend_from_slice(message)?;
    text.extend_from_slice(b">")?;
    Ok(text)
}

/// `inspect` of an exception whose `to_s` gives a message: the class and the message, and the name of the class alone
/// where the message is empty.
pub fn inspection(heap: &mut Heap, exception: Value, message: Value) -> Result<Value, AllocError>
    ensures value { IfOk result (λ v. v ≡ Obj (next_number heap.old.store)) }
    ensures made { OnOk result (heap.new ≡ with_new heap.old (core classes.String)
        (kinds.String (defined.inspection heap.old.store exception message))) }
{
    let name = class_name(heap, exception)?;
    let message = shown(heap, message)?;
    let text = inspected(heap.alloc(), name, &message)?;
    heap.make_string(text)
}
