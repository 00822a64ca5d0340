//! A call of a core method.
ghost use Rattle.rows_object.specs.Follows.{Follows};
ghost use Rattle.rows_object.specs.Table as table;

use crate::row::ObjectRow;
use crate::{enumerators, exceptions, fibers, identity, kernel, objects, procs, texts, variables};
use core_calls::heap::{Given, Heap};
use core_calls::{Call, argument, miscounted};
use def_core::Cause;
use rb_value::{ObjId, Value};
use std::alloc::AllocError;

/// Calls a core method, and gives its value or raises.
pub fn call(heap: &mut Heap, row: ObjectRow, call: Call<'_>) -> Result<Given, AllocError>
    ensures { Follows heap.old heap.new result (table.called row call.entry.receiver call.entry.args.now call.entry.block) }
{
    let (least, most) = row.counts();
    match miscounted(call.args.len(), least, most) {
        Some(cause) => heap.fail(cause),
        None => if row.wants_block() && call.block.is_none() {
            heap.fail(Cause::NoBlockGiven)
        } else {
            counted(heap, row, call)
        },
    }
}

/// Calls a core method whose arguments are counted.
fn counted(heap: &mut Heap, row: ObjectRow, call: Call<'_>) -> Result<Given, AllocError>
    ensures { Follows heap.old heap.new result (table.counted row call.entry.receiver call.entry.args.now call.entry.block) }
{
    let receiver = call.receiver;
    let first = argument(call.args, 0);
    match row {
        ObjectRow::Initialize => Ok(Given::Gives(Value::Nil)),
        ObjectRow::MethodMissing => kernel::method_missing(heap, receiver, first),
        ObjectRow::ToText => objects::text(heap, receiver),
        ObjectRow::Same => Ok(identity::same(receiver, first)),
        ObjectRow::Negation => Ok(identity::negation(receiver)),
        ObjectRow::Order => Ok(identity::order(receiver, first)),
        ObjectRow::ClassOf => Ok(objects::class_of(heap, receiver)),
        ObjectRow::SingletonClass => heap.singleton_class(receiver),
        ObjectRow::Extend => objects::extend(heap, receiver, first),
        ObjectRow::IsA => objects::is_a(heap, receiver, first),
        ObjectRow::IsInstance => objects::is_instance(heap, receiver, first),
        ObjectRow::IsNil => Ok(identity::is_nil(receiver)),
        ObjectRow::RespondsTo => objects::responds_to(heap, receiver, first),
        ObjectRow::Copy => Ok(Given::Gives(heap.copy(receiver)?)),
        ObjectRow::Itself => Ok(Given::Gives(receiver)),
        ObjectRow::Variable => variables::get(heap, receiver, first),
        ObjectRow::SetVariable => variables::set(heap, receiver, first, argument(call.args, 1)),
        ObjectRow::Variables => variables::names(heap, receiver),
        ObjectRow::ToEnumerator => enumerators::of_call(heap, receiver, call.args),
        ObjectRow::Exit => kernel::exit(heap, call.args),
        ObjectRow::ToInteger => kernel::to_integer(heap, first),
        _ => of_sort(heap, row, call),
    }
}

/// Calls a core method of an exception, a fiber, a Proc, a String or a Symbol, or one that takes a block.
fn of_sort(heap: &mut Heap, row: ObjectRow, call: Call<'_>) -> Result<Given, AllocError>
    ensures { Follows heap.old heap.new result (table.of_sort row call.entry.receiver call.entry.args.now call.entry.block) }
{
    let receiver = call.receiver;
    match row {
        ObjectRow::InitializeString => texts::initialize(heap, receiver, call.args),
        ObjectRow::InitializeException => exceptions::initialize(
            heap,
            receiver,
            argument(call.args, 0),
        ),
        ObjectRow::MessageText => exceptions::message_text(heap, receiver),
        ObjectRow::ExitStatus => exceptions::status(heap, receiver),
        ObjectRow::ErrorName | ObjectRow::StopResult => exceptions::detail(heap, receiver),
        ObjectRow::IsAlive => fibers::is_alive(heap, receiver),
        ObjectRow::Arity => procs::arity(heap, receiver),
        ObjectRow::IsLambda => procs::is_lambda(heap, receiver),
        ObjectRow::SymbolAsProc => procs::symbol_as_proc(heap, receiver),
        _ => match call.block {
            Some(block) => of_block(heap, row, receiver, block),
            None => Ok(Given::Gives(Value::Nil)),
        },
    }
}

/// A method that gives what a block becomes.
fn of_block(
    heap: &mut Heap,
    row: ObjectRow,
    receiver: Value,
    block: ObjId,
) -> Result<Given, AllocError>
    ensures { Follows heap.old heap.new result (table.of_block row receiver block) }
{
    match row {
        ObjectRow::BlockAsLambda => procs::as_lambda(heap, block),
        ObjectRow::NewFiber => fibers::of_block(heap, receiver, block),
        ObjectRow::NewEnumerator => enumerators::of_block(heap, receiver, block),
        _ => Ok(Given::Gives(Value::Obj(block))),
    }
}
