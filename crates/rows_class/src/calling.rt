//! A call of a core method.
ghost use Rattle.std.specs.Prelude.{◌≡◌};
ghost use Rattle.rows_object.specs.Follows.{Follows};
ghost use Rattle.rows_class.specs.Rows as rows;

use crate::accessors::Attribute;
use crate::methods::Taking;
use crate::row::ClassRow;
use crate::{accessors, constants, making, methods, spaces, visibility};
use core_calls::heap::{Given, Heap};
use core_calls::{Call, argument, miscounted, name_in};
use def_core::Cause;
use rb_value::{CoreClass, ObjId, SymId, Value, Visibility};
use std::alloc::AllocError;

/// The class or module on which a call acts: its receiver, and Object where that is the main object.
fn acted_on(heap: &Heap, receiver: Value) -> Option<ObjId>
    ensures { result ≡ rows.acted_on heap.now.store receiver }
{
    if receiver == heap.main_object() {
        return Some(heap.class_object(CoreClass::Object));
    }
    heap.space_in(receiver)
}

/// Calls a core method, and gives its value or raises.
pub fn call(heap: &mut Heap, row: ClassRow, call: Call<'_>) -> Result<Given, AllocError>
    ensures { Follows heap.old heap.new result (rows.called row call.entry.receiver call.entry.args.now call.entry.block) }
{
    let (least, most) = row.counts();
    if let Some(cause) = miscounted(call.args.len(), least, most) {
        return heap.fail(cause);
    }
    if row.wants_block() && call.block.is_none() {
        return heap.fail(Cause::NoBlockGiven);
    }
    acting(heap, row, call)
}

/// Calls a core method whose arguments are counted on what it acts.
fn acting(heap: &mut Heap, row: ClassRow, call: Call<'_>) -> Result<Given, AllocError>
    ensures { Follows heap.old heap.new result
        (rows.acting row call.entry.receiver call.entry.args.now call.entry.block) }
{
    match acted_on(heap, call.receiver) {
        Some(space) => counted(heap, row, space, call),
        None => heap.unexpected(CoreClass::Module, call.receiver),
    }
}

/// Calls a core method of a class or module whose arguments are counted.
fn counted(
    heap: &mut Heap,
    row: ClassRow,
    space: ObjId,
    call: Call<'_>,
) -> Result<Given, AllocError>
    ensures { Follows heap.old heap.new result (rows.counted row space call.entry.args.now call.entry.block) }
{
    let args = call.args;
    let first = argument(args, 0);
    match row {
        ClassRow::Name => spaces::name(heap, space),
        ClassRow::ToText => spaces::text(heap, space),
        ClassRow::Matches => Ok(Given::Gives(Value::from_truth(heap.is_a(first, space)))),
        ClassRow::IsBelow => spaces::is_below(heap, space, first),
        ClassRow::IsAtMost => spaces::is_at_most(heap, space, first),
        ClassRow::Ancestors => spaces::ancestors(heap, space),
        ClassRow::Include => spaces::include(heap, space, args),
        ClassRow::Reader => accessors::call(heap, Attribute::Reader, space, args),
        ClassRow::Writer => accessors::call(heap, Attribute::Writer, space, args),
        ClassRow::Accessor => accessors::call(heap, Attribute::Accessor, space, args),
        ClassRow::UndefineMethod => methods::take_away(heap, Taking::Undefined, space, args),
        ClassRow::RemoveMethod => methods::take_away(heap, Taking::Removed, space, args),
        ClassRow::Public => visibility::call(heap, Visibility::Public, space, args),
        ClassRow::Private => visibility::call(heap, Visibility::Private, space, args),
        ClassRow::Protected => visibility::call(heap, Visibility::Protected, space, args),
        ClassRow::Allocate => making::allocate(heap, space),
        ClassRow::Superclass => Ok(spaces::superclass(heap, space)),
        ClassRow::NewClass => making::new_class(heap, args),
        ClassRow::NewModule => making::new_module(heap),
        ClassRow::HasMethod
        | ClassRow::DefineMethod
        | ClassRow::AliasMethod
        | ClassRow::Constant
        | ClassRow::SetConstant
        | ClassRow::HasConstant => naming(heap, row, space, first, argument(args, 1), call.block),
    }
}

/// Calls a core method of a class or module whose first argument has to be a name.
fn naming(
    heap: &mut Heap,
    row: ClassRow,
    space: ObjId,
    first: Value,
    second: Value,
    block: Option<ObjId>,
) -> Result<Given, AllocError>
    ensures { Follows heap.old heap.new result (rows.naming row space first second block) }
{
    match name_in(heap, first)? {
        Ok(name) => named(heap, row, space, name, second, block),
        Err(cause) => heap.fail(cause),
    }
}

/// Calls a core method of a class or module whose first argument is a name.
fn named(
    heap: &mut Heap,
    row: ClassRow,
    space: ObjId,
    name: SymId,
    second: Value,
    block: Option<ObjId>,
) -> Result<Given, AllocError>
    ensures { Follows heap.old heap.new result (rows.by_name row space name second block) }
{
    match row {
        ClassRow::HasMethod => methods::has(heap, space, name),
        ClassRow::DefineMethod => methods::define(heap, space, name, block),
        ClassRow::AliasMethod => methods::alias(heap, space, name, second),
        ClassRow::Constant => constants::get(heap, space, name),
        ClassRow::SetConstant => constants::set(heap, space, name, second),
        ClassRow::HasConstant => Ok(constants::has(heap, space, name)),
        _ => Ok(Given::Gives(Value::Nil)),
    }
}
