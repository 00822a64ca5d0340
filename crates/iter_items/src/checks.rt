//! What a method over items checks of its arguments and its block.
ghost use Rattle.std.specs.Prelude.{◌≡◌, None, Ok, IfOk, OnOk};
ghost use Rattle.iter_items.specs.Checks as checks;

use crate::row::Task;
use def_core::Cause;
use rb_value::{ObjId, SymId, Value};
use rows_items::core_calls::{argument, integer, miscounted, name_in};
use rows_items::heap::Heap;
use std::alloc::AllocError;

/// What the arguments of a method over items say: the value that it begins with, its method, and the size of a group.
#[derive(Clone, Copy, Debug)]
pub(crate) struct Arguments {
    pub(crate) value: Option<Value>,
    pub(crate) name: Option<SymId>,
    pub(crate) size: u64,
}

/// At most so many arguments, and at least, may go to a method.
fn count_of(task: Task) -> (u64, u64)
    ensures { result ≡ checks.counts task }
{
    match task {
        Task::EachWithObject | Task::EachSlice | Task::EachCons => (1, 1),
        Task::Count | Task::Sum => (0, 1),
        Task::Inject => (0, 2),
        _ => (0, 0),
    }
}

/// Whether a method with so many arguments can't do without a block.
fn wants_block(task: Task, given: usize) -> bool
    ensures { result ≡ checks.wants_block task given }
{
    match task {
        Task::All | Task::Any | Task::Never | Task::Count | Task::Sum => false,
        Task::Inject => given == 0,
        _ => true,
    }
}

/// The size of a group, which is above 0.
fn size_of(heap: &Heap, value: Value) -> Result<u64, Cause>
    ensures { result ≡ checks.size_of heap.now.store value }
{
    let number = integer(heap, value)?;
    match u64::try_from(number) {
        Ok(0) => Err(Cause::NegativeCount),
        Ok(size) => Ok(size),
        Err(_) => Err(Cause::NegativeCount),
    }
}

/// The arguments of a method that has a size.
fn given_size(heap: &Heap, value: Value) -> Result<Arguments, Cause>
    ensures { result ≡ checks.with_size (checks.size_of heap.now.store value) }
{
    Ok(Arguments {
        value: None,
        name: None,
        size: size_of(heap, value)?,
    })
}

/// The arguments of a method that has a value or none.
fn given_value(value: Option<Value>) -> Arguments
    ensures { result ≡ checks.arguments value None 0 }
{
    Arguments {
        value,
        name: None,
        size: 0,
    }
}

/// The first value of `inject`.
fn inject_value(args: &[Value], block: Option<ObjId>) -> Option<Value>
    ensures { result ≡ checks.inject_value args.now block }
{
    match args {
        [value, _] => Some(*value),
        [only] => if block.is_some() { Some(*only) } else { None },
        _ => None,
    }
}

/// The name of the method of `inject`, where there are two arguments or no block.
fn inject_name(args: &[Value], block: Option<ObjId>) -> Option<Value>
    ensures { result ≡ checks.inject_name args.now block }
{
    match args {
        [_, name] => Some(*name),
        [only] => if block.is_none() { Some(*only) } else { None },
        _ => None,
    }
}

/// The arguments of `inject`: the first value, and a name.
fn given_inject(
    heap: &mut Heap,
    args: &[Value],
    block: Option<ObjId>,
) -> Result<Result<Arguments, Cause>, AllocError>
    ensures arguments { IfOk result (λ given. given ≡ (checks.inject heap.old args.now block).arguments) }
    ensures store { OnOk result (heap.new.store ≡ (checks.inject heap.old args.now block).held.store) }
{
    let value = inject_value(args, block);
    let Some(name) = inject_name(args, block) else {
        return Ok(Ok(given_value(value)));
    };
    match name_in(heap, name)? {
        Ok(name) => Ok(Ok(Arguments {
            value,
            name: Some(name),
            size: 0,
        })),
        Err(cause) => Ok(Err(cause)),
    }
}

/// The arguments of `sum` or `count`, with the method that they call.
fn given_named(
    heap: &mut Heap,
    name: &[u8],
    value: Option<Value>,
) -> Result<Result<Arguments, Cause>, AllocError>
    ensures arguments { IfOk result (λ given. given ≡ (checks.named heap.old name.now value).arguments) }
    ensures heap { OnOk result (heap.new ≡ (checks.named heap.old name.now value).held) }
{
    let name = Some(heap.intern(name)?);
    let size = 0;
    Ok(Ok(Arguments { value, name, size }))
}

/// What the arguments say, where their number is right and a block is there.
fn read(
    heap: &mut Heap,
    task: Task,
    args: &[Value],
    block: Option<ObjId>,
) -> Result<Result<Arguments, Cause>, AllocError>
    ensures arguments { IfOk result (λ given. given ≡ (checks.read task heap.old args.now block).arguments) }
    ensures store { OnOk result (heap.new.store ≡ (checks.read task heap.old args.now block).held.store) }
{
    match task {
        Task::EachSlice | Task::EachCons => Ok(given_size(heap, argument(args, 0))),
        Task::EachWithObject => Ok(Ok(given_value(Some(argument(args, 0))))),
        Task::Inject => given_inject(heap, args, block),
        Task::Sum => {
            let value = args.first().copied().unwrap_or(Value::Int(0));
            given_named(heap, b"+", Some(value))
        }
        Task::Count => given_named(heap, b"==", args.first().copied()),
        _ => Ok(Ok(given_value(None))),
    }
}

/// What the arguments say, or why a method can't take them.
pub(crate) fn given(
    heap: &mut Heap,
    task: Task,
    args: &[Value],
    block: Option<ObjId>,
) -> Result<Result<Arguments, Cause>, AllocError>
    ensures arguments { IfOk result (λ given. given ≡ (checks.given task heap.old args.now block).arguments) }
    ensures store { OnOk result (heap.new.store ≡ (checks.given task heap.old args.now block).held.store) }
{
    let (least, most) = count_of(task);
    if let Some(cause) = miscounted(args.len(), least, Some(most)) {
        return Ok(Err(cause));
    }
    if wants_block(task, args.len()) && block.is_none() {
        return Ok(Err(Cause::NoBlockGiven));
    }
    read(heap, task, args, block)
}
