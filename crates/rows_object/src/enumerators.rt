//! Methods that make Enumerators.
ghost use Rattle.rows_object.specs.Follows.{Follows};
ghost use Rattle.rows_object.specs.Enumerators as defined;

use core_calls::heap::{Given, Heap};
use core_calls::name_in;
use rb_base::List;
use rb_value::{CoreClass, EnumeratorSource, ObjId, SymId, Value};
use std::alloc::AllocError;

/// Gives a new Enumerator of a class with a source.
#[tactic(auto, unfolding(crate::specs::Enumerators::enumerator), using(crate::proofs::Held::enumerator_of_store, crate::proofs::Held::enumerator_number_of_store))]
fn give_enumerator(
    heap: &mut Heap,
    class: ObjId,
    source: EnumeratorSource,
) -> Result<Given, AllocError>
    ensures { Follows heap.old heap.new result (defined.enumerator class source) }
{
    Ok(Given::Gives(Value::Obj(heap.make_enumerator(class, source)?)))
}

/// Gives a new Enumerator of a call of a method with arguments.
fn make(heap: &mut Heap, receiver: Value, name: SymId, args: &[Value]) -> Result<Given, AllocError>
    ensures { Follows heap.old heap.new result (defined.of_method receiver name args.now) }
{
    let args = Vec::from_slice(heap.alloc(), args)?;
    let source = EnumeratorSource::Call {
        receiver,
        name,
        args: List::from_vec(args),
    };
    let class = heap.class_object(CoreClass::Enumerator);
    give_enumerator(heap, class, source)
}

/// Gives a new Enumerator of a call of the method that an argument names.
fn of_named(
    heap: &mut Heap,
    receiver: Value,
    name: Value,
    args: &[Value],
) -> Result<Given, AllocError>
    ensures { Follows heap.old heap.new result (defined.of_named receiver name args.now) }
{
    match name_in(heap, name)? {
        Ok(name) => make(heap, receiver, name, args),
        Err(cause) => heap.fail(cause),
    }
}

/// Gives a new Enumerator of a call of `each`.
fn of_default(heap: &mut Heap, receiver: Value) -> Result<Given, AllocError>
    ensures { Follows heap.old heap.new result (defined.of_default receiver) }
{
    let name = heap.intern(b"each")?;
    make(heap, receiver, name, &[])
}

/// `to_enum` and `enum_for`: of the method of that name, and of `each` without one.
pub(crate) fn of_call(heap: &mut Heap, receiver: Value, args: &[Value]) -> Result<Given, AllocError>
    ensures { Follows heap.old heap.new result (defined.of_call receiver args.now) }
{
    match args.split_first() {
        Some((name, args)) => of_named(heap, receiver, *name, args),
        None => of_default(heap, receiver),
    }
}

/// `new` of Enumerator: one whose source is a block.
pub(crate) fn of_block(heap: &mut Heap, receiver: Value, block: ObjId) -> Result<Given, AllocError>
    ensures { Follows heap.old heap.new result (defined.of_block receiver block) }
{
    match heap.space_in(receiver) {
        Some(class) => give_enumerator(heap, class, EnumeratorSource::Block(block)),
        None => heap.unexpected(CoreClass::Class, receiver),
    }
}
