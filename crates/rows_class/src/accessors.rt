//! Methods that read and set instance variables.
ghost use Rattle.std.specs.Prelude.{◌≡◌, ◌++◌, IfOk, OnOk};
ghost use Rattle.rows_object.specs.Follows.{Follows};
ghost use Rattle.rows_class.specs.Attributes as defined;

use crate::naming::names_in;
use core_calls::heap::{Given, Heap};
use rb_value::{Method, ObjId, SymId, Value};
use rows_object::giving::give_array;
use std::alloc::AllocError;

/// Which methods of an attribute are defined.
#[derive(Clone, Copy, Debug, PartialEq, Eq)]
pub(crate) enum Attribute {
    Reader,
    Writer,
    Accessor,
}

/// The symbol of a name with what stands before and behind it.
fn around(heap: &mut Heap, before: &[u8], name: SymId, behind: &[u8]) -> Result<SymId, AllocError>
    ensures symbol { IfOk result (λ s. s ≡ (defined.around before.now name behind.now heap.old.store).symbol) }
    ensures store { OnOk result (heap.new.store ≡ (defined.around before.now name behind.now heap.old.store).store) }
{
    let mut text = Vec::from_slice(heap.alloc(), before)?;
    text.extend_from_slice(heap.symbol_name(name))?;
    text.extend_from_slice(behind)?;
    heap.intern(&text)
}

/// Defines the method that reads an attribute, and gives its name.
fn define_reader(heap: &mut Heap, space: ObjId, name: SymId) -> Result<SymId, AllocError>
    ensures symbol { IfOk result (λ s. s ≡ (defined.reader space name heap.old.store).symbol) }
    ensures store { OnOk result (heap.new.store ≡ (defined.reader space name heap.old.store).store) }
{
    let variable = around(heap, b"@", name, b"")?;
    let visibility = heap.default_visibility(space);
    heap.set_method(space, name, Method::Reader(variable), visibility)?;
    Ok(name)
}

/// Defines the method that sets an attribute, and gives its name.
fn define_writer(heap: &mut Heap, space: ObjId, name: SymId) -> Result<SymId, AllocError>
    ensures symbol { IfOk result (λ s. s ≡ (defined.writer space name heap.old.store).symbol) }
    ensures store { OnOk result (heap.new.store ≡ (defined.writer space name heap.old.store).store) }
{
    let variable = around(heap, b"@", name, b"")?;
    let visibility = heap.default_visibility(space);
    let writer = around(heap, b"", name, b"=")?;
    heap.set_method(space, writer, Method::Writer(variable), visibility)?;
    Ok(writer)
}

/// Defines the methods of an attribute, and puts their names after others.
fn define(
    heap: &mut Heap,
    which: Attribute,
    space: ObjId,
    name: SymId,
    list: &mut Vec<Value>,
) -> Result<(), AllocError>
    ensures names { OnOk result (list.new.items
        ≡ list.old.items ++ (defined.methods_of which space name heap.old.store).names) }
    ensures store { OnOk result (heap.new.store ≡ (defined.methods_of which space name heap.old.store).store) }
{
    match which {
        Attribute::Reader => list.push(Value::Sym(define_reader(heap, space, name)?))?,
        Attribute::Writer => list.push(Value::Sym(define_writer(heap, space, name)?))?,
        Attribute::Accessor => {
            list.push(Value::Sym(define_reader(heap, space, name)?))?;
            list.push(Value::Sym(define_writer(heap, space, name)?))?;
        }
    }
    Ok(())
}

/// Defines the methods of attributes, whose names are listed.
#[tactic(auto, unfolding(crate::specs::Attributes::all_methods), using(crate::proofs::Listing::listed_more, crate::proofs::Listing::listed_all))]
fn define_each(
    heap: &mut Heap,
    which: Attribute,
    space: ObjId,
    names: &[SymId],
) -> Result<Vec<Value>, AllocError>
    ensures { IfOk result (λ list.
        defined.all_methods which space names.now heap.old.store ≡ defined.listing list.items heap.new.store) }
{
    let mut defined = Vec::new(heap.alloc());
    'names: for name in names {
        define(heap, which, space, *name, &mut defined)?;
    }
    Ok(defined)
}

/// Defines the methods of attributes, and gives their names.
fn define_all(
    heap: &mut Heap,
    which: Attribute,
    space: ObjId,
    names: &[SymId],
) -> Result<Given, AllocError>
    ensures { Follows heap.old heap.new result
        (λ w. defined.array_of_names w (defined.all_methods which space names.now w.store)) }
{
    let list = define_each(heap, which, space, names)?;
    give_array(heap, list)
}

/// `attr_reader`, `attr_writer` and `attr_accessor`.
pub(crate) fn call(
    heap: &mut Heap,
    which: Attribute,
    space: ObjId,
    args: &[Value],
) -> Result<Given, AllocError>
    ensures { Follows heap.old heap.new result (defined.attributes which space args.now) }
{
    match names_in(heap, args)? {
        Ok(names) => define_all(heap, which, space, &names),
        Err(cause) => heap.fail(cause),
    }
}
