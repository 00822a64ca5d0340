//! Methods on the methods of a class or module.
ghost use Rattle.std.specs.Prelude.{◌≡◌, IfOk};
ghost use Rattle.run_values.specs.declared.given.Given.TheVariants.{Gives};
ghost use Rattle.rows_object.specs.Follows.{Follows};
ghost use Rattle.rows_class.specs.Spaces as defined;
ghost use Rattle.rows_class.specs.Methods as changed;

use crate::naming::names_in;
use core_calls::heap::{Given, Heap};
use core_calls::name_in;
use def_core::Cause;
use rb_value::{Method, ObjId, SymId, Value, Visibility};
use std::alloc::AllocError;

/// How a method is taken away: so that what stands above is found, or nothing.
#[derive(Clone, Copy, Debug, PartialEq, Eq)]
pub(crate) enum Taking {
    Removed,
    Undefined,
}

/// `method_defined?`: whether a public or protected method of that name is found.
pub(crate) fn has(heap: &mut Heap, space: ObjId, name: SymId) -> Result<Given, AllocError>
    ensures given { IfOk result (λ given. given ≡ Gives (defined.has_method heap.old.store space name)) }
    ensures same { heap.new ≡ heap.old }
{
    let open = match heap.find(space, name)? {
        Some(found) => found.visibility != Visibility::Private,
        None => false,
    };
    Ok(Given::Gives(Value::from_truth(open)))
}

/// `define_method`: a block becomes a method with the default visibility, and the name is given.
pub(crate) fn define(
    heap: &mut Heap,
    space: ObjId,
    name: SymId,
    block: Option<ObjId>,
) -> Result<Given, AllocError>
    ensures { Follows heap.old heap.new result (changed.define space name block) }
{
    match block {
        Some(block) => {
            let visibility = heap.default_visibility(space);
            heap.set_method(space, name, Method::Block(block), visibility)?;
            Ok(Given::Gives(Value::Sym(name)))
        }
        None => heap.fail(Cause::NoBlockGiven),
    }
}

/// `alias_method`: a method gets one more name, which is given.
pub(crate) fn alias(
    heap: &mut Heap,
    space: ObjId,
    alias: SymId,
    name: Value,
) -> Result<Given, AllocError>
    ensures { Follows heap.old heap.new result (changed.alias_method space alias name) }
{
    match name_in(heap, name)? {
        Ok(name) => match heap.alias_method(space, alias, name)? {
            Given::Gives(_) => Ok(Given::Gives(Value::Sym(alias))),
            Given::Raises(exception) => Ok(Given::Raises(exception)),
        },
        Err(cause) => heap.fail(cause),
    }
}

/// Whether a class or module has a method of that name itself.
fn is_own(heap: &Heap, space: ObjId, name: SymId) -> bool
    ensures { result ≡ defined.has_own heap.now.store space name }
{
    match heap.own_entry(space, name) {
        Some(entry) => entry.method != Method::Undefined,
        None => false,
    }
}

/// Takes a method that a class or module has itself away, so that what stands above is found.
fn remove(heap: &mut Heap, space: ObjId, name: SymId) -> Result<Given, AllocError>
    ensures { Follows heap.old heap.new result (changed.remove space name) }
{
    if !is_own(heap, space, name) {
        return heap.fail(Cause::UndefinedInClass { name, class: space });
    }
    heap.remove_method(space, name)?;
    Ok(Given::Gives(Value::Nil))
}

/// Takes a method away.
fn take_one(heap: &mut Heap, taking: Taking, space: ObjId, name: SymId) -> Result<Given, AllocError>
    ensures { Follows heap.old heap.new result (changed.take_one taking space name) }
{
    match taking {
        Taking::Removed => remove(heap, space, name),
        Taking::Undefined => heap.undefine_method(space, name),
    }
}

/// Takes methods away, and gives the class or module.
#[tactic(auto, unfolding(rows_object::specs::Follows::in_turn))]
fn take_all(
    heap: &mut Heap,
    taking: Taking,
    space: ObjId,
    names: &[SymId],
) -> Result<Given, AllocError>
    ensures { Follows heap.old heap.new result (changed.take_all taking space names.now) }
{
    'names: for name in names {
        if let Given::Raises(exception) = take_one(heap, taking, space, *name)? {
            return Ok(Given::Raises(exception));
        }
    }
    Ok(Given::Gives(Value::Obj(space)))
}

/// `undef_method` of names, which then aren't found, and `remove_method`, by which a class or module loses what it has
/// itself. The class or module is given.
pub(crate) fn take_away(
    heap: &mut Heap,
    taking: Taking,
    space: ObjId,
    args: &[Value],
) -> Result<Given, AllocError>
    ensures { Follows heap.old heap.new result (changed.take_away taking space args.now) }
{
    match names_in(heap, args)? {
        Ok(names) => take_all(heap, taking, space, &names),
        Err(cause) => heap.fail(cause),
    }
}
