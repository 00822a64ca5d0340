//! Arguments become the values of parameters.
ghost use Rattle.std.specs.Prelude.{◌≡◌, ◌≤◌, ◌+◌, ◌-◌, ◌++◌, true, length, replicate, IfOk, OnOk, OnErr, IsOk};
ghost use Rattle.rb_value.specs.declared.value.Value.TheVariants.{Nil};
ghost use Rattle.rb_value.specs.declared.core_class.CoreClass.TheVariants as class;
ghost use Rattle.rb_value.specs.declared.kind.Kind.TheVariants as kind;
ghost use Rattle.def_core.specs.Store.{core, fresh, next_number, with_object};
ghost use Rattle.def_core.specs.Bind as defined;
ghost use Rattle.def_core.specs.Sound.{Sound, census, IsValue, AllAre};
ghost use Rattle.rb_store.specs.Keeps.{Keeps};
ghost use Rattle.method_lookup.specs.Given.{all_of, rest_of, PadsToLeast, IsWrong, HasValues, only, as_given};

use crate::given::{Given, least, most};
use def_core::{BindKind, Bound};
use rb_base::List;
use rb_store::Store;
use rb_value::{Args, CoreClass, Items, Kind, ObjId, Object, Shape, Value};
use std::alloc::{AllocError, Global};

/// Whether so many arguments fit.
fn fits(shape: Shape, given: usize) -> bool
    ensures { result ≡ defined.fits shape given }
{
    given >= least(shape) && (shape.rest || given <= most(shape))
}

/// How many optional parameters so many arguments fill.
fn filled(shape: Shape, given: usize) -> u8
    requires { defined.least shape ≤ given }
    ensures { result ≡ defined.filled shape given }
{
    let middle = given - least(shape);
    if middle < usize::from(shape.optional) {
        middle as u8
    } else {
        shape.optional
    }
}

/// Where the arguments end that are the values of required and optional parameters.
#[tactic(auto, using(crate::proofs::Binds::fits_least))]
fn front_end(shape: Shape, given: usize) -> usize
    requires { defined.fits shape given ≡ true }
    ensures end { result ≡ shape.required + defined.filled shape given }
    ensures within { result ≤ given - shape.post }
    ensures fewer { given ≡ defined.least shape → result ≡ given - shape.post }
    ensures post { shape.post ≤ given }
{
    usize::from(shape.required) + usize::from(filled(shape, given))
}

/// The arguments that the parameter for the rest takes.
fn remaining(alloc: Global, shape: Shape, given: &Given) -> Result<List<Value>, AllocError>
    requires fits { defined.fits shape (length (all_of given.now)) ≡ true }
    requires missing { PadsToLeast given.now shape }
    ensures { IfOk result (λ values. values ≡ defined.remaining shape (all_of given.now)) }
{
    let count = given.len();
    let end = front_end(shape, count);
    let values = given.part(end, count - usize::from(shape.post));
    Ok(List::from_vec(Vec::from_slice(alloc, values)?))
}

/// So many times nil at the end.
fn push_nils(list: &mut Args, count: usize) -> Result<(), AllocError>
    ensures { OnOk result (list.new ≡ list.old ++ replicate count Nil) }
{
    for _done in 0..count {
        list.push(Value::Nil)?;
    }
    Ok(())
}

/// These values at the end.
fn push_all(list: &mut Args, values: &[Value]) -> Result<(), AllocError>
    ensures { OnOk result (list.new ≡ list.old ++ values.now) }
{
    for value in values {
        list.push(*value)?;
    }
    Ok(())
}

/// The value of the parameter for the rest at the end, where there is one.
fn push_rest(list: &mut Args, rest: Option<ObjId>) -> Result<(), AllocError>
    ensures { OnOk result (list.new ≡ list.old ++ rest_of rest) }
{
    if let Some(array) = rest {
        list.push(Value::Obj(array))?;
    }
    Ok(())
}

/// A value for each parameter, where the one for the rest is that object.
fn values(
    alloc: Global,
    shape: Shape,
    given: &Given,
    rest: Option<ObjId>,
) -> Result<Args, AllocError>
    requires fits { defined.fits shape (length (all_of given.now)) ≡ true }
    ensures { IfOk result (λ list. list ≡ defined.values shape (rest_of rest) (all_of given.now)) }
{
    let count = given.len();
    let end = front_end(shape, count);
    let unfilled = shape.optional - filled(shape, count);
    let mut list = Args::from_slice(alloc, given.part(0, end))?;
    push_nils(&mut list, given.nils(0, end))?;
    push_nils(&mut list, usize::from(unfilled))?;
    push_rest(&mut list, rest)?;
    let last = count - usize::from(shape.post);
    push_all(&mut list, given.part(last, count))?;
    push_nils(&mut list, given.nils(last, count))?;
    Ok(list)
}

/// A new Array of these values.
fn add_array(st: &mut Store, values: List<Value>) -> Result<ObjId, AllocError>
    ensures number { IfOk result (λ id. id ≡ next_number st.old.store) }
    ensures ok { OnOk result (st.new.store ≡ with_object st.old.store (fresh (core class.Array) (kind.Array values))) }
    ensures err { OnErr result (st.new.store ≡ st.old.store) }
    ensures changes { st.new.changes ≡ st.old.changes }
{
    let kind = Kind::Array(Items::from_vec(values.into_vec()));
    st.add(Object::new(st.class_object(CoreClass::Array), kind))
}

/// The values of the parameters of that shape for the arguments of a call (ISO/IEC 30170:2012, 11.3.3 and 13.3.3). A
/// method and a lambda count their arguments; a Proc takes nil for what is missing, drops what is too much, and where it
/// has more than one parameter, or one and a rest, takes the elements of one Array as its arguments. Optional parameters
/// are filled from the left, and what remains is a new Array for the parameter for the rest. Where all parameters are
/// required and their number is given, the values are the arguments. A wrong number needs no memory and changes nothing.
/// Where memory runs out the store is as before.
#[tactic(auto, unfolding(def_core::specs::Bind::bind), using(rb_store::proofs::Keeping::keeps_itself, crate::proofs::Required::takes_all))]
pub fn bind(
    st: &mut Store,
    shape: Shape,
    args: &[Value],
    kind: BindKind,
) -> Result<Bound, AllocError>
    requires sound { Sound st.old.store }
    requires args { AllAre (IsValue (census st.old.store)) args.now }
    ensures bound { IfOk result (λ b. b ≡ (defined.bind st.old.store shape args.now kind).bound) }
    ensures store { OnOk result (st.new.store ≡ (defined.bind st.old.store shape args.now kind).store) }
    ensures wrong { IsWrong (defined.bind st.old.store shape args.now kind).bound → IsOk result }
    ensures err { OnErr result (st.new.store ≡ st.old.store) }
    ensures changes { st.new.changes ≡ st.old.changes }
    ensures keeps { Keeps st.old st.new }
    ensures values { IfOk result (HasValues (census st.new.store)) }
    ensures required_alone { shape ≡ only shape.required → length args.now ≡ shape.required →
        defined.bind st.old.store shape args.now kind ≡ as_given st.old.store args.now }
{
    let alloc = st.alloc();
    let given = Given::of(st, shape, kind, args);
    let count = given.len();
    if !fits(shape, count) {
        return Ok(Bound::Wrong { given: count });
    }
    let filled = filled(shape, count);
    if !shape.rest {
        let list = values(alloc, shape, &given, None)?;
        return Ok(Bound::Values { list, filled });
    }
    let list = values(alloc, shape, &given, Some(ObjId(st.len())))?;
    let others = remaining(alloc, shape, &given)?;
    add_array(st, others)?;
    Ok(Bound::Values { list, filled })
}
