//! Included modules.
ghost use Rattle.std.specs.Prelude.{◌≡◌, ◌++◌, ◌∷◌, [], filter, IfOk, OnOk, OnErr};
ghost use Rattle.def_core.specs.Classes as classes;
ghost use Rattle.def_core.specs.Changes as defined;
ghost use Rattle.def_core.specs.Sound.{Sound, census, Is, Module, ClassOrModule, OptionIs, IsValue, IsOutcome};
ghost use Rattle.rb_store.specs.Keeps.{Keeps};
ghost use Rattle.class_model.specs.Given.{GivesClass};
ghost use Rattle.class_model.specs.Chain.{left, IsWalk};
ghost use Rattle.class_model.specs.Including.{is_new};

use crate::chain::{Chain, included_in};
use crate::failing::fail;
use crate::receiver::{core_class, plain_class_of};
use def_core::Cause;
use rb_base::List;
use rb_store::Store;
use rb_value::{CoreClass, ObjId, Outcome, Sort, Value};
use std::alloc::AllocError;

/// Whether the other is in the rest of a walk.
fn is_ahead(walk: &mut Chain, other: ObjId) -> bool
    requires { IsWalk walk.old }
    ensures { result ≡ classes.is_member (left walk.old) other }
{
    'members: while let Some(member) = walk.next() {
        if other.0 == member.0 {
            return true;
        }
    }
    false
}

/// Whether a class or module is in the chain of a class. It takes no memory.
pub fn is_in_chain(st: &Store, class: ObjId, other: ObjId) -> bool
    requires sound { Sound st.now.store }
    requires class { Is (census st.now.store) ClassOrModule class }
    ensures { result ≡ classes.is_member (classes.chain st.now.store.objects class) other }
{
    let mut walk = Chain::of(st, class);
    is_ahead(&mut walk, other)
}

/// Puts a module that isn't in the chain of the class after the others.
fn push_new(st: &Store, list: &mut Vec<ObjId>, class: ObjId, mixin: ObjId) -> Result<(), AllocError>
    requires sound { Sound st.now.store }
    requires class { Is (census st.now.store) ClassOrModule class }
    ensures { OnOk result (list.new.items ≡ list.old.items ++ filter (is_new st.now.store.objects class) (mixin ∷ [])) }
{
    if !is_in_chain(st, class, mixin) {
        list.push(mixin)?;
    }
    Ok(())
}

/// The members of the chain of a module that aren't in that of the class, in their order.
fn new_members(st: &Store, class: ObjId, mixin: ObjId) -> Result<Vec<ObjId>, AllocError>
    requires sound { Sound st.now.store }
    requires class { Is (census st.now.store) ClassOrModule class }
    requires mixin { Is (census st.now.store) ClassOrModule mixin }
    ensures { IfOk result (λ list. list.items ≡ defined.new_members st.now.store.objects class mixin) }
{
    let mut list = Vec::new(st.alloc());
    let mut walk = Chain::of(st, mixin);
    'members: while let Some(member) = walk.next() {
        push_new(st, &mut list, class, member)?;
    }
    Ok(list)
}

/// Includes a module in a class or module. Where memory runs out all is as before.
#[tactic(auto, unfolding(def_core::specs::Changes::with_included), using(def_core::proofs::Good::is_good, def_core::proofs::Roles::is_plays, def_core::proofs::Roles::module_is_class, rb_store::proofs::Keeping::keeps_itself))]
fn include_module(st: &mut Store, class: ObjId, mixin: ObjId) -> Result<(), AllocError>
    requires sound { Sound st.old.store }
    requires class { Is (census st.old.store) ClassOrModule class }
    requires mixin { Is (census st.old.store) Module mixin }
    ensures ok { OnOk result (st.new.store ≡
        record st.old.store { objects = defined.with_included st.old.store.objects class mixin }) }
    ensures err { OnErr result (st.new.store ≡ st.old.store) }
    ensures keeps { Keeps st.old st.new }
{
    let mut list = new_members(st, class, mixin)?;
    list.extend_from_slice(included_in(st, class))?;
    st.put_included(class, List::from_vec(list));
    Ok(())
}

/// The number of a value that is a module.
pub(crate) fn module_in(st: &Store, v: Value) -> Option<ObjId>
    requires { IsValue (census st.now.store) v }
    ensures value { result ≡ defined.object_of_sort defined.is_module_sort st.now.store.objects v }
    ensures mixin { OptionIs (Is (census st.now.store) Module) result }
{
    match v {
        Value::Obj(id) => if st.get(id).sort() == Sort::Module {
            Some(id)
        } else {
            None
        },
        _ => None,
    }
}

/// Includes a module in a class or module: it and the modules that it includes at that moment stand before those that
/// were included earlier, in the order of look-up, without those that are already in the chain of the class
/// (ISO/IEC 30170:2012, 13.1). It gives the class. Any other value is a TypeError. Where memory runs out all is as
/// before.
#[tactic(auto, unfolding(def_core::specs::Changes::include), using(crate::proofs::Lineages::core_is_class, crate::proofs::Kept::kept_role, crate::proofs::Belongs::class_belongs))]
pub fn include(st: &mut Store, class: ObjId, mixin: Value) -> Result<Outcome, AllocError>
    requires sound { Sound st.old.store }
    requires class { Is (census st.old.store) ClassOrModule class }
    requires mixin { IsValue (census st.old.store) mixin }
    ensures outcome { IfOk result (λ o. o ≡ (defined.include st.old.store class mixin).outcome) }
    ensures store { OnOk result (st.new.store ≡ (defined.include st.old.store class mixin).store) }
    ensures class { IfOk result (GivesClass (census st.new.store)) }
    ensures belongs { IfOk result (IsOutcome (census st.new.store)) }
    ensures err { OnErr result (st.new.store ≡ st.old.store) }
    ensures keeps { Keeps st.old st.new }
{
    match module_in(st, mixin) {
        Some(found) => {
            include_module(st, class, found)?;
            Ok(Outcome::Value(Value::Obj(class)))
        }
        None => {
            let expected = core_class(st, CoreClass::Module);
            let got = plain_class_of(st, mixin);
            fail(
                st,
                Cause::Expected {
                    class: expected,
                    got,
                },
            )
        }
    }
}
