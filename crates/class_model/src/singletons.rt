//! Singleton classes.
ghost use Rattle.std.specs.Prelude.{◌≡◌, ◌++◌, ◌∷◌, [], filter, IfOk, OnOk, OnErr};
ghost use Rattle.rb_value.specs.declared.value.Value.TheVariants.{Obj};
ghost use Rattle.rb_value.specs.declared.kind.Kind.TheVariants as kinds;
ghost use Rattle.def_core.specs.Store as store;
ghost use Rattle.def_core.specs.Classes as classes;
ghost use Rattle.def_core.specs.Changes as defined;
ghost use Rattle.def_core.specs.Sound.{Sound, census, Is, Any, Superclass, OptionIs, AllAre, IsValue, IsOutcome};
ghost use Rattle.rb_store.specs.Keeps.{Keeps};
ghost use Rattle.class_model.specs.Given.{GivesClass};
ghost use Rattle.class_model.specs.Singletons.{is_missing, with_new_singleton, IsMadeInPart, IsHalfway};

use crate::chain::above;
use crate::failing::fail;
use def_core::Cause;
use pair_table::PairTable;
use rb_base::List;
use rb_store::Store;
use rb_value::{
    Boxed, ClassContents, ClassForm, CoreClass, Kind, MethodTable, ObjId, Object, Outcome, Sort,
    Value, Visibility,
};
use std::alloc::{AllocError, Global};

/// A class or module without a name, modules, constants and methods. It takes no memory.
pub(crate) fn empty_class(
    alloc: Global,
    form: ClassForm,
    superclass: Option<ObjId>,
) -> ClassContents
    ensures { result ≡ classes.empty_class form superclass }
{
    ClassContents {
        form,
        name: None,
        superclass,
        included: List::new(alloc),
        constants: PairTable::new(alloc),
        visibility: Visibility::Public,
        methods: MethodTable::new(alloc),
    }
}

/// A class or module with those contents, which isn't in the store yet.
pub(crate) fn class_object(
    alloc: Global,
    class: ObjId,
    contents: ClassContents,
) -> Result<Object, AllocError>
    ensures { IfOk result (λ o. o ≡ store.fresh class (kinds.Class contents)) }
{
    let kind = Kind::Class(Boxed::new(alloc, contents)?);
    Ok(Object::new(class, kind))
}

/// The singleton class of a superclass; Class where there is none.
#[tactic(auto, using(def_core::proofs::Good::is_good, crate::proofs::Lineages::singleton_is, crate::proofs::Lineages::class_is_core))]
fn above_class(st: &Store, superclass: Option<ObjId>) -> ObjId
    requires sound { Sound st.now.store }
    requires there { OptionIs (Is (census st.now.store) Any) superclass }
    ensures value { result ≡ defined.above_class st.now.store.objects superclass }
    ensures class { Is (census st.now.store) Superclass result }
{
    match superclass {
        Some(superclass) => match st.get(superclass).singleton() {
            Some(singleton) => singleton,
            None => st.class_object(CoreClass::Class),
        },
        None => st.class_object(CoreClass::Class),
    }
}

/// The superclass of the singleton class of an object: of a class the singleton class of its superclass, and of any
/// other object its class.
#[tactic(auto, using(def_core::proofs::Good::is_good, crate::proofs::Lineages::above_there, crate::proofs::Lineages::class_is))]
fn superclass_for(st: &Store, id: ObjId) -> ObjId
    requires sound { Sound st.now.store }
    requires there { Is (census st.now.store) Any id }
    ensures value { result ≡ defined.above st.now.store.objects id (store.sort_at st.now.store.objects id) }
    ensures class { Is (census st.now.store) Superclass result }
{
    let object = st.get(id);
    match object.sort() {
        Sort::Class => above_class(st, above(st, id)),
        Sort::Singleton => above_class(st, above(st, id)),
        _ => object.class(),
    }
}

/// Gives an object a new singleton class. Where memory runs out all is as before.
#[tactic(auto, using(def_core::proofs::Good::is_good, rb_store::proofs::Keeping::keeps_itself))]
fn attach(st: &mut Store, id: ObjId) -> Result<(), AllocError>
    requires sound { Sound st.old.store }
    requires there { Is (census st.old.store) Any id }
    ensures ok { OnOk result (st.new.store ≡
        record st.old.store { objects = with_new_singleton st.old.store.objects id }) }
    ensures err { OnErr result (st.new.store ≡ st.old.store) }
    ensures keeps { Keeps st.old st.new }
{
    let superclass = superclass_for(st, id);
    let class = st.class_object(CoreClass::Class);
    let contents = empty_class(st.alloc(), ClassForm::Singleton, Some(superclass));
    let object = class_object(st.alloc(), class, contents)?;
    st.add_singleton(id, object)?;
    Ok(())
}

/// Gives each of these objects a new singleton class, the last first. Where memory runs out some of the last have
/// theirs.
#[tactic(auto, unfolding(def_core::specs::Changes::make_all), using(rb_store::proofs::Keeping::keeps_itself, rb_store::proofs::Keeping::keeps_then))]
fn make_all(st: &mut Store, ids: &[ObjId]) -> Result<(), AllocError>
    requires sound { Sound st.old.store }
    requires there { AllAre (Is (census st.old.store) Any) ids.now }
    ensures ok { OnOk result (st.new.store ≡
        record st.old.store { objects = defined.make_all st.old.store.objects ids.now }) }
    ensures err { OnErr result (IsMadeInPart st.old.store ids.now st.new.store) }
    ensures keeps { Keeps st.old st.new }
{
    let mut left = ids.len();
    'ids: while left > 0 {
        attach(st, ids[left - 1])?;
        left -= 1;
    }
    Ok(())
}

/// Puts an object that has no singleton class after the others.
#[tactic(auto, using(def_core::proofs::Good::is_good))]
fn push_missing(st: &Store, list: &mut Vec<ObjId>, id: ObjId) -> Result<(), AllocError>
    requires { Is (census st.now.store) Any id }
    ensures { OnOk result (list.new.items ≡ list.old.items ++ filter (is_missing st.now.store.objects) (id ∷ [])) }
{
    if st.get(id).singleton().is_none() {
        list.push(id)?;
    }
    Ok(())
}

/// The object, and where it is a class its superclasses, that have no singleton class.
fn missing(st: &Store, id: ObjId) -> Result<Vec<ObjId>, AllocError>
    requires sound { Sound st.now.store }
    requires there { Is (census st.now.store) Any id }
    ensures list { IfOk result (λ list. list.items ≡ defined.missing st.now.store.objects id) }
    ensures there { IfOk result (λ list. AllAre (Is (census st.now.store) Any) list.items) }
{
    let mut list = Vec::new(st.alloc());
    let mut at = id;
    'superclasses: loop {
        push_missing(st, &mut list, at)?;
        match above(st, at) {
            Some(superclass) => at = superclass,
            None => return Ok(list),
        }
    }
}

/// The singleton class of an object, which is made where it isn't there, as are those of its superclasses.
#[tactic(auto, unfolding(def_core::specs::Changes::singleton, def_core::specs::Changes::with_singleton), using(def_core::proofs::Good::is_good, crate::proofs::Making::made_nothing, crate::proofs::Making::made_is_class, rb_store::proofs::Keeping::keeps_itself, crate::proofs::Kept::kept_sound, crate::proofs::Kept::kept_role))]
fn singleton_of(st: &mut Store, id: ObjId) -> Result<Outcome, AllocError>
    requires sound { Sound st.old.store }
    requires object { Is (census st.old.store) Any id }
    ensures outcome { IfOk result (λ o. o ≡ (defined.singleton st.old.store (Obj id)).outcome) }
    ensures store { OnOk result (st.new.store ≡ (defined.singleton st.old.store (Obj id)).store) }
    ensures class { IfOk result (GivesClass (census st.new.store)) }
    ensures err { OnErr result (IsMadeInPart st.old.store (defined.missing st.old.store.objects id) st.new.store) }
    ensures keeps { Keeps st.old st.new }
{
    let list = missing(st, id)?;
    make_all(st, &list)?;
    let singleton = st.get(id).singleton().unwrap_or(id);
    Ok(Outcome::Value(Value::Obj(singleton)))
}

/// The singleton class of a value, which is made where it isn't there; for a class those of its superclasses are made
/// first (ISO/IEC 30170:2012, 13.4). Nil, true, false, an Integer and a Symbol have none: TypeError. Where memory
/// runs out the singleton classes of some of the last superclasses may have been made, and nothing else changed.
#[tactic(auto, unfolding(def_core::specs::Changes::singleton), using(crate::proofs::Belongs::class_belongs))]
pub fn singleton(st: &mut Store, v: Value) -> Result<Outcome, AllocError>
    requires sound { Sound st.old.store }
    requires value { IsValue (census st.old.store) v }
    ensures outcome { IfOk result (λ o. o ≡ (defined.singleton st.old.store v).outcome) }
    ensures store { OnOk result (st.new.store ≡ (defined.singleton st.old.store v).store) }
    ensures class { IfOk result (GivesClass (census st.new.store)) }
    ensures belongs { IfOk result (IsOutcome (census st.new.store)) }
    ensures err { OnErr result (IsHalfway st.old.store v st.new.store) }
    ensures keeps { Keeps st.old st.new }
{
    match v {
        Value::Obj(id) => singleton_of(st, id),
        _ => fail(st, Cause::NoSingleton),
    }
}
