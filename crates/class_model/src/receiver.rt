//! Where the look-up of a value's methods begins.
ghost use Rattle.std.specs.Prelude.{◌≡◌, false};
ghost use Rattle.rb_value.specs.CoreClass.{is_module};
ghost use Rattle.def_core.specs.Store.{core};
ghost use Rattle.def_core.specs.Classes as classes;
ghost use Rattle.def_core.specs.Sound.{Sound, census, Is, Any, ClassOrModule, IsValue};

use crate::chain::above;
use rb_store::Store;
use rb_value::{CoreClass, ObjId, Value};

/// The singleton class of the first of an object and its superclasses that has one, or else the other class.
#[tactic(auto, using(def_core::proofs::Good::is_good, crate::proofs::Lineages::singleton_here, crate::proofs::Lineages::singleton_above, crate::proofs::Lineages::singleton_nowhere, crate::proofs::Lineages::singleton_is_class, crate::proofs::Lineages::above_is_below))]
fn nearest_singleton(st: &Store, id: ObjId, other: ObjId) -> ObjId
    requires sound { Sound st.now.store }
    requires there { Is (census st.now.store) Any id }
    requires other { Is (census st.now.store) ClassOrModule other }
    ensures value { result ≡
        classes.nearest_singleton st.now.store.objects (classes.lineage st.now.store.objects id) other }
    ensures class { Is (census st.now.store) ClassOrModule result }
{
    let mut at = id;
    'superclasses: loop {
        if let Some(singleton) = st.get(at).singleton() {
            return singleton;
        }
        match above(st, at) {
            Some(superclass) => at = superclass,
            None => return other,
        }
    }
}

/// The object of a core class. It takes no memory.
#[tactic(auto, using(crate::proofs::Lineages::core_is_class))]
pub(crate) fn core_class(st: &Store, class: CoreClass) -> ObjId
    requires sound { Sound st.now.store }
    requires plain { is_module class ≡ false }
    ensures value { result ≡ core class }
    ensures class { Is (census st.now.store) ClassOrModule result }
{
    st.class_object(class)
}

/// Where the look-up of a value's methods begins: in its singleton class, if it has one, and else in its class. A
/// class object without a singleton class has that of its nearest superclass with one (ISO/IEC 30170:2012, 13.4).
/// It takes no memory.
#[tactic(auto, using(def_core::proofs::Good::is_good, crate::proofs::Lineages::class_of_object, crate::proofs::Lineages::class_is_class), unfolding(def_core::specs::Classes::class_of))]
pub fn class_of(st: &Store, v: Value) -> ObjId
    requires sound { Sound st.now.store }
    requires value { IsValue (census st.now.store) v }
    ensures value { result ≡ classes.class_of st.now.store.objects v }
    ensures class { Is (census st.now.store) ClassOrModule result }
{
    let class = plain_class_of(st, v);
    match v {
        Value::Obj(id) => nearest_singleton(st, id, class),
        _ => class,
    }
}

/// The class of a value without its singleton class. It takes no memory.
#[tactic(auto, using(def_core::proofs::Good::is_good, crate::proofs::Lineages::class_is_class))]
pub fn plain_class_of(st: &Store, v: Value) -> ObjId
    requires sound { Sound st.now.store }
    requires value { IsValue (census st.now.store) v }
    ensures value { result ≡ classes.plain_class_of st.now.store.objects v }
    ensures class { Is (census st.now.store) ClassOrModule result }
{
    match v {
        Value::Nil => core_class(st, CoreClass::NilClass),
        Value::True => core_class(st, CoreClass::TrueClass),
        Value::False => core_class(st, CoreClass::FalseClass),
        Value::Int(_) => core_class(st, CoreClass::Integer),
        Value::Sym(_) => core_class(st, CoreClass::Symbol),
        Value::Obj(id) => st.get(id).class(),
    }
}
