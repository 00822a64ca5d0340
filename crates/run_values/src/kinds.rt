//! What a value is, for those that want one sort of object. None of it takes memory.
ghost use Rattle.std.specs.Prelude.{◌≡◌, IfSome, MatchOption, None, Some};
ghost use Rattle.rb_value.specs.declared.kind.Sort.TheVariants as sorts;
ghost use Rattle.def_core.specs.Store.{object_at, sort_at};
ghost use Rattle.def_core.specs.Bind.{elements_in};
ghost use Rattle.def_core.specs.Sound.{Sound, census, Is, Any, Array, String, Proc, Fiber, IsValue, OptionIs};
ghost use Rattle.def_calls.specs.Views as views;

use rb_store::Store;
use rb_value::{KindRef, ObjId, SymId, Value};

/// The number of an object.
pub fn object_in(value: Value) -> Option<ObjId>
    ensures { result ≡ views.object_in value }
{
    match value {
        Value::Obj(id) => Some(id),
        _ => None,
    }
}

/// The number that an Integer is.
pub fn integer_in(value: Value) -> Option<i64>
    ensures { result ≡ views.integer_in value }
{
    match value {
        Value::Int(number) => Some(number),
        _ => None,
    }
}

/// The number of a Symbol.
pub fn symbol_in(value: Value) -> Option<SymId>
    ensures { result ≡ views.symbol_in value }
{
    match value {
        Value::Sym(symbol) => Some(symbol),
        _ => None,
    }
}

/// The value, where it isn't nil.
pub fn present(value: Value) -> Option<Value>
    ensures { result ≡ views.present value }
{
    match value {
        Value::Nil => None,
        other => Some(other),
    }
}

/// The number of an Array.
#[tactic(auto, using(def_core::proofs::Good::is_good, def_core::proofs::Good::has_role))]
pub fn an_array(st: &Store, value: Value) -> Option<ObjId>
    requires { IsValue (census st.now.store) value }
    ensures object { result ≡ views.an_array st.now.store.objects value }
    ensures there { OptionIs (Is (census st.now.store) Array) result }
    ensures sort { IfSome result (λ id. sort_at st.now.store.objects id ≡ sorts.Array) }
{
    let id = object_in(value)?;
    match st.get(id).kind() {
        KindRef::Array(_) => Some(id),
        _ => None,
    }
}

/// The number of a String.
#[tactic(auto, using(def_core::proofs::Good::is_good, def_core::proofs::Good::has_role))]
pub fn a_string(st: &Store, value: Value) -> Option<ObjId>
    requires { IsValue (census st.now.store) value }
    ensures object { result ≡ views.a_string st.now.store.objects value }
    ensures there { OptionIs (Is (census st.now.store) String) result }
    ensures sort { IfSome result (λ id. sort_at st.now.store.objects id ≡ sorts.String) }
{
    let id = object_in(value)?;
    match st.get(id).kind() {
        KindRef::String(_) => Some(id),
        _ => None,
    }
}

/// The number of a Hash.
#[tactic(auto, using(def_core::proofs::Good::is_good, def_core::proofs::Good::has_role))]
pub fn a_hash(st: &Store, value: Value) -> Option<ObjId>
    requires { IsValue (census st.now.store) value }
    ensures object { result ≡ views.a_hash st.now.store.objects value }
    ensures there { OptionIs (Is (census st.now.store) Any) result }
    ensures sort { IfSome result (λ id. sort_at st.now.store.objects id ≡ sorts.Hash) }
{
    let id = object_in(value)?;
    match st.get(id).kind() {
        KindRef::Hash(_) => Some(id),
        _ => None,
    }
}

/// The number of a Proc.
#[tactic(auto, using(def_core::proofs::Good::is_good, def_core::proofs::Good::has_role))]
pub fn a_proc(st: &Store, value: Value) -> Option<ObjId>
    requires { IsValue (census st.now.store) value }
    ensures object { result ≡ views.a_proc st.now.store.objects value }
    ensures there { OptionIs (Is (census st.now.store) Proc) result }
    ensures sort { IfSome result (λ id. sort_at st.now.store.objects id ≡ sorts.Proc) }
{
    let id = object_in(value)?;
    match st.get(id).kind() {
        KindRef::Proc(_) => Some(id),
        KindRef::CoreProc { row: _, kept: _ } => Some(id),
        _ => None,
    }
}

/// The number of a fiber.
#[tactic(auto, using(def_core::proofs::Good::is_good, def_core::proofs::Good::has_role))]
pub fn a_fiber(st: &Store, value: Value) -> Option<ObjId>
    requires { IsValue (census st.now.store) value }
    ensures object { result ≡ views.a_fiber st.now.store.objects value }
    ensures there { OptionIs (Is (census st.now.store) Fiber) result }
    ensures sort { IfSome result (λ id. sort_at st.now.store.objects id ≡ sorts.Fiber) }
{
    let id = object_in(value)?;
    match st.get(id).kind() {
        KindRef::Fiber { block: _, ended: _ } => Some(id),
        _ => None,
    }
}

/// The number of an exception.
#[tactic(auto, using(def_core::proofs::Good::is_good, def_core::proofs::Good::has_role))]
pub fn an_exception(st: &Store, value: Value) -> Option<ObjId>
    requires { IsValue (census st.now.store) value }
    ensures object { result ≡ views.an_exception st.now.store.objects value }
    ensures there { OptionIs (Is (census st.now.store) Any) result }
    ensures sort { IfSome result (λ id. sort_at st.now.store.objects id ≡ sorts.Exception) }
{
    let id = object_in(value)?;
    match st.get(id).kind() {
        KindRef::Exception {
            message: _,
            detail: _,
        } => Some(id),
        _ => None,
    }
}

/// The message of an exception; nil of any other object.
#[tactic(auto, using(def_core::proofs::Good::is_good, crate::proofs::Members::message_is))]
pub fn message_of(st: &Store, id: ObjId) -> Value
    requires sound { Sound st.now.store }
    requires there { Is (census st.now.store) Any id }
    ensures message { result ≡ views.message_of (object_at st.now.store.objects id).kind }
    ensures belongs { IsValue (census st.now.store) result }
{
    match st.get(id).kind() {
        KindRef::Exception { message, detail: _ } => message,
        _ => Value::Nil,
    }
}

/// The status, name or result that an exception has; nil of any other object.
#[tactic(auto, using(def_core::proofs::Good::is_good, crate::proofs::Members::detail_is))]
pub fn detail_of(st: &Store, id: ObjId) -> Value
    requires sound { Sound st.now.store }
    requires there { Is (census st.now.store) Any id }
    ensures detail { result ≡ views.detail_of (object_at st.now.store.objects id).kind }
    ensures belongs { IsValue (census st.now.store) result }
{
    match st.get(id).kind() {
        KindRef::Exception { message: _, detail } => detail,
        _ => Value::Nil,
    }
}

/// The Proc that a fiber runs, and whether the fiber has ended.
#[tactic(auto, using(def_core::proofs::Good::is_good, crate::proofs::Members::block_is))]
pub fn fiber_of(st: &Store, id: ObjId) -> Option<(ObjId, bool)>
    requires sound { Sound st.now.store }
    requires there { Is (census st.now.store) Any id }
    ensures fiber { result ≡ views.fiber_of (object_at st.now.store.objects id).kind }
    ensures block { IfSome result (λ f. Is (census st.now.store) Proc f.0) }
{
    match st.get(id).kind() {
        KindRef::Fiber { block, ended } => Some((block, ended)),
        _ => None,
    }
}

/// The elements of an Array; nothing of any other value.
#[tactic(auto, using(def_core::proofs::Good::is_good))]
pub fn elements_of(st: &Store, value: Value) -> Option<&[Value]>
    requires { IsValue (census st.now.store) value }
    ensures { MatchOption result (elements_in st.now.store.objects value ≡ None)
        (λ values. elements_in st.now.store.objects value ≡ Some values.now) }
{
    let id = object_in(value)?;
    match st.get(id).kind() {
        KindRef::Array(elements) => Some(elements),
        _ => None,
    }
}
