//! The calls of class_model. Each checks by itself what its call wants of the values, and gives none where it isn't so.
ghost use Rattle.std.specs.Prelude.{IfOk};
ghost use Rattle.def_core.specs.Sound.{Sound, census, Is, ClassOrModule, IsSymbol, IsValue, OptionIs};

use class_model::{
    ancestors, class_of, default_visibility, define_class, define_module, include, own_entry,
    set_method, set_visibility, singleton, superclass_of,
};
use rb_raise::class_name;
use rb_store::Store;
use rb_value::{Method, ObjId, Outcome, Sort, SymId, Value, Visibility};
use std::alloc::AllocError;

fn symbol(st: &mut Store, name: &[u8]) -> Result<SymId, AllocError>
    requires { Sound st.old.store }
    ensures there { IfOk result (IsSymbol (census st.new.store)) }
    ensures sound { Sound st.new.store }
{
    let symbol = st.intern(name)?;
    Ok(symbol)
}

/// The class or module that a value is.
#[tactic(auto, using(def_core::proofs::Good::has_role))]
fn class(st: &Store, v: Value) -> Option<ObjId>
    ensures { OptionIs (Is (census st.now.store) ClassOrModule) result }
{
    let Value::Obj(id) = v else {
        return None;
    };
    match st.sort(id)? {
        Sort::Class | Sort::Singleton | Sort::Module => Some(id),
        _ => None,
    }
}

/// The value, where it is one of the store; not told of a Symbol.
#[tactic(auto, using(def_core::proofs::Good::has_role))]
fn there(st: &Store, v: Value) -> Option<Value>
    ensures { OptionIs (IsValue (census st.now.store)) result }
{
    match v {
        Value::Obj(id) if !st.has(id) => None,
        Value::Sym(_) => None,
        _ => Some(v),
    }
}

pub(crate) fn class_in(
    st: &mut Store,
    scope: Value,
    name: &[u8],
    parent: Value,
) -> Result<Option<Outcome>, AllocError>
    requires { Sound st.old.store }
    ensures { Sound st.new.store }
{
    let name = symbol(st, name)?;
    let (Some(scope), Some(parent)) = (class(st, scope), there(st, parent)) else {
        return Ok(None);
    };
    Ok(Some(define_class(st, scope, name, parent)?))
}

pub(crate) fn module_in(
    st: &mut Store,
    scope: Value,
    name: &[u8],
) -> Result<Option<Outcome>, AllocError>
    requires { Sound st.old.store }
    ensures { Sound st.new.store }
{
    let name = symbol(st, name)?;
    let Some(scope) = class(st, scope) else {
        return Ok(None);
    };
    Ok(Some(define_module(st, scope, name)?))
}

pub(crate) fn included(
    st: &mut Store,
    v: Value,
    mixin: Value,
) -> Result<Option<Outcome>, AllocError>
    requires { Sound st.old.store }
    ensures { Sound st.new.store }
{
    let (Some(c), Some(mixin)) = (class(st, v), there(st, mixin)) else {
        return Ok(None);
    };
    Ok(Some(include(st, c, mixin)?))
}

pub(crate) fn singleton_of(st: &mut Store, v: Value) -> Result<Option<Outcome>, AllocError>
    requires { Sound st.old.store }
    ensures { Sound st.new.store }
{
    let Some(v) = there(st, v) else {
        return Ok(None);
    };
    Ok(Some(singleton(st, v)?))
}

/// Defines a method that reads an instance variable, and gives nil.
pub(crate) fn reader(st: &mut Store, v: Value, name: &[u8]) -> Result<Option<Outcome>, AllocError>
    requires { Sound st.old.store }
    ensures { Sound st.new.store }
{
    let name = symbol(st, name)?;
    let Some(c) = class(st, v) else {
        return Ok(None);
    };
    let visibility = default_visibility(st, c);
    set_method(st, c, name, Method::Reader(name), visibility)?;
    Ok(Some(Outcome::Value(Value::Nil)))
}

pub(crate) fn shown(
    st: &mut Store,
    v: Value,
    name: &[u8],
    visibility: Visibility,
) -> Result<Option<Outcome>, AllocError>
    requires { Sound st.old.store }
    ensures { Sound st.new.store }
{
    let name = symbol(st, name)?;
    let Some(c) = class(st, v) else {
        return Ok(None);
    };
    Ok(Some(set_visibility(st, c, name, visibility)?))
}

/// The visibility of a name in the own list of a class.
pub(crate) fn own_visibility(
    st: &mut Store,
    v: Value,
    name: &[u8],
) -> Result<Option<Visibility>, AllocError>
    requires { Sound st.old.store }
    ensures { Sound st.new.store }
{
    let name = symbol(st, name)?;
    let Some(c) = class(st, v) else {
        return Ok(None);
    };
    match own_entry(st, c, name) {
        Some(entry) => Ok(Some(entry.visibility)),
        None => Ok(None),
    }
}

/// The names of the ancestors, each with a space after it.
pub(crate) fn ancestor_names(st: &Store, v: Value) -> Result<Vec<u8>, AllocError>
    requires { Sound st.now.store }
{
    let mut text = Vec::new(st.alloc());
    let Some(c) = class(st, v) else {
        return Ok(text);
    };
    'ancestors: for ancestor in ancestors(st, c) {
        if let Some(ancestor) = class(st, Value::Obj(ancestor)) {
            text.extend_from_slice(class_name(st, ancestor))?;
            text.push(b' ')?;
        }
    }
    Ok(text)
}

/// Where the look-up of the methods of a value begins.
pub(crate) fn dispatch(st: &Store, v: Value) -> Value
    requires { Sound st.now.store }
{
    match there(st, v) {
        Some(v) => Value::Obj(class_of(st, v)),
        None => Value::Nil,
    }
}

pub(crate) fn superclass(st: &Store, v: Value) -> Value {
    let Some(c) = class(st, v) else {
        return Value::Nil;
    };
    match superclass_of(st, c) {
        Some(above) => Value::Obj(above),
        None => Value::Nil,
    }
}
