//! Classes and modules with names.
ghost use Rattle.std.specs.Prelude.{◌≡◌, ◌++◌, codes, IfOk, OnOk, OnErr, false, None};
ghost use Rattle.rb_value.specs.CoreClass.{is_module};
ghost use Rattle.rb_value.specs.declared.kind.ClassForm.TheVariants as forms;
ghost use Rattle.def_core.specs.Store.{name_at, next_number, with_object};
ghost use Rattle.def_core.specs.Classes as classes;
ghost use Rattle.def_core.specs.Changes as defined;
ghost use Rattle.def_core.specs.Texts as texts;
ghost use Rattle.def_core.specs.Sound.{Sound, census, Is, Class, Superclass, ClassOrModule, IsSymbol, IsValue, OptionIs, IsOutcome};
ghost use Rattle.rb_store.specs.Keeps.{Keeps};
ghost use Rattle.class_model.specs.Given.{GivesClass};
ghost use Rattle.class_model.specs.Growth as growth;
ghost use Rattle.class_model.specs.Growth.{IsGrown};

use crate::chain::superclass_of;
use crate::failing::fail;
use crate::inclusion::module_in;
use crate::singletons::{class_object, empty_class};
use def_core::Cause;
use pair_table::PairTable;
use rb_raise::class_name;
use rb_store::Store;
use rb_value::{ClassForm, CoreClass, KindRef, ObjId, Object, Outcome, Sort, SymId, Value};
use std::alloc::AllocError;

/// The value of the constant of that name.
fn constant_in(constants: &PairTable<u64, Value>, name: SymId) -> Option<Value>
    ensures { result ≡ defined.constant_in constants.now name }
{
    constants.get(&name.0).copied()
}

/// The value of the constant of that name in the own list of a class or module. It takes no memory.
#[tactic(auto, using(def_core::proofs::Good::is_good, crate::proofs::Constants::own_is_value))]
pub fn own_constant(st: &Store, class: ObjId, name: SymId) -> Option<Value>
    requires sound { Sound st.now.store }
    requires class { Is (census st.now.store) ClassOrModule class }
    ensures value { result ≡ defined.constant_in (classes.class_at st.now.store.objects class).constants name }
    ensures there { OptionIs (IsValue (census st.now.store)) result }
{
    match st.get(class).kind() {
        KindRef::Class(contents) => constant_in(&contents.get().constants, name),
        _ => None,
    }
}

/// The name of a constant with the name of its scope before it.
fn qualified_name(st: &Store, scope: ObjId, name: SymId) -> Result<Vec<u8>, AllocError>
    requires sound { Sound st.now.store }
    requires scope { Is (census st.now.store) ClassOrModule scope }
    requires name { IsSymbol (census st.now.store) name }
    ensures { IfOk result (λ text.
        text.items ≡ texts.class_name st.now.store scope ++ codes "::" ++ name_at st.now.store name) }
{
    let mut text = Vec::from_slice(st.alloc(), class_name(st, scope))?;
    text.extend_from_slice(b"::")?;
    text.extend_from_slice(st.symbol_name(name))?;
    Ok(text)
}

/// The name of a class or module that is defined in the scope: that of its constant, with the name of the scope
/// before it where the scope isn't Object. Where memory runs out all is as before.
#[tactic(auto, using(crate::proofs::Naming::grown_itself, crate::proofs::Naming::grown_interned, rb_store::proofs::Keeping::keeps_itself))]
fn full_name(st: &mut Store, scope: ObjId, name: SymId) -> Result<SymId, AllocError>
    requires sound { Sound st.old.store }
    requires scope { Is (census st.old.store) ClassOrModule scope }
    requires name { IsSymbol (census st.old.store) name }
    ensures symbol { IfOk result (λ s. s ≡ (defined.full_name st.old.store scope name).symbol) }
    ensures ok { OnOk result (st.new.store ≡ (defined.full_name st.old.store scope name).store) }
    ensures there { IfOk result (IsSymbol (census st.new.store)) }
    ensures grown { IsGrown st.old.store st.new.store }
    ensures keeps { Keeps st.old st.new }
{
    if scope.0 == st.class_object(CoreClass::Object).0 {
        return Ok(name);
    }
    let text = qualified_name(st, scope, name)?;
    let symbol = st.intern(&text)?;
    Ok(symbol)
}

/// A new class or module with a name, which isn't in the store yet.
fn named_class(
    st: &Store,
    class: CoreClass,
    form: ClassForm,
    superclass: Option<ObjId>,
    name: SymId,
) -> Result<Object, AllocError>
    ensures { IfOk result (λ o. o ≡ growth.named_class class form superclass name) }
{
    let mut contents = empty_class(st.alloc(), form, superclass);
    contents.name = Some(name);
    class_object(st.alloc(), st.class_object(class), contents)
}

/// Puts a new class or module with a name after the other objects. Where memory runs out all is as before.
#[tactic(auto, using(crate::proofs::Naming::named_is_class, rb_store::proofs::Keeping::keeps_itself))]
fn add_class(
    st: &mut Store,
    class: CoreClass,
    form: ClassForm,
    superclass: Option<ObjId>,
    name: SymId,
) -> Result<ObjId, AllocError>
    requires sound { Sound st.old.store }
    requires plain { is_module class ≡ false }
    requires superclass { OptionIs (Is (census st.old.store) Superclass) superclass }
    requires root { form ≡ forms.Module → superclass ≡ None }
    requires name { IsSymbol (census st.old.store) name }
    ensures number { IfOk result (λ id. id ≡ next_number st.old.store) }
    ensures ok { OnOk result (st.new.store ≡ with_object st.old.store (growth.named_class class form superclass name)) }
    ensures class { IfOk result (Is (census st.new.store) ClassOrModule) }
    ensures err { OnErr result (st.new.store ≡ st.old.store) }
    ensures keeps { Keeps st.old st.new }
{
    let object = named_class(st, class, form, superclass, name)?;
    let id = st.add(object)?;
    Ok(id)
}

/// Defines a class or module as a new constant of the scope. Where memory runs out all that was there is as before.
#[tactic(auto, using(def_core::proofs::Good::is_good, def_core::proofs::Roles::is_plays, crate::proofs::Naming::grown_more, crate::proofs::Naming::class_is_value, crate::proofs::Kept::kept_sound, crate::proofs::Kept::kept_role, crate::proofs::Kept::kept_symbol, rb_store::proofs::Keeping::keeps_itself, rb_store::proofs::Keeping::keeps_then))]
fn make_named(
    st: &mut Store,
    scope: ObjId,
    name: SymId,
    class: CoreClass,
    form: ClassForm,
    superclass: Option<ObjId>,
) -> Result<Outcome, AllocError>
    requires sound { Sound st.old.store }
    requires scope { Is (census st.old.store) ClassOrModule scope }
    requires name { IsSymbol (census st.old.store) name }
    requires plain { is_module class ≡ false }
    requires superclass { OptionIs (Is (census st.old.store) Superclass) superclass }
    requires root { form ≡ forms.Module → superclass ≡ None }
    ensures outcome { IfOk result (λ o. o ≡
        (defined.make_named (defined.full_name st.old.store scope name) scope name class form superclass).outcome) }
    ensures store { OnOk result (st.new.store ≡
        (defined.make_named (defined.full_name st.old.store scope name) scope name class form superclass).store) }
    ensures class { IfOk result (GivesClass (census st.new.store)) }
    ensures err { OnErr result (IsGrown st.old.store st.new.store) }
    ensures keeps { Keeps st.old st.new }
{
    let symbol = full_name(st, scope, name)?;
    let id = add_class(st, class, form, superclass, symbol)?;
    st.put_constant(scope, name, Value::Obj(id))?;
    Ok(Outcome::Value(Value::Obj(id)))
}

/// The number of a value that is a class, but no singleton class.
#[tactic(auto, using(def_core::proofs::Good::is_good, def_core::proofs::Good::has_role))]
fn class_in(st: &Store, v: Value) -> Option<ObjId>
    requires { IsValue (census st.now.store) v }
    ensures value { result ≡ defined.object_of_sort defined.is_class_sort st.now.store.objects v }
    ensures class { OptionIs (Is (census st.now.store) Class) result }
{
    match v {
        Value::Obj(id) => {
            if st.get(id).sort() == Sort::Class {
                Some(id)
            } else {
                None
            }
        }
        _ => None,
    }
}

/// Whether the parent that is given, if any, is the superclass.
fn parent_agrees(parent: Option<ObjId>, superclass: Option<ObjId>) -> bool
    ensures { result ≡ defined.parent_agrees parent superclass }
{
    match (parent, superclass) {
        (None, _) => true,
        (Some(_), None) => false,
        (Some(parent), Some(superclass)) => parent.0 == superclass.0,
    }
}

/// Gives the class that stands in a constant already; the parent that is given, if any, has to be its superclass.
#[tactic(auto, using(def_core::proofs::Roles::class_is_superclass, def_core::proofs::Roles::superclass_is_class, def_core::proofs::Roles::module_is_class, rb_store::proofs::Keeping::keeps_itself))]
fn reopen_class(
    st: &mut Store,
    name: SymId,
    parent: Option<ObjId>,
    there: Value,
) -> Result<Outcome, AllocError>
    requires sound { Sound st.old.store }
    requires name { IsSymbol (census st.old.store) name }
    requires there { IsValue (census st.old.store) there }
    ensures outcome { IfOk result (λ o. o ≡
        (defined.reopen_class st.old.store name parent
        (defined.object_of_sort defined.is_class_sort st.old.store.objects there)).outcome) }
    ensures store { OnOk result (st.new.store ≡
        (defined.reopen_class st.old.store name parent
        (defined.object_of_sort defined.is_class_sort st.old.store.objects there)).store) }
    ensures class { IfOk result (GivesClass (census st.new.store)) }
    ensures err { OnErr result (st.new.store ≡ st.old.store) }
    ensures keeps { Keeps st.old st.new }
{
    let Some(class) = class_in(st, there) else {
        return fail(st, Cause::NotClass(name));
    };
    if parent_agrees(parent, superclass_of(st, class)) {
        Ok(Outcome::Value(Value::Obj(class)))
    } else {
        fail(st, Cause::SuperclassMismatch(name))
    }
}

/// The class of that name in the scope, with the parent that is given, if any.
#[tactic(auto, using(crate::proofs::Naming::grown_itself, crate::proofs::Lineages::parent_or_object))]
fn define_under(
    st: &mut Store,
    scope: ObjId,
    name: SymId,
    parent: Option<ObjId>,
) -> Result<Outcome, AllocError>
    requires sound { Sound st.old.store }
    requires scope { Is (census st.old.store) ClassOrModule scope }
    requires name { IsSymbol (census st.old.store) name }
    requires parent { OptionIs (Is (census st.old.store) Class) parent }
    ensures outcome { IfOk result (λ o. o ≡
        (defined.define_class_by st.old.store scope name parent
        (defined.constant_in (classes.class_at st.old.store.objects scope).constants name)).outcome) }
    ensures store { OnOk result (st.new.store ≡
        (defined.define_class_by st.old.store scope name parent
        (defined.constant_in (classes.class_at st.old.store.objects scope).constants name)).store) }
    ensures class { IfOk result (GivesClass (census st.new.store)) }
    ensures err { OnErr result (IsGrown st.old.store st.new.store) }
    ensures keeps { Keeps st.old st.new }
{
    match own_constant(st, scope, name) {
        Some(there) => {
            let outcome = reopen_class(st, name, parent, there)?;
            Ok(outcome)
        }
        None => {
            let superclass = parent.unwrap_or(st.class_object(CoreClass::Object));
            make_named(
                st,
                scope,
                name,
                CoreClass::Class,
                ClassForm::Class,
                Some(superclass),
            )
        }
    }
}

/// The class of that name in the scope: the one that is there, whose superclass has to be the parent if one is given,
/// or a new one under the parent, or under Object where the parent is nil, as a new constant (ISO/IEC 30170:2012,
/// 13.2). A parent that is no class, a constant that is none, and another superclass are a TypeError. Where memory
/// runs out all that was there is as before.
#[tactic(auto, unfolding(def_core::specs::Changes::define_class), using(crate::proofs::Naming::grown_itself, crate::proofs::Belongs::class_belongs))]
pub fn define_class(
    st: &mut Store,
    scope: ObjId,
    name: SymId,
    parent: Value,
) -> Result<Outcome, AllocError>
    requires sound { Sound st.old.store }
    requires scope { Is (census st.old.store) ClassOrModule scope }
    requires name { IsSymbol (census st.old.store) name }
    requires parent { IsValue (census st.old.store) parent }
    ensures outcome { IfOk result (λ o. o ≡ (defined.define_class st.old.store scope name parent).outcome) }
    ensures store { OnOk result (st.new.store ≡ (defined.define_class st.old.store scope name parent).store) }
    ensures class { IfOk result (GivesClass (census st.new.store)) }
    ensures belongs { IfOk result (IsOutcome (census st.new.store)) }
    ensures err { OnErr result (IsGrown st.old.store st.new.store) }
    ensures keeps { Keeps st.old st.new }
{
    if parent == Value::Nil {
        return define_under(st, scope, name, None);
    }
    match class_in(st, parent) {
        Some(class) => define_under(st, scope, name, Some(class)),
        None => {
            let outcome = fail(st, Cause::SuperclassNotClass)?;
            Ok(outcome)
        }
    }
}

/// Gives the module that stands in a constant already.
#[tactic(auto, using(def_core::proofs::Roles::class_is_superclass, def_core::proofs::Roles::superclass_is_class, def_core::proofs::Roles::module_is_class, rb_store::proofs::Keeping::keeps_itself))]
fn reopen_module(st: &mut Store, name: SymId, there: Value) -> Result<Outcome, AllocError>
    requires sound { Sound st.old.store }
    requires name { IsSymbol (census st.old.store) name }
    requires there { IsValue (census st.old.store) there }
    ensures outcome { IfOk result (λ o. o ≡
        (defined.reopen_module st.old.store name
        (defined.object_of_sort defined.is_module_sort st.old.store.objects there)).outcome) }
    ensures store { OnOk result (st.new.store ≡
        (defined.reopen_module st.old.store name
        (defined.object_of_sort defined.is_module_sort st.old.store.objects there)).store) }
    ensures class { IfOk result (GivesClass (census st.new.store)) }
    ensures err { OnErr result (st.new.store ≡ st.old.store) }
    ensures keeps { Keeps st.old st.new }
{
    match module_in(st, there) {
        Some(found) => Ok(Outcome::Value(Value::Obj(found))),
        None => fail(st, Cause::NotModule(name)),
    }
}

/// The module of that name in the scope: the one that is there, or a new one as a new constant
/// (ISO/IEC 30170:2012, 13.1). A constant that is no module is a TypeError. Where memory runs out all that was there is
/// as before.
#[tactic(auto, unfolding(def_core::specs::Changes::define_module), using(crate::proofs::Naming::grown_itself, crate::proofs::Belongs::class_belongs))]
pub fn define_module(st: &mut Store, scope: ObjId, name: SymId) -> Result<Outcome, AllocError>
    requires sound { Sound st.old.store }
    requires scope { Is (census st.old.store) ClassOrModule scope }
    requires name { IsSymbol (census st.old.store) name }
    ensures outcome { IfOk result (λ o. o ≡ (defined.define_module st.old.store scope name).outcome) }
    ensures store { OnOk result (st.new.store ≡ (defined.define_module st.old.store scope name).store) }
    ensures class { IfOk result (GivesClass (census st.new.store)) }
    ensures belongs { IfOk result (IsOutcome (census st.new.store)) }
    ensures err { OnErr result (IsGrown st.old.store st.new.store) }
    ensures keeps { Keeps st.old st.new }
{
    match own_constant(st, scope, name) {
        Some(there) => {
            let outcome = reopen_module(st, name, there)?;
            Ok(outcome)
        }
        None => make_named(st, scope, name, CoreClass::Module, ClassForm::Module, None),
    }
}
