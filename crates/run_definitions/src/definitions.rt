//! Definitions of methods, classes and modules.
ghost use Rattle.std.specs.Prelude.{◌≡◌, OnErr};
ghost use Rattle.def_core.specs.Sound.{Sound, census, Is, ClassOrModule, IsSymbol, IsValue, OptionIs};
ghost use Rattle.rb_store.specs.Keeps.{Keeps};
ghost use Rattle.def_calls.specs.World.{World, with_store};
ghost use Rattle.def_calls.specs.Definitions as definitions;
ghost use Rattle.run_values.specs.Answers.{Answers};

use class_model::{
    default_visibility, define_class, define_module, find, set_default, set_method, singleton,
};
use def_core::Cause;
use rb_store::Store;
use rb_value::{Method, ObjId, Sort, SymId, Value, Visibility};
use run_values::{Given, answer, fail, wrong_value};
use std::alloc::AllocError;

/// The number of a value that is a class or module. It takes no memory.
#[tactic(auto, using(def_core::proofs::Good::is_good, def_core::proofs::Good::has_role))]
pub fn space_in(st: &Store, value: Value) -> Option<ObjId>
    requires { IsValue (census st.now.store) value }
    ensures space { result ≡ definitions.space_in st.now.store.objects value }
    ensures class { OptionIs (Is (census st.now.store) ClassOrModule) result }
{
    match value {
        Value::Obj(id) => match st.get(id).sort() {
            Sort::Class | Sort::Singleton | Sort::Module => Some(id),
            _ => None,
        },
        _ => None,
    }
}

/// Defines a method of a class or module: a body of the program, by its number, with the list of classes around its
/// text. It takes the default visibility, and its name is given. Where memory runs out the store is as before.
#[tactic(auto, unfolding(def_calls::specs::Definitions::define_method), using(class_model::proofs::Kept::kept_symbol, rb_store::proofs::Keeping::keeps_itself))]
pub fn define_method(
    st: &mut Store,
    class: ObjId,
    name: SymId,
    body: u32,
    around: u64,
) -> Result<Given, AllocError>
    requires sound { Sound st.old.store }
    requires class { Is (census st.old.store) ClassOrModule class }
    requires name { IsSymbol (census st.old.store) name }
    ensures answers { Answers st.old st.new result (λ w. definitions.define_method w class name body around) }
    ensures err { OnErr result (st.new.store ≡ st.old.store) }
{
    let visibility = default_visibility(st, class);
    let method = Method::Body {
        code: body,
        scope: around,
    };
    set_method(st, class, name, method, visibility)?;
    Ok(Given::Gives(Value::Sym(name)))
}

/// Gives the singleton class of a value; a value that has none raises.
pub fn singleton_class(st: &mut Store, value: Value) -> Result<Given, AllocError>
    requires sound { Sound st.old.store }
    requires value { IsValue (census st.old.store) value }
    ensures { Answers st.old st.new result (λ w. definitions.singleton_class w value) }
{
    let outcome = singleton(st, value)?;
    answer(st, outcome)
}

/// Gives the class of that name in a scope, under a parent: the one that is there, or a new one. What can't be so
/// raises.
pub fn open_class(
    st: &mut Store,
    scope: Value,
    name: SymId,
    parent: Value,
) -> Result<Given, AllocError>
    requires sound { Sound st.old.store }
    requires scope { IsValue (census st.old.store) scope }
    requires name { IsSymbol (census st.old.store) name }
    requires parent { IsValue (census st.old.store) parent }
    ensures { Answers st.old st.new result (λ w. definitions.open_class w scope name parent) }
{
    match space_in(st, scope) {
        Some(class) => {
            let outcome = define_class(st, class, name, parent)?;
            answer(st, outcome)
        }
        None => wrong_value(st, b"CLASS"),
    }
}

/// Gives the module of that name in a scope: the one that is there, or a new one. What can't be so raises.
pub fn open_module(st: &mut Store, scope: Value, name: SymId) -> Result<Given, AllocError>
    requires sound { Sound st.old.store }
    requires scope { IsValue (census st.old.store) scope }
    requires name { IsSymbol (census st.old.store) name }
    ensures { Answers st.old st.new result (λ w. definitions.open_module w scope name) }
{
    match space_in(st, scope) {
        Some(class) => {
            let outcome = define_module(st, class, name)?;
            answer(st, outcome)
        }
        None => wrong_value(st, b"MODULE"),
    }
}

/// The next methods of a class or module are public, as where a body of it begins and where it ends. It takes no
/// memory.
pub fn set_public_default(st: &mut Store, class: ObjId)
    requires sound { Sound st.old.store }
    requires class { Is (census st.old.store) ClassOrModule class }
    ensures default { (w : World) →
        definitions.with_public_default (with_store w st.old.store) class ≡ with_store w st.new.store }
    ensures keeps { Keeps st.old st.new }
{
    set_default(st, class, Visibility::Public);
}

/// Gives a method that is found one more name in a class or module, with its visibility. A name that isn't found
/// raises.
#[tactic(auto, unfolding(def_calls::specs::Definitions::alias_method))]
pub fn alias_method(
    st: &mut Store,
    class: ObjId,
    alias: SymId,
    name: SymId,
) -> Result<Given, AllocError>
    requires sound { Sound st.old.store }
    requires class { Is (census st.old.store) ClassOrModule class }
    requires alias { IsSymbol (census st.old.store) alias }
    requires name { IsSymbol (census st.old.store) name }
    ensures { Answers st.old st.new result (λ w. definitions.alias_method w class alias name) }
{
    match find(st, class, name) {
        Some(found) => {
            set_method(st, class, alias, found.method, found.visibility)?;
            Ok(Given::Gives(Value::Nil))
        }
        None => fail(st, Cause::UndefinedInClass { name, class }),
    }
}

/// Ends the search for a method in a class or module with nothing. A name that isn't found raises.
#[tactic(auto, unfolding(def_calls::specs::Definitions::undefine_method))]
pub fn undefine_method(st: &mut Store, class: ObjId, name: SymId) -> Result<Given, AllocError>
    requires sound { Sound st.old.store }
    requires class { Is (census st.old.store) ClassOrModule class }
    requires name { IsSymbol (census st.old.store) name }
    ensures { Answers st.old st.new result (λ w. definitions.undefine_method w class name) }
{
    match find(st, class, name) {
        Some(found) => {
            set_method(st, class, name, Method::Undefined, found.visibility)?;
            Ok(Given::Gives(Value::Nil))
        }
        None => fail(st, Cause::UndefinedInClass { name, class }),
    }
}
