//! Constants: they are looked up in the classes around a text, and then in the ancestors of the innermost.
ghost use Rattle.std.specs.Prelude.{◌≡◌, filter, not};
ghost use Rattle.rb_value.specs.declared.core_class.CoreClass.TheVariants as classes;
ghost use Rattle.def_core.specs.Store.{core, same_object};
ghost use Rattle.def_core.specs.Classes.{class_at};
ghost use Rattle.def_core.specs.Changes.{constant_in};
ghost use Rattle.def_core.specs.Sound.{Sound, census, Is, ClassOrModule, IsSymbol, IsValue, OptionIs, AllAre};
ghost use Rattle.class_model.specs.AncestorsLeft.{ancestors_left, IsAncestry};
ghost use Rattle.def_calls.specs.World.{World, classes_around, with_store};
ghost use Rattle.def_calls.specs.Constants as constants;
ghost use Rattle.run_values.specs.Answers.{Answers};
ghost use Rattle.run_definitions.specs.Enclosing as enclosing;
ghost use Rattle.run_definitions.specs.Enclosing.{enclosed, AreEnclosing, AnswersAmong};

use crate::enclosing::EnclosingLists;
use class_model::ancestry::Ancestors;
use class_model::{ancestors, own_constant};
use def_core::Cause;
use rb_store::Store;
use rb_value::{CoreClass, ObjId, SymId, Value};
use run_values::{Given, fail};
use std::alloc::AllocError;

/// The constant of a class around a text, of which Object is none.
fn inner_constant(st: &Store, class: ObjId, name: SymId) -> Option<Value>
    requires sound { Sound st.now.store }
    requires class { Is (census st.now.store) ClassOrModule class }
    ensures constant { result ≡ enclosing.inner_constant st.now.store.objects class name }
    ensures belongs { OptionIs (IsValue (census st.now.store)) result }
{
    if class.0 == st.class_object(CoreClass::Object).0 {
        None
    } else {
        own_constant(st, class, name)
    }
}

/// The constant of the first of the classes around a text, but Object, that has it. Each list is around one with a
/// greater number, so there are at most as many as the number of the innermost.
#[tactic(auto, unfolding(def_calls::specs::World::classes_around), using(crate::proofs::Paths::class_at_number, crate::proofs::Paths::within_none))]
fn constant_around(st: &Store, lists: &EnclosingLists, number: u64, name: SymId) -> Option<Value>
    requires sound { Sound st.now.store }
    requires lists { AreEnclosing (census st.now.store) lists.now }
    ensures constant { (w : World) → result ≡ constants.first_constant st.now.store.objects
        (filter (λ c. not (same_object c (core classes.Object))) (classes_around (enclosed lists.now w) number)) name }
    ensures belongs { OptionIs (IsValue (census st.now.store)) result }
{
    let mut at = number;
    let mut left = number;
    'outward: while left > 0 {
        if at == 0 {
            return None;
        }
        let enclosing = lists.at(at);
        match inner_constant(st, enclosing.class(), name) {
            Some(value) => return Some(value),
            None => {}
        }
        at = enclosing.around();
        left -= 1;
    }
    None
}

/// The constant of the first of the rest of a class's ancestors that has it.
fn first_constant(walk: &mut Ancestors, st: &Store, name: SymId) -> Option<Value>
    requires sound { Sound st.now.store }
    requires walk { IsAncestry walk.old }
    requires classes { AllAre (Is (census st.now.store) ClassOrModule) (ancestors_left walk.old) }
    ensures constant { result ≡ constants.first_constant st.now.store.objects (ancestors_left walk.old) name }
    ensures belongs { OptionIs (IsValue (census st.now.store)) result }
{
    'ancestors: while let Some(class) = walk.next() {
        match own_constant(st, class, name) {
            Some(value) => return Some(value),
            None => {}
        }
    }
    None
}

/// A constant of a class or module and its ancestors. It takes no memory.
#[tactic(auto, unfolding(def_calls::specs::Constants::constant_within))]
pub fn constant_within(st: &Store, class: ObjId, name: SymId) -> Option<Value>
    requires sound { Sound st.now.store }
    requires class { Is (census st.now.store) ClassOrModule class }
    ensures constant { (w : World) → result ≡ constants.constant_within (with_store w st.now.store) class name }
    ensures belongs { OptionIs (IsValue (census st.now.store)) result }
{
    let mut walk = ancestors(st, class);
    first_constant(&mut walk, st, name)
}

/// A constant of the innermost class around a text and its ancestors, or of Object.
#[tactic(auto, using(class_model::proofs::Lineages::core_is_class))]
fn inherited_constant(st: &Store, class: ObjId, name: SymId) -> Option<Value>
    requires sound { Sound st.now.store }
    requires class { Is (census st.now.store) ClassOrModule class }
    ensures constant { (w : World) → result ≡
        constants.option_or (constants.constant_within (with_store w st.now.store) class name)
        (constant_in (class_at st.now.store.objects (core classes.Object)).constants name) }
    ensures belongs { OptionIs (IsValue (census st.now.store)) result }
{
    match constant_within(st, class, name) {
        Some(value) => Some(value),
        None => own_constant(st, st.class_object(CoreClass::Object), name),
    }
}

/// A constant as a text sees it: of the classes around it, but Object, then of the ancestors of the innermost, then of
/// Object. It takes no memory.
pub fn find_constant(st: &Store, lists: &EnclosingLists, number: u64, name: SymId) -> Option<Value>
    requires sound { Sound st.now.store }
    requires lists { AreEnclosing (census st.now.store) lists.now }
    ensures constant { (w : World) →
        result ≡ constants.find_constant (with_store (enclosed lists.now w) st.now.store) number name }
    ensures belongs { OptionIs (IsValue (census st.now.store)) result }
{
    match constant_around(st, lists, number, name) {
        Some(value) => Some(value),
        None => inherited_constant(st, lists.class_around(number), name),
    }
}

/// What is told of the scope of a constant that isn't found: nothing of Object.
fn scope_told(st: &Store, scope: ObjId) -> Option<ObjId>
    requires scope { Is (census st.now.store) ClassOrModule scope }
    ensures told { result ≡ constants.scope_told scope }
    ensures class { OptionIs (Is (census st.now.store) ClassOrModule) result }
{
    if scope == st.class_object(CoreClass::Object) {
        None
    } else {
        Some(scope)
    }
}

/// Gives a constant that was found, or raises.
#[tactic(auto, using(rb_store::proofs::Keeping::keeps_itself))]
fn constant_or_fail(
    st: &mut Store,
    scope: ObjId,
    name: SymId,
    constant: Option<Value>,
) -> Result<Given, AllocError>
    requires sound { Sound st.old.store }
    requires scope { Is (census st.old.store) ClassOrModule scope }
    requires name { IsSymbol (census st.old.store) name }
    requires constant { OptionIs (IsValue (census st.old.store)) constant }
    ensures { Answers st.old st.new result (λ w. constants.constant_or_fail w scope name constant) }
{
    match constant {
        Some(value) => Ok(Given::Gives(value)),
        None => {
            let scope = scope_told(st, scope);
            fail(st, Cause::UninitializedConstant { scope, name })
        }
    }
}

/// Gives a constant as a text sees it; one that isn't there raises, and the innermost class around the text is told.
pub fn get_constant(
    st: &mut Store,
    lists: &EnclosingLists,
    number: u64,
    name: SymId,
) -> Result<Given, AllocError>
    requires sound { Sound st.old.store }
    requires lists { AreEnclosing (census st.old.store) lists.now }
    requires name { IsSymbol (census st.old.store) name }
    ensures { AnswersAmong lists.now st.old st.new result (λ w. constants.get_constant w number name) }
{
    let constant = find_constant(st, lists, number, name);
    let scope = lists.class_around(number);
    constant_or_fail(st, scope, name, constant)
}

/// Gives a constant of a class or module and its ancestors; one that isn't there raises.
pub fn get_constant_in(st: &mut Store, class: ObjId, name: SymId) -> Result<Given, AllocError>
    requires sound { Sound st.old.store }
    requires class { Is (census st.old.store) ClassOrModule class }
    requires name { IsSymbol (census st.old.store) name }
    ensures { Answers st.old st.new result (λ w. constants.get_constant_in w class name) }
{
    let constant = constant_within(st, class, name);
    constant_or_fail(st, class, name, constant)
}
