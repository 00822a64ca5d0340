//! What `defined?` tells: a text, or nil of what is absent.
ghost use Rattle.std.specs.Prelude.{◌≡◌, codes, is_some, nat_eq, OnErr};
ghost use Rattle.std.specs.Map.{lookup};
ghost use Rattle.def_core.specs.Sound.{Sound, census, Is, ClassOrModule, IsSymbol, IsValue, OptionIs};
ghost use Rattle.def_calls.specs.World.{World, Activation, with_store};
ghost use Rattle.rb_value.specs.Variables.{variable_of};
ghost use Rattle.def_calls.specs.Constants as constants;
ghost use Rattle.def_calls.specs.Values as values;
ghost use Rattle.def_calls.specs.Definitions as definitions;
ghost use Rattle.run_values.specs.Answers.{Answers};
ghost use Rattle.run_definitions.specs.Enclosing.{enclosed, AreEnclosing, AnswersAmong};

use crate::constants::{constant_within, find_constant};
use crate::definitions::space_in;
use crate::enclosing::EnclosingLists;
use class_model::{class_of, find};
use method_lookup::{allowed, find_super};
use pair_table::PairTable;
use rb_base::Bytes;
use rb_store::Store;
use rb_value::{ObjId, SymId, Value};
use run_values::{Given, make_text};
use std::alloc::AllocError;

/// Gives a new String of a text, or nil.
#[tactic(auto, using(rb_store::proofs::Keeping::keeps_itself))]
fn text_if(st: &mut Store, text: &[u8], told: bool) -> Result<Given, AllocError>
    requires { Sound st.old.store }
    ensures answers { Answers st.old st.new result (λ w. definitions.text_if w text.now told) }
    ensures err { OnErr result (st.new.store ≡ st.old.store) }
{
    if told {
        let bytes = Bytes::from_slice(st.alloc(), text)?;
        make_text(st, bytes)
    } else {
        Ok(Given::Gives(Value::Nil))
    }
}

/// Whether an instance variable was set.
#[tactic(auto, using(def_core::proofs::Good::is_good))]
fn has_variable(st: &Store, self_value: Value, name: SymId) -> bool
    requires { IsValue (census st.now.store) self_value }
    ensures { result ≡ is_some (variable_of (values.variables_of st.now.store.objects self_value) name) }
{
    match self_value {
        Value::Obj(id) => st.variable(id, name).is_some(),
        _ => false,
    }
}

/// Tells whether an instance variable was set.
#[tactic(auto, unfolding(def_calls::specs::Definitions::instance_variable_told))]
pub fn instance_variable(
    st: &mut Store,
    self_value: Value,
    name: SymId,
) -> Result<Given, AllocError>
    requires sound { Sound st.old.store }
    requires self_value { IsValue (census st.old.store) self_value }
    ensures answers { Answers st.old st.new result (λ w. definitions.instance_variable_told w self_value name) }
    ensures err { OnErr result (st.new.store ≡ st.old.store) }
{
    let there = has_variable(st, self_value, name);
    text_if(st, b"instance-variable", there)
}

/// Whether a global variable was set.
fn is_set(globals: &PairTable<u64, Value>, name: SymId) -> bool
    ensures { result ≡ is_some (lookup (nat_eq name.0) globals.now) }
{
    globals.get(&name.0).is_some()
}

/// Tells whether a global variable was set.
pub fn global(
    st: &mut Store,
    globals: &PairTable<u64, Value>,
    name: SymId,
) -> Result<Given, AllocError>
    requires { Sound st.old.store }
    ensures answers { Answers st.old st.new result (λ w.
        definitions.text_if w (codes "global-variable") (is_some (lookup (nat_eq name.0) globals.now))) }
    ensures err { OnErr result (st.new.store ≡ st.old.store) }
{
    let there = is_set(globals, name);
    text_if(st, b"global-variable", there)
}

/// Whether a text sees a constant.
fn sees_constant(st: &Store, lists: &EnclosingLists, number: u64, name: SymId) -> bool
    requires sound { Sound st.now.store }
    requires lists { AreEnclosing (census st.now.store) lists.now }
    ensures { (w : World) →
        result ≡ is_some (constants.find_constant (with_store (enclosed lists.now w) st.now.store) number name) }
{
    match find_constant(st, lists, number, name) {
        Some(_) => true,
        None => false,
    }
}

/// Tells whether a text sees a constant.
#[tactic(auto, unfolding(def_calls::specs::Definitions::constant_told))]
pub fn constant(
    st: &mut Store,
    lists: &EnclosingLists,
    number: u64,
    name: SymId,
) -> Result<Given, AllocError>
    requires sound { Sound st.old.store }
    requires lists { AreEnclosing (census st.old.store) lists.now }
    ensures answers { AnswersAmong lists.now st.old st.new result (λ w. definitions.constant_told w number name) }
    ensures err { OnErr result (st.new.store ≡ st.old.store) }
{
    let there = sees_constant(st, lists, number, name);
    text_if(st, b"constant", there)
}

/// Whether a class or module or one of its ancestors has a constant.
fn holds_constant(st: &Store, class: ObjId, name: SymId) -> bool
    requires sound { Sound st.now.store }
    requires class { Is (census st.now.store) ClassOrModule class }
    ensures { (w : World) →
        result ≡ is_some (constants.constant_within (with_store w st.now.store) class name) }
{
    match constant_within(st, class, name) {
        Some(_) => true,
        None => false,
    }
}

/// Whether a value is a class or module that has a constant, or whose ancestors have it.
fn has_constant(st: &Store, value: Value, name: SymId) -> bool
    requires sound { Sound st.now.store }
    requires value { IsValue (census st.now.store) value }
    ensures { (w : World) → result ≡ definitions.constant_there (with_store w st.now.store) name
        (definitions.space_in st.now.store.objects value) }
{
    match space_in(st, value) {
        Some(class) => holds_constant(st, class, name),
        None => false,
    }
}

/// Tells whether a value is a class or module that has a constant, or whose ancestors have it.
#[tactic(auto, unfolding(def_calls::specs::Definitions::constant_in_told))]
pub fn constant_in(st: &mut Store, value: Value, name: SymId) -> Result<Given, AllocError>
    requires sound { Sound st.old.store }
    requires value { IsValue (census st.old.store) value }
    ensures answers { Answers st.old st.new result (λ w. definitions.constant_in_told w value name) }
    ensures err { OnErr result (st.new.store ≡ st.old.store) }
{
    let there = has_constant(st, value, name);
    text_if(st, b"constant", there)
}

/// Whether a caller may call a method of that name on a receiver.
#[tactic(auto, unfolding(def_calls::specs::Definitions::has_method))]
fn has_method(st: &Store, caller: Value, receiver: Value, name: SymId) -> bool
    requires sound { Sound st.now.store }
    requires caller { IsValue (census st.now.store) caller }
    requires receiver { IsValue (census st.now.store) receiver }
    ensures { (w : World) → result ≡ definitions.has_method (with_store w st.now.store) caller receiver name }
{
    match find(st, class_of(st, receiver), name) {
        Some(found) => allowed(st, caller, receiver, &found),
        None => false,
    }
}

/// Tells whether a caller may call a method of that name on a receiver.
#[tactic(auto, unfolding(def_calls::specs::Definitions::method_told))]
pub fn method(
    st: &mut Store,
    caller: Value,
    receiver: Value,
    name: SymId,
) -> Result<Given, AllocError>
    requires sound { Sound st.old.store }
    requires caller { IsValue (census st.old.store) caller }
    requires receiver { IsValue (census st.old.store) receiver }
    ensures answers { Answers st.old st.new result (λ w. definitions.method_told w caller receiver name) }
    ensures err { OnErr result (st.new.store ≡ st.old.store) }
{
    let there = has_method(st, caller, receiver, name);
    text_if(st, b"method", there)
}

/// Tells whether an activation has a block.
#[tactic(auto, unfolding(def_calls::specs::Definitions::yield_told))]
pub fn block(st: &mut Store, block: Option<ObjId>) -> Result<Given, AllocError>
    requires { Sound st.old.store }
    ensures answers { (a : Activation) →
        Answers st.old st.new result (λ w. definitions.yield_told w (record a { block = block })) }
    ensures err { OnErr result (st.new.store ≡ st.old.store) }
{
    text_if(st, b"yield", block.is_some())
}

/// Whether a method stands above the one that an activation runs.
fn has_super(st: &Store, self_value: Value, owner: Option<ObjId>, name: Option<SymId>) -> bool
    requires sound { Sound st.now.store }
    requires self_value { IsValue (census st.now.store) self_value }
    ensures { (w : World) →
        result ≡ is_some (definitions.super_of (with_store w st.now.store) self_value owner name) }
{
    match (owner, name) {
        (Some(owner), Some(name)) => {
            find_super(st, class_of(st, self_value), owner, name).is_some()
        }
        _ => false,
    }
}

/// Tells whether a method stands above the one that an activation runs.
#[tactic(auto, unfolding(def_calls::specs::Definitions::super_told))]
pub fn super_method(
    st: &mut Store,
    self_value: Value,
    owner: Option<ObjId>,
    name: Option<SymId>,
) -> Result<Given, AllocError>
    requires sound { Sound st.old.store }
    requires self_value { IsValue (census st.old.store) self_value }
    ensures answers { (a : Activation) → Answers st.old st.new result
        (λ w. definitions.super_told w (record a { self = self_value; owner = owner; name = name })) }
    ensures err { OnErr result (st.new.store ≡ st.old.store) }
{
    let there = has_super(st, self_value, owner, name);
    text_if(st, b"super", there)
}
