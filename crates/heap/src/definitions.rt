//! Definitions of methods, classes and modules.
ghost use Rattle.std.specs.Prelude.{◌≡◌, IfOk, OnOk, OnErr};
ghost use Rattle.def_core.specs.Changes as defined;
ghost use Rattle.def_core.specs.Sound.{Sound, census};
ghost use Rattle.def_calls.specs.Definitions as definitions;
ghost use Rattle.rb_store.specs.Keeps.{Keeps};
ghost use Rattle.run_values.specs.Answers.{Answers};
ghost use Rattle.heap.specs.Changes as changes;
ghost use Rattle.heap.specs.Operands as operands;

use crate::heap::Heap;
use crate::testing::{own, space, symbol};
use rb_store::Store;
use rb_value::{ObjId, SymId, Value};
use run_values::Given;
use std::alloc::AllocError;

/// The symbol of a name, which is added where it isn't there.
#[tactic(auto, using(rb_store::proofs::Keeping::keeps_itself))]
pub(crate) fn intern(st: &mut Store, name: &[u8]) -> Result<SymId, AllocError>
    requires sound { Sound st.old.store }
    ensures symbol { IfOk result (λ s. s ≡ (defined.intern st.old.store name.now).symbol) }
    ensures store { OnOk result (st.new.store ≡ (defined.intern st.old.store name.now).store) }
    ensures changes { st.new.changes ≡ st.old.changes }
    ensures err { OnErr result (st.new.store ≡ st.old.store) }
    ensures keeps { Keeps st.old st.new }
{
    st.intern(name)
}

/// Defines a method of a class or module: a body of the program, by its number, with the list of classes around its
/// text. It takes the default visibility, and its name is given.
#[tactic(auto, using(rb_store::proofs::Keeping::keeps_itself))]
pub(crate) fn define_method(
    st: &mut Store,
    class: ObjId,
    name: SymId,
    body: u32,
    around: u64,
) -> Result<Given, AllocError>
    requires sound { Sound st.old.store }
    ensures keeps { Keeps st.old st.new }
    ensures answers { Answers st.old st.new result
        (operands.with_space class (operands.with_symbol name (λ w. definitions.define_method w class name body around))) }
{
    let Some(class) = space(st, class) else {
        return Ok(Given::Gives(Value::Nil));
    };
    match symbol(st, name) {
        Some(name) => run_definitions::define_method(st, class, name, body, around),
        None => Ok(Given::Gives(Value::Nil)),
    }
}

/// Gives the singleton class of a value; a value that has none raises.
#[tactic(auto, using(rb_store::proofs::Keeping::keeps_itself))]
pub(crate) fn singleton_class(st: &mut Store, value: Value) -> Result<Given, AllocError>
    requires sound { Sound st.old.store }
    ensures keeps { Keeps st.old st.new }
    ensures answers { Answers st.old st.new result (λ w. definitions.singleton_class w (operands.own st.old.store value)) }
{
    let value = own(st, value);
    run_definitions::singleton_class(st, value)
}

/// Gives the class of that name in a scope, under a parent: the one that is there, or a new one. What can't be so
/// raises.
#[tactic(auto, using(rb_store::proofs::Keeping::keeps_itself))]
pub(crate) fn open_class(
    st: &mut Store,
    scope: Value,
    name: SymId,
    parent: Value,
) -> Result<Given, AllocError>
    requires sound { Sound st.old.store }
    ensures keeps { Keeps st.old st.new }
    ensures answers { Answers st.old st.new result (operands.with_symbol name (λ w.
        definitions.open_class w (operands.own st.old.store scope) name (operands.own st.old.store parent))) }
{
    let scope = own(st, scope);
    let parent = own(st, parent);
    match symbol(st, name) {
        Some(name) => run_definitions::open_class(st, scope, name, parent),
        None => Ok(Given::Gives(Value::Nil)),
    }
}

/// Gives the module of that name in a scope: the one that is there, or a new one. What can't be so raises.
#[tactic(auto, using(rb_store::proofs::Keeping::keeps_itself))]
pub(crate) fn open_module(st: &mut Store, scope: Value, name: SymId) -> Result<Given, AllocError>
    requires sound { Sound st.old.store }
    ensures keeps { Keeps st.old st.new }
    ensures answers { Answers st.old st.new result (operands.with_symbol name (λ w.
        definitions.open_module w (operands.own st.old.store scope) name)) }
{
    let scope = own(st, scope);
    match symbol(st, name) {
        Some(name) => run_definitions::open_module(st, scope, name),
        None => Ok(Given::Gives(Value::Nil)),
    }
}

/// Gives a method that is found one more name in a class or module, with its visibility. A name that isn't found
/// raises.
#[tactic(auto, using(rb_store::proofs::Keeping::keeps_itself))]
pub(crate) fn alias_method(
    st: &mut Store,
    class: ObjId,
    alias: SymId,
    name: SymId,
) -> Result<Given, AllocError>
    requires sound { Sound st.old.store }
    ensures keeps { Keeps st.old st.new }
    ensures answers { Answers st.old st.new result
        (operands.with_space class (operands.with_symbol alias (operands.with_symbol name (λ w. definitions.alias_method w class alias name)))) }
{
    let Some(class) = space(st, class) else {
        return Ok(Given::Gives(Value::Nil));
    };
    let Some(alias) = symbol(st, alias) else {
        return Ok(Given::Gives(Value::Nil));
    };
    match symbol(st, name) {
        Some(name) => run_definitions::alias_method(st, class, alias, name),
        None => Ok(Given::Gives(Value::Nil)),
    }
}

/// Ends the search for a method in a class or module with nothing. A name that isn't found raises.
#[tactic(auto, using(rb_store::proofs::Keeping::keeps_itself))]
pub(crate) fn undefine_method(
    st: &mut Store,
    class: ObjId,
    name: SymId,
) -> Result<Given, AllocError>
    requires sound { Sound st.old.store }
    ensures keeps { Keeps st.old st.new }
    ensures answers { Answers st.old st.new result
        (operands.with_space class (operands.with_symbol name (λ w. definitions.undefine_method w class name))) }
{
    let Some(class) = space(st, class) else {
        return Ok(Given::Gives(Value::Nil));
    };
    match symbol(st, name) {
        Some(name) => run_definitions::undefine_method(st, class, name),
        None => Ok(Given::Gives(Value::Nil)),
    }
}

/// Takes a method out of the own list of a class or module, so that what stands above is found.
#[tactic(auto, using(rb_store::proofs::Keeping::keeps_itself))]
pub(crate) fn remove_method(st: &mut Store, class: ObjId, name: SymId) -> Result<(), AllocError>
    requires sound { Sound st.old.store }
    ensures ok { OnOk result (st.new.store ≡ changes.without_method st.old.store class name) }
    ensures keeps { Keeps st.old st.new }
{
    match space(st, class) {
        Some(class) => run_definitions::remove_method(st, class, name),
        None => Ok(()),
    }
}

impl Heap {
    /// The symbol of a name, which is added where it isn't there.
    pub fn intern(&mut self, name: &[u8]) -> Result<SymId, AllocError>
        ensures symbol { IfOk result (λ s. s ≡ (defined.intern self.old.store name.now).symbol) }
        ensures store { OnOk result (self.new.store ≡ (defined.intern self.old.store name.now).store) }
        ensures changes { self.new.changes ≡ self.old.changes }
        ensures err { OnErr result (self.new.store ≡ self.old.store) }
    {
        intern(&mut self.st, name)
    }

    /// Defines a method of a class or module: a body of the program, by its number, with the list of classes around its
    /// text. It takes the default visibility, and its name is given.
    pub fn define_method(
        &mut self,
        class: ObjId,
        name: SymId,
        body: u32,
        around: u64,
    ) -> Result<Given, AllocError>
        ensures answers { Answers self.old self.new result
            (operands.with_space class (operands.with_symbol name (λ w. definitions.define_method w class name body around))) }
    {
        define_method(&mut self.st, class, name, body, around)
    }

    /// Gives the singleton class of a value; a value that has none raises.
    pub fn singleton_class(&mut self, value: Value) -> Result<Given, AllocError>
        ensures answers { Answers self.old self.new result (λ w. definitions.singleton_class w (operands.own self.old.store value)) }
    {
        singleton_class(&mut self.st, value)
    }

    /// Gives the class of that name in a scope, under a parent: the one that is there, or a new one. What can't be so
    /// raises.
    pub fn open_class(
        &mut self,
        scope: Value,
        name: SymId,
        parent: Value,
    ) -> Result<Given, AllocError>
        ensures answers { Answers self.old self.new result (operands.with_symbol name (λ w.
            definitions.open_class w (operands.own self.old.store scope) name (operands.own self.old.store parent))) }
    {
        open_class(&mut self.st, scope, name, parent)
    }

    /// Gives the module of that name in a scope: the one that is there, or a new one. What can't be so raises.
    pub fn open_module(&mut self, scope: Value, name: SymId) -> Result<Given, AllocError>
        ensures answers { Answers self.old self.new result (operands.with_symbol name (λ w.
            definitions.open_module w (operands.own self.old.store scope) name)) }
    {
        open_module(&mut self.st, scope, name)
    }

    /// Gives a method that is found one more name in a class or module, with its visibility. A name that isn't found
    /// raises.
    pub fn alias_method(
        &mut self,
        class: ObjId,
        alias: SymId,
        name: SymId,
    ) -> Result<Given, AllocError>
        ensures answers { Answers self.old self.new result
            (operands.with_space class (operands.with_symbol alias (operands.with_symbol name (λ w. definitions.alias_method w class alias name)))) }
    {
        alias_method(&mut self.st, class, alias, name)
    }

    /// Ends the search for a method in a class or module with nothing. A name that isn't found raises.
    pub fn undefine_method(&mut self, class: ObjId, name: SymId) -> Result<Given, AllocError>
        ensures answers { Answers self.old self.new result
            (operands.with_space class (operands.with_symbol name (λ w. definitions.undefine_method w class name))) }
    {
        undefine_method(&mut self.st, class, name)
    }

    /// Takes a method out of the own list of a class or module, so that what stands above is found.
    pub fn remove_method(&mut self, class: ObjId, name: SymId) -> Result<(), AllocError>
        ensures ok { OnOk result (self.new.store ≡ changes.without_method self.old.store class name) }
    {
        remove_method(&mut self.st, class, name)
    }
}
