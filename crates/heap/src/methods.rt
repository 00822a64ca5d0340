//! Methods of classes and modules.
ghost use Rattle.std.specs.Prelude.{◌≡◌, OnOk, OnErr};
ghost use Rattle.def_core.specs.Changes as defined;
ghost use Rattle.def_core.specs.Classes.{class_at};
ghost use Rattle.def_core.specs.Find.{entry_of};
ghost use Rattle.def_core.specs.Sound.{Sound, census, Is, ClassOrModule, IsSymbol, IsValue};
ghost use Rattle.def_calls.specs.World.{answer};
ghost use Rattle.rb_store.specs.Keeps.{Keeps};
ghost use Rattle.run_values.specs.Answers.{Answers};
ghost use Rattle.heap.specs.Changes as changes;
ghost use Rattle.heap.specs.Operands as operands;

use crate::heap::Heap;
use crate::testing::{own, own_method, space, symbol};
use rb_store::Store;
use rb_value::{Method, MethodEntry, ObjId, SymId, Value, Visibility};
use run_values::{Given, answer};
use std::alloc::AllocError;

/// Gives a class or module a method.
#[tactic(auto, using(rb_store::proofs::Keeping::keeps_itself))]
pub(crate) fn set_method(
    st: &mut Store,
    class: ObjId,
    name: SymId,
    method: Method,
    visibility: Visibility,
) -> Result<(), AllocError>
    requires sound { Sound st.old.store }
    ensures ok { OnOk result (st.new.store ≡ changes.with_method st.old.store class name method visibility) }
    ensures err { OnErr result (st.new.store ≡ st.old.store) }
    ensures keeps { Keeps st.old st.new }
{
    let Some(class) = space(st, class) else {
        return Ok(());
    };
    let Some(name) = symbol(st, name) else {
        return Ok(());
    };
    match own_method(st, method) {
        Some(method) => class_model::set_method(st, class, name, method, visibility),
        None => Ok(()),
    }
}

/// Sets the visibility of the next methods of a class or module.
#[tactic(auto, using(rb_store::proofs::Keeping::keeps_itself))]
pub(crate) fn set_default(st: &mut Store, class: ObjId, visibility: Visibility)
    requires sound { Sound st.old.store }
    ensures store { st.new.store ≡ changes.with_default st.old.store class visibility }
    ensures keeps { Keeps st.old st.new }
{
    if let Some(class) = space(st, class) {
        class_model::set_default(st, class, visibility);
    }
}

/// Gives a method that a class or module finds another visibility there; a name that isn't found raises.
#[tactic(auto, using(rb_store::proofs::Keeping::keeps_itself))]
pub(crate) fn set_visibility(
    st: &mut Store,
    class: ObjId,
    name: SymId,
    visibility: Visibility,
) -> Result<Given, AllocError>
    requires sound { Sound st.old.store }
    ensures answers { Answers st.old st.new result (operands.with_space class (operands.with_symbol name
        (λ w. answer w (defined.set_visibility w.store class name visibility)))) }
    ensures keeps { Keeps st.old st.new }
{
    let Some(class) = space(st, class) else {
        return Ok(Given::Gives(Value::Nil));
    };
    let Some(name) = symbol(st, name) else {
        return Ok(Given::Gives(Value::Nil));
    };
    change_visibility(st, class, name, visibility)
}

/// Gives a method that a class or module finds another visibility there; a name that isn't found raises.
fn change_visibility(
    st: &mut Store,
    class: ObjId,
    name: SymId,
    visibility: Visibility,
) -> Result<Given, AllocError>
    requires sound { Sound st.old.store }
    requires class { Is (census st.old.store) ClassOrModule class }
    requires name { IsSymbol (census st.old.store) name }
    ensures { Answers st.old st.new result (λ w. answer w (defined.set_visibility w.store class name visibility)) }
{
    let outcome = class_model::set_visibility(st, class, name, visibility)?;
    answer(st, outcome)
}

/// Includes a module in a class or module; what is no module raises.
#[tactic(auto, using(rb_store::proofs::Keeping::keeps_itself))]
pub(crate) fn include(st: &mut Store, class: ObjId, mixin: Value) -> Result<Given, AllocError>
    requires sound { Sound st.old.store }
    ensures answers { Answers st.old st.new result (operands.with_space class
        (λ w. answer w (defined.include w.store class (operands.own st.old.store mixin)))) }
    ensures keeps { Keeps st.old st.new }
{
    let mixin = own(st, mixin);
    let Some(class) = space(st, class) else {
        return Ok(Given::Gives(Value::Nil));
    };
    include_module(st, class, mixin)
}

/// Includes a module in a class or module; what is no module raises.
fn include_module(st: &mut Store, class: ObjId, mixin: Value) -> Result<Given, AllocError>
    requires sound { Sound st.old.store }
    requires class { Is (census st.old.store) ClassOrModule class }
    requires mixin { IsValue (census st.old.store) mixin }
    ensures { Answers st.old st.new result (λ w. answer w (defined.include w.store class mixin)) }
{
    let outcome = class_model::include(st, class, mixin)?;
    answer(st, outcome)
}

impl Heap {
    /// Gives a class or module a method.
    pub fn set_method(
        &mut self,
        class: ObjId,
        name: SymId,
        method: Method,
        visibility: Visibility,
    ) -> Result<(), AllocError>
        ensures ok { OnOk result (self.new.store ≡ changes.with_method self.old.store class name method visibility) }
        ensures err { OnErr result (self.new.store ≡ self.old.store) }
    {
        set_method(&mut self.st, class, name, method, visibility)
    }

    /// The visibility of the next method of a class or module.
    #[tactic(auto, using(crate::proofs::Spaces::no_space))]
    pub fn default_visibility(&self, class: ObjId) -> Visibility
        ensures { result ≡ (class_at self.now.store.objects class).visibility }
    {
        match space(&self.st, class) {
            Some(class) => class_model::default_visibility(&self.st, class),
            None => Visibility::Public,
        }
    }

    /// Sets the visibility of the next methods of a class or module.
    pub fn set_default(&mut self, class: ObjId, visibility: Visibility)
        ensures store { self.new.store ≡ changes.with_default self.old.store class visibility }
    {
        set_default(&mut self.st, class, visibility);
    }

    /// Gives a method that a class or module finds another visibility there; a name that isn't found raises.
    pub fn set_visibility(
        &mut self,
        class: ObjId,
        name: SymId,
        visibility: Visibility,
    ) -> Result<Given, AllocError>
        ensures answers { Answers self.old self.new result (operands.with_space class (operands.with_symbol name
            (λ w. answer w (defined.set_visibility w.store class name visibility)))) }
    {
        set_visibility(&mut self.st, class, name, visibility)
    }

    /// The method that a class or module has itself under a name.
    #[tactic(auto, using(crate::proofs::Spaces::no_space))]
    pub fn own_entry(&self, class: ObjId, name: SymId) -> Option<MethodEntry>
        ensures { result ≡ entry_of self.now.store.objects class name }
    {
        class_model::own_entry(&self.st, space(&self.st, class)?, name)
    }

    /// Includes a module in a class or module; what is no module raises.
    pub fn include(&mut self, class: ObjId, mixin: Value) -> Result<Given, AllocError>
        ensures answers { Answers self.old self.new result (operands.with_space class
            (λ w. answer w (defined.include w.store class (operands.own self.old.store mixin)))) }
    {
        include(&mut self.st, class, mixin)
    }
}
