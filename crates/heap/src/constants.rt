//! Constants, and the lists of classes whose bodies enclose a text.
ghost use Rattle.std.specs.Prelude.{◌≡◌, true};
ghost use Rattle.def_core.specs.Sound.{Sound, census, IsValue, OptionIs};
ghost use Rattle.def_calls.specs.Constants as constants;
ghost use Rattle.def_calls.specs.World.{World, with_store};
ghost use Rattle.rb_store.specs.Keeps.{Keeps};
ghost use Rattle.run_values.specs.Answers.{Answers};
ghost use Rattle.run_definitions.specs.Enclosing.{AreEnclosing};
ghost use Rattle.heap.specs.Constants as found;
ghost use Rattle.heap.specs.Operands as operands;

use crate::failing::fail;
use crate::heap::Heap;
use crate::testing::{own, space, symbol};
use def_core::Cause;
use rb_store::Store;
use rb_value::{CoreClass, ObjId, SymId, Value};
use run_definitions::EnclosingLists;
use run_values::Given;
use std::alloc::AllocError;

/// Sets a constant of a class or module; a class without a name takes that of its constant.
#[tactic(auto, using(rb_store::proofs::Keeping::keeps_itself))]
pub(crate) fn set_constant_in(
    st: &mut Store,
    class: ObjId,
    name: SymId,
    value: Value,
) -> Result<Given, AllocError>
    requires sound { Sound st.old.store }
    ensures keeps { Keeps st.old st.new }
    ensures answers { Answers st.old st.new result
        (operands.with_space class (operands.with_symbol name (λ w. constants.set_constant_in w class name (operands.own st.old.store value)))) }
{
    let value = own(st, value);
    let Some(class) = space(st, class) else {
        return Ok(Given::Gives(Value::Nil));
    };
    match symbol(st, name) {
        Some(name) => run_definitions::set_constant_in(st, class, name, value),
        None => Ok(Given::Gives(Value::Nil)),
    }
}

/// Gives a constant that was found, or raises, where what is told of the scope is that it isn't Object.
#[tactic(auto, using(rb_store::proofs::Keeping::keeps_itself))]
fn given_constant(
    st: &mut Store,
    constant: Option<Value>,
    scope: ObjId,
    name: SymId,
) -> Result<Given, AllocError>
    requires sound { Sound st.old.store }
    requires belongs { OptionIs (IsValue (census st.old.store)) constant }
    ensures keeps { Keeps st.old st.new }
    ensures answers { Answers st.old st.new result (λ w. found.constant_given w constant scope name) }
{
    match constant {
        Some(value) => Ok(Given::Gives(value)),
        None => {
            let object = st.class_object(CoreClass::Object);
            let scope = if scope == object { None } else { Some(scope) };
            fail(st, Cause::UninitializedConstant { scope, name })
        }
    }
}

impl Heap {
    /// Adds the list of enclosing classes with one class more, and gives its number.
    pub fn open_list(&mut self, class: ObjId, around: u64) -> Result<u64, AllocError> {
        match space(&self.st, class) {
            Some(class) => self.lists.open(class, around),
            None => Ok(around),
        }
    }

    /// The class in which a method is defined: the innermost of a list, and Object outside of all.
    pub fn class_around(&self, number: u64) -> ObjId {
        self.lists.class_around(number)
    }

    /// The constant that a name alone means in a text with these enclosing classes; one that isn't found raises, and
    /// the innermost of the classes is told.
    pub fn get_constant(&mut self, number: u64, name: SymId) -> Result<Given, AllocError> {
        let constant = self.find_constant(number, name);
        let scope = self.class_around(number);
        given_constant(&mut self.st, constant, scope, name)
    }

    /// The constant of a class or module or of an ancestor; one that isn't found raises.
    pub fn get_constant_in(&mut self, class: ObjId, name: SymId) -> Result<Given, AllocError>
        ensures answers { Answers self.old self.new result
            (λ w. found.constant_given w (found.constant_within w class name) class name) }
    {
        let constant = self.constant_within(class, name);
        given_constant(&mut self.st, constant, class, name)
    }

    /// The constant of a class or module or of an ancestor.
    pub fn constant_within(&self, class: ObjId, name: SymId) -> Option<Value>
        ensures constant { (w : World) → result ≡ found.constant_within (with_store w self.now.store) class name }
        ensures belongs { OptionIs (IsValue (census self.now.store)) result }
    {
        run_definitions::constant_within(&self.st, space(&self.st, class)?, name)
    }

    /// The constant that a name alone means in a text with these enclosing classes.
    pub fn find_constant(&self, number: u64, name: SymId) -> Option<Value>
        ensures belongs { OptionIs (IsValue (census self.now.store)) result }
    {
        run_definitions::find_constant(&self.st, &self.lists, number, name)
    }

    /// Sets a constant of a class or module; a class without a name takes that of its constant.
    pub fn set_constant_in(
        &mut self,
        class: ObjId,
        name: SymId,
        value: Value,
    ) -> Result<Given, AllocError>
        ensures answers { Answers self.old self.new result
            (operands.with_space class (operands.with_symbol name (λ w. constants.set_constant_in w class name (operands.own self.old.store value)))) }
    {
        self.constants = self.constants.saturating_add(1);
        set_constant_in(&mut self.st, class, name, value)
    }

    /// Sets a constant of the innermost of the enclosing classes.
    pub fn set_constant(
        &mut self,
        number: u64,
        name: SymId,
        value: Value,
    ) -> Result<Given, AllocError> {
        let class = self.class_around(number);
        self.set_constant_in(class, name, value)
    }
}
