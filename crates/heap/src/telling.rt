//! What `defined?` tells: a text of what is there, or nil.
ghost use Rattle.std.specs.Prelude.{◌≡◌, codes, is_some};
ghost use Rattle.def_core.specs.Sound.{Sound, census};
ghost use Rattle.def_calls.specs.Definitions as definitions;
ghost use Rattle.rb_store.specs.Keeps.{Keeps};
ghost use Rattle.run_values.specs.Answers.{Answers};
ghost use Rattle.run_definitions.specs.Enclosing.{AreEnclosing};
ghost use Rattle.heap.specs.Operands as operands;

use crate::heap::Heap;
use crate::testing::{own, symbol};
use rb_base::Bytes;
use rb_store::Store;
use rb_value::{ObjId, SymId, Value};
use run_definitions::{EnclosingLists, telling};
use run_values::{Given, make_text};
use std::alloc::AllocError;

/// Whether an instance variable of a value was set.
#[tactic(auto, using(rb_store::proofs::Keeping::keeps_itself))]
pub(crate) fn tell_variable(
    st: &mut Store,
    receiver: Value,
    name: SymId,
) -> Result<Given, AllocError>
    requires sound { Sound st.old.store }
    ensures keeps { Keeps st.old st.new }
    ensures answers { Answers st.old st.new result
        (λ w. definitions.instance_variable_told w (operands.own st.old.store receiver) name) }
{
    let receiver = own(st, receiver);
    telling::instance_variable(st, receiver, name)
}

/// Whether a name alone means a constant in a text with these enclosing classes.
#[tactic(auto, using(rb_store::proofs::Keeping::keeps_itself))]
pub(crate) fn tell_constant(
    st: &mut Store,
    lists: &EnclosingLists,
    number: u64,
    name: SymId,
) -> Result<Given, AllocError>
    requires sound { Sound st.old.store }
    requires lists { AreEnclosing (census st.old.store) lists.now }
    ensures keeps { Keeps st.old st.new }
{
    telling::constant(st, lists, number, name)
}

/// Whether a value is a class or module that has a constant, or whose ancestors have.
#[tactic(auto, using(rb_store::proofs::Keeping::keeps_itself))]
pub(crate) fn tell_constant_in(
    st: &mut Store,
    value: Value,
    name: SymId,
) -> Result<Given, AllocError>
    requires sound { Sound st.old.store }
    ensures keeps { Keeps st.old st.new }
    ensures answers { Answers st.old st.new result
        (λ w. definitions.constant_in_told w (operands.own st.old.store value) name) }
{
    let value = own(st, value);
    telling::constant_in(st, value, name)
}

/// Whether a caller may call a method of a receiver.
#[tactic(auto, using(rb_store::proofs::Keeping::keeps_itself))]
pub(crate) fn tell_method(
    st: &mut Store,
    caller: Value,
    receiver: Value,
    name: SymId,
) -> Result<Given, AllocError>
    requires sound { Sound st.old.store }
    ensures keeps { Keeps st.old st.new }
    ensures answers { Answers st.old st.new result (λ w.
        definitions.method_told w (operands.own st.old.store caller) (operands.own st.old.store receiver) name) }
{
    let caller = own(st, caller);
    let receiver = own(st, receiver);
    telling::method(st, caller, receiver, name)
}

/// A text where a condition holds, and else nil.
#[tactic(auto, using(rb_store::proofs::Keeping::keeps_itself))]
fn tell(st: &mut Store, holds: bool, text: &[u8]) -> Result<Given, AllocError>
    requires sound { Sound st.old.store }
    ensures keeps { Keeps st.old st.new }
    ensures answers { Answers st.old st.new result (λ w. definitions.text_if w text.now holds) }
{
    if holds {
        let bytes = Bytes::from_slice(st.alloc(), text)?;
        make_text(st, bytes)
    } else {
        Ok(Given::Gives(Value::Nil))
    }
}

impl Heap {
    /// A text where a condition holds, and else nil.
    pub fn tell(&mut self, holds: bool, text: &[u8]) -> Result<Given, AllocError>
        ensures answers { Answers self.old self.new result (λ w. definitions.text_if w text.now holds) }
    {
        tell(&mut self.st, holds, text)
    }

    /// Whether an instance variable of a value was set.
    pub fn tell_variable(&mut self, receiver: Value, name: SymId) -> Result<Given, AllocError>
        ensures answers { Answers self.old self.new result
            (λ w. definitions.instance_variable_told w (operands.own self.old.store receiver) name) }
    {
        tell_variable(&mut self.st, receiver, name)
    }

    /// Whether a name alone means a constant in a text with these enclosing classes.
    pub fn tell_constant(&mut self, number: u64, name: SymId) -> Result<Given, AllocError> {
        tell_constant(&mut self.st, &self.lists, number, name)
    }

    /// Whether a value is a class or module that has a constant, or whose ancestors have.
    pub fn tell_constant_in(&mut self, value: Value, name: SymId) -> Result<Given, AllocError>
        ensures answers { Answers self.old self.new result
            (λ w. definitions.constant_in_told w (operands.own self.old.store value) name) }
    {
        tell_constant_in(&mut self.st, value, name)
    }

    /// Whether a caller may call a method of a receiver.
    pub fn tell_method(
        &mut self,
        caller: Value,
        receiver: Value,
        name: SymId,
    ) -> Result<Given, AllocError>
        ensures answers { Answers self.old self.new result (λ w.
            definitions.method_told w (operands.own self.old.store caller) (operands.own self.old.store receiver) name) }
    {
        tell_method(&mut self.st, caller, receiver, name)
    }

    /// Whether a method was called with a block.
    pub fn tell_block(&mut self, block: Option<ObjId>) -> Result<Given, AllocError>
        ensures answers { Answers self.old self.new result
            (λ w. definitions.text_if w (codes "yield") (is_some block)) }
    {
        self.tell(block.is_some(), b"yield")
    }

    /// Whether a method stands above the one that runs.
    pub fn tell_super(
        &mut self,
        receiver: Value,
        owner: Option<ObjId>,
        name: Option<SymId>,
    ) -> Result<Given, AllocError>
        ensures answers { Answers self.old self.new result (λ w. definitions.text_if w (codes "super")
            (is_some (definitions.super_of w (operands.own self.old.store receiver) owner name))) }
    {
        let class = self.class_of(receiver);
        let holds = match (owner, name) {
            (Some(owner), Some(name)) => self.find_super(class, owner, name).is_some(),
            _ => false,
        };
        self.tell(holds, b"super")
    }
}
