//! Values of forms: texts, symbols, elements of multiple assignment, splats.
ghost use Rattle.std.specs.Prelude.{◌≡◌, true, IfOk, OnOk, OnErr};
ghost use Rattle.def_core.specs.Sound.{Sound, census};
ghost use Rattle.def_core.specs.Store.{sort_at};
ghost use Rattle.def_calls.specs.World.{World, give, with_store};
ghost use Rattle.def_calls.specs.Values as values;
ghost use Rattle.rb_store.specs.Keeps.{Keeps};
ghost use Rattle.run_values.specs.Answers.{Answers};
ghost use Rattle.heap.specs.Operands as operands;

use crate::heap::Heap;
use crate::testing::{array, own};
use rb_store::Store;
use rb_value::{ObjId, Value};
use run_values::Given;
use std::alloc::AllocError;

/// Gives the symbol of a text.
#[tactic(auto, using(rb_store::proofs::Keeping::keeps_itself))]
pub(crate) fn make_symbol(st: &mut Store, value: Value) -> Result<Given, AllocError>
    requires sound { Sound st.old.store }
    ensures keeps { Keeps st.old st.new }
    ensures answers { Answers st.old st.new result (λ w. values.make_symbol w (operands.own st.old.store value)) }
{
    let value = own(st, value);
    run_values::make_symbol(st, value)
}

/// The values that a splat stands for.
#[tactic(auto, using(rb_store::proofs::Keeping::keeps_itself))]
pub(crate) fn splat(st: &mut Store, value: Value) -> Result<Vec<Value>, AllocError>
    requires sound { Sound st.old.store }
    ensures keeps { Keeps st.old st.new }
    ensures values { IfOk result (λ list. list.items ≡ (values.splat st.old.store (operands.own st.old.store value)).values) }
    ensures store { OnOk result (st.new.store ≡ (values.splat st.old.store (operands.own st.old.store value)).store) }
    ensures err { OnErr result (st.new.store ≡ st.old.store) }
{
    let value = own(st, value);
    run_values::splat(st, value)
}

/// Puts the values that a splat stands for after the elements of an Array.
#[tactic(auto, using(rb_store::proofs::Keeping::keeps_itself))]
pub(crate) fn push_splat(st: &mut Store, id: ObjId, value: Value) -> Result<(), AllocError>
    requires sound { Sound st.old.store }
    ensures keeps { Keeps st.old st.new }
    ensures array { operands.is_array (sort_at st.old.store.objects id) ≡ true →
        OnOk result (st.new.store ≡ values.push_splat (values.splat st.old.store (operands.own st.old.store value)) id) }
{
    let value = own(st, value);
    match array(st, id) {
        Some(id) => run_values::push_splat(st, id, value),
        None => Ok(()),
    }
}

/// Gives a new Array of the elements without so many at the front and so many at the end.
#[tactic(auto, using(rb_store::proofs::Keeping::keeps_itself))]
pub(crate) fn elements_between(
    st: &mut Store,
    value: Value,
    front: usize,
    end: usize,
) -> Result<Given, AllocError>
    requires sound { Sound st.old.store }
    ensures keeps { Keeps st.old st.new }
    ensures answers { Answers st.old st.new result
        (λ w. values.elements_between w (operands.own st.old.store value) front end) }
{
    let value = own(st, value);
    run_values::elements_between(st, value, front, end)
}

/// Gives a new Array of the last elements, so many, but none of those before a place.
#[tactic(auto, using(rb_store::proofs::Keeping::keeps_itself))]
pub(crate) fn last_elements(
    st: &mut Store,
    value: Value,
    front: usize,
    count: usize,
) -> Result<Given, AllocError>
    requires sound { Sound st.old.store }
    ensures keeps { Keeps st.old st.new }
    ensures answers { Answers st.old st.new result
        (λ w. values.last_elements w (operands.own st.old.store value) front count) }
{
    let value = own(st, value);
    run_values::last_elements(st, value, front, count)
}

impl Heap {
    /// What a value is in a text: the bytes of a String, and what stands for any other value.
    pub fn text_of_value(&self, value: Value) -> Result<Vec<u8>, AllocError>
        ensures { IfOk result (λ text. text.items ≡ values.text_of_value self.now.store (operands.own self.now.store value)) }
    {
        run_values::text_of_value(&self.st, own(&self.st, value))
    }

    /// Gives the symbol of a text.
    pub fn make_symbol(&mut self, value: Value) -> Result<Given, AllocError>
        ensures answers { Answers self.old self.new result (λ w. values.make_symbol w (operands.own self.old.store value)) }
    {
        make_symbol(&mut self.st, value)
    }

    /// The values that a splat stands for.
    pub fn splat(&mut self, value: Value) -> Result<Vec<Value>, AllocError>
        ensures values { IfOk result (λ list. list.items ≡ (values.splat self.old.store (operands.own self.old.store value)).values) }
        ensures store { OnOk result (self.new.store ≡ (values.splat self.old.store (operands.own self.old.store value)).store) }
        ensures err { OnErr result (self.new.store ≡ self.old.store) }
    {
        splat(&mut self.st, value)
    }

    /// Puts the values that a splat stands for after the elements of an Array.
    pub fn push_splat(&mut self, id: ObjId, value: Value) -> Result<(), AllocError>
        ensures array { operands.is_array (sort_at self.old.store.objects id) ≡ true →
            OnOk result (self.new.store ≡ values.push_splat (values.splat self.old.store (operands.own self.old.store value)) id) }
    {
        push_splat(&mut self.st, id, value)
    }

    /// The element of a value at a place, from the end where the place is negative; nil outside. A value that is no
    /// Array counts as an Array of itself.
    pub fn element(&self, value: Value, place: i64) -> Value
        ensures { (w : World) → values.element (with_store w self.now.store) (operands.own self.now.store value) place
            ≡ give (with_store w self.now.store) result }
    {
        run_values::element(&self.st, own(&self.st, value), place)
    }

    /// Gives a new Array of the elements without so many at the front and so many at the end.
    pub fn elements_between(
        &mut self,
        value: Value,
        front: usize,
        end: usize,
    ) -> Result<Given, AllocError>
        ensures answers { Answers self.old self.new result
            (λ w. values.elements_between w (operands.own self.old.store value) front end) }
    {
        elements_between(&mut self.st, value, front, end)
    }

    /// Gives a new Array of the last elements, so many, but none of those before a place.
    pub fn last_elements(
        &mut self,
        value: Value,
        front: usize,
        count: usize,
    ) -> Result<Given, AllocError>
        ensures answers { Answers self.old self.new result
            (λ w. values.last_elements w (operands.own self.old.store value) front count) }
    {
        last_elements(&mut self.st, value, front, count)
    }
}
