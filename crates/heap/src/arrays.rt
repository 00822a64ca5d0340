//! Changes of Arrays.
ghost use Rattle.std.specs.Prelude.{◌≡◌, ◌-◌, length, slice_get, OnOk, OnErr};
ghost use Rattle.def_core.specs.Sound.{Sound, census};
ghost use Rattle.def_core.specs.Parts.{elements_at};
ghost use Rattle.rb_store.specs.Keeps.{Keeps};
ghost use Rattle.heap.specs.Changes as changes;

use crate::heap::Heap;
use crate::testing::{are_own, array, own};
use rb_store::Store;
use rb_value::{Items, ObjId, Value};
use std::alloc::AllocError;

/// Puts a value after the elements of an Array. Where memory runs out the Array is as before.
#[tactic(auto, using(rb_store::proofs::Keeping::keeps_itself, def_core::proofs::Good::is_good))]
pub(crate) fn push(st: &mut Store, id: ObjId, value: Value) -> Result<(), AllocError>
    requires sound { Sound st.old.store }
    ensures keeps { Keeps st.old st.new }
    ensures ok { OnOk result (st.new ≡ changes.pushed st.old id value) }
    ensures err { OnErr result (st.new ≡ st.old) }
{
    let value = own(st, value);
    match array(st, id) {
        Some(id) => st.push(id, value),
        None => Ok(()),
    }
}

/// Puts values after the elements of an Array. Where memory runs out the Array is as before.
#[tactic(auto, using(rb_store::proofs::Keeping::keeps_itself, def_core::proofs::Good::is_good))]
pub(crate) fn append(st: &mut Store, id: ObjId, values: &[Value]) -> Result<(), AllocError>
    requires sound { Sound st.old.store }
    ensures keeps { Keeps st.old st.new }
    ensures ok { OnOk result (st.new ≡ changes.appended st.old id values.now) }
    ensures err { OnErr result (st.new ≡ st.old) }
{
    if !are_own(st, values) {
        return Ok(());
    }
    match array(st, id) {
        Some(id) => st.append(id, values),
        None => Ok(()),
    }
}

/// Takes the last element of an Array.
#[tactic(auto, using(rb_store::proofs::Keeping::keeps_itself, def_core::proofs::Good::is_good))]
pub(crate) fn pop(st: &mut Store, id: ObjId) -> Option<Value>
    requires sound { Sound st.old.store }
    ensures keeps { Keeps st.old st.new }
    ensures last { result ≡ slice_get (elements_at st.old.store.objects id)
        (length (elements_at st.old.store.objects id) - 1) }
    ensures rest { st.new ≡ changes.popped st.old id }
{
    match array(st, id) {
        Some(id) => st.pop(id),
        None => None,
    }
}

/// Takes the first element of an Array.
#[tactic(auto, using(rb_store::proofs::Keeping::keeps_itself, def_core::proofs::Good::is_good))]
pub(crate) fn shift(st: &mut Store, id: ObjId) -> Option<Value>
    requires sound { Sound st.old.store }
    ensures keeps { Keeps st.old st.new }
    ensures first { result ≡ slice_get (elements_at st.old.store.objects id) 0 }
    ensures rest { st.new ≡ changes.shifted st.old id }
{
    match array(st, id) {
        Some(id) => st.shift(id),
        None => None,
    }
}

/// Puts a value before the elements of an Array. Where memory runs out the Array is as before.
#[tactic(auto, using(rb_store::proofs::Keeping::keeps_itself, def_core::proofs::Good::is_good))]
pub(crate) fn unshift(st: &mut Store, id: ObjId, value: Value) -> Result<(), AllocError>
    requires sound { Sound st.old.store }
    ensures keeps { Keeps st.old st.new }
    ensures ok { OnOk result (st.new ≡ changes.unshifted st.old id value) }
    ensures err { OnErr result (st.new ≡ st.old) }
{
    let value = own(st, value);
    match array(st, id) {
        Some(id) => st.unshift(id, value),
        None => Ok(()),
    }
}

/// Puts a value in the place of an element of an Array, where there is one at that place.
#[tactic(auto, using(rb_store::proofs::Keeping::keeps_itself, def_core::proofs::Good::is_good))]
pub(crate) fn set_element(st: &mut Store, id: ObjId, place: usize, value: Value)
    requires sound { Sound st.old.store }
    ensures keeps { Keeps st.old st.new }
    ensures set { st.new ≡ changes.with_element st.old id place value }
{
    let value = own(st, value);
    if let Some(id) = array(st, id) {
        if place < st.elements(id).len() {
            st.set_element(id, place, value);
        }
    }
}

/// Puts other elements in the place of all elements of an Array.
#[tactic(auto, using(rb_store::proofs::Keeping::keeps_itself, def_core::proofs::Good::is_good))]
pub(crate) fn replace_elements(st: &mut Store, id: ObjId, elements: Vec<Value>)
    requires sound { Sound st.old.store }
    ensures keeps { Keeps st.old st.new }
    ensures replaced { st.new ≡ changes.with_elements st.old id elements.items }
{
    if !are_own(st, &elements) {
        return;
    }
    if let Some(id) = array(st, id) {
        st.replace_elements(id, Items::from_vec(elements));
    }
}

impl Heap {
    /// Puts a value after the elements of an Array. Where memory runs out the Array is as before.
    #[inline(always)]
    pub fn push(&mut self, id: ObjId, value: Value) -> Result<(), AllocError>
        ensures ok { OnOk result (self.new ≡ changes.pushed self.old id value) }
        ensures err { OnErr result (self.new ≡ self.old) }
    {
        push(&mut self.st, id, value)
    }

    /// Puts values after the elements of an Array. Where memory runs out the Array is as before.
    pub fn append(&mut self, id: ObjId, values: &[Value]) -> Result<(), AllocError>
        ensures ok { OnOk result (self.new ≡ changes.appended self.old id values.now) }
        ensures err { OnErr result (self.new ≡ self.old) }
    {
        append(&mut self.st, id, values)
    }

    /// Takes the last element of an Array.
    pub fn pop(&mut self, id: ObjId) -> Option<Value>
        ensures last { result ≡ slice_get (elements_at self.old.store.objects id)
            (length (elements_at self.old.store.objects id) - 1) }
        ensures rest { self.new ≡ changes.popped self.old id }
    {
        pop(&mut self.st, id)
    }

    /// Takes the first element of an Array.
    pub fn shift(&mut self, id: ObjId) -> Option<Value>
        ensures first { result ≡ slice_get (elements_at self.old.store.objects id) 0 }
        ensures rest { self.new ≡ changes.shifted self.old id }
    {
        shift(&mut self.st, id)
    }

    /// Puts a value before the elements of an Array. Where memory runs out the Array is as before.
    pub fn unshift(&mut self, id: ObjId, value: Value) -> Result<(), AllocError>
        ensures ok { OnOk result (self.new ≡ changes.unshifted self.old id value) }
        ensures err { OnErr result (self.new ≡ self.old) }
    {
        unshift(&mut self.st, id, value)
    }

    /// Puts a value in the place of an element of an Array, where there is one at that place.
    #[inline(always)]
    pub fn set_element(&mut self, id: ObjId, place: usize, value: Value)
        ensures set { self.new ≡ changes.with_element self.old id place value }
    {
        set_element(&mut self.st, id, place, value);
    }

    /// Puts other elements in the place of all elements of an Array.
    pub fn replace_elements(&mut self, id: ObjId, elements: Vec<Value>)
        ensures replaced { self.new ≡ changes.with_elements self.old id elements.items }
    {
        replace_elements(&mut self.st, id, elements);
    }
}
