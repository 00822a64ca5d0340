//! Copies of objects.
ghost use Rattle.std.specs.Prelude.{◌≡◌, false, IfOk, OnOk};
ghost use Rattle.rb_value.specs.declared.value.Value.TheVariants.{Obj};
ghost use Rattle.def_core.specs.Store.{next_number, object_at};
ghost use Rattle.def_calls.specs.Views as views;
ghost use Rattle.def_core.specs.Sound.{Sound};
ghost use Rattle.rb_store.specs.Keeps.{Keeps};
ghost use Rattle.heap.specs.Copies as copies;
ghost use Rattle.heap.specs.Made as made;
ghost use Rattle.heap.specs.Reading as reading;

use crate::heap::Heap;
use crate::making::Blank;
use crate::testing::{object, own, symbol};
use rb_store::Store;
use rb_value::{ObjId, Sort, Value, Variable};
use std::alloc::AllocError;

impl Heap {
    /// A new object of the same class with the same contents and instance variables; a value that has none, and a
    /// singleton class, are given themselves. A copy of a class or module has no name, that of a fiber hasn't begun, and
    /// that of an Enumerator is as newly made.
    #[tactic(auto, unfolding(crate::specs::Copies::copied, crate::specs::Copies::copy_of))]
    pub fn copy(&mut self, value: Value) -> Result<Value, AllocError>
        ensures value { IfOk result (λ v. v ≡ copies.copy_of self.old.store value) }
        ensures store { OnOk result (self.new.store ≡ copies.copied self.old.store value) }
        ensures count { copies.is_new_space (reading.sort_of_value self.old.store value) ≡ false
            → OnOk result (self.new.changes ≡ self.old.changes) }
    {
        let Value::Obj(id) = value else {
            return Ok(value);
        };
        match self.copy_contents(id)? {
            Some(made) => {
                self.copy_variables(id, made)?;
                Ok(Value::Obj(made))
            }
            None => Ok(value),
        }
    }

    /// A new object with the contents of another, without its instance variables.
    #[tactic(auto, unfolding(crate::specs::Copies::contents_copied, crate::specs::Copies::contents_number))]
    fn copy_contents(&mut self, id: ObjId) -> Result<Option<ObjId>, AllocError>
        ensures number { IfOk result (λ made. made
            ≡ copies.contents_number self.old.store id (reading.sort_of_value self.old.store (Obj id))) }
        ensures made { OnOk result (self.new.store ≡ copies.contents_copied self.old.store (copies.class_for self.old.store id) id
            (reading.sort_of_value self.old.store (Obj id))) }
        ensures count { copies.is_new_space (reading.sort_of_value self.old.store (Obj id)) ≡ false
            → OnOk result (self.new.changes ≡ self.old.changes) }
    {
        let class = self.plain_class_of(Value::Obj(id));
        match self.sort(Value::Obj(id)) {
            Some(Sort::Plain) => Ok(Some(self.make_object(class, Blank::Plain)?)),
            Some(Sort::Class) => Ok(Some(self.copy_class(id)?)),
            Some(Sort::Module) => Ok(Some(self.copy_module(id)?)),
            Some(Sort::String) => Ok(Some(self.copy_string(class, id)?)),
            Some(Sort::Array) => Ok(Some(self.copy_array(class, id)?)),
            Some(Sort::Hash) => Ok(Some(self.copy_hash(class, id)?)),
            Some(Sort::Range) => self.copy_range(class, id),
            Some(Sort::Proc) => self.copy_any_proc(id),
            Some(Sort::Fiber) => self.copy_fiber(class, id),
            Some(Sort::Exception) => Ok(Some(self.copy_exception(class, id)?)),
            Some(Sort::Enumerator) => self.copy_enumerator(class, id),
            Some(Sort::Yielder) => self.copy_yielder(id),
            Some(Sort::Singleton) | None => Ok(None),
        }
    }

    /// The number of a new object of a class with nothing in it.
    fn make_object(&mut self, class: ObjId, blank: Blank) -> Result<ObjId, AllocError>
        ensures number { IfOk result (λ id. id ≡ next_number self.old.store) }
        ensures made { OnOk result (self.new ≡ made.with_blank self.old class blank) }
    {
        match self.make_blank(class, blank)? {
            Value::Obj(id) => Ok(id),
            _ => unreachable!(),
        }
    }

    /// A String of a class with the bytes of another.
    #[tactic(auto, using(crate::proofs::Copied::bytes_left, crate::proofs::Copied::bytes_count))]
    fn copy_string(&mut self, class: ObjId, id: ObjId) -> Result<ObjId, AllocError>
        ensures number { IfOk result (λ own. own ≡ next_number self.old.store) }
        ensures made { OnOk result (self.new.store ≡ copies.text_copied self.old.store class id) }
        ensures count { OnOk result (self.new.changes ≡ self.old.changes) }
    {
        let bytes = Vec::from_slice(self.alloc(), self.text(id))?;
        let own = self.make_object(class, Blank::String)?;
        self.replace_text(own, bytes);
        Ok(own)
    }

    /// An Array of a class with the elements of another.
    #[tactic(auto, using(crate::proofs::Copied::elements_left, crate::proofs::Copied::elements_count))]
    fn copy_array(&mut self, class: ObjId, id: ObjId) -> Result<ObjId, AllocError>
        ensures number { IfOk result (λ own. own ≡ next_number self.old.store) }
        ensures made { OnOk result (self.new.store ≡ copies.array_copied self.old.store class id) }
        ensures count { OnOk result (self.new.changes ≡ self.old.changes) }
    {
        let elements = Vec::from_slice(self.alloc(), self.elements(id))?;
        let own = self.make_object(class, Blank::Array)?;
        self.replace_elements(own, elements);
        Ok(own)
    }

    /// A Hash of a class with the pairs of another, and what that gives for an absent key.
    #[tactic(auto, using(crate::proofs::Copied::absent_left, crate::proofs::Copied::absent_count))]
    fn copy_hash(&mut self, class: ObjId, id: ObjId) -> Result<ObjId, AllocError>
        ensures number { IfOk result (λ own. own ≡ next_number self.old.store) }
        ensures made { OnOk result (self.new.store ≡ copies.hash_copied self.old.store class id) }
        ensures count { OnOk result (self.new.changes ≡ self.old.changes) }
    {
        let (default, block) = self.absent_of(id);
        let own = self.make_object(class, Blank::Hash)?;
        self.set_absent(own, default, block);
        self.add_pairs(own, id)?;
        Ok(own)
    }

    /// Puts the pairs of a Hash into another, under the keys that they have there.
    #[tactic(auto, using(crate::proofs::Copied::steps_more, crate::proofs::Copied::steps_end))]
    fn add_pairs(&mut self, to: ObjId, from: ObjId) -> Result<(), AllocError>
        ensures put { OnOk result (self.new.store ≡ copies.with_pairs self.old.store to from) }
        ensures count { OnOk result (self.new.changes ≡ self.old.changes) }
    {
        let count = self.pair_count(from);
        'pairs: for place in 0..count {
            self.add_pair(to, from, place)?;
        }
        Ok(())
    }

    /// An exception of a class with the message and the detail of another.
    fn copy_exception(&mut self, class: ObjId, id: ObjId) -> Result<ObjId, AllocError>
        ensures number { IfOk result (λ own. own ≡ next_number self.old.store) }
        ensures made { OnOk result (self.new.store
            ≡ copies.exception_copied self.old.store class (object_at self.old.store.objects id).kind) }
        ensures count { OnOk result (self.new.changes ≡ self.old.changes) }
    {
        let message = self.message_of(id);
        let detail = self.detail_of(id);
        self.make_exception(class, message, detail)
    }

    /// A Range of a class with the ends of another.
    fn copy_range(&mut self, class: ObjId, id: ObjId) -> Result<Option<ObjId>, AllocError>
        ensures number { IfOk result (λ own. own
            ≡ copies.range_number self.old.store (reading.range_in (object_at self.old.store.objects id).kind)) }
        ensures made { OnOk result (self.new.store
            ≡ copies.range_copied self.old.store class (reading.range_in (object_at self.old.store.objects id).kind)) }
        ensures count { OnOk result (self.new.changes ≡ self.old.changes) }
    {
        match self.range_of(Value::Obj(id)) {
            Some(contents) => Ok(Some(self.make_range_of(class, contents)?)),
            None => Ok(None),
        }
    }

    /// A Proc with the body or the row of another.
    #[tactic(auto, using(crate::proofs::Copied::proc_left, crate::proofs::Copied::proc_count))]
    fn copy_any_proc(&mut self, id: ObjId) -> Result<Option<ObjId>, AllocError>
        ensures number { IfOk result (λ own. own ≡ copies.proc_number self.old.store id
            (reading.core_proc_in self.old.store (object_at self.old.store.objects id).kind)) }
        ensures made { OnOk result (self.new.store ≡ copies.proc_copied self.old.store id
            (reading.core_proc_in self.old.store (object_at self.old.store.objects id).kind)) }
        ensures count { OnOk result (self.new.changes ≡ self.old.changes) }
    {
        let lambda = match self.proc_of(id) {
            Some(contents) => contents.lambda,
            None => false,
        };
        match self.core_proc_of(id) {
            Some((row, kept)) => Ok(Some(self.make_core_proc(row, kept)?)),
            None => self.copy_proc(id, lambda),
        }
    }

    /// A fiber of a class that runs the Proc of another.
    #[tactic(auto, using(crate::proofs::Copied::fiber_left, crate::proofs::Copied::fiber_count))]
    fn copy_fiber(&mut self, class: ObjId, id: ObjId) -> Result<Option<ObjId>, AllocError>
        ensures number { IfOk result (λ own. own
            ≡ copies.fiber_number self.old.store (views.fiber_of (object_at self.old.store.objects id).kind)) }
        ensures made { OnOk result (self.new.store
            ≡ copies.fiber_copied self.old.store class (views.fiber_of (object_at self.old.store.objects id).kind)) }
        ensures count { OnOk result (self.new.changes ≡ self.old.changes) }
    {
        match self.fiber_of(id) {
            Some((block, _)) => self.make_fiber(class, block),
            None => Ok(None),
        }
    }

    /// An Enumerator of a class with the source of another, as newly made.
    #[tactic(auto, using(crate::proofs::Copied::enumerator_left, crate::proofs::Copied::enumerator_count))]
    fn copy_enumerator(&mut self, class: ObjId, id: ObjId) -> Result<Option<ObjId>, AllocError>
        ensures number { IfOk result (λ own. own
            ≡ copies.enumerator_number self.old.store (reading.source_in (object_at self.old.store.objects id).kind)) }
        ensures made { OnOk result (self.new.store
            ≡ copies.enumerator_copied self.old.store class (reading.source_in (object_at self.old.store.objects id).kind)) }
        ensures count { OnOk result (self.new.changes ≡ self.old.changes) }
    {
        match self.source_of(id)? {
            Some(source) => Ok(Some(self.make_enumerator(class, source)?)),
            None => Ok(None),
        }
    }

    /// A Yielder that gives its items to the Proc of another.
    #[tactic(auto, using(crate::proofs::Copied::yielder_left, crate::proofs::Copied::yielder_count))]
    fn copy_yielder(&mut self, id: ObjId) -> Result<Option<ObjId>, AllocError>
        ensures number { IfOk result (λ own. own
            ≡ copies.yielder_number self.old.store (reading.yielder_in (object_at self.old.store.objects id).kind)) }
        ensures made { OnOk result (self.new.store
            ≡ copies.yielder_copied self.old.store (reading.yielder_in (object_at self.old.store.objects id).kind)) }
        ensures count { OnOk result (self.new.changes ≡ self.old.changes) }
    {
        match self.yielder_of(id) {
            Some(block) => self.make_yielder(block),
            None => Ok(None),
        }
    }

    /// Sets the instance variables of an object on another.
    fn copy_variables(&mut self, id: ObjId, made: ObjId) -> Result<(), AllocError>
        ensures set { OnOk result (self.new.store
            ≡ copies.with_variables self.old.store made (object_at self.old.store.objects id).variables) }
        ensures count { OnOk result (self.new.changes ≡ self.old.changes) }
    {
        let variables: Vec<Variable> = Vec::from_slice(self.alloc(), self.variables(id))?;
        self.set_variables(made, &variables)
    }

    /// Sets instance variables of an object, one after another.
    fn set_variables(&mut self, made: ObjId, variables: &[Variable]) -> Result<(), AllocError>
        ensures set { OnOk result (self.new.store ≡ copies.with_variables self.old.store made variables.now) }
        ensures count { OnOk result (self.new.changes ≡ self.old.changes) }
    {
        'variables: for variable in variables {
            self.set_variable(made, *variable)?;
        }
        Ok(())
    }

    /// Sets an instance variable of an object, if there is such a one.
    fn set_variable(&mut self, made: ObjId, variable: Variable) -> Result<(), AllocError>
        ensures set { OnOk result (self.new.store ≡ copies.with_variable self.old.store made variable) }
        ensures count { OnOk result (self.new.changes ≡ self.old.changes) }
    {
        set_variable(&mut self.st, made, variable)
    }
}

/// Sets an instance variable of an object, if there is such a one.
#[tactic(auto, using(rb_store::proofs::Keeping::keeps_itself, def_core::proofs::Good::is_good))]
fn set_variable(st: &mut Store, made: ObjId, variable: Variable) -> Result<(), AllocError>
    requires sound { Sound st.old.store }
    ensures set { OnOk result (st.new.store ≡ copies.with_variable st.old.store made variable) }
    ensures count { OnOk result (st.new.changes ≡ st.old.changes) }
    ensures keeps { Keeps st.old st.new }
{
    let value = own(st, variable.value);
    match (object(st, made), symbol(st, variable.name)) {
        (Some(id), Some(name)) => st.set_variable(id, name, value),
        _ => Ok(()),
    }
}
