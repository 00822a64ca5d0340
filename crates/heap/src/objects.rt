//! Changes of single facts of objects.
ghost use Rattle.std.specs.Prelude.{◌≡◌, OnErr};
ghost use Rattle.rb_value.specs.declared.value.Value.TheVariants.{Obj};
ghost use Rattle.def_core.specs.Sound.{Sound, census};
ghost use Rattle.def_core.specs.Store.{object_at};
ghost use Rattle.def_calls.specs.Views as views;
ghost use Rattle.def_calls.specs.World.{World, with_store};
ghost use Rattle.def_calls.specs.Values as values;
ghost use Rattle.rb_store.specs.Keeps.{Keeps};
ghost use Rattle.run_values.specs.Answers.{Answers};
ghost use Rattle.heap.specs.Changes as changes;
ghost use Rattle.heap.specs.Operands as operands;

use crate::heap::Heap;
use crate::testing::{exception, fiber, object, own, symbol};
use rb_store::Store;
use rb_value::{Kind, KindRef, ObjId, SymId, Value};
use run_values::Given;
use std::alloc::AllocError;

/// The message and the detail of an exception; nil of another object.
#[tactic(auto, using(def_core::proofs::Good::is_good, def_core::proofs::Good::absent_where_none))]
fn held(st: &Store, id: ObjId) -> (Value, Value)
    ensures message { result.0 ≡ views.message_of (object_at st.now.store.objects id).kind }
    ensures detail { result.1 ≡ views.detail_of (object_at st.now.store.objects id).kind }
{
    match object(st, id) {
        Some(id) => match st.get(id).kind() {
            KindRef::Exception { message, detail } => (message, detail),
            _ => (Value::Nil, Value::Nil),
        },
        None => (Value::Nil, Value::Nil),
    }
}

/// Sets an instance variable of a value, and gives what it is set to; a value that can have none raises.
#[tactic(auto, using(rb_store::proofs::Keeping::keeps_itself))]
pub(crate) fn set_instance_variable(
    st: &mut Store,
    receiver: Value,
    name: SymId,
    value: Value,
) -> Result<Given, AllocError>
    requires sound { Sound st.old.store }
    ensures keeps { Keeps st.old st.new }
    ensures answers { Answers st.old st.new result (operands.with_symbol name (λ w.
        values.set_instance_variable w (operands.own st.old.store receiver) name (operands.own st.old.store value))) }
    ensures err { (id : ObjId) → operands.own st.old.store receiver ≡ Obj id → OnErr result (st.new ≡ st.old) }
{
    let receiver = own(st, receiver);
    let value = own(st, value);
    match symbol(st, name) {
        Some(name) => run_values::set_instance_variable(st, receiver, name, value),
        None => Ok(Given::Gives(Value::Nil)),
    }
}

/// Gives an exception another message.
#[tactic(auto, using(rb_store::proofs::Keeping::keeps_itself))]
pub(crate) fn set_message(st: &mut Store, id: ObjId, message: Value)
    requires sound { Sound st.old.store }
    ensures message { st.new ≡ changes.with_message st.old id message }
    ensures keeps { Keeps st.old st.new }
{
    let message = own(st, message);
    let detail = own(st, held(st, id).1);
    if let Some(id) = exception(st, id) {
        st.put_kind(id, Kind::Exception { message, detail });
    }
}

/// Gives an exception another detail: the name of a NameError, the status of a SystemExit, the result of a
/// StopIteration.
#[tactic(auto, using(rb_store::proofs::Keeping::keeps_itself))]
pub(crate) fn set_detail(st: &mut Store, id: ObjId, detail: Value)
    requires sound { Sound st.old.store }
    ensures detail { st.new ≡ changes.with_detail st.old id detail }
    ensures keeps { Keeps st.old st.new }
{
    let message = own(st, held(st, id).0);
    let detail = own(st, detail);
    if let Some(id) = exception(st, id) {
        st.put_kind(id, Kind::Exception { message, detail });
    }
}

/// Notes that a Proc was the block of a call that opened that activation, or none. Only the first call counts.
#[tactic(auto, using(rb_store::proofs::Keeping::keeps_itself, def_core::proofs::Good::is_good))]
pub(crate) fn send_proc(st: &mut Store, id: ObjId, activation: Option<u64>)
    requires sound { Sound st.old.store }
    ensures keeps { Keeps st.old st.new }
    ensures sent { st.new ≡ changes.with_sent st.old id activation }
{
    if let Some(id) = object(st, id) {
        st.send_proc(id, activation);
    }
}

/// Notes that a fiber has ended.
#[tactic(auto, using(rb_store::proofs::Keeping::keeps_itself, def_core::proofs::Good::is_good))]
pub(crate) fn end_fiber(st: &mut Store, id: ObjId)
    requires sound { Sound st.old.store }
    ensures keeps { Keeps st.old st.new }
    ensures ended { st.new ≡ changes.with_ended st.old id }
{
    if let Some(id) = fiber(st, id) {
        st.end_fiber(id);
    }
}

impl Heap {
    /// The value of an instance variable of a value; nil where it wasn't set.
    #[inline(always)]
    pub fn instance_variable(&self, receiver: Value, name: SymId) -> Value
        ensures { (w : World) →
            values.instance_variable (with_store w self.now.store) (operands.own self.now.store receiver) name ≡ result }
    {
        run_values::instance_variable(&self.st, own(&self.st, receiver), name)
    }

    /// Sets an instance variable of a value, and gives what it is set to; a value that can have none raises. Where memory
    /// runs out for an object, all is as before.
    #[inline(always)]
    pub fn set_instance_variable(
        &mut self,
        receiver: Value,
        name: SymId,
        value: Value,
    ) -> Result<Given, AllocError>
        ensures answers { Answers self.old self.new result (operands.with_symbol name (λ w.
            values.set_instance_variable w (operands.own self.old.store receiver) name (operands.own self.old.store value))) }
        ensures err { (id : ObjId) → operands.own self.old.store receiver ≡ Obj id → OnErr result (self.new ≡ self.old) }
    {
        set_instance_variable(&mut self.st, receiver, name, value)
    }

    /// Gives an exception another message.
    pub fn set_message(&mut self, id: ObjId, message: Value)
        ensures message { self.new ≡ changes.with_message self.old id message }
    {
        set_message(&mut self.st, id, message);
    }

    /// Gives an exception another detail: the name of a NameError, the status of a SystemExit, the result of a
    /// StopIteration.
    pub fn set_detail(&mut self, id: ObjId, detail: Value)
        ensures detail { self.new ≡ changes.with_detail self.old id detail }
    {
        set_detail(&mut self.st, id, detail);
    }

    /// Notes that a Proc was the block of a call that opened that activation, or none. Only the first call counts.
    #[inline(always)]
    pub fn send_proc(&mut self, id: ObjId, activation: Option<u64>)
        ensures sent { self.new ≡ changes.with_sent self.old id activation }
    {
        send_proc(&mut self.st, id, activation);
    }

    /// Notes that a fiber has ended.
    pub fn end_fiber(&mut self, id: ObjId)
        ensures ended { self.new ≡ changes.with_ended self.old id }
    {
        end_fiber(&mut self.st, id);
    }
}
