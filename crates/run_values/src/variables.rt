//! Instance variables: one that was never set is nil, and only objects have them.
ghost use Rattle.std.specs.Prelude.{◌≡◌, OnErr};
ghost use Rattle.rb_value.specs.declared.value.ObjId.{ObjId};
ghost use Rattle.rb_value.specs.declared.value.Value.TheVariants.{Obj};
ghost use Rattle.def_core.specs.Sound.{Sound, census, IsSymbol, IsValue};
ghost use Rattle.def_calls.specs.World.{World, with_store};
ghost use Rattle.def_calls.specs.Values as values;
ghost use Rattle.run_values.specs.Answers.{Answers};

use crate::answering::fail;
use crate::given::Given;
use def_core::Cause;
use rb_store::Store;
use rb_value::{SymId, Value};
use std::alloc::AllocError;

/// The value of an instance variable. It takes no memory.
#[tactic(auto, unfolding(def_calls::specs::Values::instance_variable), using(def_core::proofs::Good::is_good, crate::proofs::Members::variable_is))]
pub fn instance_variable(st: &Store, self_value: Value, name: SymId) -> Value
    requires sound { Sound st.now.store }
    requires self_value { IsValue (census st.now.store) self_value }
    ensures value { (w : World) → values.instance_variable (with_store w st.now.store) self_value name ≡ result }
    ensures belongs { IsValue (census st.now.store) result }
{
    match self_value {
        Value::Obj(id) => st.variable(id, name).unwrap_or(Value::Nil),
        _ => Value::Nil,
    }
}

/// Sets an instance variable, and gives its value. What is no object raises. Where memory runs out for an object, the store
/// is as before.
#[tactic(auto, unfolding(def_calls::specs::Values::set_instance_variable), using(def_core::proofs::Good::is_good, rb_store::proofs::Keeping::keeps_itself))]
pub fn set_instance_variable(
    st: &mut Store,
    self_value: Value,
    name: SymId,
    value: Value,
) -> Result<Given, AllocError>
    requires sound { Sound st.old.store }
    requires self_value { IsValue (census st.old.store) self_value }
    requires name { IsSymbol (census st.old.store) name }
    requires value { IsValue (census st.old.store) value }
    ensures answers { Answers st.old st.new result (λ w. values.set_instance_variable w self_value name value) }
    ensures err { (id : ObjId) → self_value ≡ Obj id → OnErr result (st.new ≡ st.old) }
{
    match self_value {
        Value::Obj(id) => {
            st.set_variable(id, name, value)?;
            Ok(Given::Gives(value))
        }
        _ => fail(st, Cause::NoVariable),
    }
}
