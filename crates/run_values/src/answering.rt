//! Answers of outcomes and of causes.
ghost use Rattle.std.specs.Prelude.{◌≡◌, false, OnErr};
ghost use Rattle.rb_value.specs.CoreClass.{is_module};
ghost use Rattle.def_core.specs.Store as store;
ghost use Rattle.def_core.specs.Sound.{Sound, census, Is, String, IsValue, IsOutcome};
ghost use Rattle.rb_raise.specs.Causes.{SoundCause};
ghost use Rattle.def_calls.specs.World as world;
ghost use Rattle.def_calls.specs.Values as values;
ghost use Rattle.run_values.specs.Answers.{Answers};
ghost use Rattle.run_values.specs.Raisable.{IsRaisable};

use crate::given::Given;
use def_core::Cause;
use rb_raise::raise;
use rb_store::Store;
use rb_value::{Failure, Kind, Object, Outcome, Value};
use std::alloc::AllocError;

/// Raises the exception of a failure, a new object.
#[tactic(auto, using(crate::proofs::Made::exception_sound, crate::proofs::Made::new_is, rb_store::proofs::Keeping::keeps_itself))]
fn raise_failure(st: &mut Store, failure: Failure) -> Result<Given, AllocError>
    requires sound { Sound st.old.store }
    requires class { is_module failure.class ≡ false }
    requires message { Is (census st.old.store) String failure.message }
    requires detail { IsValue (census st.old.store) failure.detail }
    ensures answers { Answers st.old st.new result (λ w. record {
      result = world.raises (store.next_number w.store);
      world = world.with_store w (store.with_object w.store (world.exception_object failure));
    }) }
    ensures err { OnErr result (st.new.store ≡ st.old.store) }
{
    let class = st.class_object(failure.class);
    let kind = Kind::Exception {
        message: Value::Obj(failure.message),
        detail: failure.detail,
    };
    let id = st.add(Object::new(class, kind))?;
    Ok(Given::Raises(id))
}

/// Gives the value of an outcome, or raises the exception of its failure. Where memory runs out the store is as before.
#[tactic(auto, using(rb_store::proofs::Keeping::keeps_itself))]
pub fn answer(st: &mut Store, outcome: Outcome) -> Result<Given, AllocError>
    requires sound { Sound st.old.store }
    requires belongs { IsOutcome (census st.old.store) outcome }
    requires raisable { IsRaisable outcome }
    ensures answers { Answers st.old st.new result (λ w. world.answer_in w w.store outcome) }
    ensures err { OnErr result (st.new.store ≡ st.old.store) }
{
    match outcome {
        Outcome::Value(value) => Ok(Given::Gives(value)),
        Outcome::Raise(failure) => raise_failure(st, failure),
    }
}

/// Raises by a cause, whose text and exception are new objects.
pub fn fail(st: &mut Store, cause: Cause) -> Result<Given, AllocError>
    requires sound { Sound st.old.store }
    requires cause { SoundCause (census st.old.store) cause }
    ensures { Answers st.old st.new result (λ w. world.fail w cause) }
{
    let outcome = raise(st, cause)?;
    answer(st, outcome)
}

/// Raises since an instruction of that name meets a value that it isn't made for.
pub fn wrong_value(st: &mut Store, instruction: &[u8]) -> Result<Given, AllocError>
    requires { Sound st.old.store }
    ensures { Answers st.old st.new result (λ w. values.wrong_value w instruction.now) }
{
    let symbol = st.intern(instruction)?;
    fail(st, Cause::WrongValue(symbol))
}
