//! Raising, with what the calls that define classes promise.
ghost use Rattle.std.specs.Prelude.{◌≡◌, IfOk, OnOk, OnErr};
ghost use Rattle.def_core.specs.Changes.{fails};
ghost use Rattle.def_core.specs.Sound.{Sound, census, IsOutcome};
ghost use Rattle.rb_store.specs.Keeps.{Keeps};
ghost use Rattle.rb_raise.specs.Causes.{SoundCause};
ghost use Rattle.class_model.specs.Given.{GivesClass};

use def_core::Cause;
use rb_raise::raise;
use rb_store::Store;
use rb_value::Outcome;
use std::alloc::AllocError;

/// Raises by a cause. Where memory runs out all is as before.
#[tactic(auto, unfolding(def_core::specs::Changes::fails), using(crate::proofs::Belongs::raised_gives))]
pub(crate) fn fail(st: &mut Store, cause: Cause) -> Result<Outcome, AllocError>
    requires sound { Sound st.old.store }
    requires cause { SoundCause (census st.old.store) cause }
    ensures outcome { IfOk result (λ o. o ≡ (fails st.old.store cause).outcome) }
    ensures store { OnOk result (st.new.store ≡ (fails st.old.store cause).store) }
    ensures class { IfOk result (GivesClass (census st.new.store)) }
    ensures belongs { IfOk result (IsOutcome (census st.new.store)) }
    ensures err { OnErr result (st.new.store ≡ st.old.store) }
    ensures keeps { Keeps st.old st.new }
{
    let outcome = raise(st, cause)?;
    Ok(outcome)
}
