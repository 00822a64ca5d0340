//! Raising by a cause.
ghost use Rattle.std.specs.Prelude.{◌≡◌, IfOk, OnOk, OnErr};
ghost use Rattle.rb_value.specs.declared.core_class.CoreClass.TheVariants as classes;
ghost use Rattle.rb_value.specs.declared.kind.Kind.TheVariants as kinds;
ghost use Rattle.def_core.specs.Store.{core, fresh, next_number, with_object};
ghost use Rattle.def_core.specs.Changes.{fails};
ghost use Rattle.def_core.specs.Sound.{Sound, census, Is, String, IsOutcome};
ghost use Rattle.rb_store.specs.Keeps.{Keeps};
ghost use Rattle.rb_raise.specs.Causes.{SoundCause};

use crate::messages::text_of;
use def_core::Cause;
use rb_base::Bytes;
use rb_store::Store;
use rb_value::{CoreClass, Failure, Kind, ObjId, Object, Outcome, SmallBytes};
use std::alloc::AllocError;

/// Puts a String with those bytes after the other objects, and gives its number. Where memory runs out the store is
/// as before.
#[tactic(auto, using(crate::proofs::Strings::string_is, rb_store::proofs::Keeping::keeps_itself))]
pub fn new_string(st: &mut Store, bytes: Bytes) -> Result<ObjId, AllocError>
    requires { Sound st.old.store }
    ensures number { IfOk result (λ id. id ≡ next_number st.old.store) }
    ensures ok { OnOk result (st.new.store ≡
        with_object st.old.store (fresh (core classes.String) (kinds.String bytes))) }
    ensures changes { st.new.changes ≡ st.old.changes }
    ensures err { OnErr result (st.new.store ≡ st.old.store) }
    ensures keeps { Keeps st.old st.new }
    ensures string { IfOk result (Is (census st.new.store) String) }
{
    let kind = Kind::String(SmallBytes::from_vec(bytes.into_vec()));
    let string = Object::new(st.class_object(CoreClass::String), kind);
    let id = st.add(string)?;
    Ok(id)
}

/// Raises by a cause: puts a String with its text after the other objects, and gives the failure from which the
/// exception is made, with the class and the detail of the cause. What the cause names is of the store. Where memory
/// runs out the store is as before.
#[tactic(auto, unfolding(def_core::specs::Changes::fails), using(rb_store::proofs::Keeping::keeps_itself, crate::proofs::Strings::raised_belongs))]
pub fn raise(st: &mut Store, cause: Cause) -> Result<Outcome, AllocError>
    requires sound { Sound st.old.store }
    requires cause { SoundCause (census st.old.store) cause }
    ensures outcome { IfOk result (λ o. o ≡ (fails st.old.store cause).outcome) }
    ensures store { OnOk result (st.new.store ≡ (fails st.old.store cause).store) }
    ensures changes { st.new.changes ≡ st.old.changes }
    ensures err { OnErr result (st.new.store ≡ st.old.store) }
    ensures keeps { Keeps st.old st.new }
    ensures belongs { IfOk result (IsOutcome (census st.new.store)) }
{
    let text = text_of(st, cause)?;
    let message = new_string(st, text.into_bytes())?;
    Ok(Outcome::Raise(Failure {
        class: cause.class(),
        message,
        detail: cause.detail(),
    }))
}
