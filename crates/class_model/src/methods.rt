//! The methods of a class or module, and the visibility of the next one.
ghost use Rattle.std.specs.Prelude.{◌≡◌, IfOk, OnOk, OnErr};
ghost use Rattle.rb_base.specs.Steps.{one_more};
ghost use Rattle.def_core.specs.Classes.{class_at};
ghost use Rattle.def_core.specs.Find.{entry_of};
ghost use Rattle.def_core.specs.Changes as defined;
ghost use Rattle.def_core.specs.Sound.{Sound, census, Is, ClassOrModule, IsSymbol, SoundMethod, IsOutcome};
ghost use Rattle.rb_store.specs.Keeps.{Keeps};
ghost use Rattle.class_model.specs.Methods.{method_of};

use crate::failing::fail;
use crate::finding::find;
use def_core::Cause;
use rb_base::Steps;
use rb_store::Store;
use rb_value::{KindRef, Method, MethodEntry, ObjId, Outcome, SymId, Value, Visibility};
use std::alloc::AllocError;

/// Puts a method into the own list of a class or module (ISO/IEC 30170:2012, 13.3). `initialize` is private whatever
/// the visibility. Where memory runs out the objects are as before.
#[tactic(auto, using(def_core::proofs::Good::is_good, def_core::proofs::Roles::is_plays))]
pub fn set_method(
    st: &mut Store,
    class: ObjId,
    name: SymId,
    method: Method,
    visibility: Visibility,
) -> Result<(), AllocError>
    requires sound { Sound st.old.store }
    requires class { Is (census st.old.store) ClassOrModule class }
    requires name { IsSymbol (census st.old.store) name }
    requires method { SoundMethod (census st.old.store) method }
    ensures ok { OnOk result (st.new.store ≡ defined.with_method st.old.store class name method visibility) }
    ensures err { OnErr result (st.new.store ≡ st.old.store) }
    ensures keeps { Keeps st.old st.new }
{
    st.put_method(class, name, method, visibility)?;
    Ok(())
}

/// Sets the visibility of the next methods of a class or module. It takes no memory.
#[tactic(auto, using(def_core::proofs::Good::is_good, def_core::proofs::Roles::is_plays))]
pub fn set_default(st: &mut Store, class: ObjId, visibility: Visibility)
    requires sound { Sound st.old.store }
    requires class { Is (census st.old.store) ClassOrModule class }
    ensures store { st.new.store ≡
        record st.old.store { objects = defined.with_default st.old.store.objects class visibility } }
    ensures keeps { Keeps st.old st.new }
{
    st.put_default(class, visibility);
}

/// The visibility of the next method of a class or module. It takes no memory.
#[tactic(auto, using(def_core::proofs::Good::is_good))]
pub fn default_visibility(st: &Store, class: ObjId) -> Visibility
    requires { Is (census st.now.store) ClassOrModule class }
    ensures { result ≡ (class_at st.now.store.objects class).visibility }
{
    match st.get(class).kind() {
        KindRef::Class(contents) => contents.get().visibility,
        _ => Visibility::Public,
    }
}

/// What the own list of a class or module has under the name. It takes no memory.
#[tactic(auto, using(def_core::proofs::Good::is_good))]
pub fn own_entry(st: &Store, class: ObjId, name: SymId) -> Option<MethodEntry>
    requires { Is (census st.now.store) ClassOrModule class }
    ensures { result ≡ entry_of st.now.store.objects class name }
{
    match st.get(class).kind() {
        KindRef::Class(contents) => contents.get().methods.get(name),
        _ => None,
    }
}

/// The method under the name in the own list of a class or module. This is one probe, and ticks once. It takes no
/// memory.
pub fn own_method(st: &Store, class: ObjId, name: SymId, steps: &mut Steps) -> Option<Method>
    requires { Is (census st.now.store) ClassOrModule class }
    ensures method { result ≡ method_of (entry_of st.now.store.objects class name) }
    ensures probe { steps.new ≡ one_more steps.old }
{
    steps.tick();
    match own_entry(st, class, name) {
        Some(entry) => Some(entry.method),
        None => None,
    }
}

/// Sets the visibility of the method that is found under the name; where another class or module has it, the class
/// gets an entry of its own. `initialize` stays private. It gives nil. A name that isn't found is a NameError. Where
/// memory runs out all is as before.
#[tactic(auto, unfolding(def_core::specs::Changes::set_visibility), using(crate::proofs::Found::found_is_sound))]
pub fn set_visibility(
    st: &mut Store,
    class: ObjId,
    name: SymId,
    visibility: Visibility,
) -> Result<Outcome, AllocError>
    requires sound { Sound st.old.store }
    requires class { Is (census st.old.store) ClassOrModule class }
    requires name { IsSymbol (census st.old.store) name }
    ensures outcome { IfOk result (λ o. o ≡ (defined.set_visibility st.old.store class name visibility).outcome) }
    ensures store { OnOk result (st.new.store ≡ (defined.set_visibility st.old.store class name visibility).store) }
    ensures belongs { IfOk result (IsOutcome (census st.new.store)) }
    ensures err { OnErr result (st.new.store ≡ st.old.store) }
    ensures keeps { Keeps st.old st.new }
{
    match find(st, class, name) {
        Some(found) => {
            set_method(st, class, name, found.method, visibility)?;
            Ok(Outcome::Value(Value::Nil))
        }
        None => {
            let outcome = fail(st, Cause::UndefinedInClass { name, class })?;
            Ok(outcome)
        }
    }
}
