//! Setting constants. A class or module without a name takes that of its constant, after the name of the scope.
ghost use Rattle.std.specs.Prelude.{◌≡◌, OnOk};
ghost use Rattle.def_core.specs.Sound.{Sound, census, Is, ClassOrModule, IsSymbol, IsValue};
ghost use Rattle.rb_store.specs.Keeps.{Keeps};
ghost use Rattle.def_calls.specs.Constants as constants;
ghost use Rattle.def_calls.specs.Definitions as definitions;
ghost use Rattle.run_values.specs.Answers.{Answers};
ghost use Rattle.run_definitions.specs.Enclosing.{AreEnclosing, AnswersAmong};

use crate::definitions::space_in;
use crate::enclosing::EnclosingLists;
use crate::renaming::name_class;
use rb_store::Store;
use rb_value::{ObjId, SymId, Value};
use run_values::Given;
use std::alloc::AllocError;

/// Gives a value that is a class or module without a name that of a constant of the scope.
#[tactic(auto, using(rb_store::proofs::Keeping::keeps_itself))]
fn name_value(st: &mut Store, scope: ObjId, name: SymId, value: Value) -> Result<(), AllocError>
    requires sound { Sound st.old.store }
    requires scope { Is (census st.old.store) ClassOrModule scope }
    requires name { IsSymbol (census st.old.store) name }
    requires value { IsValue (census st.old.store) value }
    ensures ok { OnOk result (st.new.store ≡ constants.with_name_of st.old.store scope name
        (definitions.space_in st.old.store.objects value)) }
    ensures keeps { Keeps st.old st.new }
{
    match space_in(st, value) {
        Some(class) => {
            name_class(st, scope, name, class)?;
            Ok(())
        }
        None => Ok(()),
    }
}

/// Sets a constant of a class or module, and gives its value.
#[tactic(auto, using(rb_store::proofs::Keeping::keeps_itself, rb_store::proofs::Keeping::keeps_then))]
pub fn set_constant_in(
    st: &mut Store,
    scope: ObjId,
    name: SymId,
    value: Value,
) -> Result<Given, AllocError>
    requires sound { Sound st.old.store }
    requires scope { Is (census st.old.store) ClassOrModule scope }
    requires name { IsSymbol (census st.old.store) name }
    requires value { IsValue (census st.old.store) value }
    ensures { Answers st.old st.new result (λ w. constants.set_constant_in w scope name value) }
{
    name_value(st, scope, name, value)?;
    st.put_constant(scope, name, value)?;
    Ok(Given::Gives(value))
}

/// Sets a constant of the innermost class around a text, and gives its value.
pub fn set_constant(
    st: &mut Store,
    lists: &EnclosingLists,
    number: u64,
    name: SymId,
    value: Value,
) -> Result<Given, AllocError>
    requires sound { Sound st.old.store }
    requires lists { AreEnclosing (census st.old.store) lists.now }
    requires name { IsSymbol (census st.old.store) name }
    requires value { IsValue (census st.old.store) value }
    ensures { AnswersAmong lists.now st.old st.new result (λ w. constants.set_constant w number name value) }
{
    let class = lists.class_around(number);
    set_constant_in(st, class, name, value)
}
