//! Texts: interpolation, where a value that isn't a String stands as its class, and names of symbols.
ghost use Rattle.std.specs.Prelude.{◌≡◌, ◌++◌, codes, IfOk, OnOk, OnErr};
ghost use Rattle.rb_value.specs.declared.kind.Sort.TheVariants as sorts;
ghost use Rattle.def_core.specs.Store.{sort_at};
ghost use Rattle.def_core.specs.Classes.{plain_class_of as class_of};
ghost use Rattle.def_core.specs.Texts as texts;
ghost use Rattle.def_core.specs.Sound.{Sound, census, Is, Any, IsValue};
ghost use Rattle.rb_store.specs.Keeps.{Keeps};
ghost use Rattle.def_calls.specs.Values as values;
ghost use Rattle.run_values.specs.Answers.{Answers};

use crate::answering::wrong_value;
use crate::given::Given;
use crate::kinds::a_string;
use class_model::plain_class_of;
use rb_raise::class_name;
use rb_store::Store;
use rb_value::{ObjId, Value};
use std::alloc::AllocError;

/// What a value that isn't a String stands as.
fn class_text(st: &Store, value: Value) -> Result<Vec<u8>, AllocError>
    requires sound { Sound st.now.store }
    requires value { IsValue (census st.now.store) value }
    ensures { IfOk result (λ text. text.items ≡
        codes "#<" ++ texts.class_name st.now.store (class_of st.now.store.objects value) ++ codes ">") }
{
    let mut text = Vec::from_slice(st.alloc(), b"#<")?;
    text.extend_from_slice(class_name(st, plain_class_of(st, value)))?;
    text.extend_from_slice(b">")?;
    Ok(text)
}

/// The bytes of a String, and the class in `#<` and `>` of any other value.
#[tactic(auto, unfolding(def_calls::specs::Values::text_of_value), using(def_core::proofs::Good::is_good, crate::proofs::Strings::string_there, crate::proofs::Strings::no_string))]
pub fn text_of_value(st: &Store, value: Value) -> Result<Vec<u8>, AllocError>
    requires sound { Sound st.now.store }
    requires value { IsValue (census st.now.store) value }
    ensures { IfOk result (λ text. text.items ≡ values.text_of_value st.now.store value) }
{
    match a_string(st, value) {
        Some(id) => Ok(Vec::from_slice(st.alloc(), st.text(id))?),
        None => {
            let text = class_text(st, value)?;
            Ok(text)
        }
    }
}

/// Puts a value, as it stands in a text, at the end of a String. Where memory runs out the store is as before.
#[tactic(auto, using(def_core::proofs::Good::is_good, rb_store::proofs::Keeping::keeps_itself))]
pub fn append_text(st: &mut Store, id: ObjId, value: Value) -> Result<(), AllocError>
    requires sound { Sound st.old.store }
    requires there { Is (census st.old.store) Any id }
    requires string { sort_at st.old.store.objects id ≡ sorts.String }
    requires value { IsValue (census st.old.store) value }
    ensures ok { OnOk result (st.new.store ≡
        values.appended st.old.store id (values.text_of_value st.old.store value)) }
    ensures changes { st.new.changes ≡ st.old.changes }
    ensures err { OnErr result (st.new.store ≡ st.old.store) }
    ensures keeps { Keeps st.old st.new }
{
    let text = text_of_value(st, value)?;
    st.append_bytes(id, &text)?;
    Ok(())
}

/// Gives the Symbol whose name a String is. What is no String raises.
#[tactic(auto, using(def_core::proofs::Good::is_good, crate::proofs::Strings::string_there, crate::proofs::Strings::no_string, rb_store::proofs::Keeping::keeps_itself))]
pub fn make_symbol(st: &mut Store, value: Value) -> Result<Given, AllocError>
    requires sound { Sound st.old.store }
    requires value { IsValue (census st.old.store) value }
    ensures { Answers st.old st.new result (λ w. values.make_symbol w value) }
{
    match a_string(st, value) {
        Some(id) => {
            let name = Vec::from_slice(st.alloc(), st.text(id))?;
            let symbol = st.intern(&name)?;
            Ok(Given::Gives(Value::Sym(symbol)))
        }
        None => wrong_value(st, b"INTERN"),
    }
}
