//! Keys of Hashes: Strings are keys by their bytes and Arrays by their elements, down to 10,000 levels.
ghost use Rattle.std.specs.Prelude.{◌≡◌, IfOk};
ghost use Rattle.def_core.specs.Parts.{elements_at};
ghost use Rattle.def_core.specs.Sound.{Sound, SoundKey, census, Is, Array, IsValue, OptionIs};
ghost use Rattle.def_calls.specs.Values as values;

use crate::key_parts::parts_of_elements;
use crate::kinds::{a_string, an_array};
use key_list::KeyList;
use rb_store::Store;
use rb_value::{Key, ObjId, Value};
use std::alloc::AllocError;

/// How many levels of Arrays may be nested in a key that is an Array.
const NESTED_LEVELS: u64 = 9999;

/// The key of a Hash that an Array is; nothing where Arrays are nested too deep.
fn array_key(st: &Store, id: ObjId) -> Result<Option<Key>, AllocError>
    requires sound { Sound st.now.store }
    requires array { Is (census st.now.store) Array id }
    ensures key { IfOk result (λ key. key ≡ values.key_of_parts (values.all_parts
        (λ u. values.parts_of 9998 st.now.store.objects u) (elements_at st.now.store.objects id))) }
    ensures sound { IfOk result (OptionIs (SoundKey (census st.now.store))) }
{
    let parts = parts_of_elements(st, id, NESTED_LEVELS)?;
    match parts {
        Some(parts) => Ok(Some(Key::Array(parts))),
        None => Ok(None),
    }
}

/// The key of a Hash that a value is; nothing where Arrays are nested too deep.
#[tactic(auto, unfolding(def_calls::specs::Values::key_of), using(def_core::proofs::Good::is_good, crate::proofs::Strings::array_there, crate::proofs::Strings::no_array, crate::proofs::Strings::string_there, crate::proofs::Strings::no_string))]
pub fn key_of(st: &Store, value: Value) -> Result<Option<Key>, AllocError>
    requires sound { Sound st.now.store }
    requires value { IsValue (census st.now.store) value }
    ensures key { IfOk result (λ key. key ≡ values.key_of st.now.store.objects value) }
    ensures sound { IfOk result (OptionIs (SoundKey (census st.now.store))) }
{
    if let Some(id) = an_array(st, value) {
        return array_key(st, id);
    }
    match a_string(st, value) {
        Some(id) => Ok(Some(Key::Text(KeyList::from_slice(st.alloc(), st.text(id))?))),
        None => Ok(Some(Key::Plain(value))),
    }
}
