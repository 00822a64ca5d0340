//! Elements, for multiple assignment: a value that is no Array counts as an Array of itself.
ghost use Rattle.std.specs.Prelude.{◌≡◌, ◌-◌, ◌∷◌, [], length, drop, take, max, OnErr};
ghost use Rattle.def_core.specs.Sound.{Sound, census, IsValue, AllAre};
ghost use Rattle.def_calls.specs.World.{World, give, with_store};
ghost use Rattle.def_calls.specs.Values as values;
ghost use Rattle.run_values.specs.Answers.{Answers};

use crate::given::Given;
use crate::kinds::elements_of;
use crate::making::make_items;
use rb_store::Store;
use rb_value::Value;
use std::alloc::AllocError;

/// The elements of an Array, and of any other value that value alone, which is handed in as a list too. It takes no
/// memory.
#[tactic(auto, using(crate::proofs::Members::elements_are))]
pub fn elements_or_itself<'a>(st: &'a Store, value: Value, own: &'a [Value]) -> &'a [Value]
    requires sound { Sound st.now.store }
    requires value { IsValue (census st.now.store) value }
    requires own { own.now ≡ value ∷ [] }
    ensures elements { (w : World) → result.now ≡ values.elements_or_itself (with_store w st.now.store) value }
    ensures belong { AllAre (IsValue (census st.now.store)) result.now }
{
    match elements_of(st, value) {
        Some(elements) => elements,
        None => own,
    }
}

/// The element at a place, from the end where the place is negative; nil outside.
pub fn element_at(elements: &[Value], place: i64) -> Value
    ensures { result ≡ values.element_at elements.now place }
{
    if place >= 0 {
        return elements.get(place as usize).copied().unwrap_or(Value::Nil);
    }
    let back = place.unsigned_abs() as usize;
    if back <= elements.len() {
        elements[elements.len() - back]
    } else {
        Value::Nil
    }
}

/// The element at a place, from the end where the place is negative; nil outside. It takes no memory.
#[tactic(auto, unfolding(def_calls::specs::Values::element), using(crate::proofs::Members::element_is))]
pub fn element(st: &Store, value: Value, place: i64) -> Value
    requires sound { Sound st.now.store }
    requires value { IsValue (census st.now.store) value }
    ensures given { (w : World) →
        values.element (with_store w st.now.store) value place ≡ give (with_store w st.now.store) result }
    ensures belongs { IsValue (census st.now.store) result }
{
    let own = [value];
    element_at(elements_or_itself(st, value, &own), place)
}

/// The elements without so many at the front and so many at the end.
fn between(elements: &[Value], front: usize, end: usize) -> &[Value]
    ensures { result.now ≡ drop front (take (length elements.now - end) elements.now) }
{
    let stop = elements.len().saturating_sub(end);
    if front < stop {
        &elements[front..stop]
    } else {
        &[]
    }
}

/// Gives a new Array of the elements without so many at the front and so many at the end. Where memory runs out the
/// store is as before.
#[tactic(auto, unfolding(def_calls::specs::Values::elements_between), using(rb_store::proofs::Keeping::keeps_itself, def_core::proofs::PartsSound::all_first, def_core::proofs::PartsSound::all_rest))]
pub fn elements_between(
    st: &mut Store,
    value: Value,
    front: usize,
    end: usize,
) -> Result<Given, AllocError>
    requires sound { Sound st.old.store }
    requires value { IsValue (census st.old.store) value }
    ensures answers { Answers st.old st.new result (λ w. values.elements_between w value front end) }
    ensures err { OnErr result (st.new.store ≡ st.old.store) }
{
    let own = [value];
    let elements = elements_or_itself(st, value, &own);
    let items = Vec::from_slice(st.alloc(), between(elements, front, end))?;
    make_items(st, items)
}

/// The last elements, so many, but none of those before a place.
fn last(elements: &[Value], front: usize, count: usize) -> &[Value]
    ensures { result.now ≡ drop (max front (length elements.now - count)) elements.now }
{
    let start = front.max(elements.len().saturating_sub(count));
    if start < elements.len() {
        &elements[start..]
    } else {
        &[]
    }
}

/// Gives a new Array of the last elements, so many, but none of those before a place. Where memory runs out the store
/// is as before.
#[tactic(auto, unfolding(def_calls::specs::Values::last_elements), using(rb_store::proofs::Keeping::keeps_itself, def_core::proofs::PartsSound::all_rest))]
pub fn last_elements(
    st: &mut Store,
    value: Value,
    front: usize,
    count: usize,
) -> Result<Given, AllocError>
    requires sound { Sound st.old.store }
    requires value { IsValue (census st.old.store) value }
    ensures answers { Answers st.old st.new result (λ w. values.last_elements w value front count) }
    ensures err { OnErr result (st.new.store ≡ st.old.store) }
{
    let own = [value];
    let elements = elements_or_itself(st, value, &own);
    let items = Vec::from_slice(st.alloc(), last(elements, front, count))?;
    make_items(st, items)
}
