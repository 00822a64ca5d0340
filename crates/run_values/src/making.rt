//! Answers that are new objects.
ghost use Rattle.std.specs.Prelude.{◌≡◌, length, OnErr};
ghost use Rattle.def_core.specs.Sound.{Sound, SoundObject, census, AllAre, IsValue};
ghost use Rattle.def_rows.specs.Answers.{items_object, text_object};
ghost use Rattle.def_calls.specs.World as world;
ghost use Rattle.run_values.specs.Answers.{Answers};

use crate::given::Given;
use rb_base::Bytes;
use rb_store::Store;
use rb_value::{CoreClass, Items, Kind, Object, SmallBytes, Value};
use std::alloc::AllocError;

/// Gives a new object. Where memory runs out the store is as before.
#[tactic(auto, using(crate::proofs::Made::new_is, rb_store::proofs::Keeping::keeps_itself))]
pub fn make(st: &mut Store, object: Object) -> Result<Given, AllocError>
    requires sound { Sound st.old.store }
    requires object { SoundObject (census st.old.store) (length st.old.store.objects) object }
    ensures answers { Answers st.old st.new result (λ w. world.make w object) }
    ensures err { OnErr result (st.new.store ≡ st.old.store) }
{
    let id = st.add(object)?;
    Ok(Given::Gives(Value::Obj(id)))
}

/// Gives a new Array. Where memory runs out the store is as before.
#[tactic(auto, using(crate::proofs::Made::items_sound))]
pub fn make_items(st: &mut Store, items: Vec<Value>) -> Result<Given, AllocError>
    requires sound { Sound st.old.store }
    requires items { AllAre (IsValue (census st.old.store)) items.items }
    ensures answers { Answers st.old st.new result (λ w. world.make w (items_object items.items)) }
    ensures err { OnErr result (st.new.store ≡ st.old.store) }
{
    let class = st.class_object(CoreClass::Array);
    make(st, Object::new(class, Kind::Array(Items::from_vec(items))))
}

/// Gives a new String. Where memory runs out the store is as before.
#[tactic(auto, using(crate::proofs::Made::text_sound))]
pub fn make_text(st: &mut Store, bytes: Bytes) -> Result<Given, AllocError>
    requires sound { Sound st.old.store }
    ensures answers { Answers st.old st.new result (λ w. world.make w (text_object bytes)) }
    ensures err { OnErr result (st.new.store ≡ st.old.store) }
{
    let class = st.class_object(CoreClass::String);
    make(
        st,
        Object::new(class, Kind::String(SmallBytes::from_vec(bytes.into_vec()))),
    )
}
