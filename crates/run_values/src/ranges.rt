//! Ranges by their ends.
ghost use Rattle.std.specs.Prelude.{◌≡◌};
ghost use Rattle.rb_value.specs.declared.core_class.CoreClass.TheVariants as classes;
ghost use Rattle.def_core.specs.Store.{core};
ghost use Rattle.def_core.specs.Sound.{Sound, census};
ghost use Rattle.def_rows.specs.RangeRows as rows;
ghost use Rattle.core_rows.specs.Belonging.{SoundAnswer};
ghost use Rattle.def_calls.specs.Values as values;
ghost use Rattle.run_values.specs.Answers.{Answers};

use crate::answering::answer;
use crate::given::Given;
use core_range::new_range;
use core_rows::finish;
use def_rows::Answer;
use rb_store::Store;
use rb_value::{CoreClass, Value};
use std::alloc::AllocError;

/// A new Range of two ends, or the failure of ends that no Range has. It takes no memory.
#[tactic(auto, using(crate::proofs::RangeMade::range_is, crate::proofs::RangeMade::made_sound))]
fn range(st: &Store, first: Value, last: Value, exclusive: bool) -> Answer
    requires { Sound st.now.store }
    ensures range { result ≡ rows.made (core classes.Range) exclusive
        (rows.kept_ends (rows.item_of st.now.store.objects first) (rows.item_of st.now.store.objects last)) }
    ensures sound { SoundAnswer (census st.now.store) result }
{
    let class = st.class_object(CoreClass::Range);
    new_range(
        st,
        Value::Obj(class),
        &[first, last, Value::from_truth(exclusive)],
    )
}

/// Gives the Range of two ends, without the last one where it is exclusive. Ends that no Range has raise.
pub fn make_range(
    st: &mut Store,
    first: Value,
    last: Value,
    exclusive: bool,
) -> Result<Given, AllocError>
    requires { Sound st.old.store }
    ensures { Answers st.old st.new result (λ w. values.make_range w first last exclusive) }
{
    let made = range(st, first, last, exclusive);
    let outcome = finish(st, Value::Nil, made)?;
    answer(st, outcome)
}
