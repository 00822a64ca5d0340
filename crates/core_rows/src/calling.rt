//! A call of a core method.
ghost use Rattle.std.specs.Prelude.{◌≡◌, ◌∷◌, IfOk};
ghost use Rattle.def_core.specs.Sound.{Sound, census, IsValue, AllAre};
ghost use Rattle.def_rows.specs.Answers.{answer_of, called};
ghost use Rattle.core_rows.specs.Belonging.{SoundAnswer};
ghost use Rattle.core_rows.specs.Completes.{Completes};
ghost use Rattle.def_rows.specs.Checking as checking;

use crate::checking::check;
use crate::finishing::finish;
use def_rows::Answer;
use rb_store::Store;
use rb_value::{ObjId, Outcome, Value};
use row_table::Signature;
use std::alloc::AllocError;

/// A row: what a core method takes, and what it gives where its call isn't refused.
pub trait Row: Copy {
    ghost use Rattle.std.specs.Prelude.{List};
    ghost use Rattle.def_core.specs.Store.{Store as Definition};
    ghost use Rattle.rb_value.specs.declared.value.Value.{Value as Operand};
    ghost use Rattle.row_table.specs.declared.signature.Signature.{Signature as Takes};
    ghost use Rattle.def_rows.specs.declared.answer.Answer.{Answer as Gives};

    ghost takes: { Self → Takes };

    ghost gives: { Self → Definition → Operand → List Operand → Gives };

    /// What it takes.
    fn signature(self) -> Signature
        ensures { result ≡ takes self };

    /// What it gives.
    fn give(self, st: &Store, recv: Value, args: &[Value]) -> Result<Answer, AllocError>
        requires sound { Sound st.now.store }
        requires values { AllAre (IsValue (census st.now.store)) (recv ∷ args.now) }
        ensures value { IfOk result (λ a. a ≡ gives self st.now.store recv args.now) }
        ensures sound { IfOk result (SoundAnswer (census st.now.store)) };
}

/// The answer of a call: that for which it is refused, or that of the row.
fn answer<R: Row>(
    st: &Store,
    row: R,
    recv: Value,
    args: &[Value],
    block: Option<ObjId>,
) -> Result<Answer, AllocError>
    requires sound { Sound st.now.store }
    requires values { AllAre (IsValue (census st.now.store)) (recv ∷ args.now) }
    ensures value { IfOk result (λ a. a ≡ answer_of
        (checking.check (R.takes row) st.now.store.objects recv args.now block)
        (R.gives row st.now.store recv args.now)) }
    ensures sound { IfOk result (SoundAnswer (census st.now.store)) }
{
    match check(st, row.signature(), recv, args, block) {
        Some(cause) => Ok(Answer::Fail(cause)),
        None => row.give(st, recv, args),
    }
}

/// Calls a core method by its row, and gives its value, or the failure from which its exception is made. Where memory
/// runs out the store is as before.
#[tactic(auto, unfolding(def_rows::specs::Answers::called))]
pub fn call<R: Row>(
    st: &mut Store,
    row: R,
    recv: Value,
    args: &[Value],
    block: Option<ObjId>,
) -> Result<Outcome, AllocError>
    requires sound { Sound st.old.store }
    requires values { AllAre (IsValue (census st.old.store)) (recv ∷ args.now) }
    ensures { Completes st.old st.new result
        (called (R.takes row) (R.gives row) st.old.store recv args.now block) }
{
    let answer = answer(st, row, recv, args, block)?;
    finish(st, recv, answer)
}
