//! Core methods of the table of rows, and binding.
ghost use Rattle.std.specs.Prelude.{◌≡◌, ◌∷◌, IfOk, OnOk, OnErr};
ghost use Rattle.def_core.specs.Sound.{Sound, census, IsValue, AllAre};
ghost use Rattle.def_rows.specs.Rows.{prim};
ghost use Rattle.def_calls.specs.World.{answer};
ghost use Rattle.rb_store.specs.Keeps.{Keeps};
ghost use Rattle.run_values.specs.Answers.{Answers};
ghost use Rattle.heap.specs.Rows as rows;

use crate::heap::Heap;
use crate::testing::{are_own, own};
use def_core::{BindKind, Bound};
use rb_store::Store;
use rb_value::{ObjId, Shape, Value};
use row_table::line_at;
use run_values::{Given, answer};
use std::alloc::AllocError;

/// Calls a core method of the table by its row, and gives its value or raises. A row that is none gives nil.
#[tactic(auto, using(rb_store::proofs::Keeping::keeps_itself))]
pub(crate) fn call_row(
    st: &mut Store,
    row: u16,
    receiver: Value,
    args: &[Value],
    block: Option<ObjId>,
) -> Result<Given, AllocError>
    requires sound { Sound st.old.store }
    ensures answers { Answers st.old st.new result (λ w. answer w (rows.called w.store row receiver args.now block)) }
    ensures keeps { Keeps st.old st.new }
{
    let receiver = own(st, receiver);
    if !are_own(st, args) {
        return Ok(Given::Gives(Value::Nil));
    }
    call_own(st, row, receiver, args, block)
}

/// Calls a core method of the table by its row with values of the store. A row that is none gives nil.
#[tactic(auto, using(rb_store::proofs::Keeping::keeps_itself))]
fn call_own(
    st: &mut Store,
    row: u16,
    receiver: Value,
    args: &[Value],
    block: Option<ObjId>,
) -> Result<Given, AllocError>
    requires sound { Sound st.old.store }
    requires values { AllAre (IsValue (census st.old.store)) (receiver ∷ args.now) }
    ensures { Answers st.old st.new result (λ w. answer w (prim row receiver args.now block w.store)) }
{
    match line_at(row) {
        Some(_) => {
            let outcome = core_methods::call(st, row, receiver, args, block)?;
            answer(st, outcome)
        }
        None => Ok(Given::Gives(Value::Nil)),
    }
}

/// The values of the parameters of a method, lambda or Proc that is given these arguments, or that the number of
/// them doesn't fit.
#[tactic(auto, using(rb_store::proofs::Keeping::keeps_itself))]
pub(crate) fn bind(
    st: &mut Store,
    shape: Shape,
    args: &[Value],
    kind: BindKind,
) -> Result<Bound, AllocError>
    requires sound { Sound st.old.store }
    ensures bound { IfOk result (λ b. b ≡ (rows.bound st.old.store shape args.now kind).bound) }
    ensures store { OnOk result (st.new.store ≡ (rows.bound st.old.store shape args.now kind).store) }
    ensures err { OnErr result (st.new.store ≡ st.old.store) }
    ensures keeps { Keeps st.old st.new }
{
    if !are_own(st, args) {
        return Ok(Bound::Wrong { given: args.len() });
    }
    method_lookup::bind(st, shape, args, kind)
}

impl Heap {
    /// Calls a core method of the table by its row, and gives its value or raises. A row that is none gives nil.
    pub fn call_row(
        &mut self,
        row: u16,
        receiver: Value,
        args: &[Value],
        block: Option<ObjId>,
    ) -> Result<Given, AllocError>
        ensures answers { Answers self.old self.new result
            (λ w. answer w (rows.called w.store row receiver args.now block)) }
    {
        call_row(&mut self.st, row, receiver, args, block)
    }

    /// The values of the parameters of a method, lambda or Proc that is given these arguments, or that the number of
    /// them doesn't fit.
    pub fn bind(
        &mut self,
        shape: Shape,
        args: &[Value],
        kind: BindKind,
    ) -> Result<Bound, AllocError>
        ensures bound { IfOk result (λ b. b ≡ (rows.bound self.old.store shape args.now kind).bound) }
        ensures store { OnOk result (self.new.store ≡ (rows.bound self.old.store shape args.now kind).store) }
        ensures err { OnErr result (self.new.store ≡ self.old.store) }
    {
        bind(&mut self.st, shape, args, kind)
    }
}
