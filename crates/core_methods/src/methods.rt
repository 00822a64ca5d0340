ghost use Rattle.std.specs.Prelude.{◌≡◌, ◌∷◌, true, IfOk};
ghost use Rattle.def_core.specs.Sound.{Sound, census, IsValue, AllAre};
ghost use Rattle.row_table.specs.RowTable.{is_row};
ghost use Rattle.def_rows.specs.Rows as rows;
ghost use Rattle.core_rows.specs.Belonging.{SoundAnswer};
ghost use Rattle.core_rows.specs.Completes.{Completes};

use core_rows::Row;
use core_string::core_range;
use core_string::core_range::core_integer;
use def_rows::Answer;
use rb_store::Store;
use rb_value::{ObjId, Outcome, Value};
use row_table::{CoreRow, Line, RangeClassMethod, Signature, StringClassMethod, line_at};
use std::alloc::AllocError;

/// A core method with what it takes.
#[derive(Clone, Copy)]
struct Method {
    line: Line,
}

/// What a core method gives, where its call isn't refused.
fn give(st: &Store, row: CoreRow, recv: Value, args: &[Value]) -> Result<Answer, AllocError>
    requires { AllAre (IsValue (census st.now.store)) (recv ∷ args.now) }
    ensures { IfOk result (λ a. a ≡ rows.gives row st.now.store recv args.now) }
{
    let alloc = st.alloc();
    Ok(match row {
        CoreRow::Integer(method) => Answer::Plain(core_integer::give(alloc, method, recv, args)?),
        CoreRow::Range(method) => Answer::Plain(core_range::give(st, method, recv, args)?),
        CoreRow::RangeClass(RangeClassMethod::New) => core_range::new_range(st, recv, args),
        CoreRow::String(method) => core_string::give(st, method, recv, args)?,
        CoreRow::StringClass(StringClassMethod::New) => core_string::new_string(st, recv, args)?,
        CoreRow::Symbol(method) => Answer::Plain(core_singletons::give(st, method, recv, args)?),
        CoreRow::Nil(method) => Answer::Plain(core_singletons::nil_gives(alloc, method, args)?),
        CoreRow::True(method) => Answer::Plain(core_singletons::true_gives(alloc, method, args)?),
        CoreRow::False(method) => Answer::Plain(core_singletons::false_gives(alloc, method, args)?),
    })
}

impl Row for Method {
    ghost use Rattle.def_rows.specs.Rows as rows;

    ghost takes = { λ m. m.line.signature };

    ghost gives = { λ m. rows.gives m.line.row };

    fn signature(self) -> Signature {
        self.line.signature
    }

    fn give(self, st: &Store, recv: Value, args: &[Value]) -> Result<Answer, AllocError> {
        give(st, self.line.row, recv, args)
    }
}

/// Calls the core method of a row, and gives its value, or the failure from which its exception is made. Where memory
/// runs out the store is as before.
#[tactic(auto, unfolding(def_rows::specs::Rows::prim))]
pub fn call(
    st: &mut Store,
    row: u16,
    recv: Value,
    args: &[Value],
    block: Option<ObjId>,
) -> Result<Outcome, AllocError>
    requires sound { Sound st.old.store }
    requires row { is_row row ≡ true }
    requires values { AllAre (IsValue (census st.old.store)) (recv ∷ args.now) }
    ensures { Completes st.old st.new result (rows.prim row recv args.now block st.old.store) }
{
    match line_at(row) {
        Some(line) => core_rows::call(st, Method { line }, recv, args, block),
        None => unreachable!(),
    }
}
