//! What the call of a core method enters.
ghost use Rattle.std.specs.Prelude.{IfOk};
ghost use Rattle.run_calls.specs.Entering as entering;

use crate::entry::{Beginning, Entry};
use core_iter::core_calls::Call;
use core_iter::heap::Heap;
use core_iter::run_rows::{Row, call_of_table, call_plain, row_at};
use std::alloc::AllocError;

/// What the call of a core method enters, by its row: nothing, or an iteration.
pub fn enter_row(heap: &mut Heap, row: u16, call: Call<'_>) -> Result<Entry, AllocError>
    ensures { IfOk result (λ e. entering.EntersRow row heap.old call.entry.receiver call.entry.args.now call.entry.block e heap.new) }
{
    match row_at(row) {
        Row::OfTable(of_table) => Ok(Entry::Answers(call_of_table(heap, row, of_table, call)?)),
        Row::Plain(plain) => Ok(Entry::Answers(call_plain(heap, plain, call)?)),
        Row::Star(star) => Ok(Entry::Begins(Beginning {
            row: star,
            receiver: call.receiver,
            name_first: None,
            block: call.block,
        })),
    }
}
