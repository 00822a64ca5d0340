//! The names that arguments are.
ghost use Rattle.std.specs.Prelude.{◌≡◌, Ok, Err, IfOk, IfErr, OnOk};
ghost use Rattle.rows_class.specs.Names as defined;

use core_calls::heap::Heap;
use core_calls::name_in;
use def_core::Cause;
use rb_value::{SymId, Value};
use std::alloc::AllocError;

/// The names that all of some values are, or why one of them is none.
#[tactic(auto, unfolding(crate::specs::Names::names_in), using(crate::proofs::Listing::names_more, crate::proofs::Listing::names_all))]
pub(crate) fn names_in(
    heap: &mut Heap,
    values: &[Value],
) -> Result<Result<Vec<SymId>, Cause>, AllocError>
    ensures names { IfOk result (λ found.
        IfOk found (λ list. (defined.names_in values.now heap.old.store).names ≡ Ok list.items)) }
    ensures refused { IfOk result (λ found.
        IfErr found (λ cause. (defined.names_in values.now heap.old.store).names ≡ Err cause)) }
    ensures store { OnOk result (heap.new.store ≡ (defined.names_in values.now heap.old.store).store) }
{
    let mut names = Vec::new(heap.alloc());
    'values: for value in values {
        match name_in(heap, *value)? {
            Ok(name) => names.push(name)?,
            Err(cause) => return Ok(Err(cause)),
        }
    }
    Ok(Ok(names))
}
