//! The elements of nested Arrays.
ghost use Rattle.rows_items.specs.Told.{Gives};
ghost use Rattle.rows_array.specs.Read as read;

use def_core::Cause;
use rb_value::{ObjId, Value};
use rows_items::RowError;
use rows_items::core_calls::{Empty, flattened};
use rows_items::heap::Heap;

/// A new Array of the elements, in which those of each Array stand in its place. Arrays that are nested too deep are
/// refused.
pub(crate) fn flatten(heap: &mut Heap, id: ObjId) -> Result<Value, RowError>
    ensures { Gives heap.old heap.new result (read.flatten heap.old id) }
{
    let elements = heap.elements(id);
    match flattened(heap, elements, Empty::Counts)? {
        Some(values) => Ok(heap.make_array(values)?),
        None => Err(RowError::Fails(Cause::StackTooDeep)),
    }
}
