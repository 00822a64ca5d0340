//! Methods of Proc, and those that give Procs of blocks and Symbols.
ghost use Rattle.std.specs.Prelude.{◌≡◌, ◌<◌, pos, IfOk, OnOk};
ghost use Rattle.def_core.specs.Store.{next_number};
ghost use Rattle.heap.specs.Made.{with_core_proc};
ghost use Rattle.rows_object.specs.Answered.{Answered};
ghost use Rattle.rows_object.specs.Procs as defined;
ghost use Rattle.rows_object.specs.Rows as rows;

use core_calls::heap::{Given, Heap};
use core_calls::hidden::SEND_KEPT_ROW;
use rb_value::{CoreClass, ObjId, Shape, Value};
use std::alloc::AllocError;

/// A new Proc that sends a Symbol to its first argument.
pub fn proc_of_symbol(heap: &mut Heap, symbol: Value) -> Result<ObjId, AllocError>
    ensures number { IfOk result (λ id. id ≡ next_number heap.old.store) }
    ensures made { OnOk result (heap.new ≡ with_core_proc heap.old defined.send_kept_row symbol) }
{
    heap.make_core_proc(SEND_KEPT_ROW, symbol)
}

/// `to_proc` of a Symbol.
#[tactic(auto, unfolding(crate::specs::Procs::symbol_as_proc))]
pub(crate) fn symbol_as_proc(heap: &mut Heap, symbol: Value) -> Result<Given, AllocError>
    ensures { Answered heap.old heap.new result (defined.symbol_as_proc symbol) }
{
    Ok(Given::Gives(Value::Obj(proc_of_symbol(heap, symbol)?)))
}

/// `lambda`: a new lambda of a block; a Proc that enters a row is one.
pub(crate) fn as_lambda(heap: &mut Heap, block: ObjId) -> Result<Given, AllocError>
    ensures { Answered heap.old heap.new result (defined.as_lambda block) }
{
    match heap.copy_proc(block, true)? {
        Some(lambda) => Ok(Given::Gives(Value::Obj(lambda))),
        None => Ok(Given::Gives(Value::Obj(block))),
    }
}

/// How many arguments a body wants at least.
fn least_of(shape: Shape) -> i64
    ensures exact { result ≡ pos (defined.least shape) }
    ensures small { defined.least shape < 1024 }
{
    i64::from(shape.required) + i64::from(shape.post)
}

/// How many arguments a body wants, and one less than minus that where it takes more. A Proc that is no lambda passes
/// over what is too many, so its optional parameters don't count.
fn arity_of(shape: Shape, lambda: bool) -> i64
    ensures { result ≡ defined.arity_of shape lambda }
{
    let least = least_of(shape);
    if shape.rest || (lambda && shape.optional > 0) {
        -least - 1
    } else {
        least
    }
}

/// `arity` of a Proc.
#[tactic(auto, unfolding(def_calls::specs::World::fail))]
pub(crate) fn arity(heap: &mut Heap, receiver: Value) -> Result<Given, AllocError>
    ensures { Answered heap.old heap.new result (defined.arity receiver) }
{
    let Some(id) = heap.a_proc(receiver) else {
        return heap.unexpected(CoreClass::Proc, receiver);
    };
    match heap.proc_of(id) {
        Some(contents) => {
            let arity = arity_of(contents.shape, contents.lambda);
            Ok(Given::Gives(Value::Int(arity)))
        }
        None => Ok(Given::Gives(Value::Int(-2))),
    }
}

/// `lambda?` of a Proc.
#[tactic(auto, unfolding(def_calls::specs::World::fail))]
pub(crate) fn is_lambda(heap: &mut Heap, receiver: Value) -> Result<Given, AllocError>
    ensures { Answered heap.old heap.new result (rows.is_lambda receiver) }
{
    let Some(id) = heap.a_proc(receiver) else {
        return heap.unexpected(CoreClass::Proc, receiver);
    };
    match heap.proc_of(id) {
        Some(contents) => Ok(Given::Gives(Value::from_truth(contents.lambda))),
        None => Ok(Given::Gives(Value::True)),
    }
}
