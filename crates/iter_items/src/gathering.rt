//! The methods of Enumerable: `each` gives the items, and then they are as the items of an Array.
ghost use Rattle.std.specs.Prelude.{◌≡◌, IfOk, OnOk};
ghost use Rattle.rb_value.specs.declared.value.Value.TheVariants.{Obj};
ghost use Rattle.def_core.specs.Parts.{elements_at};
ghost use Rattle.def_core.specs.Store.{next_number};
ghost use Rattle.def_calls.specs.Views.{object_in};
ghost use Rattle.heap.specs.Made.{array_given, with_array, with_core_proc};
ghost use Rattle.def_plans.specs.Plan.{Plans, Meets};
ghost use Rattle.iter_items.specs.declared.row.GatheringRow.TheVariants.{Includes};
ghost use Rattle.iter_items.specs.Rows as rows;
ghost use Rattle.iter_items.specs.Stage.{stage_of};

use crate::asking::is_backwards;
use crate::checks::given;
use crate::driving::begin;
use crate::lifting::lift;
use crate::row::{GatheringRow, Task};
use crate::source::{Source, place_for};
use crate::state::ItemsState;
use iter_comparing::ComparingRow;
use rb_base::List;
use rb_value::{Boxed, ObjId, Value};
use rows_items::ItemRow;
use rows_items::core_calls::hidden::COLLECT_ROW;
use rows_items::core_calls::{Call, Plan, miscounted};
use rows_items::heap::{Given, Heap};
use std::alloc::AllocError;

/// A method of Enumerable that waits for the end of `each`, and the Array in which the items are collected.
#[derive(Drop)]
pub struct Gathering {
    row: GatheringRow,
    receiver: Value,
    args: List<Value>,
    block: Option<ObjId>,
    collected: ObjId,
}

/// A new Array of values.
fn array_of(heap: &mut Heap, values: Vec<Value>) -> Result<Option<ObjId>, AllocError>
    ensures array { IfOk result (λ array. array ≡ object_in (array_given heap.old.store values.items)) }
    ensures made { OnOk result (heap.new ≡ with_array heap.old values.items) }
{
    match heap.make_array(values)? {
        Value::Obj(id) => Ok(Some(id)),
        _ => Ok(None),
    }
}

/// What a method that calls none gives or raises of a new empty Array: it raises for its arguments whatever the items
/// are.
fn try_outright(heap: &mut Heap, row: ItemRow, call: Call<'_>) -> Result<Given, AllocError>
    ensures { IfOk result (λ g. rows.Tried heap.old row call.entry.args.now g heap.new) }
{
    let none = Vec::new(heap.alloc());
    let receiver = heap.make_array(none)?;
    rows_items::call(heap, row, Call { receiver, ..call })
}

/// The new Proc that collects the items in an Array.
#[tactic(auto, unfolding(rb_value::specs::CoreClass::core_classes))]
fn make_collecting(heap: &mut Heap, collected: ObjId) -> Result<ObjId, AllocError>
    ensures number { IfOk result (λ id. id ≡ next_number heap.old.store) }
    ensures made { OnOk result (heap.new ≡ with_core_proc heap.old rows.collect_row (Obj collected)) }
{
    heap.make_core_proc(COLLECT_ROW, Value::Obj(collected))
}

/// Calls `each` of the receiver with a block that collects the items.
fn collect(
    heap: &mut Heap,
    row: GatheringRow,
    call: Call<'_>,
) -> Result<Plan<ItemsState>, AllocError>
    ensures { Plans stage_of heap.new result
        (rows.collects heap.old row call.entry.receiver call.entry.args.now call.entry.block) }
{
    let none = Vec::new(heap.alloc());
    let Some(collected) = array_of(heap, none)? else {
        return Ok(Plan::Finishes(Value::Nil));
    };
    let block = make_collecting(heap, collected)?;
    let name = heap.intern(b"each")?;
    let gathering = Gathering {
        row,
        receiver: call.receiver,
        args: List::from_vec(Vec::from_slice(heap.alloc(), call.args)?),
        block: call.block,
        collected,
    };
    Ok(Plan::Sends {
        then: ItemsState::Gathers(Boxed::new(heap.alloc(), gathering)?),
        receiver: call.receiver,
        name,
        args: Vec::new(heap.alloc()),
        block: Some(block),
        public: false,
    })
}

/// Begins a method that visits the items.
#[tactic(auto, using(crate::proofs::Started::collected_so, crate::proofs::Started::collect_refused))]
fn start_visit(heap: &mut Heap, task: Task, call: Call<'_>) -> Result<Plan<ItemsState>, AllocError>
    ensures { Meets stage_of heap.new result
        (rows.Collects heap.old task call.entry.receiver call.entry.args.now call.entry.block) }
{
    match given(heap, task, call.args, call.block)? {
        Ok(_) => collect(heap, GatheringRow::Visits(task), call),
        Err(cause) => Ok(Plan::Fails(cause)),
    }
}

/// Begins `include?`.
fn start_includes(heap: &mut Heap, call: Call<'_>) -> Result<Plan<ItemsState>, AllocError>
    ensures { Meets stage_of heap.new result (rows.StartsGathering Includes heap.old
        call.entry.receiver call.entry.args.now call.entry.block) }
{
    match miscounted(call.args.len(), 1, Some(1)) {
        Some(cause) => Ok(Plan::Fails(cause)),
        None => collect(heap, GatheringRow::Includes, call),
    }
}

/// Begins a method that calls none.
#[tactic(auto, using(crate::specs::Rows::refuses_outright, crate::specs::Rows::collects_outright))]
fn start_outright(
    heap: &mut Heap,
    row: ItemRow,
    call: Call<'_>,
) -> Result<Plan<ItemsState>, AllocError>
    ensures { Meets stage_of heap.new result (rows.StartsOutright heap.old row
        call.entry.receiver call.entry.args.now call.entry.block) }
{
    match try_outright(heap, row, call)? {
        Given::Gives(_) => collect(heap, GatheringRow::Outright(row), call),
        Given::Raises(id) => Ok(Plan::Raises(id)),
    }
}

/// Begins a method of Enumerable: `each` of the receiver is called with a block that collects the items.
pub(crate) fn start(
    heap: &mut Heap,
    row: GatheringRow,
    call: Call<'_>,
) -> Result<Plan<ItemsState>, AllocError>
    ensures { Meets stage_of heap.new result
        (rows.StartsGathering row heap.old call.entry.receiver call.entry.args.now call.entry.block) }
{
    match row {
        GatheringRow::Visits(task) => start_visit(heap, task, call),
        GatheringRow::Includes => start_includes(heap, call),
        GatheringRow::Outright(row) => start_outright(heap, row, call),
    }
}

/// Begins a visit of the items that were collected.
#[tactic(auto, using(crate::proofs::Started::visited_so, crate::proofs::Started::gather_refused))]
fn begin_visit(
    heap: &mut Heap,
    task: Task,
    gathering: &Gathering,
    array: ObjId,
) -> Result<Plan<ItemsState>, AllocError>
    ensures { Meets stage_of heap.new result (rows.GathersVisit heap.old task gathering.now array) }
{
    let given = match given(heap, task, gathering.args.as_slice(), gathering.block)? {
        Ok(given) => given,
        Err(cause) => return Ok(Plan::Fails(cause)),
    };
    let place = place_for(is_backwards(task));
    let source = Source::Elements { array, place };
    begin(
        heap,
        task,
        gathering.receiver,
        source,
        given,
        gathering.block,
    )
}

/// What a method that calls none gives or raises of the items that were collected.
#[tactic(auto, using(crate::proofs::Started::settled_so))]
fn settle_outright(
    heap: &mut Heap,
    row: ItemRow,
    gathering: &Gathering,
    array: ObjId,
) -> Result<Plan<ItemsState>, AllocError>
    ensures { Meets stage_of heap.new result (rows.SettledBy heap.old row gathering.now array) }
{
    let call = Call {
        receiver: Value::Obj(array),
        args: gathering.args.as_slice(),
        block: gathering.block,
    };
    match rows_items::call(heap, row, call)? {
        Given::Gives(value) => Ok(Plan::Finishes(value)),
        Given::Raises(id) => Ok(Plan::Raises(id)),
    }
}

/// What the items that were collected come to.
#[tactic(auto, using(crate::proofs::Lifted::lifted_comparing))]
fn gather(
    heap: &mut Heap,
    gathering: &Gathering,
    array: ObjId,
) -> Result<Plan<ItemsState>, AllocError>
    ensures { Meets stage_of heap.new result (rows.GathersBy gathering.now.row heap.old gathering.now array) }
{
    let call = Call {
        receiver: Value::Obj(array),
        args: gathering.args.as_slice(),
        block: gathering.block,
    };
    match gathering.row {
        GatheringRow::Visits(task) => begin_visit(heap, task, gathering, array),
        GatheringRow::Includes => {
            Ok(lift(iter_comparing::start(heap, ComparingRow::ArrayIncludes, call)?))
        }
        GatheringRow::Outright(row) => settle_outright(heap, row, gathering, array),
    }
}

/// Goes on with the items once `each` has returned. What is collected later changes nothing of them.
pub(crate) fn go_on(
    heap: &mut Heap,
    state: Boxed<Gathering>,
) -> Result<Plan<ItemsState>, AllocError>
    ensures { Meets stage_of heap.new result
        (rows.Gathers heap.old state (elements_at heap.old.store.objects state.collected)) }
{
    let gathering = state.get();
    let items = Vec::from_slice(heap.alloc(), heap.elements(gathering.collected))?;
    match array_of(heap, items)? {
        Some(array) => gather(heap, gathering, array),
        None => Ok(Plan::Finishes(Value::Nil)),
    }
}
