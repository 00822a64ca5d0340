//! Visits of items, from one call to the next.
ghost use Rattle.std.specs.Prelude.{◌≡◌, Ok, IfOk, OnOk};
ghost use Rattle.def_plans.specs.Plan.{Plans, Meets};
ghost use Rattle.iter_items.specs.Driving as driving;
ghost use Rattle.iter_comparing.specs.Outright.{Stays};
ghost use Rattle.iter_items.specs.Steps as steps;
ghost use Rattle.iter_items.specs.Stage.{stage_of};

use crate::asking::ask;
use crate::checks::Arguments;
use crate::ending::end;
use crate::hearing::hear;
use crate::row::Task;
use crate::source::Source;
use crate::state::ItemsState;
use crate::visit::Visit;
use crate::wish::Wish;
use iter_comparing::outright;
use rb_value::{Boxed, ObjId, SymId, Value};
use rows_items::core_calls::{Beat, Plan};
use rows_items::heap::{Given, Heap};
use std::alloc::AllocError;

/// How many answers of core methods are taken at once.
const AT_ONCE: u64 = 4096;

/// What the visit wants for its next item, or at the end of the items.
#[tactic(auto, using(crate::proofs::Wanted::wants_some, crate::proofs::Wanted::wants_none))]
fn ask_or_end(heap: &mut Heap, visit: &mut Visit) -> Result<Wish, AllocError>
    ensures { IfOk result (λ wish. driving.Wants heap.old visit.old wish visit.new heap.new) }
{
    match ask(heap, visit)? {
        Some(wish) => Ok(wish),
        None => end(heap, visit),
    }
}

/// What the visit wants by an answer.
#[tactic(auto, using(crate::proofs::Wanted::hears_some, crate::proofs::Wanted::hears_none))]
fn hear_or_ask(heap: &mut Heap, visit: &mut Visit, answer: Value) -> Result<Wish, AllocError>
    ensures { IfOk result (λ wish. driving.Hears heap.old visit.old answer wish visit.new heap.new) }
{
    match hear(heap, visit, answer)? {
        Some(wish) => Ok(wish),
        None => ask_or_end(heap, visit),
    }
}

/// Whether values are counted.
fn is_count(task: Task) -> bool
    ensures { result ≡ driving.is_count task }
{
    match task {
        Task::Count => true,
        _ => false,
    }
}

/// Whether the answer is known without asking: a value that is counted is equal to itself.
fn is_known(visit: &Visit, receiver: Value, argument: Value) -> bool
    ensures { result ≡ driving.knows visit.now receiver argument }
{
    is_count(visit.task) && receiver == argument
}

/// What is known or a core method answers at once, where the visit asks a value.
fn answer_at_once(
    heap: &mut Heap,
    visit: &mut Visit,
    receiver: Value,
    argument: Value,
) -> Result<Option<Given>, AllocError>
    ensures given { IfOk result (λ given. (given, heap.new.store)
        ≡ driving.at_once heap.old.store visit.old receiver argument) }
    ensures visit { visit.new ≡ driving.at_site visit.old visit.new.site }
    ensures stays { IfOk result (Stays heap.old heap.new) }
{
    if is_known(visit, receiver, argument) {
        return Ok(Some(Given::Gives(Value::True)));
    }
    match visit.name {
        Some(name) => outright(heap, &mut visit.site, receiver, name, &[argument]),
        None => Ok(Some(Given::Gives(Value::Nil))),
    }
}

/// What a core method answers at once to a wish, where the visit goes on by it; or where it stops.
#[derive(Drop)]
enum Step {
    Further(Wish),
    Stops(Wish),
}

/// One step from a wish.
#[tactic(auto, using(crate::proofs::Wanted::halts_here, crate::proofs::Wanted::halts_still, crate::proofs::Wanted::halts_raising, crate::proofs::Wanted::leads_on))]
fn take_step(heap: &mut Heap, visit: &mut Visit, wish: Wish) -> Result<Step, AllocError>
    ensures { IfOk result (λ step. steps.Steps heap.old visit.old wish heap.new visit.new step) }
{
    let Wish::Asks { receiver, argument } = wish else {
        return Ok(Step::Stops(wish));
    };
    match answer_at_once(heap, visit, receiver, argument)? {
        Some(Given::Gives(answer)) => Ok(Step::Further(hear_or_ask(heap, visit, answer)?)),
        Some(Given::Raises(id)) => Ok(Step::Stops(Wish::Raises(id))),
        None => Ok(Step::Stops(wish)),
    }
}

/// Goes on from a wish as long as core methods answer at once.
#[tactic(auto, using(crate::proofs::Wanted::halts_here, crate::proofs::Wanted::halts_after, crate::proofs::Wanted::leads_after))]
fn advance(heap: &mut Heap, visit: &mut Visit, wish: Wish) -> Result<Wish, AllocError>
    ensures { IfOk result (λ last. steps.Halts heap.old visit.old wish heap.new visit.new last) }
{
    let mut wish = wish;
    'answers: for _taken in 0..AT_ONCE {
        match take_step(heap, visit, wish)? {
            Step::Further(next) => wish = next,
            Step::Stops(last) => return Ok(last),
        }
    }
    Ok(wish)
}

/// Asks a value by the method of the visit.
fn send(
    heap: &mut Heap,
    state: Boxed<Visit>,
    receiver: Value,
    argument: Value,
) -> Result<Plan<ItemsState>, AllocError>
    ensures { Plans stage_of heap.new result (driving.sent heap.old state receiver argument state.name) }
{
    let name = match state.get().name {
        Some(name) => name,
        None => heap.intern(b"==")?,
    };
    Ok(Plan::Sends {
        then: ItemsState::Visits(state),
        receiver,
        name,
        args: Vec::from_slice(heap.alloc(), &[argument])?,
        block: None,
        public: false,
    })
}

/// Asks a value by the method of the visit; where its answer is known nil is asked, whose answer is the same.
fn ask_value(
    heap: &mut Heap,
    state: Boxed<Visit>,
    receiver: Value,
    argument: Value,
) -> Result<Plan<ItemsState>, AllocError>
    ensures { Plans stage_of heap.new result (driving.asking heap.old state receiver argument) }
{
    if is_known(state.get(), receiver, argument) {
        send(heap, state, Value::Nil, Value::Nil)
    } else {
        send(heap, state, receiver, argument)
    }
}

/// The plan of a wish.
fn plan_of(heap: &mut Heap, state: Boxed<Visit>, wish: Wish) -> Result<Plan<ItemsState>, AllocError>
    ensures { Plans stage_of heap.new result (driving.planned heap.old state wish) }
{
    match wish {
        Wish::Ends(value) => Ok(Plan::Finishes(value)),
        Wish::Fails(cause) => Ok(Plan::Fails(cause)),
        Wish::Raises(id) => Ok(Plan::Raises(id)),
        Wish::Calls(Beat { callee, passed }) => Ok(Plan::Calls {
            then: ItemsState::Visits(state),
            callee,
            args: passed.args(heap.alloc())?,
            block: None,
        }),
        Wish::Asks { receiver, argument } => ask_value(heap, state, receiver, argument),
    }
}

/// Whether a method makes a Hash: of a group each, or of the pairs of a Hash that stay.
fn makes_hash(task: Task, source: &Source) -> bool
    ensures { result ≡ driving.makes_hash task source.now }
{
    match task {
        Task::GroupBy => true,
        Task::Select | Task::Reject => source.is_pairs(),
        _ => false,
    }
}

/// The Hash that a method makes, where it makes one.
fn hash_for(heap: &mut Heap, task: Task, source: &Source) -> Result<Option<ObjId>, AllocError>
    ensures made { IfOk result (λ made. made ≡ driving.hash_for heap.old task source.now) }
    ensures heap { OnOk result (heap.new ≡ driving.with_hash_for heap.old task source.now) }
{
    if !makes_hash(task, source) {
        return Ok(None);
    }
    match heap.make_hash()? {
        Value::Obj(id) => Ok(Some(id)),
        _ => Ok(None),
    }
}

/// A visit at its beginning, by its arguments.
fn visit_for(
    heap: &Heap,
    task: Task,
    receiver: Value,
    source: Source,
    made: Option<ObjId>,
    given: Arguments,
    block: Option<ObjId>,
) -> Visit
    ensures { result ≡ driving.visit_of task receiver source made given block }
{
    let mut visit = Visit::new(heap, task, receiver, source, block);
    visit.made = made;
    visit.value = given.value;
    visit.name = given.name;
    visit.size = given.size;
    visit
}

/// The plan of a visit that wants something, or that ended before it had to be put by.
fn first_plan(heap: &mut Heap, visit: Visit, wish: Wish) -> Result<Plan<ItemsState>, AllocError>
    ensures { Plans stage_of heap.new result (driving.planned heap.old visit wish) }
{
    match wish {
        Wish::Ends(value) => Ok(Plan::Finishes(value)),
        wish => {
            let state = Boxed::new(heap.alloc(), visit)?;
            plan_of(heap, state, wish)
        }
    }
}

/// Begins a visit.
#[tactic(auto, using(crate::proofs::Wanted::begins_so))]
fn begin_visit(heap: &mut Heap, visit: Visit) -> Result<Plan<ItemsState>, AllocError>
    ensures { Meets stage_of heap.new result (driving.Begins heap.old visit) }
{
    let mut visit = visit;
    let wish = ask_or_end(heap, &mut visit)?;
    let wish = advance(heap, &mut visit, wish)?;
    first_plan(heap, visit, wish)
}

/// Begins a visit of these items for a receiver.
#[tactic(auto, using(crate::proofs::Wanted::begins_with))]
pub(crate) fn begin(
    heap: &mut Heap,
    task: Task,
    receiver: Value,
    source: Source,
    given: Arguments,
    block: Option<ObjId>,
) -> Result<Plan<ItemsState>, AllocError>
    ensures { Meets stage_of heap.new result (driving.BeginsWith heap.old task receiver source given block) }
{
    let made = hash_for(heap, task, &source)?;
    let visit = visit_for(heap, task, receiver, source, made, given, block);
    begin_visit(heap, visit)
}

/// What the visit wants by an answer, where no core method gives it at once.
#[tactic(auto, using(crate::proofs::Wanted::goes_so))]
fn wish_by(heap: &mut Heap, visit: &mut Visit, answer: Value) -> Result<Wish, AllocError>
    ensures { IfOk result (λ wish.
        driving.GoesOn heap.old visit.old answer (driving.planned heap.new visit.new wish)) }
{
    let wish = hear_or_ask(heap, visit, answer)?;
    advance(heap, visit, wish)
}

/// The call of the block that the visit wants by an answer. Anything else that it wants it keeps for its next plan.
#[tactic(auto, using(crate::proofs::Wanted::calls_so, crate::proofs::Wanted::keeps_so))]
pub(crate) fn beat(
    heap: &mut Heap,
    visit: &mut Visit,
    answer: Value,
) -> Result<Option<Beat>, AllocError>
    ensures { IfOk result (driving.Beats heap.old visit.old answer heap.new visit.new) }
{
    match wish_by(heap, visit, answer)? {
        Wish::Calls(beat) => Ok(Some(beat)),
        other => {
            visit.wish = Some(other);
            Ok(None)
        }
    }
}

/// Goes on with an answer, or with the wish that it was kept for.
#[tactic(auto, using(crate::proofs::Wanted::goes_next, crate::proofs::Wanted::wishes_next))]
pub(crate) fn go_on(
    heap: &mut Heap,
    state: Boxed<Visit>,
    answer: Value,
) -> Result<Plan<ItemsState>, AllocError>
    ensures { Meets stage_of heap.new result (driving.Next heap.old state answer) }
{
    let mut state = state;
    match state.get().wish {
        Some(wish) => {
            state.get_mut().wish = None;
            plan_of(heap, state, wish)
        }
        None => {
            let wish = wish_by(heap, state.get_mut(), answer)?;
            plan_of(heap, state, wish)
        }
    }
}
