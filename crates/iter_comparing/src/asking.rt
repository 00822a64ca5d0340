//! Works that ask values again and again.
ghost use Rattle.std.specs.Prelude.{◌≡◌, ◌∷◌, [], Some, None, IfOk, IfSome, OnOk};
ghost use Rattle.def_core.specs.Store.{Store};
ghost use Rattle.def_plans.specs.Plan.{Plans, Meets};
ghost use Rattle.heap.specs.Rows.{called};
ghost use Rattle.run_values.specs.declared.given.Given.TheVariants.{Gives};
ghost use Rattle.iter_comparing.specs.Outright as outright;
ghost use Rattle.iter_comparing.specs.Asking as asking;
ghost use Rattle.iter_comparing.specs.Asking.{Comes};
ghost use Rattle.iter_comparing.specs.Turns as turns;
ghost use Rattle.rb_value.specs.declared.value.SymId.{SymId};
ghost use Rattle.iter_comparing.specs.Stage.{stage_of};

use crate::questions::Question;
use crate::state::{Asking, ComparingState, Work};
use core_calls::Plan;
use core_calls::heap::{Given, Heap, Site};
use def_core::{Cause, Found};
use integer_operators::{Operator, operated};
use rb_value::{Boxed, Method, ObjId, SymId, Value};
use row_table::line_at;
use std::alloc::AllocError;

/// How many answers of core methods are taken at once.
const AT_ONCE: u64 = 4096;

/// What a work comes to: it ends, or a value has to be asked.
#[derive(Drop)]
pub(crate) enum Turn {
    Gives(Value),
    Fails(Cause),
    Raises(ObjId),
    Asks {
        receiver: Value,
        argument: Option<Value>,
    },
}

impl Work {
    /// What the work wants next.
    fn question(&mut self, heap: &mut Heap) -> Result<Question, AllocError>
        ensures asks { IfOk result (λ question. question ≡ (asking.question heap.old self.old).question) }
        ensures work { OnOk result (self.new ≡ (asking.question heap.old self.old).work) }
        ensures heap { OnOk result (heap.new ≡ (asking.question heap.old self.old).held) }
    {
        match self {
            Work::Pairs(work) => Ok(work.question(heap)),
            Work::Searches(work) => Ok(work.question(heap)),
            Work::Sifts(work) => work.question(heap),
            Work::Removes(work) => work.question(heap),
            Work::Joins(work) => work.question(heap),
            Work::Shows(work) => work.question(heap),
            Work::Equates(work) => work.question(heap),
            Work::FindsKey(work) => Ok(work.question()),
        }
    }

    /// Whether values are asked whether they are equal.
    fn asks_equality(&self) -> bool
        ensures { result ≡ asking.asks_equality self.now }
    {
        match self {
            Work::Pairs(work) => !work.ordered,
            Work::Searches(_) | Work::Sifts(_) | Work::Removes(_) => true,
            Work::Equates(_) | Work::FindsKey(_) => true,
            Work::Joins(_) | Work::Shows(_) => false,
        }
    }

    /// Takes an answer, and gives the value with which the work ends by it.
    fn hear(&mut self, heap: &Heap, answer: Value) -> Result<Option<Value>, AllocError>
        ensures ends { IfOk result (λ ends. ends ≡ (asking.hear heap.now.store self.old answer).ends) }
        ensures work { OnOk result (self.new ≡ (asking.hear heap.now.store self.old answer).work) }
    {
        match self {
            Work::Pairs(work) => Ok(work.hear(answer)),
            Work::Searches(work) => Ok(work.hear(answer)),
            Work::Sifts(work) => {
                work.hear(answer);
                Ok(None)
            }
            Work::Removes(work) => {
                work.hear(answer)?;
                Ok(None)
            }
            Work::Joins(work) => {
                work.hear(heap, answer)?;
                Ok(None)
            }
            Work::Shows(work) => {
                work.hear(heap, answer)?;
                Ok(None)
            }
            Work::Equates(work) => Ok(work.hear(answer)),
            Work::FindsKey(work) => Ok(work.hear(answer)),
        }
    }
}

/// The row of the table that a method is.
pub(crate) fn row_of(found: Option<Found>) -> Option<u16>
    ensures { result ≡ outright.row_of_found found }
{
    match found?.method {
        Method::Core(row) => match line_at(row) {
            Some(_) => Some(row),
            None => None,
        },
        _ => None,
    }
}

/// What an operator of Integer gives two numbers straight on; nothing for any other row, where one of them is no number, and
/// where it fails.
#[inline(always)]
#[tactic(auto, using(crate::proofs::Numbers::given_at_once))]
fn straight(row: u16, receiver: Value, argument: Value) -> Option<Value>
    ensures { IfSome result (λ v. (st : Store) →
        outright.given_of (called st row receiver (argument ∷ []) None) ≡ (Some (Gives v), st)) }
{
    operated(Operator::of_row(row)?, receiver, argument)
}

/// The same for some arguments.
#[inline(always)]
fn straight_of(row: u16, receiver: Value, args: &[Value]) -> Option<Value>
    ensures { IfSome result (λ v. (st : Store) →
        outright.given_of (called st row receiver args.now None) ≡ (Some (Gives v), st)) }
{
    match args {
        [argument] => straight(row, receiver, *argument),
        _ => None,
    }
}

/// What a core method of the table of rows gives at once; nothing where a receiver finds another method.
pub fn outright(
    heap: &mut Heap,
    site: &mut Site,
    receiver: Value,
    name: SymId,
    args: &[Value],
) -> Result<Option<Given>, AllocError>
    ensures given { IfOk result (λ given. (given, heap.new.store)
        ≡ outright.outright heap.old.store receiver name args.now) }
    ensures stays { IfOk result (outright.Stays heap.old heap.new) }
{
    match row_of(heap.find_at(site, receiver, name)?) {
        Some(row) => match straight_of(row, receiver, args) {
            Some(value) => Ok(Some(Given::Gives(value))),
            None => Ok(Some(heap.call_row(row, receiver, args, None)?)),
        },
        None => Ok(None),
    }
}

/// The arguments of a question.
fn args_of(heap: &Heap, argument: Option<Value>) -> Result<Vec<Value>, AllocError>
    ensures { IfOk result (λ args. args.items ≡ asking.args_of argument) }
{
    let mut args = Vec::new(heap.alloc());
    if let Some(value) = argument {
        args.push(value)?;
    }
    Ok(args)
}

/// What a core method of the table of rows gives at once to a question with an argument or without.
fn outright_to(
    heap: &mut Heap,
    site: &mut Site,
    receiver: Value,
    name: SymId,
    argument: Option<Value>,
) -> Result<Option<Given>, AllocError>
    ensures given { IfOk result (λ given. (given, heap.new.store)
        ≡ outright.outright heap.old.store receiver name (asking.args_of argument)) }
    ensures stays { IfOk result (outright.Stays heap.old heap.new) }
{
    match argument {
        Some(value) => outright(heap, site, receiver, name, &[value]),
        None => outright(heap, site, receiver, name, &[]),
    }
}

impl Work {
    /// Whether the answer is known without asking: that a value is equal to itself.
    fn is_known(&self, receiver: Value, argument: Option<Value>) -> bool
        ensures { result ≡ asking.is_known self.now receiver argument }
    {
        match argument {
            Some(value) => value == receiver && self.asks_equality(),
            None => false,
        }
    }

    /// Takes an answer that came at once, which may end the work.
    fn hear_at_once(&mut self, heap: &Heap, answer: Value) -> Result<Option<Turn>, AllocError>
        ensures turn { IfOk result (λ turn. turn ≡ turns.ended (asking.hear heap.now.store self.old answer).ends) }
        ensures work { OnOk result (self.new ≡ (asking.hear heap.now.store self.old answer).work) }
    {
        match self.hear(heap, answer)? {
            Some(value) => Ok(Some(Turn::Gives(value))),
            None => Ok(None),
        }
    }
}

/// What is known or a core method answers at once, where a work asks a value for the method of a name.
fn answer_at_once(
    heap: &mut Heap,
    name: SymId,
    site: &mut Site,
    work: &Work,
    receiver: Value,
    argument: Option<Value>,
) -> Result<Option<Given>, AllocError>
    ensures given { IfOk result (λ given. (given, heap.new.store)
        ≡ asking.at_once heap.old.store name work.now receiver argument) }
    ensures stays { IfOk result (outright.Stays heap.old heap.new) }
{
    if work.is_known(receiver, argument) {
        return Ok(Some(Given::Gives(Value::True)));
    }
    outright_to(heap, site, receiver, name, argument)
}

/// Asks for one answer. It gives nothing where a core method answers at once and the work goes on.
#[tactic(auto, using(crate::proofs::Comes::ends_here, crate::proofs::Comes::fails_here, crate::proofs::Comes::asks_still, crate::proofs::Comes::answered_at_once, crate::proofs::Comes::raised_at_once))]
fn step(
    heap: &mut Heap,
    name: SymId,
    site: &mut Site,
    work: &mut Work,
) -> Result<Option<Turn>, AllocError>
    ensures { IfOk result (turns.Steps name heap.old work.old heap.new work.new) }
{
    match work.question(heap)? {
        Question::Ends(value) => Ok(Some(Turn::Gives(value))),
        Question::Fails(cause) => Ok(Some(Turn::Fails(cause))),
        Question::Asks { receiver, argument } => match answer_at_once(
            heap, name, site, work, receiver, argument,
        )? {
            Some(Given::Gives(answer)) => work.hear_at_once(heap, answer),
            Some(Given::Raises(id)) => Ok(Some(Turn::Raises(id))),
            None => Ok(Some(Turn::Asks { receiver, argument })),
        },
    }
}

/// Asks for an answer by a turn of the machine; where it is known nil is asked, whose answer is the same.
#[tactic(auto, using(crate::proofs::Comes::ends_here, crate::proofs::Comes::fails_here, crate::proofs::Comes::asks_here, crate::proofs::Comes::nil_asked))]
fn pause(heap: &mut Heap, work: &mut Work) -> Result<Turn, AllocError>
    ensures { IfOk result (λ turn. (name : SymId) → turns.Turns name heap.old work.old heap.new work.new turn) }
{
    match work.question(heap)? {
        Question::Ends(value) => Ok(Turn::Gives(value)),
        Question::Fails(cause) => Ok(Turn::Fails(cause)),
        Question::Asks { receiver, argument } => if work.is_known(receiver, argument) {
            Ok(Turn::Asks {
                receiver: Value::Nil,
                argument: Some(Value::Nil),
            })
        } else {
            Ok(Turn::Asks { receiver, argument })
        },
    }
}

/// Asks and takes answers as long as core methods answer at once.
fn advance(
    heap: &mut Heap,
    name: SymId,
    site: &mut Site,
    work: &mut Work,
) -> Result<Turn, AllocError>
    ensures { IfOk result (turns.Turns name heap.old work.old heap.new work.new) }
{
    'answers: for _taken in 1..AT_ONCE {
        if let Some(turn) = step(heap, name, site, work)? {
            return Ok(turn);
        }
    }
    pause(heap, work)
}

/// The plan of a work that waits for an answer, or that has ended.
fn plan_of(
    heap: &Heap,
    state: Boxed<Asking>,
    turn: Turn,
) -> Result<Plan<ComparingState>, AllocError>
    ensures { Plans stage_of heap.now result (turns.turned state.name heap.now state.work turn) }
{
    match turn {
        Turn::Gives(value) => Ok(Plan::Finishes(value)),
        Turn::Fails(cause) => Ok(Plan::Fails(cause)),
        Turn::Raises(id) => Ok(Plan::Raises(id)),
        Turn::Asks { receiver, argument } => {
            let name = state.get().name;
            Ok(Plan::Sends {
                then: ComparingState::Asks(state),
                receiver,
                name,
                args: args_of(heap, argument)?,
                block: None,
                public: false,
            })
        }
    }
}

/// The plan of a work that asks, or that ended before it had to be put by.
fn first_plan(heap: &Heap, asking: Asking, turn: Turn) -> Result<Plan<ComparingState>, AllocError>
    ensures { Plans stage_of heap.now result (turns.turned asking.name heap.now asking.work turn) }
{
    match turn {
        Turn::Gives(value) => Ok(Plan::Finishes(value)),
        turn => {
            let state = Boxed::new(heap.alloc(), asking)?;
            plan_of(heap, state, turn)
        }
    }
}

/// Begins a work that asks values for a method.
pub(crate) fn begin(
    heap: &mut Heap,
    name: &[u8],
    work: Work,
) -> Result<Plan<ComparingState>, AllocError>
    ensures { Meets stage_of heap.new result (asking.Begins heap.old name.now work) }
{
    let name = heap.intern(name)?;
    begin_named(heap, name, work)
}

/// Begins a work that asks values for the method of a name.
#[tactic(auto, using(crate::proofs::Comes::comes_as))]
pub(crate) fn begin_named(
    heap: &mut Heap,
    name: SymId,
    work: Work,
) -> Result<Plan<ComparingState>, AllocError>
    ensures { Meets stage_of heap.new result (Comes name heap.old work) }
{
    let mut site = Site::default();
    let mut work = work;
    let turn = advance(heap, name, &mut site, &mut work)?;
    first_plan(heap, Asking { name, site, work }, turn)
}

/// Goes on with an answer.
#[tactic(auto, using(crate::proofs::Comes::comes_as))]
pub(crate) fn go_on(
    heap: &mut Heap,
    state: Boxed<Asking>,
    answer: Value,
) -> Result<Plan<ComparingState>, AllocError>
    ensures { Meets stage_of heap.new result (asking.GoesOn state.name heap.old state.work answer) }
{
    let mut state = state;
    let asking = state.get_mut();
    if let Some(value) = asking.work.hear(heap, answer)? {
        return Ok(Plan::Finishes(value));
    }
    let turn = advance(heap, asking.name, &mut asking.site, &mut asking.work)?;
    plan_of(heap, state, turn)
}
