//! The first plan of each row, and the next with the answer to the one before.
ghost use Rattle.std.specs.Prelude.{◌≡◌, codes, IfOk};
ghost use Rattle.def_calls.specs.Views.{an_array, a_hash};
ghost use Rattle.def_plans.specs.Plan.{Meets};
ghost use Rattle.iter_comparing.specs.Asking.{Begins};
ghost use Rattle.iter_comparing.specs.Equal as equal;
ghost use Rattle.iter_comparing.specs.Stage.{stage_of};
ghost use Rattle.iter_comparing.specs.Rows as rows;

use crate::asking::{begin, begin_named, go_on, outright};
use crate::equating::{Equating, KeySearch, pairs_of};
use crate::fetching::{element, fail_absent, fetch};
use crate::joining::Joining;
use crate::keyed::{have_own_equality, sifted};
use crate::ordering;
use crate::pairing::Pairing;
use crate::removing::Removing;
use crate::repeating::repeat;
use crate::row::ComparingRow;
use crate::searching::Search;
use crate::showing::{Showing, Shown};
use crate::sifting::{Sieve, Sifting};
use crate::state::{ComparingState, Work};
use core_calls::heap::{Given, Heap, Site};
use core_calls::{Call, Empty, Plan, argument, flattened, miscounted};
use def_core::Cause;
use rb_base::List;
use rb_value::{CoreClass, ObjId, Value};
use std::alloc::AllocError;

/// At least and at most so many arguments may go to a row.
fn count_of(row: ComparingRow) -> (u64, u64)
    ensures { result ≡ rows.counts row }
{
    match row {
        ComparingRow::ArrayText | ComparingRow::HashText => (0, 0),
        ComparingRow::ArrayJoin => (0, 1),
        ComparingRow::HashFetch => (1, 2),
        ComparingRow::Order(row) => (ordering::arguments(row), ordering::arguments(row)),
        _ => (1, 1),
    }
}

/// The truth of an answer, or its negation.
fn told(negating: bool, answer: Value) -> Value
    ensures { result ≡ equal.negated negating answer }
{
    Value::from_truth(answer.is_true() != negating)
}

/// Asks the receiver whether it is `==` the argument, or isn't.
fn ask_equal(
    heap: &mut Heap,
    negating: bool,
    call: Call<'_>,
) -> Result<Plan<ComparingState>, AllocError>
    ensures { Meets stage_of heap.new result
        (equal.IsAsked heap.old negating call.entry.receiver call.entry.args.now) }
{
    let name = heap.intern(b"==")?;
    let mut site = Site::default();
    match outright(heap, &mut site, call.receiver, name, call.args)? {
        Some(Given::Gives(answer)) => Ok(Plan::Finishes(told(negating, answer))),
        Some(Given::Raises(id)) => Ok(Plan::Raises(id)),
        None => Ok(Plan::Sends {
            then: if negating {
                ComparingState::Negates
            } else {
                ComparingState::Tests
            },
            receiver: call.receiver,
            name,
            args: Vec::from_slice(heap.alloc(), call.args)?,
            block: None,
            public: false,
        }),
    }
}

/// The method that pairs of elements are asked for.
fn name_of(ordered: bool) -> &'static [u8]
    ensures { result.now ≡ rows.name_of ordered }
{
    if ordered { b"<=>" } else { b"==" }
}

/// Begins `==` or `<=>` of an Array. Another value isn't equal, and stands in no order to it.
fn start_pairs(
    heap: &mut Heap,
    left: ObjId,
    other: Value,
    ordered: bool,
) -> Result<Plan<ComparingState>, AllocError>
    ensures { Meets stage_of heap.new result
        (rows.PairsWith heap.old left ordered (an_array heap.old.store.objects other)) }
{
    let Some(right) = heap.an_array(other) else {
        let answer = if ordered { Value::Nil } else { Value::False };
        return Ok(Plan::Finishes(answer));
    };
    let work = Pairing {
        left,
        right,
        place: 0,
        ordered,
    };
    begin(heap, name_of(ordered), Work::Pairs(work))
}

/// Begins a search for a value in an Array.
fn start_search(
    heap: &mut Heap,
    array: ObjId,
    wanted: Value,
    indexed: bool,
) -> Result<Plan<ComparingState>, AllocError>
    ensures { Meets stage_of heap.new result
        (Begins heap.old (codes "==") (rows.search array wanted indexed)) }
{
    let work = Search {
        array,
        place: 0,
        wanted,
        indexed,
    };
    begin(heap, b"==", Work::Searches(work))
}

/// Begins to take a value out of an Array.
fn start_delete(
    heap: &mut Heap,
    array: ObjId,
    wanted: Value,
) -> Result<Plan<ComparingState>, AllocError>
    ensures { Meets stage_of heap.new result (Begins heap.old (codes "==") (rows.removal array wanted)) }
{
    let work = Removing {
        array,
        wanted,
        place: 0,
        asked: Value::Nil,
        kept: List::new(heap.alloc()),
        taken: None,
    };
    begin(heap, b"==", Work::Removes(work))
}

/// The values of which some stay, and those that decide it: of a union the elements of both Arrays.
fn sieve_values(
    heap: &Heap,
    array: ObjId,
    sieve: Sieve,
    other: ObjId,
) -> Result<Sifting, AllocError>
    ensures { IfOk result (λ work. work ≡ rows.sifting heap.now array sieve other) }
{
    let mut values = Vec::from_slice(heap.alloc(), heap.elements(array))?;
    let mut others = Vec::new(heap.alloc());
    if sieve.is_union() {
        values.extend_from_slice(heap.elements(other))?;
    } else {
        others.extend_from_slice(heap.elements(other))?;
    }
    Ok(Sifting {
        sieve,
        values: List::from_vec(values),
        place: 0,
        others: List::from_vec(others),
        kept: List::new(heap.alloc()),
        among_kept: sieve.is_union(),
        asked: 0,
    })
}

/// Begins a work in which some values stay. Where all are Integers, or Strings, that have the `==` of their class, it ends
/// at once.
fn sift(heap: &mut Heap, work: Sifting) -> Result<Plan<ComparingState>, AllocError>
    ensures { Meets stage_of heap.new result (rows.SiftsAll heap.old work) }
{
    let equal = heap.intern(b"==")?;
    if have_own_equality(heap, equal, work.values.as_slice())?
        && have_own_equality(heap, equal, work.others.as_slice())?
    {
        let kept = sifted(heap, &work)?;
        return Ok(Plan::Finishes(heap.make_array(kept)?));
    }
    begin_named(heap, equal, Work::Sifts(work))
}

/// Begins `-`, `&` or `|` of an Array, to which another has to be given.
fn start_sieve(
    heap: &mut Heap,
    array: ObjId,
    other: Value,
    sieve: Sieve,
) -> Result<Plan<ComparingState>, AllocError>
    ensures { Meets stage_of heap.new result (rows.Sifts heap.old array sieve other) }
{
    match heap.an_array(other) {
        Some(other) => {
            let work = sieve_values(heap, array, sieve, other)?;
            sift(heap, work)
        }
        None => Ok(Plan::Fails(heap.refusal(CoreClass::Array, other))),
    }
}

/// Begins `join` of an Array with a separator: the elements of nested Arrays are pieces, and so is an Array without
/// elements, which has no text.
fn start_pieces(
    heap: &mut Heap,
    array: ObjId,
    separator: Vec<u8>,
) -> Result<Plan<ComparingState>, AllocError>
    ensures { Meets stage_of heap.new result (rows.JoinsBy heap.old array separator.items) }
{
    let elements = heap.elements(array);
    match flattened(heap, elements, Empty::Stays)? {
        Some(pieces) => {
            let work = Joining {
                pieces: List::from_vec(pieces),
                place: 0,
                text: List::new(heap.alloc()),
                separator: List::from_vec(separator),
            };
            begin(heap, b"to_s", Work::Joins(work))
        }
        None => Ok(Plan::Fails(Cause::StackTooDeep)),
    }
}

/// Begins `join` of an Array with the separator that was given.
fn start_join(
    heap: &mut Heap,
    array: ObjId,
    args: &[Value],
) -> Result<Plan<ComparingState>, AllocError>
    ensures { Meets stage_of heap.new result (rows.Joins heap.old array args.now) }
{
    let Some(value) = args.first().copied() else {
        let none = Vec::new(heap.alloc());
        return start_pieces(heap, array, none);
    };
    match heap.text_of(value) {
        Some(text) => {
            let separator = Vec::from_slice(heap.alloc(), text)?;
            start_pieces(heap, array, separator)
        }
        None => Ok(Plan::Fails(heap.refusal(CoreClass::String, value))),
    }
}

/// Begins to show values.
fn start_text(heap: &mut Heap, shown: Shown) -> Result<Plan<ComparingState>, AllocError>
    ensures { Meets stage_of heap.new result (Begins heap.old (codes "inspect") (rows.showing shown)) }
{
    let work = Showing {
        shown,
        place: 0,
        text: List::new(heap.alloc()),
    };
    begin(heap, b"inspect", Work::Shows(work))
}

/// Begins a method of an Array.
fn start_array(
    heap: &mut Heap,
    row: ComparingRow,
    call: Call<'_>,
) -> Result<Plan<ComparingState>, AllocError>
    ensures { Meets stage_of heap.new result
        (rows.OfArray row heap.old call.entry.receiver call.entry.args.now) }
{
    let Some(array) = heap.an_array(call.receiver) else {
        return Ok(Plan::Fails(heap.refusal(CoreClass::Array, call.receiver)));
    };
    let other = argument(call.args, 0);
    match row {
        ComparingRow::ArrayEquality => start_pairs(heap, array, other, false),
        ComparingRow::ArrayOrder => start_pairs(heap, array, other, true),
        ComparingRow::ArrayIndex => start_search(heap, array, other, true),
        ComparingRow::ArrayIncludes => start_search(heap, array, other, false),
        ComparingRow::ArrayDelete => start_delete(heap, array, other),
        ComparingRow::ArrayDifference => start_sieve(heap, array, other, Sieve::Difference),
        ComparingRow::ArrayIntersection => start_sieve(heap, array, other, Sieve::Intersection),
        ComparingRow::ArrayUnion => start_sieve(heap, array, other, Sieve::Union),
        ComparingRow::ArrayRepeat => repeat(heap, array, other),
        ComparingRow::ArrayJoin => start_join(heap, array, call.args),
        _ => start_text(heap, Shown::Elements(array)),
    }
}

/// Begins `==` of a Hash. Another value isn't equal to it, and neither is one with more or fewer pairs.
fn start_equating(
    heap: &mut Heap,
    hash: ObjId,
    other: Value,
) -> Result<Plan<ComparingState>, AllocError>
    ensures { Meets stage_of heap.new result
        (rows.EqualTo heap.old hash (a_hash heap.old.store.objects other)) }
{
    let Some(other) = heap.a_hash(other) else {
        return Ok(Plan::Finishes(Value::False));
    };
    if heap.pair_count(hash) != heap.pair_count(other) {
        return Ok(Plan::Finishes(Value::False));
    }
    let work = Equating {
        pairs: List::from_vec(pairs_of(heap, hash)?),
        place: 0,
        other,
    };
    begin(heap, b"==", Work::Equates(work))
}

/// Begins a search for a value in a Hash.
fn start_key_search(
    heap: &mut Heap,
    hash: ObjId,
    wanted: Value,
    keyed: bool,
) -> Result<Plan<ComparingState>, AllocError>
    ensures { Meets stage_of heap.new result
        (Begins heap.old (codes "==") (rows.key_search heap.old hash wanted keyed)) }
{
    let work = KeySearch {
        pairs: List::from_vec(pairs_of(heap, hash)?),
        place: 0,
        wanted,
        keyed,
    };
    begin(heap, b"==", Work::FindsKey(work))
}

/// Begins a method of a Hash.
fn start_hash(
    heap: &mut Heap,
    row: ComparingRow,
    call: Call<'_>,
) -> Result<Plan<ComparingState>, AllocError>
    ensures { Meets stage_of heap.new result
        (rows.OfHash row heap.old call.entry.receiver call.entry.args.now call.entry.block) }
{
    let Some(hash) = heap.a_hash(call.receiver) else {
        return Ok(Plan::Fails(heap.refusal(CoreClass::Hash, call.receiver)));
    };
    let first = argument(call.args, 0);
    match row {
        ComparingRow::HashElement => element(heap, hash, first),
        ComparingRow::HashFetch => fetch(heap, hash, call),
        ComparingRow::HashHasValue => start_key_search(heap, hash, first, false),
        ComparingRow::HashKeyOf => start_key_search(heap, hash, first, true),
        ComparingRow::HashEquality => start_equating(heap, hash, first),
        _ => {
            let pairs = List::from_vec(pairs_of(heap, hash)?);
            start_text(heap, Shown::Pairs(pairs))
        }
    }
}

/// Begins a row whose arguments are counted.
fn start_counted(
    heap: &mut Heap,
    row: ComparingRow,
    call: Call<'_>,
) -> Result<Plan<ComparingState>, AllocError>
    ensures { Meets stage_of heap.new result
        (rows.Counted row heap.old call.entry.receiver call.entry.args.now call.entry.block) }
{
    match row {
        ComparingRow::Order(row) => ordering::start(heap, row, call),
        ComparingRow::Differs => ask_equal(heap, true, call),
        ComparingRow::Matches => ask_equal(heap, false, call),
        ComparingRow::HashElement
        | ComparingRow::HashFetch
        | ComparingRow::HashHasValue
        | ComparingRow::HashKeyOf
        | ComparingRow::HashEquality
        | ComparingRow::HashText => start_hash(heap, row, call),
        _ => start_array(heap, row, call),
    }
}

/// The first plan of a row.
pub fn start(
    heap: &mut Heap,
    row: ComparingRow,
    call: Call<'_>,
) -> Result<Plan<ComparingState>, AllocError>
    ensures { Meets stage_of heap.new result
        (rows.Starts row heap.old call.entry.receiver call.entry.args.now call.entry.block) }
{
    let (least, most) = count_of(row);
    match miscounted(call.args.len(), least, Some(most)) {
        Some(cause) => Ok(Plan::Fails(cause)),
        None => start_counted(heap, row, call),
    }
}

/// The next plan, with the answer to the one before.
pub fn next(
    heap: &mut Heap,
    state: ComparingState,
    answer: Value,
) -> Result<Plan<ComparingState>, AllocError>
    ensures { Meets stage_of heap.new result (rows.GoesOn heap.old (stage_of state) answer) }
{
    match state {
        ComparingState::Negates => Ok(Plan::Finishes(told(true, answer))),
        ComparingState::Tests => Ok(Plan::Finishes(told(false, answer))),
        ComparingState::Hands => Ok(Plan::Finishes(answer)),
        ComparingState::Missing => fail_absent(heap, answer),
        ComparingState::Orders(order) => ordering::go_on(heap, order, answer),
        ComparingState::Asks(state) => go_on(heap, state, answer),
    }
}
