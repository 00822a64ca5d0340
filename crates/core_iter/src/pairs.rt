//! `each`, `each_key`, `each_value` and `delete_if` of a Hash, over the pairs that were there at the start.
ghost use Rattle.std.specs.Prelude.{◌≡◌, Some, IfOk, OnOk};
ghost use Rattle.def_plans.specs.Plan.{Plans};
ghost use Rattle.core_iter.specs.Pairs as pairs;
ghost use Rattle.core_iter.specs.Sending.{IsBeat};
ghost use Rattle.core_iter.specs.Stage.{stage_of};

use crate::iteration::Iteration;
use crate::sending::{call_beat, refuse};
use rb_base::List;
use rb_value::{CoreClass, HashItem, Key, ObjId, Value};
use run_rows::VisitRow;
use run_rows::core_calls::{Beat, Passed, Plan};
use run_rows::heap::Heap;
use run_rows::iter_items::iter_comparing::pairs_of;
use std::alloc::AllocError;

/// The pairs of a Hash from a place on, how many of those before are deleted, and what is done with each.
#[derive(Drop)]
pub struct PairWalk {
    pub pairs: List<HashItem>,
    pub place: usize,
    pub deleted: usize,
    pub hash: ObjId,
    pub row: VisitRow,
    pub block: ObjId,
}

/// What a block is called with for a pair.
fn passed_for(heap: &mut Heap, row: VisitRow, item: HashItem) -> Result<Passed, AllocError>
    ensures passed { IfOk result (λ p. p ≡ (pairs.passed_for row heap.old item).passed) }
    ensures made { OnOk result (heap.new ≡ (pairs.passed_for row heap.old item).held) }
{
    match row {
        VisitRow::EachKey => Ok(Passed::One(item.shown)),
        VisitRow::EachValue => Ok(Passed::One(item.value)),
        VisitRow::DeletePairs => Ok(Passed::Two(item.shown, item.value)),
        _ => {
            let pair = Vec::from_slice(heap.alloc(), &[item.shown, item.value])?;
            Ok(Passed::One(heap.make_array(pair)?))
        }
    }
}

/// The call of the block for the pair at the place, where there is one.
fn beat_at(heap: &mut Heap, walk: &PairWalk) -> Result<Option<Beat>, AllocError>
    ensures { IsBeat (pairs.beat_at heap.old walk.now) result walk.now heap.new }
{
    match walk.pairs.as_slice().get(walk.place).copied() {
        Some(item) => Ok(Some(Beat {
            callee: walk.block,
            passed: passed_for(heap, walk.row, item)?,
        })),
        None => Ok(None),
    }
}

/// Calls the block for the next pair; at the end the Hash is given.
fn pair_next(heap: &mut Heap, walk: PairWalk) -> Result<Plan<Iteration>, AllocError>
    ensures { Plans stage_of heap.new result (pairs.pair_next heap.old walk) }
{
    match beat_at(heap, &walk)? {
        Some(beat) => call_beat(heap, Iteration::Pairs(walk), beat),
        None => Ok(Plan::Finishes(Value::Obj(walk.hash))),
    }
}

/// Whether a pair shows that key.
fn shows(pair: Option<HashItem>, shown: Value) -> bool
    ensures { result ≡ pairs.shows shown pair }
{
    match pair {
        Some(pair) => pair.shown == shown,
        None => false,
    }
}

/// The key of a pair of a Hash that shows that key: of the one at a place, where that is it, as it was when it was put
/// in.
fn key_of_pair(
    heap: &Heap,
    hash: ObjId,
    place: usize,
    shown: Value,
) -> Result<Option<Key>, AllocError>
    ensures { IfOk result (λ key. key ≡ pairs.key_of_pair heap.now.store hash place shown) }
{
    if shows(heap.pair_at(hash, place), shown) {
        heap.key_at(hash, place)
    } else {
        heap.key_of(shown)
    }
}

/// Takes the pair under a key out of the Hash.
fn delete_under(heap: &mut Heap, walk: &mut PairWalk, key: &Key)
    ensures walk { walk.new ≡ (pairs.deleted_under heap.old walk.old (Some key.now)).walk }
    ensures heap { heap.new ≡ (pairs.deleted_under heap.old walk.old (Some key.now)).held }
{
    if heap.remove_pair(walk.hash, key).is_some() {
        walk.deleted = walk.deleted.saturating_add(1);
    }
}

/// Takes the pair at the place out of the Hash.
fn delete(heap: &mut Heap, walk: &mut PairWalk) -> Result<(), AllocError>
    ensures walk { OnOk result (walk.new ≡ (pairs.deleted heap.old walk.old).walk) }
    ensures heap { OnOk result (heap.new ≡ (pairs.deleted heap.old walk.old).held) }
{
    let Some(item) = walk.pairs.as_slice().get(walk.place).copied() else {
        return Ok(());
    };
    let place = walk.place.saturating_sub(walk.deleted);
    if let Some(key) = key_of_pair(heap, walk.hash, place, item.shown)? {
        delete_under(heap, walk, &key);
    }
    Ok(())
}

/// Whether pairs are taken out.
fn is_deleting(row: VisitRow) -> bool
    ensures { result ≡ pairs.is_deleting row }
{
    match row {
        VisitRow::DeletePairs => true,
        _ => false,
    }
}

/// Deletes the pair where the answer says so, and goes on behind it.
fn pass(heap: &mut Heap, walk: &mut PairWalk, answer: Value) -> Result<(), AllocError>
    ensures walk { OnOk result (walk.new ≡ (pairs.passes heap.old walk.old answer).walk) }
    ensures heap { OnOk result (heap.new ≡ (pairs.passes heap.old walk.old answer).held) }
{
    if is_deleting(walk.row) && answer.is_true() {
        delete(heap, walk)?;
    }
    walk.place = walk.place.saturating_add(1);
    Ok(())
}

/// The next plan of a walk.
pub(crate) fn pair_then(
    heap: &mut Heap,
    walk: PairWalk,
    answer: Value,
) -> Result<Plan<Iteration>, AllocError>
    ensures { Plans stage_of heap.new result (pairs.pair_then heap.old walk answer) }
{
    let mut walk = walk;
    pass(heap, &mut walk, answer)?;
    pair_next(heap, walk)
}

/// The call of the block for the next pair, where one is left.
pub(crate) fn pair_beat(
    heap: &mut Heap,
    walk: &mut PairWalk,
    answer: Value,
) -> Result<Option<Beat>, AllocError>
    ensures { IsBeat (pairs.pair_beat heap.old walk.old answer) result walk.new heap.new }
{
    if walk.place.saturating_add(1) < walk.pairs.len() {
        pass(heap, walk, answer)?;
        beat_at(heap, walk)
    } else {
        Ok(None)
    }
}

/// Begins to walk over a Hash.
pub(crate) fn begin_pairs(
    heap: &mut Heap,
    row: VisitRow,
    receiver: Value,
    block: ObjId,
) -> Result<Plan<Iteration>, AllocError>
    ensures { Plans stage_of heap.new result (pairs.begin row heap.old receiver block) }
{
    match heap.a_hash(receiver) {
        Some(hash) => {
            let walk = PairWalk {
                pairs: List::from_vec(pairs_of(heap, hash)?),
                place: 0,
                deleted: 0,
                hash,
                row,
                block,
            };
            pair_next(heap, walk)
        }
        None => Ok(refuse(heap, CoreClass::Hash, receiver)),
    }
}
