//! `==`, `value?` and `key` of a Hash.
ghost use Rattle.std.specs.Prelude.{◌≡◌, ◌++◌, take, drop, IfOk, OnOk};
ghost use Rattle.iter_comparing.specs.Hashes as hashes;

use crate::questions::Question;
use core_calls::heap::Heap;
use def_core::Cause;
use rb_base::List;
use rb_value::{HashItem, ObjId, Value};
use std::alloc::AllocError;

/// The pairs of a Hash that are compared from a place on with those of another with as many.
#[derive(Drop)]
pub struct Equating {
    pub(crate) pairs: List<HashItem>,
    pub(crate) place: usize,
    pub(crate) other: ObjId,
}

/// The pairs of a Hash that are searched from a place on for a value: for its key, or whether there is one.
#[derive(Drop)]
pub struct KeySearch {
    pub(crate) pairs: List<HashItem>,
    pub(crate) place: usize,
    pub(crate) wanted: Value,
    pub(crate) keyed: bool,
}

impl Equating {
    /// Asks the next value for that of the same key in the other Hash, which has to have one.
    pub(crate) fn question(&self, heap: &Heap) -> Result<Question, AllocError>
        ensures { IfOk result (λ question. question ≡ hashes.equal_question heap.now.store self.now) }
    {
        let Some(pair) = self.pairs.as_slice().get(self.place) else {
            return Ok(Question::Ends(Value::True));
        };
        let Some(key) = heap.key_of(pair.shown)? else {
            return Ok(Question::Fails(Cause::StackTooDeep));
        };
        match heap.pair(self.other, &key) {
            Some(item) => Ok(Question::compare(pair.value, item.value)),
            None => Ok(Question::Ends(Value::False)),
        }
    }

    /// Ends with the first pair that is different.
    pub(crate) fn hear(&mut self, answer: Value) -> Option<Value>
        ensures ends { result ≡ (hashes.equal_heard self.old answer).ends }
        ensures work { self.new ≡ (hashes.equal_heard self.old answer).work }
    {
        if answer.is_true() {
            self.place = self.place.saturating_add(1);
            None
        } else {
            Some(Value::False)
        }
    }
}

impl KeySearch {
    /// Asks the value of the next pair.
    pub(crate) fn question(&self) -> Question
        ensures { result ≡ hashes.search_question self.now }
    {
        match self.pairs.as_slice().get(self.place) {
            Some(pair) => Question::compare(pair.value, self.wanted),
            None => if self.keyed {
                Question::Ends(Value::Nil)
            } else {
                Question::Ends(Value::False)
            },
        }
    }

    /// Ends with the first value that is equal.
    pub(crate) fn hear(&mut self, answer: Value) -> Option<Value>
        ensures ends { result ≡ (hashes.search_heard self.old answer).ends }
        ensures work { self.new ≡ (hashes.search_heard self.old answer).work }
    {
        if !answer.is_true() {
            self.place = self.place.saturating_add(1);
            return None;
        }
        if !self.keyed {
            return Some(Value::True);
        }
        match self.pairs.as_slice().get(self.place) {
            Some(pair) => Some(pair.shown),
            None => Some(Value::Nil),
        }
    }
}

/// Puts the pair at a place, if there is one, after others.
#[tactic(auto, using(crate::proofs::Items::item_there, crate::proofs::Items::no_item))]
fn put_item(
    heap: &Heap,
    pairs: &mut Vec<HashItem>,
    hash: ObjId,
    place: usize,
) -> Result<(), AllocError>
    ensures { OnOk result (pairs.new.items
        ≡ pairs.old.items ++ hashes.items (take 1 (drop place (hashes.pairs heap.now.store hash)))) }
{
    match heap.pair_at(hash, place) {
        Some(pair) => {
            pairs.push(pair)?;
            Ok(())
        }
        None => Ok(()),
    }
}

/// The pairs that a Hash has.
#[tactic(auto, using(crate::proofs::Items::items_more))]
pub fn pairs_of(heap: &Heap, hash: ObjId) -> Result<Vec<HashItem>, AllocError>
    ensures { IfOk result (λ pairs. pairs.items ≡ hashes.items (hashes.pairs heap.now.store hash)) }
{
    let mut pairs = Vec::new(heap.alloc());
    'pairs: for place in 0..heap.pair_count(hash) {
        put_item(heap, &mut pairs, hash, place)?;
    }
    Ok(pairs)
}
