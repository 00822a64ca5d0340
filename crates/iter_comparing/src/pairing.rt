//! `==` and `<=>` of Arrays: their elements are asked in pairs.
ghost use Rattle.std.specs.Prelude.{◌≡◌};
ghost use Rattle.iter_comparing.specs.Pairing as pairing;

use crate::questions::Question;
use core_calls::heap::Heap;
use rb_value::{ObjId, Value};

/// Two Arrays that are compared from a place on: whether they are equal, or which comes first.
#[derive(Drop)]
pub struct Pairing {
    pub(crate) left: ObjId,
    pub(crate) right: ObjId,
    pub(crate) place: usize,
    pub(crate) ordered: bool,
}

/// How a number stands to another: below, the same or above.
fn order(left: usize, right: usize) -> Value
    ensures { result ≡ pairing.order left right }
{
    if left < right {
        Value::Int(-1)
    } else if left == right {
        Value::Int(0)
    } else {
        Value::Int(1)
    }
}

impl Pairing {
    /// The next pair, while both have an element there; Arrays of different lengths aren't equal.
    pub(crate) fn question(&self, heap: &Heap) -> Question
        ensures { result ≡ pairing.question heap.now.store self.now }
    {
        let left = heap.elements(self.left);
        let right = heap.elements(self.right);
        if !self.ordered && left.len() != right.len() {
            return Question::Ends(Value::False);
        }
        match left.get(self.place) {
            Some(first) => match right.get(self.place) {
                Some(second) => Question::compare(*first, *second),
                None => Question::Ends(self.at_end(left.len(), right.len())),
            },
            None => Question::Ends(self.at_end(left.len(), right.len())),
        }
    }

    /// What Arrays of these lengths come to, where no pair was different.
    fn at_end(&self, left: usize, right: usize) -> Value
        ensures { result ≡ pairing.at_end self.now.ordered left right }
    {
        if self.ordered {
            order(left, right)
        } else {
            Value::from_truth(left == right)
        }
    }

    /// Whether an answer says that a pair isn't different.
    fn is_same(&self, answer: Value) -> bool
        ensures { result ≡ pairing.is_same self.now.ordered answer }
    {
        if self.ordered {
            answer == Value::Int(0)
        } else {
            answer.is_true()
        }
    }

    /// Ends with the first pair that is different.
    pub(crate) fn hear(&mut self, answer: Value) -> Option<Value>
        ensures ends { result ≡ (pairing.heard self.old answer).ends }
        ensures work { self.new ≡ (pairing.heard self.old answer).work }
    {
        if self.is_same(answer) {
            self.place = self.place.saturating_add(1);
            None
        } else if self.ordered {
            Some(answer)
        } else {
            Some(Value::False)
        }
    }
}
