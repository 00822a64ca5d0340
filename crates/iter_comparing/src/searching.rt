//! `index` and `include?` of an Array, whose length is read anew each time.
ghost use Rattle.std.specs.Prelude.{◌≡◌};
ghost use Rattle.iter_comparing.specs.Searching as searching;

use crate::questions::Question;
use core_calls::heap::Heap;
use rb_value::{ObjId, Value};

/// An Array that is searched from a place on for an element that is `==` a value: for its place, or whether there is
/// one.
#[derive(Drop)]
pub struct Search {
    pub(crate) array: ObjId,
    pub(crate) place: usize,
    pub(crate) wanted: Value,
    pub(crate) indexed: bool,
}

impl Search {
    /// Asks the next element.
    pub(crate) fn question(&self, heap: &Heap) -> Question
        ensures { result ≡ searching.question heap.now.store self.now }
    {
        match heap.elements(self.array).get(self.place) {
            Some(element) => Question::compare(*element, self.wanted),
            None => if self.indexed {
                Question::Ends(Value::Nil)
            } else {
                Question::Ends(Value::False)
            },
        }
    }

    /// Ends with the first element that is equal.
    pub(crate) fn hear(&mut self, answer: Value) -> Option<Value>
        ensures ends { result ≡ (searching.heard self.old answer).ends }
        ensures work { self.new ≡ (searching.heard self.old answer).work }
    {
        if !answer.is_true() {
            self.place = self.place.saturating_add(1);
            None
        } else if self.indexed {
            Some(Value::Int(i64::try_from(self.place).unwrap_or(i64::MAX)))
        } else {
            Some(Value::True)
        }
    }
}
