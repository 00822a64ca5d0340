//! `delete` of an Array.
ghost use Rattle.std.specs.Prelude.{◌≡◌, IfOk, OnOk};
ghost use Rattle.iter_comparing.specs.Removing as removing;

use crate::questions::Question;
use core_calls::heap::Heap;
use rb_base::List;
use rb_value::{ObjId, Value};
use std::alloc::AllocError;
use std::mem;

/// An Array from which the elements that are `==` a value are taken: the place of the next, the one that was asked
/// last, those that stay, and the last that was taken.
#[derive(Drop)]
pub struct Removing {
    pub(crate) array: ObjId,
    pub(crate) wanted: Value,
    pub(crate) place: usize,
    pub(crate) asked: Value,
    pub(crate) kept: List<Value>,
    pub(crate) taken: Option<Value>,
}

impl Removing {
    /// Asks the next element; at the end the elements are taken, and the last of them is given.
    pub(crate) fn question(&mut self, heap: &mut Heap) -> Result<Question, AllocError>
        ensures asks { IfOk result (λ question. question ≡ (removing.question heap.old self.old).question) }
        ensures work { OnOk result (self.new ≡ (removing.question heap.old self.old).work) }
        ensures heap { OnOk result (heap.new ≡ (removing.question heap.old self.old).held) }
    {
        if let Some(element) = heap.elements(self.array).get(self.place) {
            self.asked = *element;
            return Ok(Question::compare(*element, self.wanted));
        }
        match self.taken {
            Some(value) => {
                let kept = mem::replace(&mut self.kept, List::new(heap.alloc()));
                heap.replace_elements(self.array, kept.into_vec());
                Ok(Question::Ends(value))
            }
            None => Ok(Question::Ends(Value::Nil)),
        }
    }

    /// Takes what an element says.
    pub(crate) fn hear(&mut self, answer: Value) -> Result<(), AllocError>
        ensures work { OnOk result (self.new ≡ removing.heard self.old answer) }
    {
        if answer.is_true() {
            self.taken = Some(self.asked);
        } else {
            self.kept.push(self.asked)?;
        }
        self.place = self.place.saturating_add(1);
        Ok(())
    }
}
