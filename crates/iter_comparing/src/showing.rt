//! `inspect` of an Array and of a Hash.
ghost use Rattle.std.specs.Prelude.{◌≡◌, IfOk, OnOk, option_map};
ghost use Rattle.iter_comparing.specs.Texts as texts;

use crate::questions::Question;
use crate::text::{append, ends_with_text};
use core_calls::heap::Heap;
use rb_base::List;
use rb_value::{HashItem, ObjId, Value};
use std::alloc::AllocError;
use std::mem;

/// What is shown: the elements of an Array, whose length is read anew each time, or the pairs that a Hash had.
#[derive(Drop)]
pub enum Shown {
    Elements(ObjId),
    Pairs(List<HashItem>),
}

/// Values that are shown from a place on, and the text of those before it. The key and the value of a pair have a place
/// each.
#[derive(Drop)]
pub struct Showing {
    pub(crate) shown: Shown,
    pub(crate) place: usize,
    pub(crate) text: List<u8>,
}

impl Showing {
    /// The value at the place, and what stands before it.
    fn part(&self, heap: &Heap) -> Option<(Value, &'static [u8])>
        ensures { option_map (λ p. (p.0, p.1.now)) result ≡ texts.part heap.now.store self.now.shown self.now.place }
    {
        match &self.shown {
            Shown::Elements(array) => {
                let value = *heap.elements(*array).get(self.place)?;
                if self.place == 0 {
                    Some((value, b"["))
                } else {
                    Some((value, b", "))
                }
            }
            Shown::Pairs(pairs) => {
                let pair = *pairs.as_slice().get(self.place / 2)?;
                if self.place % 2 == 1 {
                    Some((pair.value, b"=>"))
                } else if self.place == 0 {
                    Some((pair.shown, b"{"))
                } else {
                    Some((pair.shown, b", "))
                }
            }
        }
    }

    /// What stands at the end.
    fn last(&self) -> &'static [u8]
        ensures { result.now ≡ texts.last self.now.shown self.now.place }
    {
        match self.shown {
            Shown::Elements(_) => if self.place == 0 { b"[]" } else { b"]" },
            Shown::Pairs(_) => if self.place == 0 { b"{}" } else { b"}" },
        }
    }

    /// Asks the next value; at the end the text is given.
    pub(crate) fn question(&mut self, heap: &mut Heap) -> Result<Question, AllocError>
        ensures asks { IfOk result (λ question. question ≡ (texts.shown heap.old self.old).question) }
        ensures work { OnOk result (self.new ≡ (texts.shown heap.old self.old).work) }
        ensures heap { OnOk result (heap.new ≡ (texts.shown heap.old self.old).held) }
    {
        match self.part(heap) {
            Some((value, before)) => {
                append(heap.alloc(), &mut self.text, before)?;
                Ok(Question::show(value))
            }
            None => {
                let last = self.last();
                append(heap.alloc(), &mut self.text, last)?;
                let text = mem::replace(&mut self.text, List::new(heap.alloc()));
                ends_with_text(heap, text)
            }
        }
    }

    /// Puts what stands for a value into the text.
    pub(crate) fn hear(&mut self, heap: &Heap, answer: Value) -> Result<(), AllocError>
        ensures work { OnOk result (self.new ≡ texts.shown_heard heap.now.store self.old answer) }
    {
        let text = heap.text_of_value(answer)?;
        append(heap.alloc(), &mut self.text, &text)?;
        self.place = self.place.saturating_add(1);
        Ok(())
    }
}
