//! `join` of an Array.
ghost use Rattle.std.specs.Prelude.{◌≡◌, IfOk, OnOk, option_map};
ghost use Rattle.iter_comparing.specs.Texts as texts;

use crate::questions::Question;
use crate::text::{append, ends_with_text};
use core_calls::heap::Heap;
use rb_base::List;
use rb_value::Value;
use std::alloc::{AllocError, Global};
use std::mem;

/// The text that a piece is itself: a String has one, and an Array among the pieces is one that had no elements.
fn text_of_piece(heap: &Heap, piece: Value) -> Option<&[u8]>
    ensures { option_map (λ text. text.now) result ≡ texts.own_text heap.now.store piece }
{
    match heap.text_of(piece) {
        Some(text) => Some(text),
        None => match heap.an_array(piece) {
            Some(_) => Some(&[]),
            None => None,
        },
    }
}

/// Pieces that are put into a text, with a separator between them. A String is a text itself, an Array is none, and
/// another value is asked for one.
#[derive(Drop)]
pub struct Joining {
    pub(crate) pieces: List<Value>,
    pub(crate) place: usize,
    pub(crate) text: List<u8>,
    pub(crate) separator: List<u8>,
}

impl Joining {
    /// Goes on to the next piece, before which a separator stands.
    fn pass(&mut self, alloc: Global) -> Result<(), AllocError>
        ensures { OnOk result (self.new ≡ texts.passed self.old) }
    {
        self.place = self.place.saturating_add(1);
        if self.place < self.pieces.len() {
            append(alloc, &mut self.text, self.separator.as_slice())?;
        }
        Ok(())
    }

    /// Puts a piece into the text, or gives the value that has to be asked for one.
    fn put(&mut self, heap: &Heap, piece: Value) -> Result<Option<Value>, AllocError>
        ensures asks { IfOk result (λ asked. asked ≡ texts.asks_piece heap.now.store piece) }
        ensures work { OnOk result (self.new ≡ texts.pieced heap.now.store self.old piece) }
    {
        match text_of_piece(heap, piece) {
            Some(text) => {
                append(heap.alloc(), &mut self.text, text)?;
                self.pass(heap.alloc())?;
                Ok(None)
            }
            None => Ok(Some(piece)),
        }
    }

    /// Puts the pieces into the text up to one that has to be asked; at the end the text is given.
    #[tactic(auto, using(crate::proofs::Joined::joins_on, crate::proofs::Joined::joins_asking, crate::proofs::Joined::joins_ending))]
    pub(crate) fn question(&mut self, heap: &mut Heap) -> Result<Question, AllocError>
        ensures asks { IfOk result (λ question. question ≡ (texts.joined heap.old self.old).question) }
        ensures work { OnOk result (self.new ≡ (texts.joined heap.old self.old).work) }
        ensures heap { OnOk result (heap.new ≡ (texts.joined heap.old self.old).held) }
    {
        'pieces: for place in self.place..self.pieces.len() {
            let piece = self.pieces.as_slice()[place];
            if let Some(value) = self.put(heap, piece)? {
                return Ok(Question::show(value));
            }
        }
        let text = mem::replace(&mut self.text, List::new(heap.alloc()));
        ends_with_text(heap, text)
    }

    /// Puts what stands for a value into the text.
    pub(crate) fn hear(&mut self, heap: &Heap, answer: Value) -> Result<(), AllocError>
        ensures work { OnOk result (self.new ≡ texts.joined_heard heap.now.store self.old answer) }
    {
        let text = heap.text_of_value(answer)?;
        append(heap.alloc(), &mut self.text, &text)?;
        self.pass(heap.alloc())
    }
}
