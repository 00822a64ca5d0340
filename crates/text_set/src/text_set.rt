ghost use Rattle.std.specs.Prelude.{◌≡◌, ◌<◌, [], length, not, take, position, bytes_eq, IfOk, IfSome, OnOk};
ghost use Rattle.text_set.specs.Sets.{is_among, texts, with_text, with_texts};

use indexmap::IndexSet;
use rb_base::Bytes;
use std::alloc::{AllocError, Global};
use std::marker::Model;

/// Different texts, seen as their list.
#[derive(Drop)]
pub struct TextSet<'a> {
    texts: IndexSet<&'a [u8]>,
}

impl<'a> Model for TextSet<'a> {
    ghost use Rattle.std.specs.Prelude as prelude;
    ghost use Rattle.text_set.specs.Sets as shown;

    ghost Value = { prelude.List (prelude.List prelude.ℕ) };

    ghost view = { λ s. shown.texts s.texts.keys };
}

impl<'a> TextSet<'a> {
    /// The set of no text. It takes no memory.
    pub fn new(alloc: Global) -> TextSet<'a>
        ensures { result ≡ [] }
    {
        TextSet {
            texts: IndexSet::new(alloc),
        }
    }

    /// Adds a text, and says whether it wasn't there yet.
    #[tactic(auto, using(crate::proofs::Sets::set_laws))]
    pub fn add(&mut self, text: &'a [u8]) -> Result<bool, AllocError>
        ensures set { OnOk result (self.new ≡ with_text self.old text.now) }
        ensures fresh { IfOk result (λ new. new ≡ not (is_among text.now self.old)) }
    {
        let new = self.texts.insert(text)?;
        Ok(new)
    }

    /// Adds texts, one after the other.
    pub fn add_all(&mut self, others: &'a [Bytes]) -> Result<(), AllocError>
        ensures { OnOk result (self.new ≡ with_texts self.old others.now) }
    {
        for other in others {
            self.add(other.as_slice())?;
        }
        Ok(())
    }

    /// Whether a text is there.
    #[tactic(auto, using(crate::proofs::Sets::set_laws))]
    pub fn contains(&self, text: &[u8]) -> bool
        ensures { result ≡ is_among text.now self.now }
    {
        self.texts.contains(text)
    }

    /// The place of a text among them. None where it isn't there.
    #[tactic(auto, using(crate::proofs::Sets::set_laws))]
    pub fn position(&self, text: &[u8]) -> Option<usize>
        ensures value { result ≡ position (bytes_eq text.now) self.now }
        ensures within { IfSome result (λ place. place < length self.now) }
    {
        self.texts.get_index_of(text)
    }

    /// How many texts there are.
    #[tactic(auto, using(crate::proofs::Sets::set_laws))]
    pub fn len(&self) -> usize
        ensures { result ≡ length self.now }
    {
        self.texts.len()
    }

    /// The texts as a slice.
    pub fn as_slice(&self) -> &[&'a [u8]]
        ensures { texts result.now ≡ self.now }
    {
        self.texts.as_slice()
    }

    /// Keeps the first `len` texts.
    #[tactic(auto, using(crate::proofs::Sets::set_laws))]
    pub fn truncate(&mut self, len: usize)
        ensures { self.new ≡ take len self.old }
    {
        self.texts.truncate(len);
    }
}
