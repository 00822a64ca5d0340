//! Different texts that the set itself keeps.
ghost use Rattle.std.specs.Prelude.{◌≡◌, [], length, take, OnOk, OnErr};
ghost use Rattle.text_set.specs.Sets.{is_among, with_text};

use indexmap::IndexSet;
use std::alloc::{AllocError, Global};
use std::marker::Model;

/// Different texts of which the set keeps copies, seen as their list.
#[derive(Drop)]
pub struct OwnedTextSet {
    texts: IndexSet<Vec<u8>>,
}

impl Model for OwnedTextSet {
    ghost use Rattle.std.specs.Prelude as prelude;
    ghost use Rattle.text_set.specs.Sets as shown;

    ghost Value = { prelude.List (prelude.List prelude.ℕ) };

    ghost view = { λ s. shown.owned s.texts.keys };
}

impl OwnedTextSet {
    /// The set of no text. It takes no memory.
    pub fn new(alloc: Global) -> OwnedTextSet
        ensures { result ≡ [] }
    {
        OwnedTextSet {
            texts: IndexSet::new(alloc),
        }
    }

    /// Adds a text, where it isn't there yet. Where memory runs out the set is as before.
    #[tactic(auto, using(crate::proofs::Copies::set_laws))]
    pub fn add(&mut self, alloc: Global, text: &[u8]) -> Result<(), AllocError>
        ensures ok { OnOk result (self.new ≡ with_text self.old text.now) }
        ensures err { OnErr result (self.new ≡ self.old) }
    {
        if self.contains(text) {
            return Ok(());
        }
        self.texts.insert(Vec::from_slice(alloc, text)?)?;
        Ok(())
    }

    /// Whether a text is there.
    #[tactic(auto, using(crate::proofs::Copies::set_laws))]
    pub fn contains(&self, text: &[u8]) -> bool
        ensures { result ≡ is_among text.now self.now }
    {
        self.texts.contains(text)
    }

    /// How many texts there are.
    #[tactic(auto, using(crate::proofs::Copies::set_laws))]
    pub fn len(&self) -> usize
        ensures { result ≡ length self.now }
    {
        self.texts.len()
    }

    /// Keeps the first `len` texts.
    #[tactic(auto, using(crate::proofs::Copies::set_laws))]
    pub fn truncate(&mut self, len: usize)
        ensures { self.new ≡ take len self.old }
    {
        self.texts.truncate(len);
    }
}
