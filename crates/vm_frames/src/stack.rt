//! A stack whose places are used again.
ghost use Rattle.std.specs.Prelude.{◌≡◌, ◌++◌, ◌∷◌, ◌-◌, [], length, take, slice_get, slice_set, option_copied, OnOk, OnErr};

use std::alloc::{AllocError, Global};
use std::marker::Model;

/// A stack of plain items. What was popped keeps its place, which the next item takes.
#[derive(Drop)]
pub struct Stack<T> {
    items: Vec<T>,
    count: usize,
}

impl<T> Model for Stack<T> {
    ghost use Rattle.std.specs.Prelude as prelude;
    ghost use Rattle.std.specs.Prelude.{◌≤◌};

    ghost Value = { prelude.List T };

    ghost view = { λ s. prelude.take s.count s.items.items };

    ghost invariant = { λ s. s.count ≤ prelude.length s.items.items };
}

impl<T: Copy + Drop> Stack<T> {
    /// A stack without items. It takes no memory.
    pub fn new(alloc: Global) -> Stack<T>
        ensures { result ≡ [] }
    {
        Stack {
            items: Vec::new(alloc),
            count: 0,
        }
    }

    /// How many items there are.
    #[inline(always)]
    pub fn count(&self) -> usize
        ensures { result ≡ length self.now }
    {
        self.count
    }

    /// The last item.
    #[inline(always)]
    pub fn last(&self) -> Option<&T>
        ensures { option_copied result ≡ slice_get self.now (length self.now - 1) }
    {
        self.items.get(self.count.checked_sub(1)?)
    }

    /// Puts an item in the place of the last one, where there is one. It takes no memory.
    #[tactic(auto, using(crate::proofs::Stacking::set_at_end))]
    pub fn set_last(&mut self, item: &T)
        ensures { self.new ≡ slice_set self.old (length self.old - 1) item.now }
    {
        if let Some(last) = self.count.checked_sub(1) {
            if let Some(place) = self.items.get_mut(last) {
                *place = *item;
            }
        }
    }

    /// The items, the first one first.
    pub fn items(&self) -> &[T]
        ensures { result.now ≡ self.now }
    {
        self.items.get(..self.count).unwrap_or(&[])
    }

    /// One item more at the end. Where memory runs out all is as before.
    #[inline(always)]
    pub fn push(&mut self, item: &T) -> Result<(), AllocError>
        ensures ok { OnOk result (self.new ≡ self.old ++ item.now ∷ []) }
        ensures err { OnErr result (self.new ≡ self.old) }
    {
        if self.count < self.items.len() {
            if let Some(place) = self.items.get_mut(self.count) {
                *place = *item;
            }
        } else {
            self.items.push(*item)?;
        }
        self.count = self.count.wrapping_add(1);
        Ok(())
    }

    /// The last item goes, where there is one. It takes no memory.
    #[inline(always)]
    pub fn drop_last(&mut self)
        ensures { self.new ≡ take (length self.old - 1) self.old }
    {
        self.count = self.count.saturating_sub(1);
    }
}
