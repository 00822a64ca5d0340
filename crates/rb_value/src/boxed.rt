//! Contents that stand apart, so that what holds them is small.
ghost use Rattle.std.specs.Prelude.{◌≡◌, IfOk};
ghost use Rattle.std.specs.Borrow.{sem};
ghost use Rattle.rb_value.specs.BoxLending.{LendsContents};

use std::alloc::{AllocError, Global};
use std::marker::Model;

/// Contents on the heap, seen as the contents.
#[derive(Drop)]
pub struct Boxed<T> {
    contents: Box<T>,
}

impl<T> Model for Boxed<T> {
    ghost use Rattle.std.specs.Prelude as prelude;

    ghost Value = { T };

    ghost view = { λ b. b.contents.value };
}

impl<T> Boxed<T> {
    /// Puts the contents on the heap.
    pub fn new(alloc: Global, contents: T) -> Result<Boxed<T>, AllocError>
    where
        T: Drop,
        ensures { IfOk result (λ b. b ≡ contents) }
    {
        Ok(Boxed {
            contents: Box::new(alloc, contents)?,
        })
    }

    /// The contents.
    pub fn get(&self) -> &T
        ensures { result.now ≡ self.now }
    {
        &self.contents
    }

    /// The contents, to be changed.
    pub fn get_mut(&mut self) -> &mut T
        ensures* writes_back { sem 𝓛 (LendsContents T.row self.entry result) }
        ensures value { result.now ≡ self.old }
    {
        &mut self.contents
    }
}
