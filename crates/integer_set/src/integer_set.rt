ghost use Rattle.std.specs.Prelude.{◌≡◌, ◌<◌, [], length, not, position, IfOk, IfSome, OnOk};
ghost use Rattle.std.specs.Ordering.{int_eq};
ghost use Rattle.integer_set.specs.Sets.{is_among, with_integer};

use indexmap::IndexSet;
use std::alloc::{AllocError, Global};
use std::marker::Model;

/// Different integers, seen as their list.
#[derive(Drop)]
pub struct IntegerSet {
    integers: IndexSet<i64>,
}

impl Model for IntegerSet {
    ghost use Rattle.std.specs.Prelude as prelude;

    ghost Value = { prelude.List prelude.ℤ };

    ghost view = { λ s. s.integers.keys };
}

impl IntegerSet {
    /// The set of no integer. It takes no memory.
    pub fn new(alloc: Global) -> IntegerSet
        ensures { result ≡ [] }
    {
        IntegerSet {
            integers: IndexSet::new(alloc),
        }
    }

    /// Adds an integer, and says whether it wasn't there yet.
    pub fn add(&mut self, integer: i64) -> Result<bool, AllocError>
        ensures set { OnOk result (self.new ≡ with_integer self.old integer) }
        ensures fresh { IfOk result (λ new. new ≡ not (is_among integer self.old)) }
    {
        let new = self.integers.insert(integer)?;
        Ok(new)
    }

    /// The place of an integer among them. None where it isn't there.
    pub fn position(&self, integer: i64) -> Option<usize>
        ensures value { result ≡ position (int_eq integer) self.now }
        ensures within { IfSome result (λ place. place < length self.now) }
    {
        self.integers.get_index_of(&integer)
    }

    /// The integers as a slice.
    pub fn as_slice(&self) -> &[i64]
        ensures { result.now ≡ self.now }
    {
        self.integers.as_slice()
    }

    /// How many integers there are.
    pub fn len(&self) -> usize
        ensures { result ≡ length self.now }
    {
        self.integers.len()
    }
}
