//! The calls on an implementation in memory, some of which are to fail.
ghost use Rattle.std.specs.Prelude.{◌≡◌, ◌↔◌, IsTrue};
ghost use Rattle.rb_base.specs.Memory.{Calls, no_calls, NextFails, after_call};

use std::marker::Model;

/// Counts calls, and tells which of them are to fail.
#[derive(Debug, Drop)]
pub struct CallCounter {
    fails: Vec<u64>,
    made: u64,
}

impl Model for CallCounter {
    ghost Value = { Calls };

    ghost view = { λ c. record { fails = c.fails.items; made = c.made } };
}

impl CallCounter {
    /// The counter of no call. `fails` has the numbers of the calls that fail, from 1.
    pub fn new(fails: Vec<u64>) -> CallCounter
        ensures { result ≡ no_calls fails.items }
    {
        CallCounter { fails, made: 0 }
    }

    /// Counts a call, and tells whether it fails.
    pub fn next_fails(&mut self) -> bool
        ensures fails { IsTrue result ↔ NextFails self.old }
        ensures counted { self.new ≡ after_call self.old }
    {
        self.made = self.made.saturating_add(1);
        self.fails.contains(&self.made)
    }
}
