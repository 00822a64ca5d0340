//! The scopes of all bodies.
ghost use Rattle.std.specs.Prelude.{◌≡◌, ◌<◌, ◌^◌, length, IfOk};
ghost use Rattle.scope_leaps.specs.Leaps.{outer_in, scope_in, ComeBefore};

use crate::finding::scope_out;
use crate::leap::{Leap, leaps};
use rb_base::List;
use std::alloc::{AllocError, Global};
use std::marker::Model;

/// For each body the one that is one level out, where there is one. Seen as their list.
#[derive(Debug, Drop)]
pub struct Scopes {
    outers: List<Option<u32>>,
    leaps: List<Leap>,
}

impl Model for Scopes {
    ghost use Rattle.std.specs.Prelude as prelude;
    ghost use Rattle.scope_leaps.specs.Leaps.{AreLeaps};

    ghost Value = { prelude.List (prelude.Option prelude.ℕ) };

    ghost view = { λ s. s.outers };

    ghost invariant = { λ s. AreLeaps s.outers s.leaps };
}

impl Scopes {
    /// The scopes, by the body one level out of each, which stands before it.
    pub fn new(alloc: Global, outers: List<Option<u32>>) -> Result<Scopes, AllocError>
        requires small { length outers < 2 ^ 32 }
        requires before { ComeBefore outers }
        ensures { IfOk result (λ s. s ≡ outers) }
    {
        let leaps = leaps(alloc, outers.as_slice())?;
        Ok(Scopes { outers, leaps })
    }

    /// The body one level out. None where there is none, as where there is no such body.
    pub fn outer(&self, body: u32) -> Option<u32>
        ensures { result ≡ outer_in self.now body }
    {
        *self.outers.as_slice().get(body as usize)?
    }

    /// The body `between + 1` levels out. None where that goes past a body that has none one level out.
    pub fn out(&self, between: u16, body: u32) -> Option<u32>
        ensures { result ≡ scope_in self.now between body }
    {
        if (body as usize) < self.outers.len() {
            scope_out(self.outers.as_slice(), self.leaps.as_slice(), between, body)
        } else {
            None
        }
    }
}
