//! What files and streams tell at one moment, as the clauses of this program name it.
ghost use Rattle.rb_refusal.specs.Writing.{Stream};
ghost use Rattle.rite_tool.specs.Told.{Input};

use rb_base::{Sink, Source};

/// A source of input that tells.
pub trait OfSource {
    ghost told: { Self → Input };
}

impl<S: Source> OfSource for S {
    ghost told = { λ s. record { left = S.left s; faults = S.faults s } };
}

/// A stream of output that tells.
pub trait OfSink {
    ghost told: { Self → Stream };
}

impl<O: Sink> OfSink for O {
    ghost told = { λ o. record { taken = O.taken o; faults = O.faults o } };
}
