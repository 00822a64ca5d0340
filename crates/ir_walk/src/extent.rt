//! How far a walk over a form goes.

/// How far a walk goes.
#[derive(Clone, Copy, Debug, PartialEq, Eq)]
pub enum Extent {
    /// The forms of a body.
    Body,
    /// Those of all bodies within as well.
    Program,
}

impl Extent {
    ghost use Rattle.std.specs.Prelude.{◌≡◌};
    ghost use Rattle.ir_walk.specs.Walk as walk;

    /// Whether it goes into the bodies within.
    pub fn enters_bodies(self) -> bool
        ensures { result ≡ walk.enters_bodies self }
    {
        match self {
            Extent::Body => false,
            Extent::Program => true,
        }
    }
}
