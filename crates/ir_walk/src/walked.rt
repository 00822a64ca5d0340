ghost use Rattle.std.specs.Prelude.{◌≡◌, OnOk};
ghost use Rattle.ir_core.specs.CoreForm.{CoreForm};
ghost use Rattle.ir_walk.specs.Steps.{steps};
ghost use Rattle.ir_walk.specs.Walk as walks;

use crate::extent::Extent;
use crate::step::Step;
use std::alloc::AllocError;

/// Nothing, where there was memory for what is met.
pub type Noted = Result<(), AllocError>;

/// What is walked over: a core that stands for a form.
pub trait Walked {
    ghost form: { Self → CoreForm };

    /// Notes the core and its parts, left to right.
    fn walk<'a>(&'a self, extent: Extent, trail: &mut Vec<Step<'a>>) -> Noted
        ensures { OnOk result (steps trail.new.items ≡ walks.walked extent (steps trail.old.items) (form self.now)) };
}
