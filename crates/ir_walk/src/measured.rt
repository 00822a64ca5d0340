ghost use Rattle.std.specs.Prelude.{◌≡◌, IfOk};
ghost use Rattle.ir_core.specs.CoreForm.{CoreForm};
ghost use Rattle.ir_walk.specs.Width as widths;

use std::alloc::{AllocError, Global};

/// What is measured: a core that stands for a form.
pub trait Measured {
    ghost form: { Self → CoreForm };

    /// How many registers the core takes.
    fn width(&self, alloc: Global) -> Result<u64, AllocError>
        ensures { IfOk result (λ w. w ≡ widths.width (form self.now)) };
}
