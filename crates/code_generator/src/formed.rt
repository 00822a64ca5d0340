ghost use Rattle.std.specs.Prelude.{◌≡◌, IfOk};
ghost use Rattle.ir_core.specs.CoreForm.{CoreForm};
ghost use Rattle.code_generator.specs.Built.{form_of};
ghost use Rattle.code_generator.specs.Emission.{form_in};

use crate::tree::Tree;
use std::alloc::{AllocError, Global};

/// A tree, or none where a core is no form of the language.
pub type Made = Result<Option<Tree>, AllocError>;

/// What may have a tree: a core that stands for a core form.
pub trait Formed {
    ghost core: { Self → CoreForm };

    /// The tree of the core, where it is a form of the language.
    fn tree(&self, alloc: Global) -> Made
        ensures { IfOk result (λ tree. form_of (core self.now) ≡ form_in tree) };
}
