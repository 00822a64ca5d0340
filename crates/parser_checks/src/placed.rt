ghost use Rattle.std.specs.Prelude.{◌≡◌, ◌++◌, OnOk};
ghost use Rattle.parser_tree.specs.Node.{Node};
ghost use Rattle.parser_checks.specs.Doubled.{bound};
ghost use Rattle.parser_checks.specs.Places as places;

use crate::context::Context;
use crate::found::Found;
use rb_base::{Bytes, List};
use std::alloc::{AllocError, Global};

/// The least place of what may not stand where it stands, if there is any.
pub type Check = Result<Found, AllocError>;

/// What is checked: a tree that stands for a node.
pub trait Placed {
    ghost node: { Self → Node };

    /// Finds a word of the tree that may not stand where it stands, and parameters of one name, before a place that was
    /// found.
    fn check(&self, context: Context, best: Found) -> Check
        ensures { places.Walks result (places.walk context.around (node self.now) best) };

    /// Whether a constant is among the targets that the tree is.
    fn names_constant(&self) -> bool
        ensures { result ≡ places.names_constant (node self.now) };

    /// Puts the names that the tree, a pattern, binds after others.
    fn bound_names(&self, alloc: Global, names: &mut List<Bytes>) -> Result<(), AllocError>
        ensures { OnOk result (names.new ≡ names.old ++ bound (node self.now)) };
}
