//! The construct outside the language that a tree names first. Its place is the least among those of the tree's
//! nodes of such constructs; of two nodes with one place it is the one that stands first in the text.
//!
//! Type: [`Found`]. Call: [`first_outside`].
#![tactic(auto)]

pub mod construct;
mod search;

ghost use Rattle.std.specs.Prelude.{◌≡◌, None};
ghost use Rattle.parser_tree.specs.View.{view};
ghost use Rattle.lower_outside.specs.Search.{found};

pub use construct::Found;
use parser_tree::Tree;
use search::find;

/// The construct outside the language with the least place, and none where the tree is within the language. It
/// takes no memory.
pub fn first_outside(tree: &Tree) -> Option<Found>
    ensures { result ≡ found None (view tree.now) }
{
    find(None, tree)
}
