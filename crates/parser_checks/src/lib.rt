//! The trees that are no program although the grammar derives them: `break` and `next` outside of loops and blocks,
//! `retry` outside of rescue clauses, `return` in the body of a class, `yield` and `super` outside of methods, classes,
//! modules and assignments of constants inside of methods, and parameters of one name (docs/language.md).
//!
//! Types: [`Around`], [`Found`]. Call: [`misplaced`].
#![tactic(auto)]

ghost use Rattle.parser_tree.specs.View.{view};
ghost use Rattle.parser_checks.specs.Places as places;

pub mod around;
pub mod context;
pub mod doubled;
pub mod forms;
pub mod found;
pub mod parts;
pub mod placed;
pub mod targets;
mod tree;

pub use around::Around;
use context::Context;
pub use found::Found;
use parser_tree::Tree;
use placed::Placed;
use std::alloc::{AllocError, Global};

/// The least place of a word of a program that may not stand where it stands, or of a definition two of whose parameters
/// have one name; a class, a module and an assigned constant inside of a method stand for the place of the method.
pub fn misplaced(alloc: Global, tree: &Tree) -> Result<Found, AllocError>
    ensures { places.Walks result (places.misplaced (view tree.now)) }
{
    let context = Context {
        alloc,
        around: Around::program(),
    };
    tree.check(context, None)
}
