//! A heap: the store of a program, the cache of the search for methods, and the lists of enclosing classes, which keep
//! one another's promises: the store is sound, and what the cache and the lists name is of the store.
//!
//! Its calls take any operands and test them where they come in: a value that names nothing of the heap counts as nil,
//! an object of another sort than is wanted has no elements, no bytes and no pairs, and a change of it changes nothing.
//! So a call can fail for memory alone, and what it makes of a program's fault is an exception, as [`Given`] says.
//! What a call reads or leaves stands in its contract, by the words of specs/: Operands says what an operand counts as,
//! Changes what is left of the store.
//!
//! Types: [`Heap`], [`Site`], [`Blank`], [`Cursor`]; [`Given`] of run_values. The calls are those of [`Heap`].
#![tactic(auto)]

mod arrays;
mod classes;
mod constants;
mod copying;
mod copying_spaces;
mod definitions;
mod enumerators;
mod failing;
mod finding;
mod hashes;
pub mod heap;
mod kept_keys;
mod making;
mod methods;
mod objects;
mod reading;
mod rows;
mod strings;
mod telling;
mod testing;
mod values;

pub use enumerators::Cursor;
pub use finding::Site;
pub use heap::Heap;
pub use making::Blank;
pub use run_values::Given;
