//! The store: objects by their numbers, which only grow in number, and the interned names of symbols.
//!
//! Type: [`Store`], seen as the definition of a store with its count of changes. Calls: `new`, `intern`, `add`,
//! `add_all`, `get`, `set`, `len`, `symbol_name`, `class_object`, `main_object`, `changes`; and those that read or change
//! one part of an object in place: of a class or module `put_method`, `put_default`, `put_constant`, `put_included`; a
//! singleton class `add_singleton`; instance variables `variable`, `set_variable`; an Array `elements`, `set_element`,
//! `push`, `append`, `pop`, `shift`, `unshift`, `replace_elements`; a String `text`, `append_bytes`, `replace_text`; a Hash
//! `pair`, `pair_at`, `pair_count`, `put_pair`, `remove_pair`, `set_absent`; a Proc `send_proc`; a fiber `end_fiber`.
//! Where memory runs out each call, but `new`, leaves the store as it was.
#![tactic(auto, using(def_core::proofs::Good::good_within))]

pub mod elements;
pub mod laws;
mod opening;
pub mod pairs;
pub mod parts;
pub mod single;
pub mod store;
mod symbols;
pub mod texts;

pub use laws::laws_of_opening;
pub use store::Store;
