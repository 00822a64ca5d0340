//! What forms and instructions do with constants and definitions: each call answers as the definition of def_calls
//! does, in every world with the store, and with the lists of enclosing classes, that it is given.
//!
//! Type: [`EnclosingLists`]. Constants: [`get_constant`], [`get_constant_in`], [`set_constant`], [`set_constant_in`].
//! Definitions: [`define_method`], [`singleton_class`], [`open_class`], [`open_module`], [`set_public_default`],
//! [`alias_method`], [`undefine_method`], [`remove_method`]. What `defined?` tells: module [`telling`].
#![tactic(auto)]

pub mod constants;
pub mod definitions;
pub mod enclosing;
pub mod naming;
pub mod removing;
mod renaming;
pub mod telling;

pub use constants::{constant_within, find_constant, get_constant, get_constant_in};
pub use definitions::{
    alias_method, define_method, open_class, open_module, set_public_default, singleton_class,
    space_in, undefine_method,
};
pub use enclosing::{Enclosing, EnclosingLists};
pub use naming::{set_constant, set_constant_in};
pub use removing::remove_method;
