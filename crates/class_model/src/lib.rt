//! Classes and modules of a store: defining and including them, singleton classes, their methods, their ancestors,
//! where the look-up of a value's methods begins, and where a method is found.
//!
//! Types: [`Chain`], [`Ancestors`](ancestry::Ancestors). Calls that change a store: [`define_class`],
//! [`define_module`], [`singleton`], [`include`], [`set_method`], [`set_visibility`], [`set_default`]. Calls that take
//! no memory: [`ancestors`], [`class_of`], [`plain_class_of`], [`superclass_of`], [`included_in`], [`is_in_chain`],
//! [`find`], [`first_of`], [`own_entry`], [`own_method`], [`own_constant`], [`default_visibility`].
//! Each call wants a sound store and classes or modules of it, and leaves the store sound.
#![tactic(auto)]

pub mod ancestry;
pub mod chain;
pub mod definition;
mod failing;
pub mod finding;
pub mod inclusion;
pub mod methods;
pub mod receiver;
pub mod singletons;

pub use chain::{Chain, ancestors, included_in, superclass_of};
pub use definition::{define_class, define_module, own_constant};
pub use finding::{find, first_of};
pub use inclusion::{include, is_in_chain};
pub use methods::{
    default_visibility, own_entry, own_method, set_default, set_method, set_visibility,
};
pub use receiver::{class_of, plain_class_of};
pub use singletons::singleton;
