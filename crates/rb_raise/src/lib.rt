//! The exceptions that the language itself raises: for a cause, a new String with its text, and the failure from which
//! the exception is made.
//!
//! Calls: [`raise`]; and [`new_string`], by which it makes the String, and [`class_name`], which texts show of a class.
#![tactic(auto)]

mod messages;
pub mod raising;
mod text;

pub use messages::class_name;
pub use raising::{new_string, raise};
