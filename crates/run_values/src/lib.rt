//! What forms and instructions do with values alone: each call answers as the definition of def_calls does, in every
//! world with the store that it is given.
//!
//! Type: [`Given`], what a call gives or raises. Calls by which others answer: [`answer`], [`make`], [`fail`],
//! [`wrong_value`]. What a value is: module [`kinds`]. Instance variables: [`instance_variable`],
//! [`set_instance_variable`]. Elements for multiple assignment: [`element`], [`elements_between`], [`last_elements`].
//! Splats: [`splat`], [`push_splat`]. Texts: [`append_text`], [`make_symbol`]. Ranges: [`make_range`]. Keys of Hashes:
//! [`key_of`].
#![tactic(auto)]

pub mod answering;
pub mod elements;
pub mod given;
pub mod key_parts;
pub mod keys;
pub mod kinds;
pub mod making;
pub mod ranges;
pub mod splats;
pub mod texts;
pub mod variables;

pub use answering::{answer, fail, wrong_value};
pub use elements::{element, elements_between, elements_or_itself, last_elements};
pub use given::Given;
pub use keys::key_of;
pub use making::{make, make_items, make_text};
pub use ranges::make_range;
pub use splats::{push_splat, splat};
pub use texts::{append_text, make_symbol, text_of_value};
pub use variables::{instance_variable, set_instance_variable};
