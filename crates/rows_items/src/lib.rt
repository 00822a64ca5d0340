//! What Arrays, Hashes and Ranges share: their items in order, and the core methods of items that call no others. The
//! items of an Array are its elements, those of a Hash are new Arrays of key and value, and those of a Range are its
//! Integers, or new Strings of one byte.
//!
//! Rows: [`ItemRow`], [`rows_of`], [`call`]. For methods of items elsewhere: [`items_of`], [`first_items`],
//! [`order_of`], [`extreme_place`], [`sorted`], [`sort_stably`], [`put_pair`]. What a row gives or why it doesn't:
//! [`RowError`], [`settle`], with checks of arguments.
#![tactic(auto)]

mod checks;
mod error;
mod items;
mod keyed;
mod order;
pub mod rows;
mod sorting;
mod stable;
mod zipping;

pub use checks::{an_array, an_integer, count};
pub use core_calls;
pub use core_calls::heap;
pub use error::{RowError, settle};
pub use items::{first_items, items_of, put_values};
pub use keyed::{key_of, put_pair};
pub use order::order_of;
pub use rows::{ItemRow, call, rows_of};
pub use sorting::{Extreme, KeyKind, extreme_place, kind_of_all, number_order, sorted, text_order};
pub use stable::{Ranked, sort_stably};
