//! What a call enters: its outcome, where that is there at once, a body of code, or an iteration.
//!
//! Types: [`Activation`] with [`Runs`]; [`Entry`] with [`Opening`] and [`Beginning`]; [`Request`], [`Naming`];
//! [`BlockArgument`]; [`Unrescued`]. Entering: [`enter_named`], [`enter_super`], [`enter_value`], [`enter_proc`],
//! [`send_by_core`]; by what is found [`enter_found`]; activations of
//! bodies [`method_running`], [`proc_running`], [`proc_binds`]. Blocks: [`block_argument`], [`settle`],
//! [`break_target`]. Bodies of classes: [`open_space`], [`close`]. Exceptions: [`is_of`], [`seen_of`]. Fibers:
//! [`one_of`].
//!
//! A call hands the arguments on as a slice and copies none: what is entered is given that slice, or that slice after a
//! name where `method_missing` takes the call.
#![tactic(auto)]

pub mod activation;
pub mod blocks;
pub mod entry;
pub mod exceptions;
pub mod methods;
pub mod missing;
pub mod naming;
pub mod procs;
pub mod rows;
pub mod spaces;
pub mod values;

pub use activation::{Activation, Runs};
pub use blocks::{BlockArgument, block_argument, break_target, settle};
pub use core_iter;
pub use core_iter::{core_calls, heap, run_rows};
pub use entry::{Beginning, Entry, Opening, Request};
pub use exceptions::{Unrescued, is_of, seen_of};
pub use methods::{enter_found, method_running};
pub use naming::{Naming, enter_named, enter_super, send_by_core};
pub use procs::{enter_proc, enter_value, proc_binds, proc_running};
pub use rows::enter_row;
pub use spaces::{close, open_space};
pub use values::one_of;
