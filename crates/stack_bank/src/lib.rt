//! Stacks of slots, all over one pool of blocks.
//!
//! A bank is seen as its stacks by number, each a list of slots, and as the tables of the blocks that hold them.
//! What a call does is said of the lists alone; the tables are there for [`Window`], which reaches the slots of a
//! part of one stack without a look-up in its table: it stays good while the table keeps the blocks of that part.
//!
//! Types: [`StackBank`], [`StackId`], [`Window`]. Calls: those of the bank.
#![tactic(auto)]

pub mod bank;
mod blocks;
pub mod window;

pub use bank::{StackBank, StackId};
pub use window::Window;
