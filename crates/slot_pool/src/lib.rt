//! Values in blocks of 64 places, which are leased and given back.
//!
//! All blocks stand in one vector, one after another: place i of block b is place 64 b + i of the pool. A pool is
//! seen as its blocks by number, a live one as the list of its 64 values, as the list of the free blocks, and as
//! `spare`, the number of blocks that can be leased without memory.
//!
//! Types: [`SlotPool`], [`BlockId`]. Calls: those of the pool.
#![tactic(auto)]

pub mod pool;

pub use pool::{BlockId, SlotPool};
