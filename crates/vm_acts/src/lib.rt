//! One instruction of the frame in hand that isn't plain: calls and operators that have to be called, each family in a
//! module; the others stand in vm_steps.
//!
//! Calls: [`act`]; [`call_known`], where it is known what the call finds.
#![tactic(auto)]

pub mod arithmetic;
pub mod calls;
mod execution;
pub mod straight;
pub mod supers;

pub use execution::{act, call_known};
pub use vm_parts;
pub use vm_parts::{
    core_calls, core_iter, fiber_switch, heap, run_calls, run_rows, vm_frames, vm_unwind,
};
