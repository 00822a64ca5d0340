//! Block arguments, and what a break ends.
ghost use Rattle.std.specs.Prelude.{◌≡◌, IfOk, OnOk, OnErr};
ghost use Rattle.def_core.specs.Store.{object_at};
ghost use Rattle.heap.specs.Reading.{proc_in};
ghost use Rattle.run_calls.specs.Blocks as blocks;

use crate::activation::Runs;
use core_iter::core_calls::hidden::SEND_KEPT_ROW;
use core_iter::heap::Heap;
use rb_value::{ObjId, Value};
use std::alloc::AllocError;

/// What a block argument comes to.
#[derive(Clone, Copy, Debug, PartialEq, Eq)]
pub enum BlockArgument {
    NoBlock,
    BlockOf(ObjId),
    NotABlock,
}

/// The value of a block argument: nil, a Proc, or a Symbol, whose Proc sends it to its first argument. Where memory
/// runs out the heap is as before.
pub fn block_argument(heap: &mut Heap, value: Value) -> Result<BlockArgument, AllocError>
    ensures passed { IfOk result (λ passed. passed ≡ blocks.passed heap.old.store value) }
    ensures made { OnOk result (heap.new ≡ blocks.with_passed heap.old value) }
    ensures err { OnErr result (heap.new ≡ heap.old) }
{
    match value {
        Value::Nil => Ok(BlockArgument::NoBlock),
        Value::Sym(_) => {
            let id = heap.make_core_proc(SEND_KEPT_ROW, value)?;
            Ok(BlockArgument::BlockOf(id))
        }
        other => match heap.a_proc(other) {
            Some(id) => Ok(BlockArgument::BlockOf(id)),
            None => Ok(BlockArgument::NotABlock),
        },
    }
}

/// Settles what a break of a Proc ends, where this is the first call that passes it as its block: the activation that
/// is opened, or none. It takes no memory.
#[inline(always)]
pub fn settle(heap: &mut Heap, block: Option<ObjId>, target: Option<u64>)
    ensures { heap.new ≡ blocks.settled heap.old block target }
{
    match block {
        Some(block) => heap.send_proc(block, target),
        None => {}
    }
}

/// The activation that a break in the body of a Proc ends.
fn target_of(heap: &Heap, block: ObjId) -> Option<u64>
    ensures { result ≡ blocks.target_in (proc_in (object_at heap.now.store.objects block).kind) }
{
    match heap.proc_of(block) {
        Some(contents) => contents.sending.break_target(),
        None => None,
    }
}

/// The activation that a break ends in the activation of that number. It takes no memory.
pub fn break_target(heap: &Heap, number: u64, runs: Runs) -> Option<u64>
    ensures { result ≡ blocks.break_target heap.now.store number runs }
{
    match runs {
        Runs::BlockBody(block) => target_of(heap, block),
        Runs::LambdaBody => Some(number),
        _ => None,
    }
}
