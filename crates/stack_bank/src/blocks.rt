//! One stack, and the blocks that hold its slots.
ghost use Rattle.std.specs.Prelude.{◌≡◌, ◌+◌, ◌^◌, ◌<◌, ◌≤◌, ℕ, OnOk, OnErr, length, take, vec_len};
ghost use Rattle.std.specs.Vec.{vec_capacity};
ghost use Rattle.std.specs.Int.{div_ceil};
ghost use Rattle.stack_bank.specs.Inside.{held, no_stack, HoldsTable, Adds, Drops, Clears, StackGrows};

use rb_value::Value;
use slot_pool::{BlockId, SlotPool};
use std::alloc::{AllocError, Global};

/// How many places a block has.
pub(crate) const PLACES: usize = 64;

const NIL: Value = Value::Nil;

/// Whether a stack is live, how many slots it has, and the blocks that hold them, in order.
#[derive(Debug, Drop)]
pub struct Stack {
    pub live: bool,
    pub length: usize,
    pub blocks: Vec<usize>,
}

impl Stack {
    /// A live stack without slots. It takes no memory.
    pub fn new(alloc: Global) -> Stack
        ensures { held result ≡ no_stack }
    {
        Stack {
            live: true,
            length: 0,
            blocks: Vec::new(alloc),
        }
    }
}

/// Puts `n` times nil after the slots of a stack. All memory is taken before anything is changed.
pub(crate) fn grow_stack(
    pool: &mut SlotPool<Value>,
    stack: &mut Stack,
    n: usize,
) -> Result<(), AllocError>
    requires holds { HoldsTable pool.old.blocks stack.old.blocks.items }
    requires sized { length stack.old.blocks.items ≡ div_ceil stack.old.length 64 }
    ensures ok { OnOk result (StackGrows pool.old.blocks pool.new.blocks (held stack.old) (held stack.new) n) }
    ensures err_pool { OnErr result (pool.new.blocks ≡ pool.old.blocks) }
    ensures err_stack { OnErr result (held stack.new ≡ held stack.old) }
{
    let length = stack.length.checked_add(n).ok_or(AllocError)?;
    let more = length.div_ceil(PLACES) - stack.blocks.len();
    pool.reserve(more)?;
    stack.blocks.reserve(more)?;
    clear_rest(pool, &stack.blocks, stack.length, n);
    lease_blocks(pool, &mut stack.blocks, more);
    stack.length = length;
    Ok(())
}

/// Writes nil into the places after the slots, as far as `n` slots more need them and the last block has them.
fn clear_rest(pool: &mut SlotPool<Value>, blocks: &Vec<usize>, len: usize, n: usize)
    requires holds { HoldsTable pool.old.blocks blocks.now.items }
    requires sized { length blocks.now.items ≡ div_ceil len 64 }
    requires fits { len + n < 2 ^ 64 }
    ensures { Clears pool.old pool.new blocks.now.items len n }
{
    let from = len % PLACES;
    if from != 0 {
        let last = blocks[len / PLACES];
        pool.fill(BlockId(last), from, PLACES.min(from + n), NIL);
    }
}

/// Leases `n` blocks of nil for a stack. There is room for them.
fn lease_blocks(pool: &mut SlotPool<Value>, blocks: &mut Vec<usize>, n: usize)
    requires spare { n ≤ pool.old.spare }
    requires room { vec_len blocks.old + n ≤ vec_capacity blocks.old }
    requires holds { HoldsTable pool.old.blocks blocks.old.items }
    ensures { Adds pool.old.blocks pool.new.blocks blocks.old.items blocks.new.items n }
{
    for _i in 0..n {
        let block = pool.lease_reserved(NIL);
        blocks.push_reserved(block.0);
    }
}

/// Gives the blocks of a stack back, but for the first `keep`.
pub(crate) fn give_blocks(pool: &mut SlotPool<Value>, blocks: &mut Vec<usize>, keep: usize)
    requires holds { HoldsTable pool.old.blocks blocks.old.items }
    requires within { keep ≤ vec_len blocks.old }
    ensures { Drops pool.old.blocks pool.new.blocks blocks.old.items blocks.new.items keep }
{
    'give: while blocks.len() > keep {
        if let Some(block) = blocks.pop() {
            pool.give(BlockId(block));
        }
    }
}
