ghost use Rattle.std.specs.Prelude.{◌≡◌, ◌<◌, ◌≤◌, length, sum_by, OnOk, OnErr, IfOk, Some, slice_get};
ghost use Rattle.stack_bank.specs.Bank.{no_stacks, IsLive, slots, opened, Grows, shrunk, with_slot, closed, blocks_of};

use crate::blocks::{PLACES, Stack, give_blocks, grow_stack};
use rb_value::Value;
use slot_pool::{BlockId, SlotPool};
use std::alloc::{AllocError, Global};
use std::marker::Model;

/// The number of a stack.
#[derive(Clone, Copy, Debug, PartialEq, Eq)]
pub struct StackId(pub u64);

/// Stacks of slots.
#[derive(Debug, Drop)]
pub struct StackBank {
    pub(crate) pool: SlotPool<Value>,
    pub(crate) stacks: Vec<Stack>,
    alloc: Global,
}

impl Model for StackBank {
    ghost use Rattle.std.specs.Prelude.{map};
    ghost use Rattle.stack_bank.specs.Bank.{Bank};
    ghost use Rattle.stack_bank.specs.Inside.{held, see, IsSound};

    ghost Value = { Bank };

    ghost view = { λ b. see b.pool.blocks (map held b.stacks.items) };

    ghost invariant = { λ b. IsSound b.pool.blocks (map held b.stacks.items) };
}

impl StackBank {
    /// A bank without stacks. It takes no memory.
    pub fn new(alloc: Global) -> StackBank
        ensures { result ≡ no_stacks }
    {
        StackBank {
            pool: SlotPool::new(alloc),
            stacks: Vec::new(alloc),
            alloc,
        }
    }

    /// Opens a stack without slots: it has the next number. Where memory runs out the bank is as before.
    pub fn open_stack(&mut self) -> Result<StackId, AllocError>
        ensures number { IfOk result (λ id. id.0 ≡ length self.old.stacks) }
        ensures ok { OnOk result (self.new ≡ opened self.old) }
        ensures err { OnErr result (self.new ≡ self.old) }
    {
        let id = self.stacks.len();
        self.stacks.push(Stack::new(self.alloc))?;
        Ok(StackId(id as u64))
    }

    /// Puts `n` times nil after the slots of a stack. Where memory runs out, or so many slots can't be numbered,
    /// the bank is as before.
    pub fn grow(&mut self, id: StackId, n: usize) -> Result<(), AllocError>
        requires { IsLive self.old id.0 }
        ensures ok { OnOk result (Grows self.old self.new id.0 n) }
        ensures err { OnErr result (self.new ≡ self.old) }
    {
        grow_stack(&mut self.pool, &mut self.stacks[id.0 as usize], n)
    }

    /// Takes the last `n` slots of a stack away. It takes no memory.
    pub fn shrink(&mut self, id: StackId, n: usize)
        requires live { IsLive self.old id.0 }
        requires within { n ≤ length (slots self.old id.0) }
        ensures { self.new ≡ shrunk self.old id.0 n }
    {
        let stack = &mut self.stacks[id.0 as usize];
        let length = stack.length - n;
        give_blocks(&mut self.pool, &mut stack.blocks, length.div_ceil(PLACES));
        stack.length = length;
    }

    /// How many slots a stack has.
    pub fn len(&self, id: StackId) -> usize
        requires { IsLive self.now id.0 }
        ensures { result ≡ length (slots self.now id.0) }
    {
        self.stacks[id.0 as usize].length
    }

    /// Slot `i` of a stack.
    pub fn get(&self, id: StackId, i: usize) -> Value
        requires live { IsLive self.now id.0 }
        requires within { i < length (slots self.now id.0) }
        ensures { slice_get (slots self.now id.0) i ≡ Some result }
    {
        let stack = &self.stacks[id.0 as usize];
        self.pool
            .read(BlockId(stack.blocks[i / PLACES]), i % PLACES)
    }

    /// Writes slot `i` of a stack.
    pub fn set(&mut self, id: StackId, i: usize, v: Value)
        requires live { IsLive self.old id.0 }
        requires within { i < length (slots self.old id.0) }
        ensures { self.new ≡ with_slot self.old id.0 i v }
    {
        let block = self.stacks[id.0 as usize].blocks[i / PLACES];
        self.pool.write(BlockId(block), i % PLACES, v);
    }

    /// Closes a stack: its blocks are given back. It takes no memory.
    pub fn close(&mut self, id: StackId)
        requires { IsLive self.old id.0 }
        ensures { self.new ≡ closed self.old id.0 }
    {
        let stack = &mut self.stacks[id.0 as usize];
        give_blocks(&mut self.pool, &mut stack.blocks, 0);
        stack.length = 0;
        stack.live = false;
    }

    /// How many blocks of 64 places the stacks have.
    pub fn blocks(&self) -> usize
        ensures { result ≡ sum_by blocks_of self.now.stacks }
    {
        self.pool.live()
    }
}
