//! A part of a stack whose first slots are reached by their places in the pool.
ghost use Rattle.std.specs.Prelude.{◌≡◌, ◌+◌, ◌-◌, ◌*◌, ◌/◌, ◌^◌, ◌<◌, ◌≤◌, ℕ, length, min, Some, slice_get, slice_index};
ghost use Rattle.stack_bank.specs.Bank.{IsLive, slots, table, with_slot};
ghost use Rattle.stack_bank.specs.Window.{Reaches, near_slots, run_last};

use crate::bank::{StackBank, StackId};
use crate::blocks::PLACES;
use rb_value::Value;
use slot_pool::BlockId;

/// The slots of the stack `id` from `base` on. The first `near` of them stand one after another in the pool, from
/// the place `start` on.
#[derive(Clone, Copy, Debug)]
pub struct Window {
    pub id: StackId,
    pub base: usize,
    pub start: usize,
    pub near: usize,
}

impl StackBank {
    /// The window of `n` slots from `base` on: as many of them as stand in blocks that follow one another are
    /// reached by their places. It takes no memory.
    pub fn window(&self, id: StackId, base: usize, n: usize) -> Window
        requires live { IsLive self.now id.0 }
        requires within { base + n ≤ length (slots self.now id.0) }
        ensures id { result.id ≡ id }
        ensures base { result.base ≡ base }
        ensures near { result.near ≡ near_slots (table self.now id.0) base n }
        ensures reaches { Reaches self.now result }
    {
        let stack = &self.stacks[id.0 as usize];
        if n == 0 {
            return Window {
                id,
                base,
                start: 0,
                near: 0,
            };
        }
        let first = base / PLACES;
        let last = (base + n - 1) / PLACES;
        let start = self.pool.place(BlockId(stack.blocks[first]), base % PLACES);
        let run = run_end(&stack.blocks, first, last);
        let near = slots_up_to(base, n, run, last);
        Window {
            id,
            base,
            start,
            near,
        }
    }

    /// Slot `i` of a window.
    #[inline]
    pub fn get_in(&self, window: Window, i: usize) -> Value
        requires reaches { Reaches self.now window }
        requires live { IsLive self.now window.id.0 }
        requires within { window.base + i < length (slots self.now window.id.0) }
        ensures { slice_get (slots self.now window.id.0) (window.base + i) ≡ Some result }
    {
        // What a bank keeps of its stacks bounds the sums.
        let _ = &self.stacks;
        if i < window.near {
            self.pool.read_at(window.start, i)
        } else {
            self.get(window.id, window.base + i)
        }
    }

    /// Writes slot `i` of a window.
    #[inline]
    pub fn set_in(&mut self, window: Window, i: usize, v: Value)
        requires reaches { Reaches self.old window }
        requires live { IsLive self.old window.id.0 }
        requires within { window.base + i < length (slots self.old window.id.0) }
        ensures { self.new ≡ with_slot self.old window.id.0 (window.base + i) v }
    {
        // What a bank keeps of its stacks bounds the sums.
        let _ = &self.stacks;
        if i < window.near {
            self.pool.write_at(window.start, i, v);
        } else {
            self.set(window.id, window.base + i, v);
        }
    }
}

/// How many of the `n` slots from `base` on stand in the blocks up to `run`, where `last` is the block of the last
/// one.
fn slots_up_to(base: usize, n: usize, run: usize, last: usize) -> usize
    requires some { 0 < n }
    requires fits { base + n < 2 ^ 64 }
    requires low { base / 64 ≤ run }
    requires high { run ≤ last }
    requires last { last ≡ (base + n - 1) / 64 }
    ensures { result ≡ min n (64 * (run + 1) - base) }
{
    if run == last {
        n
    } else {
        (run + 1) * PLACES - base
    }
}

/// The last of the blocks from `first` to `last` up to which each follows the one before by number.
fn run_end(blocks: &[usize], first: usize, last: usize) -> usize
    requires order { first ≤ last }
    requires within { last < length blocks.now }
    requires fits { slice_index blocks.now first + last < 2 ^ 64 }
    ensures run { result ≡ min last (run_last blocks.now first) }
    ensures follow { (j : ℕ) → first ≤ j → j ≤ result →
        slice_index blocks.now j ≡ slice_index blocks.now first + (j - first) }
{
    let mut at = first;
    'run: while at < last {
        if blocks[at + 1] != blocks[first] + (at + 1 - first) {
            break;
        }
        at += 1;
    }
    at
}
