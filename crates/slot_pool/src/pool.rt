ghost use Rattle.std.specs.Prelude.{◌≡◌, ◌==◌, ◌≤◌, ◌<◌, ◌+◌, ◌-◌, ◌*◌, ◌/◌, ◌%◌, ◌++◌, ℕ, length, take, drop, replicate, max, count_by, OnOk, OnErr, IfOk, Some, None, slice_get, vec_len};
ghost use Rattle.std.specs.Vec.{vec_capacity};
ghost use Rattle.slot_pool.specs.Pool.{no_blocks, with_spare, IsLive, block, values, Leases, given, written, filled, live_blocks, with_part};

use std::alloc::{AllocError, Global};
use std::marker::Model;

/// How many places a block has.
const PLACES: usize = 64;

/// The number of a block.
#[derive(Clone, Copy, Debug, PartialEq, Eq)]
pub struct BlockId(pub usize);

/// Blocks of 64 places, over one vector.
#[derive(Debug, Drop)]
pub struct SlotPool<T> {
    slots: Vec<T>,
    free: Vec<usize>,
    // How many blocks stand in `slots`, and for how many more both vectors have room.
    count: usize,
    room: usize,
}

impl<T> Model for SlotPool<T> {
    ghost use Rattle.std.specs.Prelude.{length, ◌+◌};
    ghost use Rattle.std.specs.Vec.{vec_capacity};
    ghost use Rattle.slot_pool.specs.Pool.{Pool};
    ghost use Rattle.slot_pool.specs.Inside.{blocks_of, IsSound};

    ghost Value = { Pool T };

    ghost view = { λ p. record {
      blocks = blocks_of p.free.items p.slots.items p.count;
      free = p.free.items;
      spare =
          length p.free.items + p.room;
    } };

    ghost invariant = { λ p. IsSound p.free.items p.slots.items p.count p.room (vec_capacity p.free)
        (vec_capacity p.slots) };
}

impl<T: Copy> SlotPool<T> {
    /// A pool without blocks. It takes no memory.
    pub fn new(alloc: Global) -> SlotPool<T>
        ensures { result ≡ no_blocks }
    {
        SlotPool {
            slots: Vec::new(alloc),
            free: Vec::new(alloc),
            count: 0,
            room: 0,
        }
    }

    /// Makes room, so that at least `n` blocks can be leased without memory. Where memory runs out, or the places
    /// of so many blocks can't be numbered, the pool is as before.
    pub fn reserve(&mut self, n: usize) -> Result<(), AllocError>
        ensures ok { OnOk result (self.new ≡ with_spare self.old n) }
        ensures err { OnErr result (self.new ≡ self.old) }
    {
        let free = self.free.len();
        if n <= free + self.room {
            return Ok(());
        }
        let room = n - free;
        let places = room.checked_mul(PLACES).ok_or(AllocError)?;
        self.slots.reserve(places)?;
        self.free.reserve(self.count - free + room)?;
        self.room = room;
        Ok(())
    }

    /// Leases a block that holds 64 times `fill`: a free one where there is one, else a new one. Where memory runs
    /// out the pool is as before.
    pub fn lease(&mut self, fill: T) -> Result<BlockId, AllocError>
        ensures ok { IfOk result (λ b. Leases (with_spare self.old 1) self.new b.0 fill) }
        ensures err { OnErr result (self.new ≡ self.old) }
    {
        self.reserve(1)?;
        Ok(self.lease_reserved(fill))
    }

    /// Leases a block that holds 64 times `fill`: a free one where there is one, else a new one. It takes no
    /// memory.
    pub fn lease_reserved(&mut self, fill: T) -> BlockId
        requires { 0 < self.old.spare }
        ensures { Leases self.old self.new result.0 fill }
    {
        match self.free.pop() {
            Some(b) => {
                let start = b * PLACES;
                fill_part(&mut self.slots, start, start + PLACES, fill);
                BlockId(b)
            }
            None => {
                let b = self.count;
                let _ = self.slots.resize(b * PLACES + PLACES, fill);
                self.count += 1;
                self.room -= 1;
                BlockId(b)
            }
        }
    }

    /// Gives a block back: it is among the free ones, once. It takes no memory.
    pub fn give(&mut self, b: BlockId)
        requires { IsLive self.old b.0 }
        ensures given { self.new ≡ given self.old b.0 }
        ensures once { count_by (λ f. f == b.0) self.new.free ≡ 1 }
    {
        self.free.push_reserved(b.0);
    }

    /// The value at place `i` of a block.
    pub fn read(&self, b: BlockId, i: usize) -> T
        requires live { IsLive self.now b.0 }
        requires within { i < 64 }
        ensures { slice_get (values self.now b.0) i ≡ Some result }
    {
        self.slots[b.0 * PLACES + i]
    }

    /// Writes place `i` of a block.
    pub fn write(&mut self, b: BlockId, i: usize, v: T)
        requires live { IsLive self.old b.0 }
        requires within { i < 64 }
        ensures { self.new ≡ written self.old b.0 i v }
    {
        self.slots[b.0 * PLACES + i] = v;
    }

    /// The place in the pool of place `i` of a block.
    pub fn place(&self, b: BlockId, i: usize) -> usize
        requires live { IsLive self.now b.0 }
        requires within { i < 64 }
        ensures { result ≡ 64 * b.0 + i }
    {
        // The sum fits, since the pool has a place of that number.
        let _ = &self.count;
        b.0 * PLACES + i
    }

    /// The value `i` places after the place `start` of the pool: place 64 b + i is place i of block b.
    #[inline]
    pub fn read_at(&self, start: usize, i: usize) -> T
        requires { IsLive self.now ((start + i) / 64) }
        ensures { slice_get (values self.now ((start + i) / 64)) ((start + i) % 64) ≡ Some result }
    {
        self.slots[start + i]
    }

    /// Writes the place `i` places after the place `start` of the pool: place 64 b + i is place i of block b.
    #[inline]
    pub fn write_at(&mut self, start: usize, i: usize, v: T)
        requires { IsLive self.old ((start + i) / 64) }
        ensures { self.new ≡ written self.old ((start + i) / 64) ((start + i) % 64) v }
    {
        self.slots[start + i] = v;
    }

    /// Writes `v` into the places `from` to `to` of a block, the last one left out.
    pub fn fill(&mut self, b: BlockId, from: usize, to: usize, v: T)
        requires live { IsLive self.old b.0 }
        requires order { from ≤ to }
        requires within { to ≤ 64 }
        ensures { self.new ≡ filled self.old b.0 from to v }
    {
        fill_part(&mut self.slots, b.0 * PLACES + from, b.0 * PLACES + to, v);
    }

    /// How many blocks there are, live and free.
    pub fn blocks(&self) -> usize
        ensures all { result ≡ length self.now.blocks }
        ensures sum { result ≡ live_blocks self.now.blocks + length self.now.free }
    {
        self.count
    }

    /// How many blocks are live.
    pub fn live(&self) -> usize
        ensures { result ≡ live_blocks self.now.blocks }
    {
        self.count - self.free.len()
    }
}

/// Writes the value into the places `from` to `to`, the last one left out.
fn fill_part<T: Copy>(slots: &mut Vec<T>, from: usize, to: usize, value: T)
    requires order { from ≤ to }
    requires within { to ≤ vec_len slots.old }
    ensures items { slots.new.items ≡ with_part from (to - from) slots.old.items (replicate (to - from) value) }
    ensures capacity { vec_capacity slots.new ≡ vec_capacity slots.old }
{
    fill_places(&mut slots[from..to], value);
}

/// Writes the value into each place.
fn fill_places<T: Copy>(places: &mut [T], value: T)
    ensures { places.new ≡ replicate (length places.old) value }
{
    for place in places.iter_mut() {
        *place = value;
    }
}
