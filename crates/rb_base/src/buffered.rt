//! A sink over another one, with bytes that are still to go there.
ghost use Rattle.std.specs.Prelude.{◌≡◌, ℕ, ◌+◌, ◌-◌, ◌*◌, ◌<◌, ◌≤◌, [], ◌++◌, length, take, drop, min, IfOk, IsOk, OnOk, OnErr};
ghost use Rattle.rb_base.specs.Buffers.{kept, LeavesSome};
ghost use Rattle.rb_base.specs.Outside.{Rose, with_more};

use crate::outside::{Failed, Sink};
use crate::writing::write_front;
use std::marker::Model;

/// How many bytes may be pending.
pub const CAPACITY: usize = 8192;

/// A sink over another one, seen as that one and the bytes that are pending: taken, and not yet written to it. They
/// go there when no room is left for one more, and where [`Sink::flush`] is called.
#[derive(Drop)]
pub struct Buffered<O> {
    inner: O,
    bytes: [u8; CAPACITY],
    len: usize,
}

impl<O> Model for Buffered<O> {
    ghost use Rattle.std.specs.Prelude.{◌≤◌, take};
    ghost use Rattle.rb_base.specs.Buffers.{BufferState};

    ghost Value = { BufferState O };

    ghost view = { λ s. record { inner = s.inner; pending = take s.len s.bytes } };

    ghost invariant = { λ s. s.len ≤ 8192 };
}

impl<O: Sink + Drop> Buffered<O> {
    /// The sink over another one, with nothing pending.
    pub fn new(inner: O) -> Buffered<O>
        ensures inner { result.inner ≡ inner }
        ensures pending { result.pending ≡ [] }
    {
        Buffered {
            inner,
            bytes: [0; CAPACITY],
            len: 0,
        }
    }

    /// The other sink.
    pub fn inner(&self) -> &O
        ensures { result.now ≡ self.now.inner }
    {
        &self.inner
    }

    /// The other sink, without the bytes that are pending.
    pub fn into_inner(self) -> O
        ensures { result ≡ self.inner }
    {
        self.inner
    }

    /// Writes the pending bytes to the other sink where there is no room for one more.
    fn make_room(&mut self) -> Result<(), Failed>
        ensures told { with_more (O.taken self.new.inner) self.new.pending
            ≡ with_more (O.taken self.old.inner) self.old.pending }
        ensures kept { OnOk result (self.new.pending ≡ kept self.old.pending) }
        ensures free { OnOk result (length self.new.pending < 8192) }
        ensures counted { OnOk result (O.faults self.new.inner ≡ O.faults self.old.inner) }
        ensures failed { OnErr result (Rose (O.faults self.old.inner) (O.faults self.new.inner)) }
        ensures room { length self.old.pending < 8192 → IsOk result × (self.new ≡ self.old) }
    {
        if self.len == CAPACITY {
            self.flush()
        } else {
            Ok(())
        }
    }
}

impl<O: Sink + Drop> Sink for Buffered<O> {
    ghost faults = { λ s. O.faults s.inner };

    ghost taken = { λ s. with_more (O.taken s.inner) s.pending };

    fn write(&mut self, piece: &[u8]) -> Result<usize, Failed>
        requires { 0 < length piece.now }
        ensures some { IfOk result (λ n. (0 < n) × (n ≤ length piece.now)) }
        ensures took { IfOk result (λ n. with_more (O.taken self.new.inner) self.new.pending
            ≡ with_more (with_more (O.taken self.old.inner) self.old.pending) (take n piece.now)) }
        ensures counted { OnOk result (O.faults self.new.inner ≡ O.faults self.old.inner) }
        ensures failed { OnErr result (Rose (O.faults self.old.inner) (O.faults self.new.inner)) }
        ensures kept { OnErr result (with_more (O.taken self.new.inner) self.new.pending
            ≡ with_more (O.taken self.old.inner) self.old.pending) }

        // All that there is room for is pending, and only a full buffer calls the other sink.
        ensures all { IfOk result (λ n. n ≡ min (8192 - length (kept self.old.pending)) (length piece.now)) }
        ensures pending { IfOk result (λ n. self.new.pending ≡ kept self.old.pending ++ take n piece.now) }
        ensures room { length self.old.pending < 8192 → IsOk result × (self.new.inner ≡ self.old.inner) }
    {
        self.make_room()?;
        let count = piece.len().min(CAPACITY - self.len);
        let end = self.len + count;
        self.bytes[self.len..end].copy_from_slice(&piece[..count]);
        self.len = end;
        Ok(count)
    }

    /// Writes the pending bytes to the other sink, by as many calls as it needs, and by none where nothing is pending.
    ///
    /// `Failed` where a call failed: the bytes that went out are no longer pending, and all others still are.
    fn flush(&mut self) -> Result<(), Failed>
        ensures told { with_more (O.taken self.new.inner) self.new.pending
            ≡ with_more (O.taken self.old.inner) self.old.pending }
        ensures flushed { OnOk result (self.new.pending ≡ []) }
        ensures counted { OnOk result (O.faults self.new.inner ≡ O.faults self.old.inner) }
        ensures failed { OnErr result (Rose (O.faults self.old.inner) (O.faults self.new.inner)) }
        ensures left { OnErr result (LeavesSome (O.taken self.old.inner) (O.taken self.new.inner)
            self.old.pending self.new.pending) }
        ensures idle { self.old.pending ≡ [] → IsOk result × (self.new ≡ self.old) }
    {
        let count = write_front(&mut self.inner, &self.bytes[..self.len]);
        if count < self.len {
            self.bytes.copy_within(count..self.len, 0);
            self.len -= count;
            return Err(Failed);
        }
        self.len = 0;
        Ok(())
    }
}
