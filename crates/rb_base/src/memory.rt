//! A source and a sink in memory, whose calls fail as they are told to.
ghost use Rattle.std.specs.Prelude.{◌≡◌, ◌⊎◌, ◌↔◌, ℕ, ◌<◌, ◌≤◌, List, Option, Some, length, take, min, IfOk, OnOk, OnErr, IsErr};
ghost use Rattle.rb_base.specs.Memory.{SourceState, SinkState, new_source, new_sink, NextFails, after_call};
ghost use Rattle.rb_base.specs.Outside.{Rose, Reads, with_more};
ghost use Rattle.rb_base.specs.Steps.{one_more};

use crate::calls::CallCounter;
use crate::outside::{Failed, Sink, Source};
use std::alloc::Global;
use std::marker::Model;

/// A source over bytes in memory.
#[derive(Debug, Drop)]
pub struct MemorySource {
    bytes: Vec<u8>,
    at: usize,
    calls: CallCounter,
    faults: u64,
}

impl Model for MemorySource {
    ghost use Rattle.std.specs.Prelude.{◌≤◌, drop, length};
    ghost use Rattle.rb_base.specs.Memory.{SourceState};

    ghost Value = { SourceState };

    ghost view = { λ s. record { rest = drop s.at s.bytes.items; calls = s.calls; faults = s.faults } };

    ghost invariant = { λ s. s.at ≤ length s.bytes.items };
}

impl MemorySource {
    /// The source of the bytes. `fails` has the numbers of the calls that fail, from 1.
    pub fn new(bytes: Vec<u8>, fails: Vec<u64>) -> MemorySource
        ensures { result ≡ new_source bytes.items fails.items }
    {
        MemorySource {
            bytes,
            at: 0,
            calls: CallCounter::new(fails),
            faults: 0,
        }
    }
}

impl Source for MemorySource {
    ghost faults = { λ s. s.faults };

    ghost left = { λ s. Some s.rest };

    fn read(&mut self, buf: &mut [u8]) -> Result<usize, Failed>
        requires { 0 < length buf.old }
        ensures placed { IfOk result (λ n. Reads n buf.old buf.new (Some self.old.rest) (Some self.new.rest)) }
        ensures counted { OnOk result (self.new.faults ≡ self.old.faults) }
        ensures failed { OnErr result (Rose self.old.faults self.new.faults) }
        ensures kept { OnErr result (Some self.new.rest ≡ Some self.old.rest) }

        // A call reads all that there is room for, and fails exactly where it was told to.
        ensures all { IfOk result (λ n. n ≡ min (length buf.old) (length self.old.rest)) }
        ensures told { IsErr result ↔ NextFails self.old.calls }
        ensures call { self.new.calls ≡ after_call self.old.calls }
        ensures fault { OnErr result (self.new.faults ≡ one_more self.old.faults) }
    {
        if self.calls.next_fails() {
            self.faults = self.faults.saturating_add(1);
            return Err(Failed);
        }
        let rest = &self.bytes[self.at..];
        let count = rest.len().min(buf.len());
        buf[..count].copy_from_slice(&rest[..count]);
        self.at += count;
        Ok(count)
    }
}

/// A sink that keeps its bytes in memory.
#[derive(Debug, Drop)]
pub struct MemorySink {
    bytes: Vec<u8>,
    most: usize,
    calls: CallCounter,
    faults: u64,
    refused: u64,
}

impl Model for MemorySink {
    ghost use Rattle.std.specs.Prelude.{◌<◌};
    ghost use Rattle.rb_base.specs.Memory.{SinkState};

    ghost Value = { SinkState };

    ghost view = { λ s. record {
      bytes = s.bytes.items;
      most = s.most;
      calls = s.calls;
      faults = s.faults;
      refused = s.refused;
    } };

    ghost invariant = { λ s. 0 < s.most };
}

impl MemorySink {
    /// An empty sink, whose calls take at most `most` bytes. `fails` has the numbers of the calls that fail,
    /// from 1. It takes no memory.
    pub fn new(alloc: Global, most: usize, fails: Vec<u64>) -> MemorySink
        requires { 0 < most }
        ensures { result ≡ new_sink most fails.items }
    {
        MemorySink {
            bytes: Vec::new(alloc),
            most,
            calls: CallCounter::new(fails),
            faults: 0,
            refused: 0,
        }
    }

    /// The bytes that were taken.
    pub fn bytes(&self) -> &[u8]
        ensures { result.now ≡ self.now.bytes }
    {
        &self.bytes
    }

    /// How many calls failed because memory refused to grow.
    pub fn refused(&self) -> u64
        ensures { result ≡ self.now.refused }
    {
        self.refused
    }
}

impl Sink for MemorySink {
    ghost faults = { λ s. s.faults };

    ghost taken = { λ s. Some s.bytes };

    fn write(&mut self, piece: &[u8]) -> Result<usize, Failed>
        requires { 0 < length piece.now }
        ensures some { IfOk result (λ n. (0 < n) × (n ≤ length piece.now)) }
        ensures took { IfOk result (λ n. Some self.new.bytes ≡ with_more (Some self.old.bytes) (take n piece.now)) }
        ensures counted { OnOk result (self.new.faults ≡ self.old.faults) }
        ensures failed { OnErr result (Rose self.old.faults self.new.faults) }
        ensures kept { OnErr result (Some self.new.bytes ≡ Some self.old.bytes) }

        // A call takes all that it may, and fails exactly where it was told to or memory refused to grow.
        ensures all { IfOk result (λ n. n ≡ min self.old.most (length piece.now)) }
        ensures told { NextFails self.old.calls → IsErr result × (self.new.refused ≡ self.old.refused) }
        ensures granted { OnOk result (self.new.refused ≡ self.old.refused) }
        ensures refused { OnErr result (NextFails self.old.calls ⊎ (self.new.refused ≡ one_more self.old.refused)) }
        ensures call { self.new.calls ≡ after_call self.old.calls }
        ensures fault { OnErr result (self.new.faults ≡ one_more self.old.faults) }
        ensures most { self.new.most ≡ self.old.most }
    {
        if self.calls.next_fails() {
            self.faults = self.faults.saturating_add(1);
            return Err(Failed);
        }
        let count = piece.len().min(self.most);
        if self.bytes.extend_from_slice(&piece[..count]).is_err() {
            self.faults = self.faults.saturating_add(1);
            self.refused = self.refused.saturating_add(1);
            return Err(Failed);
        }
        Ok(count)
    }
}
