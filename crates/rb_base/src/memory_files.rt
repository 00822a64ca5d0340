//! Files in memory, whose calls fail as they are told to.
ghost use Rattle.std.specs.Prelude.{◌≡◌, ◌≢◌, ◌⊎◌, ◌↔◌, ℕ, ◌≤◌, List, Some, None, true, take, IfOk, IfErr, OnOk, OnErr, IsTrue, IsErr, IsErrOf};
ghost use Rattle.std.specs.Option.{option_copied};
ghost use Rattle.std.specs.List.{position};
ghost use Rattle.std.specs.Str.{bytes_eq};
ghost use Rattle.rb_base.specs.Memory.{FilesState, new_files, NextFails, after_call, file_in, PutsFile, HasSameCounts};
ghost use Rattle.rb_base.specs.Outside.{Rose, IsLoaded};
ghost use Rattle.rb_base.specs.Steps.{one_more};

use crate::calls::CallCounter;
use crate::outside::{Failed, FileError, Files};
use std::alloc::{AllocError, Global};
use std::marker::Model;

/// A file: its name and its bytes.
#[derive(Debug, Drop)]
struct Entry {
    name: Vec<u8>,
    bytes: Vec<u8>,
}

impl Model for Entry {
    ghost use Rattle.std.specs.Prelude.{ℕ, List};

    ghost Value = { List ℕ × List ℕ };

    ghost view = { λ e. (e.name.items, e.bytes.items) };
}

impl Entry {
    fn new(alloc: Global, name: &str, bytes: &[u8]) -> Result<Entry, AllocError>
        ensures { IfOk result (λ entry. entry ≡ (name.now, bytes.now)) }
    {
        Ok(Entry {
            name: Vec::from_slice(alloc, name.as_bytes())?,
            bytes: Vec::from_slice(alloc, bytes)?,
        })
    }

    fn is_named(&self, name: &str) -> bool
        ensures { result ≡ bytes_eq self.now.0 name.now }
    {
        self.name.as_slice() == name.as_bytes()
    }

    fn bytes(&self) -> &[u8]
        ensures { result.now ≡ self.now.1 }
    {
        &self.bytes
    }
}

/// The place of the file of that name.
fn place_of(entries: &[Entry], name: &str) -> Option<usize>
    ensures { result ≡ position (λ e. bytes_eq e.0 name.now) entries.now }
{
    entries.iter().position(|entry| entry.is_named(name))
}

/// Files that are kept in memory.
#[derive(Debug, Drop)]
pub struct MemoryFiles {
    alloc: Global,
    entries: Vec<Entry>,
    calls: CallCounter,
    load_faults: u64,
    store_faults: u64,
    refused: u64,
}

impl Model for MemoryFiles {
    ghost use Rattle.rb_base.specs.Memory.{FilesState};

    ghost Value = { FilesState };

    ghost view = { λ f. record {
      entries = f.entries.items;
      calls = f.calls;
      load_faults = f.load_faults;
      store_faults = f.store_faults;
      refused = f.refused;
    } };
}

impl MemoryFiles {
    /// No file. `fails` has the numbers of the calls that fail, from 1. It takes no memory.
    pub fn new(alloc: Global, fails: Vec<u64>) -> MemoryFiles
        ensures { result ≡ new_files fails.items }
    {
        MemoryFiles {
            alloc,
            entries: Vec::new(alloc),
            calls: CallCounter::new(fails),
            load_faults: 0,
            store_faults: 0,
            refused: 0,
        }
    }

    /// Puts a file in place of what its name had. This is no call that counts. Where memory runs out all is
    /// as before.
    pub fn put(&mut self, name: &str, bytes: &[u8]) -> Result<(), AllocError>
        ensures put { OnOk result (PutsFile self.old.entries self.new.entries name.now bytes.now) }
        ensures counts { HasSameCounts self.old self.new }
        ensures err { OnErr result (self.new.entries ≡ self.old.entries) }
    {
        put_entry(&mut self.entries, self.alloc, name, bytes)
    }

    /// The bytes of the file of that name.
    pub fn get(&self, name: &str) -> Option<&[u8]>
        ensures { option_copied result ≡ file_in self.now.entries name.now }
    {
        let place = place_of(&self.entries, name)?;
        Some(self.entries[place].bytes())
    }

    /// How many stores failed because memory refused to grow.
    pub fn refused(&self) -> u64
        ensures { result ≡ self.now.refused }
    {
        self.refused
    }
}

/// Puts a file in place of what its name had. Where memory runs out all is as before.
fn put_entry(
    entries: &mut Vec<Entry>,
    alloc: Global,
    name: &str,
    bytes: &[u8],
) -> Result<(), AllocError>
    ensures put { OnOk result (PutsFile entries.old.items entries.new.items name.now bytes.now) }
    ensures err { OnErr result (entries.new.items ≡ entries.old.items) }
{
    let entry = Entry::new(alloc, name, bytes)?;
    match place_of(entries, name) {
        Some(place) => entries[place] = entry,
        None => entries.push(entry)?,
    }
    Ok(())
}

/// A copy of the first `limit` bytes, or of all where there are fewer.
#[tactic(auto, using(std::proofs::lemmas::List::take_all))]
fn copy_front(alloc: Global, bytes: &[u8], limit: usize) -> Result<Vec<u8>, FileError>
    ensures front { IfOk result (λ copy. copy.items ≡ take limit bytes.now) }
    ensures memory { IfErr result (λ error. error ≡ FileError.NoMemory) }
{
    let front = if limit < bytes.len() {
        &bytes[..limit]
    } else {
        bytes
    };
    Ok(Vec::from_slice(alloc, front)?)
}

impl Files for MemoryFiles {
    ghost load_faults = { λ f _. f.load_faults };

    ghost store_faults = { λ f _. f.store_faults };

    ghost tells = { λ _. true };

    ghost file = { λ f name. file_in f.entries name };

    fn load(&mut self, alloc: Global, name: &str, limit: usize) -> Result<Vec<u8>, FileError>
        ensures loaded { IfOk result (λ bytes. IsTrue true
            → IsLoaded (file_in self.old.entries name.now) limit bytes.items) }
        ensures failed { IsErrOf result FileError.Failed → Rose self.old.load_faults self.new.load_faults }
        ensures never_falls { (self.old.load_faults ≤ self.new.load_faults)
            × (self.old.store_faults ≤ self.new.store_faults) }
        ensures counted { result ≢ Err FileError.Failed → self.new.load_faults ≡ self.old.load_faults }
        ensures kept { self.new.entries ≡ self.old.entries }

        // A call fails exactly where it was told to, or where there is no file of the name.
        ensures told { IsErrOf result FileError.Failed
            ↔ (NextFails self.old.calls ⊎ (file_in self.old.entries name.now ≡ None)) }
        ensures call { self.new.calls ≡ after_call self.old.calls }
        ensures fault { IsErrOf result FileError.Failed → self.new.load_faults ≡ one_more self.old.load_faults }
        ensures stores { self.new.store_faults ≡ self.old.store_faults }
        ensures refused { self.new.refused ≡ self.old.refused }
    {
        if !self.calls.next_fails() {
            if let Some(bytes) = self.get(name) {
                return copy_front(alloc, bytes, limit);
            }
        }
        self.load_faults = self.load_faults.saturating_add(1);
        Err(FileError::Failed)
    }

    fn store(&mut self, name: &str, bytes: &[u8]) -> Result<(), Failed>
        ensures stored { OnOk result (IsTrue true → file_in self.new.entries name.now ≡ Some bytes.now) }
        ensures failed { OnErr result (Rose self.old.store_faults self.new.store_faults) }
        ensures never_falls { (self.old.load_faults ≤ self.new.load_faults)
            × (self.old.store_faults ≤ self.new.store_faults) }
        ensures counted { OnOk result (self.new.store_faults ≡ self.old.store_faults) }
        ensures kept { (other : List ℕ) → other ≢ name.now
            → file_in self.new.entries other ≡ file_in self.old.entries other }

        // A call fails exactly where it was told to, or where memory refused to grow. All files are then as before.
        ensures told { NextFails self.old.calls → IsErr result × (self.new.refused ≡ self.old.refused) }
        ensures granted { OnOk result (self.new.refused ≡ self.old.refused) }
        ensures refused { OnErr result (NextFails self.old.calls ⊎ (self.new.refused ≡ one_more self.old.refused)) }
        ensures same { OnErr result (self.new.entries ≡ self.old.entries) }
        ensures call { self.new.calls ≡ after_call self.old.calls }
        ensures fault { OnErr result (self.new.store_faults ≡ one_more self.old.store_faults) }
        ensures loads { self.new.load_faults ≡ self.old.load_faults }
    {
        if self.calls.next_fails() {
            self.store_faults = self.store_faults.saturating_add(1);
            return Err(Failed);
        }
        if put_entry(&mut self.entries, self.alloc, name, bytes).is_err() {
            self.store_faults = self.store_faults.saturating_add(1);
            self.refused = self.refused.saturating_add(1);
            return Err(Failed);
        }
        Ok(())
    }
}
