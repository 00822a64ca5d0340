//! Files of the system. What a disk holds is known to no clause, so they tell nothing of contents, and count
//! the calls that failed, of all names together.
ghost use Rattle.std.specs.Prelude.{◌≡◌, ◌≤◌, None, false, take, vec_len, IfOk, OnOk, IfSome};
ghost use Rattle.std.specs.Io.KnownBytes.{Appends};

use crate::outside::{Failed, FileError, Files};
use crate::streams::{read_once, write_once};
use std::alloc::Global;
use std::io::{Read, Write};
use std::marker::Model;
use std::{fs, rt};

/// How many bytes one call reads at most.
const CHUNK: usize = 65536;

/// The files of a runtime.
#[derive(Drop)]
pub struct DiskFiles<'a, R> {
    runtime: &'a R,
    load_faults: u64,
    store_faults: u64,
}

impl<'a, R> Model for DiskFiles<'a, R> {
    ghost use Rattle.rb_base.specs.Streams.{DiskState};

    ghost Value = { DiskState };

    ghost view = { λ f. record { load_faults = f.load_faults; store_faults = f.store_faults } };
}

impl<'a, R: rt::Files> DiskFiles<'a, R> {
    /// The files that the runtime reaches.
    pub fn new(runtime: &'a R) -> DiskFiles<'a, R>
        ensures loads { result.load_faults ≡ 0 }
        ensures stores { result.store_faults ≡ 0 }
    {
        DiskFiles {
            runtime,
            load_faults: 0,
            store_faults: 0,
        }
    }
}

impl<'a, R: rt::Files> Files for DiskFiles<'a, R> {
    ghost load_faults = { λ f _. f.load_faults };

    ghost store_faults = { λ f _. f.store_faults };

    ghost tells = { λ _. false };

    ghost file = { λ _ _. None };

    fn load(&mut self, alloc: Global, name: &str, limit: usize) -> Result<Vec<u8>, FileError> {
        let loaded = load_file(self.runtime, alloc, name, limit);
        if let Err(FileError::Failed) = loaded {
            self.load_faults = self.load_faults.saturating_add(1);
        }
        loaded
    }

    fn store(&mut self, name: &str, bytes: &[u8]) -> Result<(), Failed> {
        let stored = store_file(self.runtime, name, bytes);
        if stored.is_err() {
            self.store_faults = self.store_faults.saturating_add(1);
        }
        stored
    }
}

/// The first `limit` bytes of the file.
fn load_file<R: rt::Files>(
    runtime: &R,
    alloc: Global,
    name: &str,
    limit: usize,
) -> Result<Vec<u8>, FileError>
    ensures { IfOk result (λ bytes. vec_len bytes ≤ limit) }
{
    match fs::open(runtime, name) {
        Ok(mut file) => read_front(&mut file, alloc, limit),
        Err(_) => Err(FileError::Failed),
    }
}

/// Reads `limit` bytes, or all where there are fewer.
fn read_front<R: Read>(reader: &mut R, alloc: Global, limit: usize) -> Result<Vec<u8>, FileError>
    ensures short { IfOk result (λ bytes. vec_len bytes ≤ limit) }
    ensures front { IfOk result (λ bytes. IfSome (R.remaining reader.old) (λ all. bytes.items ≡ take limit all)) }
{
    let mut bytes = Vec::new(alloc);
    let mut chunk = [0; CHUNK];
    'chunks: while bytes.len() < limit {
        let most = CHUNK.min(limit - bytes.len());
        let Some(count) = read_once(reader, &mut chunk[..most]) else {
            return Err(FileError::Failed);
        };
        if count == 0 {
            break;
        }
        bytes.extend_from_slice(&chunk[..count])?;
    }
    Ok(bytes)
}

/// Replaces the file.
fn store_file<R: rt::Files>(runtime: &R, name: &str, bytes: &[u8]) -> Result<(), Failed> {
    match fs::create(runtime, name) {
        Ok(mut file) => write_whole(&mut file, bytes),
        Err(_) => Err(Failed),
    }
}

/// Writes all the bytes.
fn write_whole<W: Write>(writer: &mut W, bytes: &[u8]) -> Result<(), Failed>
    ensures { OnOk result (Appends (W.contents writer.old) (W.contents writer.new) bytes.now) }
{
    let mut at = 0;
    'pieces: while at < bytes.len() {
        match write_once(writer, &bytes[at..]) {
            Some(count) => at += count,
            None => return Err(Failed),
        }
    }
    Ok(())
}
