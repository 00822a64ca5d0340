//! Files, with the one that was read last.
ghost use Rattle.std.specs.Prelude.{◌≡◌, None, IfOk, IsTrue};

use rb_base::{Failed, FileError, Files};
use std::alloc::{AllocError, Global};
use std::marker::Model;

/// A file that was read: its name, how many bytes were asked for, and those that it had.
#[derive(Drop)]
struct Kept {
    name: Vec<u8>,
    limit: usize,
    bytes: Vec<u8>,
}

impl Model for Kept {
    ghost use Rattle.kept_files.specs.Kept.{KeptFile};

    ghost Value = { KeptFile };

    ghost view = { λ k. record { name = k.name.items; limit = k.limit; bytes = k.bytes.items } };
}

impl Kept {
    fn new(alloc: Global, name: &str, limit: usize, bytes: &[u8]) -> Result<Kept, AllocError>
        ensures { IfOk result (λ k. k ≡ record { name = name.now; limit = limit; bytes = bytes.now }) }
    {
        Ok(Kept {
            name: Vec::from_slice(alloc, name.as_bytes())?,
            limit,
            bytes: Vec::from_slice(alloc, bytes)?,
        })
    }

    /// Whether it is what such a call reads.
    fn answers(&self, name: &str, limit: usize) -> bool
        ensures name { IsTrue result → self.now.name ≡ name.now }
        ensures limit { IsTrue result → self.now.limit ≡ limit }
    {
        self.limit == limit && self.name.as_slice() == name.as_bytes()
    }
}

/// Files, seen as these and the one that was read last. What was read last is given once more without reading it
/// again, unless something was read or stored since then.
#[derive(Drop)]
pub struct KeptFiles<F: Files + Drop> {
    files: F,
    kept: Option<Kept>,
}

impl<F: Files + Drop> Model for KeptFiles<F> {
    ghost use Rattle.kept_files.specs.Kept.{KeptState, IsCurrent};

    ghost Value = { KeptState F };

    ghost view = { λ k. record { files = k.files; kept = k.kept } };

    ghost invariant = { λ k. IsCurrent (F.tells k.files) (F.file k.files) k.kept };
}

impl<F: Files + Drop> KeptFiles<F> {
    /// Files of which none was read.
    pub fn new(files: F) -> KeptFiles<F>
        ensures files { result.files ≡ files }
        ensures kept { result.kept ≡ None }
    {
        KeptFiles { files, kept: None }
    }
}

impl<F: Files + Drop> Files for KeptFiles<F> {
    ghost load_faults = { λ k. F.load_faults k.files };

    ghost store_faults = { λ k. F.store_faults k.files };

    ghost tells = { λ k. F.tells k.files };

    ghost file = { λ k. F.file k.files };

    fn load(&mut self, alloc: Global, name: &str, limit: usize) -> Result<Vec<u8>, FileError> {
        if let Some(kept) = self.kept.take() {
            if kept.answers(name, limit) {
                return Ok(kept.bytes);
            }
        }
        let loaded = self.files.load(alloc, name, limit);
        if let Ok(bytes) = &loaded {
            self.kept = Kept::new(alloc, name, limit, bytes).ok();
        }
        loaded
    }

    fn store(&mut self, name: &str, bytes: &[u8]) -> Result<(), Failed> {
        self.kept = None;
        self.files.store(name, bytes)
    }
}
