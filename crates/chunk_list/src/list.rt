ghost use Rattle.std.specs.Prelude.{◌≡◌, ◌<◌, ◌^◌, ◌++◌, ◌∷◌, [], length, take, slice_index_or, OnOk, OnErr};
ghost use Rattle.std.specs.Borrow.{sem};
ghost use Rattle.chunk_list.specs.Lending.{LendsItem};

use crate::chunks::{CHUNK, put_last, shorten};
use std::alloc::{AllocError, Global};
use std::marker::Model;

/// How many values there are at most.
const MOST: usize = 0x7fff_ffff_ffff_ffff;

/// Values in order, seen as their list. A value stays where it lies until it is taken out.
#[derive(Drop)]
pub struct ChunkList<T> {
    alloc: Global,
    chunks: Vec<Vec<T>>,
    count: usize,
}

impl<T> Model for ChunkList<T> {
    ghost use Rattle.std.specs.Prelude as prelude;
    ghost use Rattle.chunk_list.specs.Chunks.{joined, AreChunks, IsCounted};

    ghost Value = { prelude.List T };

    ghost view = { λ l. joined l.chunks.items };

    ghost invariant = { λ l. AreChunks l.chunks.items × IsCounted l.chunks.items l.count };
}

impl<T> ChunkList<T> {
    /// The empty list. It takes no memory.
    pub fn new(alloc: Global) -> ChunkList<T>
        ensures { result ≡ [] }
    {
        ChunkList {
            alloc,
            chunks: Vec::new(alloc),
            count: 0,
        }
    }

    /// How many values there are.
    pub fn len(&self) -> usize
        ensures count { result ≡ length self.now }
        ensures bounded { result < 2 ^ 63 }
    {
        self.count
    }

    /// The value at a place.
    pub fn get(&self, place: usize) -> &T
        requires { place < length self.now }
        ensures { result.now ≡ slice_index_or self.now place result.now }
    {
        &self.chunks[place / CHUNK][place % CHUNK]
    }

    /// The value at a place, to be changed.
    pub fn get_mut(&mut self, place: usize) -> &mut T
        requires { place < length self.old }
        ensures* writes_back { sem 𝓛 (LendsItem T.row self.entry place result) }
        ensures value { result.now ≡ slice_index_or self.old place result.now }
    {
        let chunk = &mut self.chunks[place / CHUNK];
        &mut chunk[place % CHUNK]
    }
}

impl<T: Drop> ChunkList<T> {
    /// Puts a value at the end. Where memory runs out the list is as before.
    pub fn push(&mut self, value: T) -> Result<(), AllocError>
        ensures ok { OnOk result (self.new ≡ self.old ++ value ∷ []) }
        ensures err { OnErr result (self.new ≡ self.old) }
    {
        if self.count >= MOST {
            return Err(AllocError);
        }
        put_last(self.alloc, &mut self.chunks, self.count, value)?;
        self.count += 1;
        Ok(())
    }

    /// Takes the values from a place on out, where there are any.
    pub fn truncate(&mut self, count: usize)
        ensures { self.new ≡ take count self.old }
    {
        if count >= self.count {
            return;
        }
        shorten(&mut self.chunks, count);
        self.count = count;
    }

    /// Puts values at the end, in their order. Where memory runs out some of the first may stand there.
    #[tactic(auto, using(crate::proofs::Appending::still_first, crate::proofs::Appending::one_given))]
    fn push_all(&mut self, values: Vec<T>) -> Result<(), AllocError>
        ensures ok { OnOk result (self.new ≡ self.old ++ values.items) }
        ensures err { OnErr result (take (length self.old) self.new ≡ self.old) }
    {
        'values: for value in values {
            self.push(value)?;
        }
        Ok(())
    }

    /// Puts values at the end, in their order. Where memory runs out the list is as before.
    pub fn append(&mut self, values: Vec<T>) -> Result<(), AllocError>
        ensures ok { OnOk result (self.new ≡ self.old ++ values.items) }
        ensures err { OnErr result (self.new ≡ self.old) }
    {
        let before = self.count;
        let answer = self.push_all(values);
        if answer.is_err() {
            self.truncate(before);
        }
        answer
    }
}
