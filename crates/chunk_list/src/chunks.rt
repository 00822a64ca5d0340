//! Chunks as a whole.
ghost use Rattle.std.specs.Prelude.{◌≡◌, ◌≢◌, ◌%◌, ◌<◌, ◌++◌, ◌∷◌, [], length, take, OnOk, OnErr};
ghost use Rattle.chunk_list.specs.Chunks.{joined, AreChunks};

use std::alloc::{AllocError, Global};

/// How many values a chunk has at most. Every chunk but the last has so many.
pub(crate) const CHUNK: usize = 1024;

/// Puts a value at the end, where the chunks have so many values.
pub(crate) fn put_last<T: Drop>(
    alloc: Global,
    chunks: &mut Vec<Vec<T>>,
    count: usize,
    value: T,
) -> Result<(), AllocError>
    requires chunks { AreChunks chunks.old.items }
    requires counted { count ≡ length (joined chunks.old.items) }
    ensures ok { OnOk result (joined chunks.new.items ≡ joined chunks.old.items ++ value ∷ []) }
    ensures err { OnErr result (joined chunks.new.items ≡ joined chunks.old.items) }
    ensures chunks { AreChunks chunks.new.items }
{
    if count % CHUNK == 0 {
        open_chunk(alloc, chunks, count, value)
    } else {
        fill_chunk(chunks, count, value)
    }
}

/// Puts a value into a new chunk, where all others are full.
#[tactic(auto, using(crate::proofs::Putting::opened))]
fn open_chunk<T: Drop>(
    alloc: Global,
    chunks: &mut Vec<Vec<T>>,
    count: usize,
    value: T,
) -> Result<(), AllocError>
    requires chunks { AreChunks chunks.old.items }
    requires counted { count ≡ length (joined chunks.old.items) }
    requires full { count % 1024 ≡ 0 }
    ensures ok { OnOk result (joined chunks.new.items ≡ joined chunks.old.items ++ value ∷ []) }
    ensures err { OnErr result (joined chunks.new.items ≡ joined chunks.old.items) }
    ensures chunks { AreChunks chunks.new.items }
{
    let mut chunk = Vec::with_capacity(alloc, CHUNK)?;
    chunk.push(value)?;
    chunks.push(chunk)?;
    Ok(())
}

/// Puts a value into the last chunk, which isn't full.
#[tactic(auto, using(crate::proofs::Putting::last_is_there, crate::proofs::Putting::filled, crate::proofs::Putting::refused))]
fn fill_chunk<T: Drop>(chunks: &mut Vec<Vec<T>>, count: usize, value: T) -> Result<(), AllocError>
    requires chunks { AreChunks chunks.old.items }
    requires counted { count ≡ length (joined chunks.old.items) }
    requires room { count % 1024 ≢ 0 }
    ensures ok { OnOk result (joined chunks.new.items ≡ joined chunks.old.items ++ value ∷ []) }
    ensures err { OnErr result (joined chunks.new.items ≡ joined chunks.old.items) }
    ensures chunks { AreChunks chunks.new.items }
{
    let chunk = &mut chunks[count / CHUNK];
    chunk.push(value)?;
    Ok(())
}

/// Leaves the first values, fewer than there are.
#[tactic(auto, using(crate::proofs::Shortening::whole_chunks))]
pub(crate) fn shorten<T: Drop>(chunks: &mut Vec<Vec<T>>, count: usize)
    requires chunks { AreChunks chunks.old.items }
    requires fewer { count < length (joined chunks.old.items) }
    ensures values { joined chunks.new.items ≡ take count (joined chunks.old.items) }
    ensures chunks { AreChunks chunks.new.items }
{
    if count % CHUNK == 0 {
        chunks.truncate(count / CHUNK);
    } else {
        shorten_last(chunks, count);
    }
}

/// Leaves the first values, the last of which end within a chunk.
#[tactic(auto, using(crate::proofs::Shortening::last_is_there, crate::proofs::Shortening::part_of_chunk))]
fn shorten_last<T: Drop>(chunks: &mut Vec<Vec<T>>, count: usize)
    requires chunks { AreChunks chunks.old.items }
    requires fewer { count < length (joined chunks.old.items) }
    requires within { count % 1024 ≢ 0 }
    ensures values { joined chunks.new.items ≡ take count (joined chunks.old.items) }
    ensures chunks { AreChunks chunks.new.items }
{
    chunks.truncate(count / CHUNK + 1);
    let chunk = &mut chunks[count / CHUNK];
    chunk.truncate(count % CHUNK);
}
