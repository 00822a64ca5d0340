//! Calls of the program over files and streams in memory, for the tests.
ghost use Rattle.std.specs.Prelude.{◌<◌};

use rb_base::{Buffered, MemoryFiles, MemorySink, MemorySource};
use rite_tool::{End, play, rite};
use std::alloc::Global;
use std::test::Fail;

/// What a call left behind.
#[derive(Drop)]
pub struct Left {
    pub end: End,
    pub files: MemoryFiles,
    pub out: MemorySink,
    pub err: MemorySink,
}

/// The words of a call.
fn words_of(alloc: Global, words: &[&str]) -> Result<Vec<String>, Fail> {
    let mut texts = Vec::new(alloc);
    for word in words {
        texts.push(String::from_str(alloc, word)?)?;
    }
    Ok(texts)
}

/// What a call on the general path left behind, which gave no answer where the words aren't for that path.
#[derive(Drop)]
pub struct Played {
    pub end: Option<End>,
    pub out: MemorySink,
    pub err: MemorySink,
}

/// Calls the general path with these words, over no file and an empty input.
pub fn call_general(alloc: Global, words: &[&str], out: MemorySink) -> Result<Played, Fail> {
    let texts = words_of(alloc, words)?;
    let mut files = MemoryFiles::new(alloc, Vec::new(alloc));
    let mut input = MemorySource::new(Vec::new(alloc), Vec::new(alloc));
    let mut out = Buffered::new(out);
    let mut err = Buffered::new(sink(alloc, 5));
    let end = play(alloc, &texts, &mut files, &mut input, &mut out, &mut err);
    Ok(Played {
        end,
        out: out.into_inner(),
        err: err.into_inner(),
    })
}

/// Calls the program with these words over one file `given`. The calls on files of the numbers `fails` fail.
pub fn call(
    alloc: Global,
    words: &[&str],
    given: &[u8],
    fails: Vec<u64>,
    out: MemorySink,
    err: MemorySink,
) -> Result<Left, Fail> {
    let texts = words_of(alloc, words)?;
    let mut files = MemoryFiles::new(alloc, fails);
    files.put("given", given)?;
    let mut input = MemorySource::new(Vec::new(alloc), Vec::new(alloc));
    let mut out = Buffered::new(out);
    let mut err = Buffered::new(err);
    let end = rite(alloc, &texts, &mut files, &mut input, &mut out, &mut err);
    Ok(Left {
        end,
        files,
        out: out.into_inner(),
        err: err.into_inner(),
    })
}

/// A sink that takes so many bytes a call and never fails.
pub fn sink(alloc: Global, most: usize) -> MemorySink
    requires { 0 < most }
{
    MemorySink::new(alloc, most, Vec::new(alloc))
}
