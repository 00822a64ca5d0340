//! Each implementation once on its happy path, and once where a call fails.
use super::*;
use std::alloc::Global;
use std::fs;
use std::process::Abort;
use std::test::Fail;

#[test]
fn reads_memory(rt: HostRuntime) -> Result<(), Fail> {
    let bytes = Vec::from_slice(rt.alloc(), b"hello")?;
    let mut source = MemorySource::new(bytes, vec![in rt.alloc(); 2]?);
    let mut text = Vec::new(rt.alloc());
    for want in [Ok(3), Err(Failed), Ok(2), Ok(0), Ok(0)] {
        let mut buf = [0; 3];
        let read = source.read(&mut buf);
        assert_eq!(rt; read, want);
        if let Ok(count) = read {
            text.extend_from_slice(&buf[..count])?;
        }
    }
    assert_eq!(rt; text.as_slice(), b"hello".as_slice());
    Ok(())
}

#[test]
fn writes_memory(rt: HostRuntime) -> Result<(), Fail> {
    let mut sink = MemorySink::new(rt.alloc(), 2, vec![in rt.alloc(); 5]?);
    for (piece, want) in [("hello", Ok(())), ("", Ok(())), ("abc", Err(Failed))] {
        assert_eq!(rt; write_all(&mut sink, piece.as_bytes()), want);
    }
    assert_eq!(rt; sink.bytes(), b"helloab".as_slice());
    assert_eq!(rt; sink.refused(), 0);
    Ok(())
}

/// Stores a file twice, and loads its front. A file that is missing fails.
fn keeps_files<F: Files>(rt: &impl Abort, alloc: Global, files: &mut F) -> Result<(), Fail> {
    for (text, front) in [("one", "one"), ("three", "thre")] {
        assert_eq!(rt; files.store("rb_base.tmp", text.as_bytes()), Ok(()));
        let bytes = files.load(alloc, "rb_base.tmp", 4)?;
        assert_eq!(rt; bytes.as_slice(), front.as_bytes());
    }
    let missing = files.load(alloc, "rb_base.missing", 4);
    assert_eq!(rt; missing.err(), Some(FileError::Failed));
    Ok(())
}

#[test]
fn keeps_files_in_memory(rt: HostRuntime) -> Result<(), Fail> {
    let mut files = MemoryFiles::new(rt.alloc(), vec![in rt.alloc(); 6]?);
    keeps_files(&rt, rt.alloc(), &mut files)?;
    assert_eq!(rt; files.store("rb_base.tmp", b"two"), Err(Failed));
    assert!(rt; files.get("rb_base.tmp") == Some(b"three".as_slice()));
    files.put("rb_base.tmp", b"two")?;
    assert!(rt; files.get("rb_base.tmp") == Some(b"two".as_slice()));
    Ok(())
}

#[test]
fn keeps_files_on_disk(rt: HostRuntime) -> Result<(), Fail> {
    let mut files = DiskFiles::new(&rt);
    keeps_files(&rt, rt.alloc(), &mut files)?;
    let long = vec![in rt.alloc(); b'x'; 10000]?;
    assert_eq!(rt; files.store("rb_base.tmp", &long), Ok(()));
    let bytes = files.load(rt.alloc(), "rb_base.tmp", 20000)?;
    assert_eq!(rt; bytes.as_slice(), long.as_slice());
    assert_eq!(rt; files.store("rb_base.missing/file", b"x"), Err(Failed));
    fs::remove_file(&rt, "rb_base.tmp")?;
    Ok(())
}

#[test]
fn reads_a_reader(rt: HostRuntime) {
    let mut source = StdSource::new(b"hello".as_slice());
    for want in [4, 1, 0] {
        let mut buf = [0; 4];
        assert_eq!(rt; source.read(&mut buf), Ok(want));
    }
}

#[test]
fn writes_a_writer(rt: HostRuntime) {
    let mut room = [0; 7];
    let mut sink = StdSink::new(room.as_mut_slice());
    for (piece, want) in [("hello", Ok(())), ("abc", Err(Failed))] {
        assert_eq!(rt; write_all(&mut sink, piece.as_bytes()), want);
    }
    drop(sink);
    assert_eq!(rt; room, *b"helloab");
}

#[test]
fn counts_and_lists(rt: HostRuntime) -> Result<(), Fail> {
    let mut steps = Steps::new();
    steps.tick();
    assert_eq!(rt; steps.count(), 1);
    let mut list = List::new(rt.alloc());
    list.push(7u8)?;
    assert_eq!(rt; list.into_vec().as_slice(), [7].as_slice());
    let text = Bytes::from_slice(rt.alloc(), b"text")?;
    assert_eq!(rt; text.into_vec().as_slice(), b"text".as_slice());
    Ok(())
}

/// Three pieces of 5000 bytes: the second fills the buffer, whose bytes then go out, and the call that they go by
/// fails at first.
#[test]
fn gathers_pieces(rt: HostRuntime) -> Result<(), Fail> {
    let inner = MemorySink::new(rt.alloc(), 6000, vec![in rt.alloc(); 2]?);
    let mut out = Buffered::new(inner);
    let piece = vec![in rt.alloc(); b'x'; 5000]?;
    assert_eq!(rt; write_all(&mut out, &piece), Ok(()));
    assert_eq!(rt; out.inner().bytes().len(), 0);
    assert_eq!(rt; write_all(&mut out, &piece), Err(Failed));
    assert_eq!(rt; out.inner().bytes().len(), 6000);
    assert_eq!(rt; write_all(&mut out, &piece), Ok(()));
    assert_eq!(rt; out.flush(), Ok(()));
    assert_eq!(rt; out.inner().bytes().len(), 13192);
    Ok(())
}
