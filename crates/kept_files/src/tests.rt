//! What is loaded again, and what is read anew.
use super::*;
use rb_base::{Failed, Files, MemoryFiles};
use std::process::Abort;
use std::test::Fail;

#[test]
fn reads_a_file_once(rt: HostRuntime) -> Result<(), Fail> {
    // The second and the fourth call of the files within fail.
    let mut within = MemoryFiles::new(rt.alloc(), vec![in rt.alloc(); 2, 4]?);
    within.put("a", b"one")?;
    within.put("b", b"two")?;
    let mut files = KeptFiles::new(within);
    for _ in 0..2 {
        let bytes = files.load(rt.alloc(), "a", 9)?;
        assert_eq!(rt; bytes.as_slice(), b"one".as_slice());
    }
    assert!(rt; files.load(rt.alloc(), "b", 9).is_err());
    let front = files.load(rt.alloc(), "a", 2)?;
    assert_eq!(rt; front.as_slice(), b"on".as_slice());
    assert!(rt; files.load(rt.alloc(), "a", 9).is_err());
    Ok(())
}

#[test]
fn reads_what_was_stored(rt: HostRuntime) -> Result<(), Fail> {
    let mut files = KeptFiles::new(MemoryFiles::new(rt.alloc(), vec![in rt.alloc(); 5]?));
    for text in ["one", "three"] {
        assert_eq!(rt; files.store("a", text.as_bytes()), Ok(()));
        let bytes = files.load(rt.alloc(), "a", 9)?;
        assert_eq!(rt; bytes.as_slice(), text.as_bytes());
    }
    assert_eq!(rt; files.store("a", b"two"), Err(Failed));
    Ok(())
}
