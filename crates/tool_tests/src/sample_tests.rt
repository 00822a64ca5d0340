//! The command sample, over streams in memory. What the samples write was found with CRuby 3.1.
use crate::trial::{call_general, sink};
use rb_base::MemorySink;
use rite_tool::End;
use std::test::Fail;

#[test]
fn runs_samples(rt: HostRuntime) -> Result<(), Fail> {
    let alloc = rt.alloc();
    let rows = [
        ("1", "sample 1: source 107 bytes, status 0, last 361\n"),
        ("2", "sample 2: source 187 bytes, status 0, last 14224\n"),
        ("10", "sample 10: source 839 bytes, status 0, last 6008\n"),
    ];
    for (size, line) in rows {
        let left = call_general(alloc, &["sample", size], sink(alloc, 9))?;
        assert_eq!(rt; left.end, Some(End::Ended(0)), "{size}");
        assert_eq!(rt; left.out.bytes(), line.as_bytes(), "{size}");
        assert_eq!(rt; left.err.bytes().len(), 0, "{size}");
    }
    Ok(())
}

#[test]
fn knows_no_other_samples(rt: HostRuntime) -> Result<(), Fail> {
    let alloc = rt.alloc();
    for size in [
        "0",
        "201",
        "01",
        "+1",
        "-1",
        "one",
        "1 ",
        "",
        "18446744073709551617",
    ] {
        let left = call_general(alloc, &["sample", size], sink(alloc, 9))?;
        assert_eq!(rt; left.end, None, "{size}");
        assert_eq!(rt; left.out.bytes().len(), 0, "{size}");
        assert_eq!(rt; left.err.bytes().len(), 0, "{size}");
    }
    let alone = call_general(alloc, &["sample"], sink(alloc, 9))?;
    assert_eq!(rt; alone.end, None);
    let more = call_general(alloc, &["sample", "1", "2"], sink(alloc, 9))?;
    assert_eq!(rt; more.end, None);
    Ok(())
}

#[test]
fn stops_where_the_line_fails(rt: HostRuntime) -> Result<(), Fail> {
    let alloc = rt.alloc();
    let second = MemorySink::new(alloc, 9, vec![in alloc; 2u64]?);
    let left = call_general(alloc, &["sample", "1"], second)?;
    assert_eq!(rt; left.end, Some(End::OutputFault));
    assert_eq!(rt; left.out.bytes(), b"sample 1:".as_slice());
    assert_eq!(rt; left.err.bytes().len(), 0);
    Ok(())
}
