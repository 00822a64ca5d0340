use rb_base::Bytes;
use rb_heredoc::{Bodies, Head, bodies};
use std::alloc::{AllocError, Global};
use std::process::Abort;
use std::test::Fail;

fn head(alloc: Global, id: &str, indented: bool) -> Result<Head, AllocError> {
    Ok(Head {
        id: Bytes::from_slice(alloc, id.as_bytes())?,
        indented,
        raw: false,
    })
}

/// The text has this one body, after which the place `next` stands.
fn has_body(
    rt: &impl Abort,
    alloc: Global,
    text: &str,
    head: Head,
    piece: &str,
    next: usize,
) -> Result<(), Fail> {
    let heads = vec![in alloc; head]?;
    let Some(found) = bodies(alloc, text.as_bytes(), 0, &heads)? else {
        assert!(rt; false);
        return Ok(());
    };
    let [only] = found.pieces.as_slice() else {
        assert!(rt; false);
        return Ok(());
    };
    assert!(rt; only.as_slice() == piece.as_bytes());
    assert_eq!(rt; found.next, next);
    Ok(())
}

fn has_none(rt: &impl Abort, alloc: Global, text: &str, head: Head) -> Result<(), Fail> {
    let heads = vec![in alloc; head]?;
    let found = bodies(alloc, text.as_bytes(), 0, &heads)?;
    assert!(rt; found.is_none());
    Ok(())
}

#[test]
fn finds_two_bodies_in_order(rt: HostRuntime) -> Result<(), Fail> {
    let alloc = rt.alloc();
    let heads = vec![in alloc; head(alloc, "A", false)?, head(alloc, "B", true)?]?;
    let text = b"one\nA\n  B\n".as_slice();
    let Some(Bodies { pieces, next }) = bodies(alloc, text, 0, &heads)? else {
        assert!(rt; false);
        return Ok(());
    };
    let [first, second] = pieces.as_slice() else {
        assert!(rt; false);
        return Ok(());
    };
    assert!(rt; first.as_slice() == b"one\n".as_slice());
    assert!(rt; second.is_empty());
    assert_eq!(rt; next, 10);
    let missing = bodies(alloc, &text[..6], 0, &heads)?;
    assert!(rt; missing.is_none());
    Ok(())
}

#[test]
fn knows_the_end_line(rt: HostRuntime) -> Result<(), Fail> {
    let alloc = rt.alloc();
    for (text, indented, piece, next) in [
        ("x\r\nA\r\nA\n", false, "x\r\n", 6),
        (" A\nA", false, " A\n", 4),
        ("AB\n \tA", true, "AB\n", 6),
        ("\n\r\rA\r", true, "\n", 5),
    ] {
        has_body(&rt, alloc, text, head(alloc, "A", indented)?, piece, next)?;
    }
    has_body(&rt, alloc, "one\n\n", head(alloc, "", false)?, "one\n", 5)?;
    has_body(
        &rt,
        alloc,
        "b\n  a b\n",
        head(alloc, " a b", true)?,
        "b\n",
        8,
    )?;
    for (text, indented) in [("", false), (" A\n", false), ("x A\n", true), ("A A", true)] {
        has_none(&rt, alloc, text, head(alloc, "A", indented)?)?;
    }
    Ok(())
}

#[test]
fn finds_nothing_without_heads(rt: HostRuntime) -> Result<(), Fail> {
    let Some(found) = bodies(rt.alloc(), b"one\ntwo\n", 4, &[])? else {
        assert!(rt; false);
        return Ok(());
    };
    assert!(rt; found.pieces.is_empty());
    assert_eq!(rt; found.next, 4);
    Ok(())
}
