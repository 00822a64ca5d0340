//! A source at the limit of each count has its file, and one past it is refused for that count. What is counted stands in
//! docs/core.md.
use file_maker::{Made, make_file};
use rb_refusal::Refusal;
use rb_syntax::Count;
use std::alloc::Global;
use std::process::Abort;
use std::test::Fail;

/// So many texts, each with its number between two pieces.
fn numbered(alloc: Global, before: &str, count: u32, after: &str) -> Result<Vec<u8>, Fail> {
    let mut text = Vec::new(alloc);
    for number in 0..count {
        let piece = format!(in alloc; "{before}{number}{after}")?;
        text.extend_from_slice(piece.as_bytes())?;
    }
    Ok(text)
}

/// A piece so often behind a text.
fn repeat(text: &mut Vec<u8>, piece: &[u8], count: u32) -> Result<(), Fail> {
    for _ in 0..count {
        text.extend_from_slice(piece)?;
    }
    Ok(())
}

/// The text has its file.
fn is_made(rt: &impl Abort, alloc: Global, text: &[u8]) -> Result<(), Fail> {
    let made = make_file(alloc, text)?;
    assert!(rt; matches!(made, Made::File(_, _)), "made");
    Ok(())
}

/// The text is refused for its count.
fn is_too_large(
    rt: &impl Abort,
    alloc: Global,
    text: &[u8],
    what: Count,
    count: u64,
) -> Result<(), Fail> {
    match make_file(alloc, text)? {
        Made::Refused(refusal) => {
            assert_eq!(rt; refusal, Refusal::TooLarge { what, count });
        }
        _ => assert!(rt; false, "refused"),
    }
    Ok(())
}

/// A method with so many parameters and one more.
fn method(alloc: Global, parameters: u32) -> Result<Vec<u8>, Fail> {
    let mut text = Vec::new(alloc);
    text.extend_from_slice(b"def f(")?;
    text.extend_from_slice(&numbered(alloc, "a", parameters, ", ")?)?;
    text.extend_from_slice(b"b) end\n")?;
    Ok(text)
}

#[test]
fn parameters(rt: HostRuntime) -> Result<(), Fail> {
    is_made(&rt, rt.alloc(), &method(rt.alloc(), 126)?)?;
    let more = method(rt.alloc(), 127)?;
    is_too_large(&rt, rt.alloc(), &more, Count::Parameters, 128)
}

/// So many locals, and calls with 253 arguments, the last of which is the next call: 255 of them, whose forms are 64,521
/// registers wide.
fn registers(alloc: Global, locals: u32) -> Result<Vec<u8>, Fail> {
    let mut text = numbered(alloc, "a", locals, " = 1\n")?;
    for _ in 0..255 {
        text.extend_from_slice(b"f(")?;
        repeat(&mut text, b"1, ", 252)?;
    }
    text.extend_from_slice(b"1")?;
    repeat(&mut text, b")", 255)?;
    Ok(text)
}

#[test]
fn registers_of_a_body(rt: HostRuntime) -> Result<(), Fail> {
    is_made(&rt, rt.alloc(), &registers(rt.alloc(), 1012)?)?;
    let more = registers(rt.alloc(), 1013)?;
    is_too_large(&rt, rt.alloc(), &more, Count::Registers, 65536)
}

#[test]
fn entries_of_a_pool(rt: HostRuntime) -> Result<(), Fail> {
    is_made(&rt, rt.alloc(), &numbered(rt.alloc(), "\"", 65535, "\"\n")?)?;
    let more = numbered(rt.alloc(), "\"", 65536, "\"\n")?;
    is_too_large(&rt, rt.alloc(), &more, Count::Pool, 65536)
}

#[test]
fn symbols(rt: HostRuntime) -> Result<(), Fail> {
    is_made(&rt, rt.alloc(), &numbered(rt.alloc(), ":a", 65535, "\n")?)?;
    let more = numbered(rt.alloc(), ":a", 65536, "\n")?;
    is_too_large(&rt, rt.alloc(), &more, Count::Symbols, 65536)
}

/// So many lambdas.
fn lambdas(alloc: Global, count: u32) -> Result<Vec<u8>, Fail> {
    let mut text = Vec::new(alloc);
    repeat(&mut text, b"-> {}\n", count)?;
    Ok(text)
}

#[test]
fn children(rt: HostRuntime) -> Result<(), Fail> {
    is_made(&rt, rt.alloc(), &lambdas(rt.alloc(), 65535)?)?;
    let more = lambdas(rt.alloc(), 65536)?;
    is_too_large(&rt, rt.alloc(), &more, Count::Children, 65536)
}

/// A symbol and so many other forms, which are counted with 16 bytes of code each.
fn forms(alloc: Global, count: u32) -> Result<Vec<u8>, Fail> {
    let mut text = Vec::new(alloc);
    text.extend_from_slice(b":a\n")?;
    repeat(&mut text, b"nil\n", count)?;
    Ok(text)
}

#[test]
fn bytes_of_code(rt: HostRuntime) -> Result<(), Fail> {
    is_made(&rt, rt.alloc(), &forms(rt.alloc(), 262140)?)?;
    let more = forms(rt.alloc(), 262141)?;
    is_too_large(&rt, rt.alloc(), &more, Count::Code, 4194304)
}

/// Forms, and a choice by so many branches, which are counted with 48 bytes of code each.
fn choice(alloc: Global, before: &[u8], branches: u32) -> Result<Vec<u8>, Fail> {
    let mut text = Vec::new(alloc);
    text.extend_from_slice(before)?;
    text.extend_from_slice(b"if nil\n1\n")?;
    repeat(&mut text, b"elsif nil\n2\n", branches.wrapping_sub(1))?;
    text.extend_from_slice(b"end\n")?;
    Ok(text)
}

#[test]
fn branches_of_a_choice(rt: HostRuntime) -> Result<(), Fail> {
    is_made(&rt, rt.alloc(), &choice(rt.alloc(), b":a\n", 87379)?)?;
    let more = choice(rt.alloc(), b":a\n", 87380)?;
    is_too_large(&rt, rt.alloc(), &more, Count::Code, 4194320)
}

/// The first path goes as deep into a choice as it has branches, so it leaves those of more than a thousand to the second.
#[test]
fn branches_of_the_first_path(rt: HostRuntime) -> Result<(), Fail> {
    let few = choice(rt.alloc(), b"", 1000)?;
    let made = make_file(rt.alloc(), &few)?;
    assert!(rt; matches!(made, Made::FirstPath), "first path");
    is_made(&rt, rt.alloc(), &choice(rt.alloc(), b"", 1001)?)?;
    is_made(&rt, rt.alloc(), &choice(rt.alloc(), b"", 80000)?)
}

/// A lambda with so many in it: with the program these are two bodies more.
fn bodies(alloc: Global, inner: u32) -> Result<Vec<u8>, Fail> {
    let mut text = Vec::new(alloc);
    text.extend_from_slice(b"-> {\n")?;
    repeat(&mut text, b"-> {}\n", inner)?;
    text.extend_from_slice(b"}\n")?;
    Ok(text)
}

#[test]
fn bodies_of_a_file(rt: HostRuntime) -> Result<(), Fail> {
    is_made(&rt, rt.alloc(), &bodies(rt.alloc(), 65534)?)?;
    let more = bodies(rt.alloc(), 65535)?;
    is_too_large(&rt, rt.alloc(), &more, Count::File, 4294967296)
}
