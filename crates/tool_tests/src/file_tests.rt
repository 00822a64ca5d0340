//! The commands that build a file and show what one holds, over files and streams in memory.
ghost use Rattle.std.specs.Prelude.{◌<◌};

use crate::trial::{self, Left, sink};
use rb_base::MemorySink;
use rb_refusal::Refusal;
use rite_code::Cause;
use rite_tool::{End, Stop, check};
use std::alloc::{AllocError, Global};
use std::process::Abort;
use std::test::Fail;

/// Calls the program with these words over one file `given`; the output's calls of the numbers `fails` fail.
fn call(alloc: Global, words: &[&str], given: &[u8], fails: Vec<u64>) -> Result<Left, Fail> {
    let none = Vec::new(alloc);
    let out = MemorySink::new(alloc, 7, fails);
    trial::call(alloc, words, given, none, out, sink(alloc, 5))
}

/// A file of version 1 whose one instruction is STOP.
const STOP: [u8; 61] = *b"RITE0300\x00\x00\x00\x3dRBWN0001IREP\x00\x00\x00\x210300\
    \x00\x00\x00\x15\x00\x01\x00\x01\x00\x00\x00\x00\x00\x00\x00\x01\x48\x00\x00\x00\x00END\x00\x00\x00\x00\x08";

/// The answer to `list` and `info` is this text.
fn shows(rt: &impl Abort, alloc: Global, word: &str, given: &[u8], text: &str) -> Result<(), Fail> {
    let left = call(alloc, &[word, "given"], given, Vec::new(alloc))?;
    assert_eq!(rt; left.end, End::Ended(0));
    assert_eq!(rt; left.out.bytes(), text.as_bytes());
    assert_eq!(rt; left.err.bytes().len(), 0);
    assert!(rt; left.files.get("given") == Some(given));
    Ok(())
}

/// The answer is a refusal with this text, and nothing goes out.
fn refuses(
    rt: &impl Abort,
    alloc: Global,
    word: &str,
    given: &[u8],
    text: &str,
) -> Result<(), Fail> {
    let left = call(alloc, &[word, "given"], given, Vec::new(alloc))?;
    assert!(rt; matches!(left.end, End::Refused(_)));
    assert_eq!(rt; left.end.status(), 121);
    assert_eq!(rt; left.out.bytes().len(), 0);
    assert_eq!(rt; left.err.bytes(), text.as_bytes());
    Ok(())
}

#[test]
fn builds_the_empty_source(rt: HostRuntime) -> Result<(), Fail> {
    let alloc = rt.alloc();
    let left = call(alloc, &["build", "given", "one.mrb"], b"", Vec::new(alloc))?;
    assert_eq!(rt; left.end, End::Ended(0));
    assert_eq!(rt; left.out.bytes().len(), 0);
    assert_eq!(rt; left.err.bytes().len(), 0);
    let mut second = STOP;
    second[19] = b'2';
    assert!(rt; left.files.get("one.mrb") == Some(second.as_slice()));
    Ok(())
}

#[test]
fn builds_nothing_of_a_wrong_source(rt: HostRuntime) -> Result<(), Fail> {
    let alloc = rt.alloc();
    let words = ["build", "given", "one.mrb"];
    let left = call(alloc, &words, b"puts (1", Vec::new(alloc))?;
    assert!(rt; matches!(left.end, End::Refused(Refusal::Syntax { .. })));
    assert!(rt; left.files.get("one.mrb").is_none());
    Ok(())
}

#[test]
fn shows_a_stop(rt: HostRuntime) -> Result<(), Fail> {
    let alloc = rt.alloc();
    let listing = "irep 0 locals 1 registers 1 children 0\n00000 STOP\n";
    shows(&rt, alloc, "list", &STOP, listing)?;
    let text = "RITE 0300 size 61 compiler RBWN 0001\nIREP 33\nEND 8\n";
    shows(&rt, alloc, "info", &STOP, text)?;
    let mut foreign = STOP;
    foreign[12..20].copy_from_slice(b"MATZ0000");
    let text = "RITE 0300 size 61 compiler MATZ 0000\nIREP 33\nEND 8\n";
    shows(&rt, alloc, "info", &foreign, text)?;
    refuses(&rt, alloc, "list", &foreign, "refused: Foreign MATZ\n")
}

#[test]
fn shows_what_was_built(rt: HostRuntime) -> Result<(), Fail> {
    let alloc = rt.alloc();
    let words = ["build", "given", "one.mrb"];
    let built = call(alloc, &words, b"puts 1 + 2", Vec::new(alloc))?;
    let file = built.files.get("one.mrb").unwrap_or_default();
    let listing = "irep 0 locals 1 registers 4 children 0\n\
        00000 LOADI 2 1\n00003 LOADI 3 2\n00006 ADD 2\n00008 SSEND 1 0 1\n00012 STOP\nsym 0 \"puts\"\n";
    shows(&rt, alloc, "list", file, listing)
}

#[test]
fn refuses_files_in_order(rt: HostRuntime) -> Result<(), Fail> {
    let alloc = rt.alloc();
    refuses(
        &rt,
        alloc,
        "list",
        &STOP[..60],
        "refused: Truncated at 60\n",
    )?;
    refuses(
        &rt,
        alloc,
        "info",
        &STOP[..60],
        "refused: Truncated at 60\n",
    )?;
    refuses(&rt, alloc, "list", b"RITE0299", "refused: NotRite\n")?;
    refuses(&rt, alloc, "list", b"RITE0300", "refused: Truncated at 8\n")?;
    let mut longer = [0u8; 62];
    longer[..61].copy_from_slice(&STOP);
    refuses(&rt, alloc, "list", &longer, "refused: BadSection at 61\n")?;
    refuses(&rt, alloc, "info", &longer, "refused: BadSection at 61\n")
}

#[test]
fn stops_where_the_output_fails(rt: HostRuntime) -> Result<(), Fail> {
    let alloc = rt.alloc();
    let first = vec![in alloc; 1u64]?;
    let left = call(alloc, &["list", "given"], &STOP, first)?;
    assert_eq!(rt; left.end, End::OutputFault);
    assert_eq!(rt; left.out.bytes().len(), 0);
    let second = vec![in alloc; 2u64]?;
    let left = call(alloc, &["info", "given"], &STOP, second)?;
    assert_eq!(rt; left.end, End::OutputFault);
    assert_eq!(rt; left.out.bytes(), b"RITE 03".as_slice());
    assert_eq!(rt; left.err.bytes().len(), 0);
    Ok(())
}

#[test]
fn finds_no_file(rt: HostRuntime) -> Result<(), Fail> {
    let alloc = rt.alloc();
    for command in ["list", "info"] {
        let left = call(alloc, &[command, "other"], b"", Vec::new(alloc))?;
        assert_eq!(rt; left.end, End::FileFault);
        assert_eq!(rt; left.err.bytes(), b"file fault\n".as_slice());
    }
    Ok(())
}

/// A file of version 1 whose jump leads past the end.
const JUMP: [u8; 64] = *b"RITE0300\x00\x00\x00\x40RBWN0001IREP\x00\x00\x00\x240300\
    \x00\x00\x00\x18\x00\x01\x00\x01\x00\x00\x00\x00\x00\x00\x00\x04\x15\x00\x01\x48\x00\x00\x00\x00END\x00\x00\x00\x00\x08";

/// A file of version 2 with a wide load before its stop.
const WIDE: [u8; 67] = *b"RITE0300\x00\x00\x00\x43RBWN0002IREP\x00\x00\x00\x270300\
    \x00\x00\x00\x1b\x00\x01\x00\x01\x00\x00\x00\x00\x00\x00\x00\x07\x49\x03\x00\x00\x00\x05\x48\
    \x00\x00\x00\x00END\x00\x00\x00\x00\x08";

/// Why a file isn't a program that can be run.
fn refusal(alloc: Global, given: &[u8]) -> Option<Refusal> {
    match check(alloc, given) {
        Err(Stop::Refused(refusal)) => Some(refusal),
        _ => None,
    }
}

#[test]
fn verifies_files(rt: HostRuntime) -> Result<(), Fail> {
    let alloc = rt.alloc();
    let bad = |cause| {
        Some(Refusal::Bad {
            irep: 0,
            at: 0,
            cause,
        })
    };
    assert_eq!(rt; refusal(alloc, &STOP), None);
    assert_eq!(rt; refusal(alloc, &JUMP), bad(Cause::Jump));
    let mut next = JUMP;
    next[50] = 0;
    assert_eq!(rt; refusal(alloc, &next), None);
    assert_eq!(rt; refusal(alloc, &WIDE), None);
    let mut first = WIDE;
    first[19] = b'1';
    assert_eq!(rt; refusal(alloc, &first), bad(Cause::Opcode));
    let mut stop = WIDE;
    stop[49] = 0x48;
    assert_eq!(rt; refusal(alloc, &stop), bad(Cause::Extended));
    let mut unknown = STOP;
    unknown[48] = 0xb7;
    assert_eq!(rt; refusal(alloc, &unknown), bad(Cause::Opcode));
    let mut registers = STOP;
    registers[39] = 0xfe;
    assert_eq!(rt; refusal(alloc, &registers), None);
    Ok(())
}

#[test]
fn lists_wide_instructions(rt: HostRuntime) -> Result<(), Fail> {
    let listing = "irep 0 locals 1 registers 1 children 0\n00000 EXT LOADI 0 5\n00006 STOP\n";
    shows(&rt, rt.alloc(), "list", &WIDE, listing)
}

/// A chain of bodies, each with STOP and, but for the last, one child.
fn chain(alloc: Global, count: u32) -> Result<Vec<u8>, AllocError>
    requires { count < 100000 }
{
    let mut bytes = Vec::new(alloc);
    bytes.extend_from_slice(b"RITE0300")?;
    bytes.extend_from_slice(&(21 * count + 40).to_be_bytes())?;
    bytes.extend_from_slice(b"RBWN0001IREP")?;
    bytes.extend_from_slice(&(21 * count + 12).to_be_bytes())?;
    bytes.extend_from_slice(b"0300")?;
    for number in 0..count {
        let children = if number + 1 < count { 1u8 } else { 0u8 };
        bytes.extend_from_slice(b"\x00\x00\x00\x15\x00\x01\x00\x01\x00")?;
        bytes.push(children)?;
        bytes.extend_from_slice(b"\x00\x00\x00\x00\x00\x01\x48\x00\x00\x00\x00")?;
    }
    bytes.extend_from_slice(b"END\x00\x00\x00\x00\x08")?;
    Ok(bytes)
}

#[test]
fn judges_long_chains(rt: HostRuntime) -> Result<(), AllocError> {
    let alloc = rt.alloc();
    let most = chain(alloc, 65536)?;
    assert_eq!(rt; most.len(), 1376296);
    let place = Refusal::Bad {
        irep: 1,
        at: 0,
        cause: Cause::Place,
    };
    assert_eq!(rt; refusal(alloc, &most), Some(place));
    let more = chain(alloc, 65537)?;
    assert_eq!(rt;
        refusal(alloc, &more),
        Some(Refusal::BadRecord { at: 1376288 })
    );
    Ok(())
}
