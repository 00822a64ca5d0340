//! Texts that are written out by hand.
ghost use Rattle.std.specs.Prelude.{◌≡◌, ◌⊎◌, ◌<◌, ◌^◌, ℕ, [], length, All, IfOk};
ghost use Rattle.rite_code.specs.Code.{IsBody, IsItem, IsText, AreDistinct};

use code_listing::{InfoFault, info, list};
use rb_base::{Bytes, Failed, List, MemorySink};
use rite_code::{CatchEntry, Code, Irep, PoolItem};
use rite_file::LoadError;
use std::alloc::{AllocError, Global};
use std::test::Fail;

/// A sink that takes so many bytes a call and never fails.
fn sink(alloc: Global, most: usize) -> MemorySink
    requires { 0 < most }
{
    MemorySink::new(alloc, most, Vec::new(alloc))
}

fn body(
    alloc: Global,
    code: &[u8],
    catches: List<CatchEntry>,
    pool: List<PoolItem>,
    symbols: List<Bytes>,
) -> Result<Irep, AllocError>
    requires code { length code.now < 2 ^ 32 }
    requires catches { length catches < 2 ^ 16 }
    requires pool { length pool < 2 ^ 16 }
    requires items { All IsItem pool }
    requires distinct_items { AreDistinct pool }
    requires symbols { length symbols < 2 ^ 16 }
    requires texts { All IsText symbols }
    requires distinct_symbols { AreDistinct symbols }
    ensures body { IfOk result (λ b. (version : ℕ) → IsBody version b) }
    ensures children { IfOk result (λ b. b.children ≡ []) }
{
    Ok(Irep {
        locals: 2,
        registers: 9,
        code: Bytes::from_slice(alloc, code)?,
        catches,
        pool,
        symbols,
        children: List::new(alloc),
    })
}

fn program(alloc: Global, version: u8, body: Irep) -> Result<Code, AllocError>
    requires version { (version ≡ 1) ⊎ (version ≡ 2) }
    requires body { IsBody version body }
    requires children { body.children ≡ [] }
{
    let mut bodies = List::new(alloc);
    bodies.push(body)?;
    Ok(Code::new(version, bodies))
}

/// The program of this code, without entries.
fn plain(alloc: Global, version: u8, code: &[u8]) -> Result<Code, AllocError>
    requires version { (version ≡ 1) ⊎ (version ≡ 2) }
    requires code { length code.now < 2 ^ 32 }
{
    let body = body(
        alloc,
        code,
        List::new(alloc),
        List::new(alloc),
        List::new(alloc),
    )?;
    program(alloc, version, body)
}

/// A program with a catch entry, two pool entries and a symbol.
fn with_entries(alloc: Global) -> Result<Code, AllocError> {
    let mut catches = List::new(alloc);
    catches.push(CatchEntry {
        rescue: false,
        begin: 0,
        end: 1,
        target: 100000,
    })?;
    let mut pool = List::new(alloc);
    pool.push(PoolItem::Int(-9000000000))?;
    let text = Bytes::from_slice(alloc, b"a\"\\#{#x\n\x1b\x00\xff~")?;
    pool.push(PoolItem::Text(text))?;
    let mut symbols = List::new(alloc);
    symbols.push(Bytes::from_slice(alloc, b"puts")?)?;
    let body = body(alloc, &[0x48], catches, pool, symbols)?;
    program(alloc, 2, body)
}

#[test]
fn lists_a_stop(rt: HostRuntime) -> Result<(), Fail> {
    let mut out = sink(rt.alloc(), 3);
    let code = plain(rt.alloc(), 2, &[0x48])?;
    assert_eq!(rt; list(&code, &mut out), Ok(()));
    let want = b"irep 0 locals 2 registers 9 children 0\n00000 STOP\n";
    assert_eq!(rt; out.bytes(), want.as_slice());
    Ok(())
}

/// A byte of each kind of operand: signed numbers, targets, the parameters of ENTER, and EXT.
#[test]
fn lists_operands(rt: HostRuntime) -> Result<(), Fail> {
    let bytes = [
        0x22, 0x02, 0x00, 0x02, 0x04, 0x01, 0xFF, 0xFE, 0x33, 0x01, 0x02, 0xFF, 0x17, 0x01, 0x00,
        0x01, 0x15, 0xFF, 0x00, 0x49, 0x03, 0x00, 0x00, 0x01, 0x00, 0xFE,
    ];
    let mut out = sink(rt.alloc(), 7);
    let code = plain(rt.alloc(), 2, &bytes)?;
    assert_eq!(rt; list(&code, &mut out), Ok(()));
    let want = b"irep 0 locals 2 registers 9 children 0
00000 ENTER 131074
00004 LOADI16 1 -2
00008 AREF 1 2 -1
00012 JMPNOT 1 17
00016 JMP -237
00019 EXT LOADI 0 256
00025 ???
";
    assert_eq!(rt; out.bytes(), want.as_slice());
    Ok(())
}

#[test]
fn lists_by_version(rt: HostRuntime) -> Result<(), Fail> {
    let bytes = [0x49, 0x03, 0x00, 0x00, 0x00, 0x05, 0x48];
    let mut out = sink(rt.alloc(), 7);
    let wide = plain(rt.alloc(), 2, &bytes)?;
    assert_eq!(rt; list(&wide, &mut out), Ok(()));
    let narrow = plain(rt.alloc(), 1, &bytes)?;
    assert_eq!(rt; list(&narrow, &mut out), Ok(()));
    let want = b"irep 0 locals 2 registers 9 children 0
00000 EXT LOADI 0 5
00006 STOP
irep 0 locals 2 registers 9 children 0
00000 ???
";
    assert_eq!(rt; out.bytes(), want.as_slice());
    Ok(())
}

#[test]
fn lists_entries(rt: HostRuntime) -> Result<(), Fail> {
    let mut out = sink(rt.alloc(), 7);
    let code = with_entries(rt.alloc())?;
    assert_eq!(rt; list(&code, &mut out), Ok(()));
    let want = b"irep 0 locals 2 registers 9 children 0
00000 STOP
catch ensure 0 1 100000
pool 0 int -9000000000
pool 1 str \"a\\\"\\\\\\#{#x\\n\\e\\x00\\xFF~\"
sym 0 \"puts\"
";
    assert_eq!(rt; out.bytes(), want.as_slice());
    Ok(())
}

#[test]
fn stops_where_a_call_fails(rt: HostRuntime) -> Result<(), Fail> {
    let mut fails = Vec::new(rt.alloc());
    fails.push(3)?;
    let mut out = MemorySink::new(rt.alloc(), 3, fails);
    let code = plain(rt.alloc(), 2, &[0x48])?;
    assert_eq!(rt; list(&code, &mut out), Err(Failed));
    assert_eq!(rt; out.bytes(), b"irep ".as_slice());
    Ok(())
}

/// A file of 61 bytes whose main program is STOP.
const STOP_FILE: [u8; 61] = [
    0x52, 0x49, 0x54, 0x45, 0x30, 0x33, 0x30, 0x30, 0x00, 0x00, 0x00, 0x3d, 0x52, 0x42, 0x57, 0x4e,
    0x30, 0x30, 0x30, 0x32, 0x49, 0x52, 0x45, 0x50, 0x00, 0x00, 0x00, 0x21, 0x30, 0x33, 0x30, 0x30,
    0x00, 0x00, 0x00, 0x15, 0x00, 0x01, 0x00, 0x01, 0x00, 0x00, 0x00, 0x00, 0x00, 0x00, 0x00, 0x01,
    0x48, 0x00, 0x00, 0x00, 0x00, 0x45, 0x4e, 0x44, 0x00, 0x00, 0x00, 0x00, 0x08,
];

#[test]
fn tells_what_a_file_is(rt: HostRuntime) -> Result<(), Fail> {
    let mut out = sink(rt.alloc(), 5);
    assert_eq!(rt; info(&STOP_FILE, &mut out), Ok(()));
    let want = b"RITE 0300 size 61 compiler RBWN 0002\nIREP 33\nEND 8\n";
    assert_eq!(rt; out.bytes(), want.as_slice());
    Ok(())
}

#[test]
fn tells_nothing_of_a_wrong_section(rt: HostRuntime) -> Result<(), Fail> {
    let mut bytes = STOP_FILE;
    bytes[60] = 9;
    let mut out = sink(rt.alloc(), 5);
    let fault = InfoFault::Refused(LoadError::BadSection { at: 53 });
    assert_eq!(rt; info(&bytes, &mut out), Err(fault));
    assert_eq!(rt; out.bytes().len(), 0);
    Ok(())
}
