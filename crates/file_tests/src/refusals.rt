//! Texts that are written out by hand.
ghost use Rattle.std.specs.Prelude.{◌<◌};

use rb_base::{Failed, MemorySink};
use rb_refusal::{Refusal, refusal_text, write_pieces};
use rb_syntax::{Count, Outside};
use rite_code::Cause;
use std::alloc::Global;
use std::test::Fail;

/// A sink that takes so many bytes a call and never fails.
fn sink(alloc: Global, most: usize) -> MemorySink
    requires { 0 < most }
{
    MemorySink::new(alloc, most, Vec::new(alloc))
}

#[test]
fn tells_each_refusal(rt: HostRuntime) -> Result<(), Fail> {
    let name = *b"M\x00 ~";
    let rows: [(Refusal, &str); 10] = [
        (Refusal::Syntax { at: 3 }, "Syntax at 3"),
        (Refusal::TooDeep, "TooDeep"),
        (
            Refusal::Outside {
                what: Outside::WideInteger,
                at: 2,
            },
            "Outside WideInteger at 2",
        ),
        (
            Refusal::TooLarge {
                what: Count::Symbols,
                count: 65536,
            },
            "TooLarge Symbols 65536",
        ),
        (Refusal::NotRite, "NotRite"),
        (Refusal::Foreign { name }, "Foreign M..~"),
        (Refusal::Truncated { at: 19 }, "Truncated at 19"),
        (Refusal::BadSection { at: 20 }, "BadSection at 20"),
        (
            Refusal::BadRecord { at: 4294967296 },
            "BadRecord at 4294967296",
        ),
        (
            Refusal::Bad {
                irep: 0,
                at: 0,
                cause: Cause::Extended,
            },
            "Bad irep 0 at 0 Extended",
        ),
    ];
    for (refusal, want) in rows {
        let mut out = sink(rt.alloc(), 5);
        assert_eq!(rt; refusal_text(&refusal, &mut out), Ok(()));
        assert_eq!(rt; out.bytes(), want.as_bytes());
    }
    Ok(())
}

#[test]
fn stops_where_a_call_fails(rt: HostRuntime) -> Result<(), Fail> {
    let mut fails = Vec::new(rt.alloc());
    fails.push(3)?;
    let mut out = MemorySink::new(rt.alloc(), 3, fails);
    assert_eq!(rt; write_pieces(&mut out, &[b"irep", b" 7"]), Err(Failed));
    assert_eq!(rt; out.bytes(), b"irep".as_slice());
    Ok(())
}
