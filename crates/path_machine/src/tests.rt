ghost use Rattle.std.specs.Prelude.{Option, None};

use super::*;
use crate::running::run_body;
use path_value::Failure;
use rb_base::{Bytes, Failed, List};
use rite_code::Irep;
use std::alloc::AllocError;
use std::test::Fail;

/// A page of 16 bytes that takes a byte at a time, and fails once it is full.
#[derive(Drop)]
struct Page {
    bytes: [u8; 16],
    end: usize,
    faults: u64,
}

impl Sink for Page {
    ghost faults = { λ p. p.faults };

    ghost taken = { λ _. None };

    fn write(&mut self, piece: &[u8]) -> Result<usize, Failed> {
        if self.end >= 16 {
            self.faults = self.faults.saturating_add(1);
            return Err(Failed);
        }
        self.bytes[self.end] = piece[0];
        self.end += 1;
        Ok(1)
    }
}

fn empty() -> Page {
    Page {
        bytes: [0; 16],
        end: 0,
        faults: 0,
    }
}

/// A body with three registers and the symbol `puts`.
fn body(alloc: Global, bytes: &[u8]) -> Result<Irep, AllocError> {
    let mut symbols = List::new(alloc);
    symbols.push(Bytes::from_slice(alloc, b"puts")?)?;
    Ok(Irep {
        locals: 1,
        registers: 3,
        code: Bytes::from_slice(alloc, bytes)?,
        catches: List::new(alloc),
        pool: List::new(alloc),
        symbols,
        children: List::new(alloc),
    })
}

#[test]
fn puts_writes_a_line(rt: HostRuntime) -> Result<(), Fail> {
    // LOADI 2 7; SSEND 1 0 1; STOP
    let body = body(rt.alloc(), &[3, 2, 7, 28, 1, 0, 1, 72])?;
    let mut page = empty();
    let ran = run_body(rt.alloc(), &body, 100, &mut page);
    assert_eq!(rt; ran, Ok(Ran::Ended(0)));
    assert_eq!(rt; page.end, 2);
    assert_eq!(rt;
        page.bytes.as_slice(),
        b"7\n\0\0\0\0\0\0\0\0\0\0\0\0\0\0".as_slice()
    );
    Ok(())
}

#[test]
fn an_endless_loop_spends_the_budget(rt: HostRuntime) -> Result<(), Fail> {
    // JMP -3
    let body = body(rt.alloc(), &[21, 0xff, 0xfd])?;
    let ran = run_body(rt.alloc(), &body, 5, &mut empty());
    assert_eq!(rt; ran, Ok(Ran::Spent));
    Ok(())
}

#[test]
fn a_product_past_64_bits_is_uncaught(rt: HostRuntime) -> Result<(), Fail> {
    // LOADI32 1 2147483647; LOADI32 2 2147483647; MUL 1; LOADI 2 4; MUL 1; STOP
    let bytes = [
        5, 1, 0x7f, 0xff, 0xff, 0xff, 5, 2, 0x7f, 0xff, 0xff, 0xff, 41, 1, 3, 2, 4, 41, 1, 72,
    ];
    let body = body(rt.alloc(), &bytes)?;
    let ran = run_body(rt.alloc(), &body, 100, &mut empty());
    assert_eq!(rt; ran, Ok(Ran::Uncaught(Failure::IntegerOverflow)));
    Ok(())
}

#[test]
fn a_full_sink_stops_the_run(rt: HostRuntime) -> Result<(), Fail> {
    // LOADI 2 7; SSEND 1 0 1; JMP -7
    let body = body(rt.alloc(), &[3, 2, 7, 28, 1, 0, 1, 21, 0xff, 0xf9])?;
    let mut page = empty();
    let ran = run_body(rt.alloc(), &body, 100, &mut page);
    assert_eq!(rt; ran, Err(RunFault::OutputFault));
    assert_eq!(rt;
        page.bytes.as_slice(),
        b"7\n7\n7\n7\n7\n7\n7\n7\n".as_slice()
    );
    Ok(())
}
