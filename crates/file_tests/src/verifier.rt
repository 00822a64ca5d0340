//! Each cause, by the smallest program that has it.
ghost use Rattle.std.specs.Prelude.{◌≡◌, ◌⊎◌, ◌<◌, ◌^◌, ℕ, length, IfOk};
ghost use Rattle.rite_code.specs.Code.{IsBody};

use code_verifier::{VerifyError, verify};
use rb_base::{Bytes, List};
use rite_code::{CatchEntry, Cause, Code, Irep, PoolItem};
use std::alloc::{AllocError, Global};

/// A body of three locals, five registers, the pool entry 7 and the symbol `x`.
fn body(
    alloc: Global,
    code: &[u8],
    catches: List<CatchEntry>,
    children: List<u32>,
) -> Result<Irep, AllocError>
    requires code { length code.now < 2 ^ 32 }
    requires catches { length catches < 2 ^ 16 }
    requires children { length children < 2 ^ 16 }
    ensures body { IfOk result (λ b. (version : ℕ) → IsBody version b) }
    ensures children { IfOk result (λ b. b.children ≡ children) }
{
    let mut pool = List::new(alloc);
    pool.push(PoolItem::Int(7))?;
    let mut symbols = List::new(alloc);
    symbols.push(Bytes::from_slice(alloc, b"x")?)?;
    Ok(Irep {
        locals: 3,
        registers: 5,
        code: Bytes::from_slice(alloc, code)?,
        catches,
        pool,
        symbols,
        children,
    })
}

/// What is wrong with a main program.
fn alone_with(
    alloc: Global,
    version: u8,
    code: &[u8],
    catches: List<CatchEntry>,
) -> Result<(), VerifyError>
    requires version { (version ≡ 1) ⊎ (version ≡ 2) }
    requires code { length code.now < 2 ^ 32 }
    requires catches { length catches < 2 ^ 16 }
{
    let mut bodies = List::new(alloc);
    bodies.push(body(alloc, code, catches, List::new(alloc))?)?;
    verify(alloc, Code::new(version, bodies))?;
    Ok(())
}

/// What is wrong with a main program of version 1.
fn narrow(alloc: Global, code: &[u8]) -> Result<(), VerifyError>
    requires { length code.now < 2 ^ 32 }
{
    alone_with(alloc, 1, code, List::new(alloc))
}

/// What is wrong with a main program of version 2.
fn wide(alloc: Global, code: &[u8]) -> Result<(), VerifyError>
    requires { length code.now < 2 ^ 32 }
{
    alone_with(alloc, 2, code, List::new(alloc))
}

/// What is wrong with a main program STOP that has this catch entry.
fn caught(alloc: Global, begin: u32, end: u32, target: u32) -> Result<(), VerifyError> {
    let mut catches = List::new(alloc);
    catches.push(CatchEntry {
        rescue: true,
        begin,
        end,
        target,
    })?;
    alone_with(alloc, 1, &[0x48], catches)
}

/// What is wrong with a main program and its child.
fn nested(alloc: Global, main: &[u8], inner: &[u8]) -> Result<(), VerifyError>
    requires main { length main.now < 2 ^ 32 }
    requires inner { length inner.now < 2 ^ 32 }
{
    let mut children = List::new(alloc);
    children.push(1)?;
    let mut bodies = List::new(alloc);
    bodies.push(body(alloc, main, List::new(alloc), children)?)?;
    bodies.push(body(alloc, inner, List::new(alloc), List::new(alloc))?)?;
    verify(alloc, Code::new(1, bodies))?;
    Ok(())
}

fn bad(irep: u32, at: u32, cause: Cause) -> Result<(), VerifyError> {
    Err(VerifyError::Bad { irep, at, cause })
}

#[test]
fn reads_instructions(rt: HostRuntime) {
    let alloc = rt.alloc();
    assert!(rt; narrow(alloc, &[0x48]) == Ok(()));
    assert!(rt; narrow(alloc, &[]) == bad(0, 0, Cause::Cut));
    assert!(rt; narrow(alloc, &[0xB7]) == bad(0, 0, Cause::Opcode));
    assert!(rt; narrow(alloc, &[0x07, 1, 0xB7]) == bad(0, 2, Cause::Opcode));
    assert!(rt; narrow(alloc, &[0x07, 1, 0x03, 1]) == bad(0, 2, Cause::Cut));
    assert!(rt; narrow(alloc, &[0x49, 0x03, 0, 0, 0, 5, 0x48]) == bad(0, 0, Cause::Opcode));
    assert!(rt; wide(alloc, &[0x49, 0x03, 0, 0, 0, 5, 0x48]) == Ok(()));
    assert!(rt; wide(alloc, &[0x49]) == bad(0, 0, Cause::Cut));
    assert!(rt; wide(alloc, &[0x49, 0xB7]) == bad(0, 0, Cause::Opcode));
    assert!(rt; wide(alloc, &[0x49, 0x03, 0, 0, 0]) == bad(0, 0, Cause::Cut));
    assert!(rt; wide(alloc, &[0x49, 0x22, 0, 0]) == bad(0, 0, Cause::Cut));
    assert!(rt; wide(alloc, &[0x49, 0x22, 0, 0, 0]) == bad(0, 0, Cause::Extended));
    assert!(rt; wide(alloc, &[0x49, 0x49]) == bad(0, 0, Cause::Extended));
    assert!(rt; wide(alloc, &[0x49, 0x48, 0, 0, 0, 0, 0x48]) == bad(0, 0, Cause::Extended));
    assert!(rt; wide(alloc, &[0x49, 0x1E, 0, 9, 0, 9, 1, 0, 0x48]) == bad(0, 0, Cause::Extended));
}

#[test]
fn bounds_what_is_named(rt: HostRuntime) {
    let alloc = rt.alloc();
    assert!(rt; narrow(alloc, &[0x07, 4, 0x48]) == Ok(()));
    assert!(rt; narrow(alloc, &[0x07, 5, 0x48]) == bad(0, 0, Cause::Register));
    assert!(rt; narrow(alloc, &[0x1E, 3, 0, 1, 0x48]) == Ok(()));
    assert!(rt; narrow(alloc, &[0x1E, 3, 0, 2, 0x48]) == bad(0, 0, Cause::Register));
    assert!(rt; narrow(alloc, &[0x1E, 3, 0, 255, 0x48]) == Ok(()));
    assert!(rt; narrow(alloc, &[0x1C, 4, 0, 254, 0x48]) == Ok(()));
    assert!(rt; narrow(alloc, &[0x02, 1, 0, 0x48]) == Ok(()));
    assert!(rt; narrow(alloc, &[0x02, 1, 1, 0x48]) == bad(0, 0, Cause::Pool));
    assert!(rt; narrow(alloc, &[0x36, 1, 0, 0x48]) == bad(0, 0, Cause::Pool));
    assert!(rt; narrow(alloc, &[0x06, 1, 0, 0x48]) == Ok(()));
    assert!(rt; narrow(alloc, &[0x06, 1, 1, 0x48]) == bad(0, 0, Cause::Symbol));
    assert!(rt; narrow(alloc, &[0x3A, 1, 0, 0x48]) == bad(0, 0, Cause::Child));
    assert!(rt; narrow(alloc, &[0x13, 1, 1, 0, 0x48]) == bad(0, 0, Cause::Upvar));
}

#[test]
fn follows_control(rt: HostRuntime) {
    let alloc = rt.alloc();
    assert!(rt; narrow(alloc, &[0x15, 0, 0, 0x48]) == Ok(()));
    assert!(rt; narrow(alloc, &[0x15, 0, 1, 0x48]) == bad(0, 0, Cause::Jump));
    assert!(rt; narrow(alloc, &[0x15, 0xFF, 0xFC, 0x48]) == bad(0, 0, Cause::Jump));
    assert!(rt; narrow(alloc, &[0x16, 1, 0, 1, 0x03, 1, 5, 0x48]) == bad(0, 0, Cause::Jump));
    assert!(rt; narrow(alloc, &[0x16, 5, 0, 1, 0x03, 1, 5, 0x48]) == bad(0, 0, Cause::Register));
    assert!(rt; narrow(alloc, &[0x48, 0x07, 1]) == bad(0, 1, Cause::Fall));
    assert!(rt; narrow(alloc, &[0x24, 1]) == Ok(()));
    assert!(rt; caught(alloc, 0, 1, 0) == Ok(()));
    assert!(rt; caught(alloc, 0, 2, 0) == bad(0, 0, Cause::Catch));
    assert!(rt; caught(alloc, 0, 0, 0) == bad(0, 0, Cause::Catch));
    assert!(rt; caught(alloc, 1, 2, 0) == bad(0, 1, Cause::Catch));
    assert!(rt; caught(alloc, 0, 1, 1) == bad(0, 0, Cause::Catch));
}

#[test]
fn keeps_places(rt: HostRuntime) {
    let alloc = rt.alloc();
    assert!(rt; narrow(alloc, &[0x22, 0, 0, 0, 0x48]) == bad(0, 0, Cause::Enter));
    assert!(rt; narrow(alloc, &[0x25, 1]) == bad(0, 0, Cause::Place));
    assert!(rt; narrow(alloc, &[0x3E, 1, 1, 0x48]) == Ok(()));
    assert!(rt; narrow(alloc, &[0x3E, 1, 2, 0x48]) == bad(0, 0, Cause::Place));
    assert!(rt; narrow(alloc, &[0x47, 1, 8, 0, 0x48]) == bad(0, 0, Cause::Place));
    assert!(rt; nested(alloc, &[0x48], &[0x48]) == bad(1, 0, Cause::Place));
}

/// LAMBDA R1 0 and STOP.
const LAMBDA: [u8; 4] = [0x3A, 1, 0, 0x48];

#[test]
fn uses_children_once(rt: HostRuntime) {
    let alloc = rt.alloc();
    assert!(rt; nested(alloc, &LAMBDA, &[0x22, 0, 0, 0, 0x24, 1]) == Ok(()));
    assert!(rt; nested(alloc, &[0x48], &[0x24, 1]) == bad(1, 0, Cause::Use));
    let twice = [0x3A, 1, 0, 0x3B, 1, 0, 0x48];
    assert!(rt; nested(alloc, &twice, &[0x22, 0, 0, 0, 0x24, 1]) == bad(0, 3, Cause::Use));
    assert!(rt; nested(alloc, &[0x41, 1, 0, 0x48], &[0x24, 1]) == Ok(()));
    assert!(rt; nested(alloc, &LAMBDA, &[0x22, 0, 0, 0, 0x13, 1, 2, 0, 0x24, 1]) == Ok(()));
    assert!(rt;
        nested(alloc, &LAMBDA, &[0x22, 0, 0, 0, 0x13, 1, 3, 0, 0x24, 1]) == bad(1, 4, Cause::Upvar)
    );
    assert!(rt;
        nested(alloc, &LAMBDA, &[0x22, 0, 0, 0, 0x13, 1, 2, 1, 0x24, 1]) == bad(1, 4, Cause::Upvar)
    );
    let method = [0x42, 1, 0, 0, 0x48];
    assert!(rt; nested(alloc, &method, &[0x22, 0, 0, 0, 0x25, 1]) == bad(1, 4, Cause::Place));
}

#[test]
fn binds_parameters(rt: HostRuntime) {
    let alloc = rt.alloc();
    assert!(rt; nested(alloc, &LAMBDA, &[0x24, 1]) == bad(1, 0, Cause::Enter));
    assert!(rt;
        nested(alloc, &LAMBDA, &[0x22, 0, 0, 0, 0x22, 0, 0, 0, 0x24, 1]) == bad(1, 4, Cause::Enter)
    );
    assert!(rt; nested(alloc, &LAMBDA, &[0x22, 0, 0, 1, 0x24, 1]) == bad(1, 0, Cause::Enter));
    assert!(rt; nested(alloc, &LAMBDA, &[0x22, 2, 0, 0, 0x24, 1]) == Ok(()));
    assert!(rt; nested(alloc, &LAMBDA, &[0x22, 4, 0, 0, 0x24, 1]) == bad(1, 0, Cause::Enter));
    let jumps = [0x22, 0, 4, 0, 0x15, 0, 3, 0x15, 0, 0, 0x24, 1];
    assert!(rt; nested(alloc, &LAMBDA, &jumps) == Ok(()));
    assert!(rt;
        nested(alloc, &LAMBDA, &[0x22, 0, 4, 0, 0x15, 0, 0, 0x24, 1]) == bad(1, 0, Cause::Enter)
    );
}
