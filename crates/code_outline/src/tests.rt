ghost use Rattle.std.specs.Prelude.{◌≡◌, ◌<◌, ◌^◌, length, IfOk};
ghost use Rattle.rite_code.specs.Code.{IsBody};

use crate::laying::layout;
use crate::{Maker, Purpose, outline};
use rb_base::{Bytes, List};
use rite_code::{Code, Irep, Operation};
use std::alloc::{AllocError, Global};

fn body(alloc: Global, code: &[u8], children: List<u32>) -> Result<Irep, AllocError>
    requires code { length code.now < 2 ^ 32 }
    requires count { length children < 2 ^ 16 }
    ensures body { IfOk result (λ b. IsBody 2 b) }
    ensures children { IfOk result (λ b. b.children ≡ children) }
{
    Ok(Irep {
        locals: 1,
        registers: 2,
        code: Bytes::from_slice(alloc, code)?,
        catches: List::new(alloc),
        pool: List::new(alloc),
        symbols: List::new(alloc),
        children,
    })
}

/// A main program with one child.
fn nested(alloc: Global, main: &[u8], inner: &[u8]) -> Result<Code, AllocError>
    requires main { length main.now < 2 ^ 32 }
    requires inner { length inner.now < 2 ^ 32 }
{
    let mut children = List::new(alloc);
    children.push(1)?;
    let mut bodies = List::new(alloc);
    bodies.push(body(alloc, main, children)?)?;
    bodies.push(body(alloc, inner, List::new(alloc))?)?;
    Ok(Code::new(2, bodies))
}

/// LAMBDA R1 0, BLOCK R1 0, STOP; and in the child ENTER of nothing, RETURN R1.
fn sample(alloc: Global) -> Result<Code, AllocError> {
    nested(
        alloc,
        &[0x3A, 1, 0, 0x3B, 1, 0, 0x48],
        &[0x22, 0, 0, 0, 0x24, 1],
    )
}

#[test]
fn lays_out_a_body(rt: HostRuntime) -> Result<(), AllocError> {
    let main = layout(rt.alloc(), 2, &[0x3A, 1, 0, 0x3B, 1, 0, 0x48])?;
    let inner = layout(rt.alloc(), 2, &[0x22, 0, 0, 0, 0x24, 1])?;
    let [lambda, block, stop] = main.instructions.as_slice() else {
        assert!(rt; false);
        return Ok(());
    };
    assert!(rt; lambda.instr.operation() == Operation::Lambda { a: 1, b: 0 });
    assert_eq!(rt; (block.at, block.next), (3, 6));
    assert_eq!(rt; (stop.at, stop.next), (6, 7));
    assert_eq!(rt; main.index_of(3), Some(1));
    assert_eq!(rt; main.index_of(4), None);
    assert_eq!(rt; main.index_of(7), None);
    assert!(rt; inner.is_start(4));
    assert!(rt; !inner.is_start(5));
    Ok(())
}

#[test]
fn tells_makers(rt: HostRuntime) -> Result<(), AllocError> {
    let code = sample(rt.alloc())?;
    let outline = outline(rt.alloc(), &code)?;
    let maker = Maker {
        body: 0,
        at: 0,
        purpose: Purpose::Lambda,
    };
    assert!(rt; outline.maker(1) == Some(maker));
    assert!(rt; outline.maker(0).is_none());
    assert_eq!(rt; outline.outer(1), Some(0));
    assert_eq!(rt; outline.scope_out(0, 1), Some(0));
    assert_eq!(rt; outline.scope_out(1, 1), None);
    Ok(())
}

/// LOADI R1 5, and MOVE R300 R1 after EXT, which version 1 doesn't have.
#[test]
fn reads_by_version(rt: HostRuntime) -> Result<(), AllocError> {
    let code = [0x03, 1, 5, 0x49, 0x01, 0x01, 0x2C, 0x00, 0x01];
    let narrow = layout(rt.alloc(), 1, &code)?;
    assert_eq!(rt; narrow.instructions.len(), 1);
    assert_eq!(rt; narrow.index_of(3), None);
    let wide = layout(rt.alloc(), 2, &code)?;
    assert_eq!(rt; wide.instructions.len(), 2);
    assert_eq!(rt; wide.index_of(3), Some(1));
    Ok(())
}
