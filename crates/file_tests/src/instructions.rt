use rite_code::{Instr, Operation, decode_at, decode_wide_at, encode};
use std::alloc::{AllocError, Global};

fn instr(wide: bool, operation: Operation) -> Result<Instr, AllocError> {
    Instr::new(wide, operation).ok_or(AllocError)
}

fn sample(alloc: Global) -> Result<Vec<u8>, AllocError> {
    let list = [
        instr(false, Operation::LoadI { a: 1, b: 5 })?,
        instr(false, Operation::JmpNot { a: 2, by: -3 })?,
        instr(false, Operation::LoadI32 { a: 0, b: 70000 })?,
        instr(true, Operation::Move { a: 300, b: 1 })?,
    ];
    encode(alloc, &list)
}

#[test]
fn encodes(rt: HostRuntime) -> Result<(), AllocError> {
    let bytes = sample(rt.alloc())?;
    let wanted: [u8; 19] = [
        0x03, 0x01, 0x05, 0x17, 0x02, 0xFF, 0xFD, 0x05, 0x00, 0x00, 0x01, 0x11, 0x70, 0x49, 0x01,
        0x01, 0x2C, 0x00, 0x01,
    ];
    assert!(rt; bytes.as_slice() == wanted.as_slice());
    Ok(())
}

#[test]
fn decodes(rt: HostRuntime) {
    let code: [u8; 10] = [0x03, 0x01, 0x05, 0x49, 0x01, 0x01, 0x2C, 0x00, 0x01, 0x48];
    let first = decode_at(&code, 0).map(|found| (found.0.operation(), found.1));
    assert!(rt; first == Some((Operation::LoadI { a: 1, b: 5 }, 3)));
    let second = decode_wide_at(&code, 3).map(|found| (found.0.operation(), found.1));
    assert!(rt; second == Some((Operation::Move { a: 300, b: 1 }, 9)));
    let nothing: [u8; 2] = [0x00, 0x01];
    let idle = decode_at(&nothing, 0).map(|found| (found.0.operation(), found.1));
    assert!(rt; idle == Some((Operation::Nop, 1)));
    let last = decode_wide_at(&code, 9).map(|found| (found.0.operation(), found.1));
    assert!(rt; last == Some((Operation::Stop, 10)));
}

#[test]
fn decodes_no_other(rt: HostRuntime) {
    let cut: [u8; 2] = [0x03, 0x01];
    let unknown: [u8; 3] = [0x4A, 0x01, 0x05];
    let extended_stop: [u8; 2] = [0x49, 0x48];
    assert!(rt; decode_at(&cut, 0).is_none());
    assert!(rt; decode_at(&cut, 2).is_none());
    assert!(rt; decode_at(&cut, 9).is_none());
    assert!(rt; decode_wide_at(&unknown, 0).is_none());
    assert!(rt; decode_wide_at(&extended_stop, 0).is_none());
    assert!(rt; decode_at(&extended_stop, 0).is_none());
    assert!(rt; Instr::new(false, Operation::Move { a: 256, b: 1 }).is_none());
    assert!(rt; Instr::new(true, Operation::Stop).is_none());
}
