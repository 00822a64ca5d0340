ghost use Rattle.std.specs.Prelude.{◌<◌};

use rite_file::{Header, LoadError, Section, header, load, sections, write};
use std::alloc::{AllocError, Global};

/// The file of a program that only stops.
const STOP: [u8; 61] = [
    0x52, 0x49, 0x54, 0x45, 0x30, 0x33, 0x30, 0x30, 0x00, 0x00, 0x00, 0x3D, 0x52, 0x42, 0x57, 0x4E,
    0x30, 0x30, 0x30, 0x32, 0x49, 0x52, 0x45, 0x50, 0x00, 0x00, 0x00, 0x21, 0x30, 0x33, 0x30, 0x30,
    0x00, 0x00, 0x00, 0x15, 0x00, 0x01, 0x00, 0x01, 0x00, 0x00, 0x00, 0x00, 0x00, 0x00, 0x00, 0x01,
    0x48, 0x00, 0x00, 0x00, 0x00, 0x45, 0x4E, 0x44, 0x00, 0x00, 0x00, 0x00, 0x08,
];

/// A main program with a catch entry, a text, the number -2, the symbol `p` and two children, of which the first has
/// one.
const TREE: [u8; 158] = [
    0x52, 0x49, 0x54, 0x45, 0x30, 0x33, 0x30, 0x30, 0x00, 0x00, 0x00, 0x9E, 0x52, 0x42, 0x57, 0x4E,
    0x30, 0x30, 0x30, 0x31, 0x49, 0x52, 0x45, 0x50, 0x00, 0x00, 0x00, 0x82, 0x30, 0x33, 0x30, 0x30,
    0x00, 0x00, 0x00, 0x37, 0x00, 0x01, 0x00, 0x03, 0x00, 0x02, 0x00, 0x01, 0x00, 0x00, 0x00, 0x01,
    0x48, 0x01, 0x00, 0x00, 0x00, 0x00, 0x00, 0x00, 0x00, 0x01, 0x00, 0x00, 0x00, 0x00, 0x00, 0x02,
    0x00, 0x00, 0x00, 0x00, 0x02, 0x61, 0x62, 0x01, 0xFF, 0xFF, 0xFF, 0xFF, 0xFF, 0xFF, 0xFF, 0xFE,
    0x00, 0x01, 0x00, 0x00, 0x00, 0x01, 0x70, 0x00, 0x00, 0x00, 0x15, 0x00, 0x01, 0x00, 0x01, 0x00,
    0x01, 0x00, 0x00, 0x00, 0x00, 0x00, 0x01, 0x48, 0x00, 0x00, 0x00, 0x00, 0x00, 0x00, 0x00, 0x15,
    0x00, 0x01, 0x00, 0x01, 0x00, 0x00, 0x00, 0x00, 0x00, 0x00, 0x00, 0x01, 0x48, 0x00, 0x00, 0x00,
    0x00, 0x00, 0x00, 0x00, 0x15, 0x00, 0x01, 0x00, 0x01, 0x00, 0x00, 0x00, 0x00, 0x00, 0x00, 0x00,
    0x01, 0x48, 0x00, 0x00, 0x00, 0x00, 0x45, 0x4E, 0x44, 0x00, 0x00, 0x00, 0x00, 0x08,
];

/// The program that only stops, with a `DBG` section before it and an `LVAR` section after it.
const SKIPPED: [u8; 78] = [
    0x52, 0x49, 0x54, 0x45, 0x30, 0x33, 0x30, 0x30, 0x00, 0x00, 0x00, 0x4E, 0x52, 0x42, 0x57, 0x4E,
    0x30, 0x30, 0x30, 0x32, 0x44, 0x42, 0x47, 0x00, 0x00, 0x00, 0x00, 0x09, 0x78, 0x49, 0x52, 0x45,
    0x50, 0x00, 0x00, 0x00, 0x21, 0x30, 0x33, 0x30, 0x30, 0x00, 0x00, 0x00, 0x15, 0x00, 0x01, 0x00,
    0x01, 0x00, 0x00, 0x00, 0x00, 0x00, 0x00, 0x00, 0x01, 0x48, 0x00, 0x00, 0x00, 0x00, 0x4C, 0x56,
    0x41, 0x52, 0x00, 0x00, 0x00, 0x08, 0x45, 0x4E, 0x44, 0x00, 0x00, 0x00, 0x00, 0x08,
];

/// The same with the symbols `a`, `b` and `a`.
const TWICE: [u8; 76] = [
    0x52, 0x49, 0x54, 0x45, 0x30, 0x33, 0x30, 0x30, 0x00, 0x00, 0x00, 0x4C, 0x52, 0x42, 0x57, 0x4E,
    0x30, 0x30, 0x30, 0x32, 0x49, 0x52, 0x45, 0x50, 0x00, 0x00, 0x00, 0x30, 0x30, 0x33, 0x30, 0x30,
    0x00, 0x00, 0x00, 0x24, 0x00, 0x01, 0x00, 0x01, 0x00, 0x00, 0x00, 0x00, 0x00, 0x00, 0x00, 0x01,
    0x48, 0x00, 0x00, 0x00, 0x03, 0x00, 0x00, 0x00, 0x01, 0x61, 0x00, 0x00, 0x00, 0x01, 0x62, 0x00,
    0x00, 0x00, 0x01, 0x61, 0x45, 0x4E, 0x44, 0x00, 0x00, 0x00, 0x00, 0x08,
];

/// Why the bytes aren't loaded.
fn refusal(alloc: Global, bytes: &[u8]) -> Option<LoadError> {
    match load(alloc, bytes) {
        Ok(_) => None,
        Err(error) => Some(error),
    }
}

#[test]
fn reads_the_header(rt: HostRuntime) {
    let wanted = Header {
        size: 61,
        name: *b"RBWN",
        version: *b"0002",
    };
    assert!(rt; header(&STOP) == Ok(wanted));
    assert!(rt; header(&STOP[..60]) == Err(LoadError::Truncated { at: 60 }));
    assert!(rt; header(b"RITE0299".as_slice()) == Err(LoadError::NotRite));
    assert!(rt; header(b"RITE0300".as_slice()) == Err(LoadError::Truncated { at: 8 }));
}

#[test]
fn lists_the_sections(rt: HostRuntime) -> Result<(), LoadError> {
    let found = header(&STOP)?;
    let mut list = sections(&STOP, &found);
    let irep = Section {
        id: *b"IREP",
        at: 20,
        size: 33,
    };
    let end = Section {
        id: *b"END\0",
        at: 53,
        size: 8,
    };
    assert!(rt; list.next() == Some(Ok(irep)));
    assert!(rt; list.next() == Some(Ok(end)));
    assert!(rt; list.next() == None);
    Ok(())
}

#[test]
fn loads_and_writes(rt: HostRuntime) -> Result<(), LoadError> {
    let code = load(rt.alloc(), &STOP)?;
    assert_eq!(rt; code.version(), 2);
    let [body] = code.bodies() else {
        assert!(rt; false);
        return Ok(());
    };
    assert_eq!(rt; body.locals, 1);
    assert_eq!(rt; body.registers, 1);
    assert!(rt; body.code.as_slice() == [0x48].as_slice());
    Ok(())
}

#[test]
fn writes_what_was_loaded(rt: HostRuntime) -> Result<(), LoadError> {
    let alloc = rt.alloc();
    let stop = load(alloc, &STOP)?;
    let tree = load(alloc, &TREE)?;
    let skipped = load(alloc, &SKIPPED)?;
    let stop = write(alloc, &stop)?;
    let tree = write(alloc, &tree)?;
    let skipped = write(alloc, &skipped)?;
    assert!(rt; stop.as_slice() == STOP.as_slice());
    assert!(rt; tree.as_slice() == TREE.as_slice());
    assert!(rt; skipped.as_slice() == STOP.as_slice());
    Ok(())
}

#[test]
fn numbers_children(rt: HostRuntime) -> Result<(), LoadError> {
    let code = load(rt.alloc(), &TREE)?;
    assert_eq!(rt; code.version(), 1);
    let [first, second, third, fourth] = code.bodies() else {
        assert!(rt; false);
        return Ok(());
    };
    assert!(rt; first.children.as_slice() == [1, 3].as_slice());
    assert!(rt; second.children.as_slice() == [2].as_slice());
    assert!(rt; third.children.is_empty());
    assert!(rt; fourth.children.is_empty());
    Ok(())
}

#[test]
fn refuses_each_prefix(rt: HostRuntime) {
    let alloc = rt.alloc();
    for len in 0..61 {
        let wanted = if len < 8 {
            LoadError::NotRite
        } else {
            LoadError::Truncated { at: len as u64 }
        };
        assert!(rt;
            refusal(alloc, &STOP[..len]) == Some(wanted),
            "of {len} bytes"
        );
    }
}

/// What is answered where this byte of the file of version 1 is turned to its complement.
fn answer(place: usize) -> Option<LoadError> {
    match place {
        0..=7 => Some(LoadError::NotRite),
        8..=11 => Some(LoadError::Truncated { at: 61 }),
        20..=31 => Some(LoadError::BadSection { at: 20 }),
        32..=35 => Some(LoadError::BadRecord { at: 32 }),
        36..=38 => Some(LoadError::BadRecord { at: 38 }),
        40..=41 => Some(LoadError::BadRecord { at: 53 }),
        53..=60 => Some(LoadError::BadSection { at: 53 }),
        _ => None,
    }
}

#[test]
fn refuses_turned_bytes(rt: HostRuntime) {
    let alloc = rt.alloc();
    let mut first = STOP;
    first[19] = b'1';
    for place in [
        0, 7, 8, 11, 20, 23, 24, 27, 28, 31, 32, 35, 36, 37, 38, 39, 40, 41, 48, 53, 56, 57, 60,
    ] {
        let mut bytes = first;
        bytes[place] = 255 - bytes[place];
        assert!(rt; refusal(alloc, &bytes) == answer(place), "at {place}");
    }
    let mut other = first;
    other[12] = b'M';
    let name = *b"MBWN";
    assert!(rt; refusal(alloc, &other) == Some(LoadError::Foreign { name }));
    assert!(rt; refusal(alloc, &TWICE) == Some(LoadError::BadRecord { at: 63 }));
}

#[test]
fn refuses_more_bytes(rt: HostRuntime) -> Result<(), AllocError> {
    let alloc = rt.alloc();
    let mut bytes = Vec::from_slice(alloc, &STOP)?;
    bytes.push(0)?;
    assert!(rt; refusal(alloc, &bytes) == Some(LoadError::BadSection { at: 61 }));
    Ok(())
}

fn put_number(bytes: &mut Vec<u8>, n: u32) -> Result<(), AllocError> {
    bytes.extend_from_slice(&n.to_be_bytes())?;
    Ok(())
}

/// The file of so many bodies, each but the last with one child.
fn chain(alloc: Global, count: u32) -> Result<Vec<u8>, AllocError>
    requires { count < 100000 }
{
    let mut bytes = Vec::new(alloc);
    bytes.extend_from_slice(b"RITE0300")?;
    put_number(&mut bytes, 40 + 21 * count)?;
    bytes.extend_from_slice(b"RBWN0001IREP")?;
    put_number(&mut bytes, 12 + 21 * count)?;
    bytes.extend_from_slice(b"0300")?;
    for number in 0..count {
        let children = if number + 1 < count { 1 } else { 0 };
        bytes.extend_from_slice(&[0, 0, 0, 21, 0, 1, 0, 1, 0, children])?;
        bytes.extend_from_slice(&[0, 0, 0, 0, 0, 1, 0x48, 0, 0, 0, 0])?;
    }
    bytes.extend_from_slice(b"END\0")?;
    put_number(&mut bytes, 8)?;
    Ok(bytes)
}

#[test]
fn loads_long_chains(rt: HostRuntime) -> Result<(), AllocError> {
    let alloc = rt.alloc();
    let most = chain(alloc, 65536)?;
    assert_eq!(rt; most.len(), 1376296);
    assert!(rt; refusal(alloc, &most) == None);
    let more = chain(alloc, 65537)?;
    assert!(rt; refusal(alloc, &more) == Some(LoadError::BadRecord { at: 1376288 }));
    Ok(())
}
