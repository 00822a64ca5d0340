//! From bodies to bytes.
ghost use Rattle.std.specs.Prelude.{◌≡◌, ◌+◌, ◌<◌, ◌≤◌, ◌^◌, ◌++◌, ℕ, All, length, OnOk, flat_map};
ghost use Rattle.std.specs.Int.{to_be_bytes, cast_unsigned, w16, w32, w64};
ghost use Rattle.rite_code.specs.Code.{IsBody, IsItem, IsText};
ghost use Rattle.rite_file.specs.File.{IsHeld, IsHeldEntry, IsHeldItem, IsInteger};
ghost use Rattle.rite_file.specs.File as specs;
ghost use Rattle.rite_file.specs.Written.{front};

use rb_base::Bytes;
use rite_code::{CatchEntry, Irep, PoolItem};
use std::alloc::{AllocError, Global};

fn put_u16(out: &mut Vec<u8>, n: u16) -> Result<(), AllocError>
    ensures bytes { OnOk result (out.new.items ≡ out.old.items ++ to_be_bytes w16 n) }
    ensures held { n < 2 ^ 16 }
{
    out.extend_from_slice(&n.to_be_bytes())?;
    Ok(())
}

fn put_u32(out: &mut Vec<u8>, n: u32) -> Result<(), AllocError>
    ensures bytes { OnOk result (out.new.items ≡ out.old.items ++ to_be_bytes w32 n) }
    ensures held { n < 2 ^ 32 }
{
    out.extend_from_slice(&n.to_be_bytes())?;
    Ok(())
}

fn put_i64(out: &mut Vec<u8>, n: i64) -> Result<(), AllocError>
    ensures bytes { OnOk result (out.new.items ≡ out.old.items ++ to_be_bytes w64 (cast_unsigned w64 n)) }
    ensures held { IsInteger n }
{
    out.extend_from_slice(&n.to_be_bytes())?;
    Ok(())
}

/// Puts a length and the bytes.
fn put_text(out: &mut Vec<u8>, bytes: &[u8]) -> Result<(), AllocError>
    requires { length bytes.now < 2 ^ 32 }
    ensures { OnOk result (out.new.items ≡ out.old.items ++ specs.text bytes.now) }
{
    put_u32(out, bytes.len() as u32)?;
    out.extend_from_slice(bytes)?;
    Ok(())
}

fn put_texts(out: &mut Vec<u8>, texts: &[Bytes]) -> Result<(), AllocError>
    requires { All IsText texts.now }
    ensures { OnOk result (out.new.items ≡ out.old.items ++ flat_map specs.text texts.now) }
{
    for bytes in texts {
        put_text(out, bytes.as_slice())?;
    }
    Ok(())
}

/// The kind of a catch entry.
fn kind_of(rescue: bool) -> u8
    ensures { result ≡ specs.kind rescue }
{
    if rescue { 0 } else { 1 }
}

fn put_entry(out: &mut Vec<u8>, entry: &CatchEntry) -> Result<(), AllocError>
    ensures bytes { OnOk result (out.new.items ≡ out.old.items ++ specs.catch_entry entry.now) }
    ensures held { OnOk result (IsHeldEntry entry.now) }
{
    out.push(kind_of(entry.rescue))?;
    put_u32(out, entry.begin)?;
    put_u32(out, entry.end)?;
    put_u32(out, entry.target)?;
    Ok(())
}

fn put_entries(out: &mut Vec<u8>, entries: &[CatchEntry]) -> Result<(), AllocError>
    ensures bytes { OnOk result (out.new.items ≡ out.old.items ++ flat_map specs.catch_entry entries.now) }
    ensures held { OnOk result (All IsHeldEntry entries.now) }
{
    for entry in entries {
        put_entry(out, entry)?;
    }
    Ok(())
}

fn put_item(out: &mut Vec<u8>, item: &PoolItem) -> Result<(), AllocError>
    requires { IsItem item.now }
    ensures bytes { OnOk result (out.new.items ≡ out.old.items ++ specs.pool_item item.now) }
    ensures held { OnOk result (IsHeldItem item.now) }
{
    match item {
        PoolItem::Text(text) => {
            out.push(0)?;
            put_text(out, text.as_slice())?;
        }
        PoolItem::Int(n) => {
            out.push(1)?;
            put_i64(out, *n)?;
        }
    }
    Ok(())
}

fn put_items(out: &mut Vec<u8>, items: &[PoolItem]) -> Result<(), AllocError>
    requires { All IsItem items.now }
    ensures bytes { OnOk result (out.new.items ≡ out.old.items ++ flat_map specs.pool_item items.now) }
    ensures held { OnOk result (All IsHeldItem items.now) }
{
    for item in items {
        put_item(out, item)?;
    }
    Ok(())
}

fn put_counts(out: &mut Vec<u8>, body: &Irep) -> Result<(), AllocError>
    requires children { length body.now.children < 2 ^ 16 }
    requires catches { length body.now.catches < 2 ^ 16 }
    ensures bytes { OnOk result (out.new.items ≡ out.old.items ++ specs.counts body.now) }
    ensures locals { OnOk result (body.now.locals < 2 ^ 16) }
    ensures registers { OnOk result (body.now.registers < 2 ^ 16) }
{
    put_u16(out, body.locals)?;
    put_u16(out, body.registers)?;
    put_u16(out, body.children.len() as u16)?;
    put_u16(out, body.catches.len() as u16)?;
    Ok(())
}

/// Puts what stands after the size of a body's record.
fn put_fields(out: &mut Vec<u8>, body: &Irep) -> Result<(), AllocError>
    requires { (version : ℕ) × IsBody version body.now }
    ensures bytes { OnOk result (out.new.items ≡ out.old.items ++ specs.fields body.now) }
    ensures held { OnOk result (IsHeld body.now) }
{
    put_counts(out, body)?;
    put_text(out, body.code.as_slice())?;
    put_entries(out, body.catches.as_slice())?;
    put_u16(out, body.pool.len() as u16)?;
    put_items(out, body.pool.as_slice())?;
    put_u16(out, body.symbols.len() as u16)?;
    put_texts(out, body.symbols.as_slice())?;
    Ok(())
}

/// Puts a body's record.
#[tactic(auto, unfolding(crate::specs::File::record_of))]
fn put_record(alloc: Global, out: &mut Vec<u8>, body: &Irep) -> Result<(), AllocError>
    requires is { (version : ℕ) × IsBody version body.now }
    requires small { length (specs.record_of body.now) < 2 ^ 32 }
    ensures bytes { OnOk result (out.new.items ≡ out.old.items ++ specs.record_of body.now) }
    ensures held { OnOk result (IsHeld body.now) }
{
    let mut fields = Vec::new(alloc);
    put_fields(&mut fields, body)?;
    put_u32(out, fields.len() as u32 + 4)?;
    out.extend_from_slice(&fields)?;
    Ok(())
}

/// Puts the records of bodies of one version.
pub fn put_records(
    alloc: Global,
    out: &mut Vec<u8>,
    version: u8,
    bodies: &[Irep],
) -> Result<(), AllocError>
    requires are { All (IsBody version) bodies.now }
    requires small { length (flat_map specs.record_of bodies.now) < 2 ^ 32 }
    ensures bytes { OnOk result (out.new.items ≡ out.old.items ++ flat_map specs.record_of bodies.now) }
    ensures held { OnOk result (All IsHeld bodies.now) }
{
    for body in bodies {
        put_record(alloc, out, body)?;
    }
    Ok(())
}

/// The last section.
pub const END: [u8; 8] = [b'E', b'N', b'D', 0, 0, 0, 0, 8];

/// Puts a name and the size after it.
fn put_head(out: &mut Vec<u8>, name: &[u8], size: u32) -> Result<(), AllocError>
    ensures { OnOk result (out.new.items ≡ out.old.items ++ (name.now ++ to_be_bytes w32 size)) }
{
    out.extend_from_slice(name)?;
    put_u32(out, size)?;
    Ok(())
}

/// Puts what stands before records of `len` bytes.
pub fn put_front(out: &mut Vec<u8>, version: u8, len: u32) -> Result<(), AllocError>
    requires known { version ≤ 2 }
    requires small { len + 40 < 2 ^ 32 }
    ensures { OnOk result (out.new.items ≡ out.old.items ++ front version len) }
{
    put_head(out, b"RITE0300", len + 40)?;
    out.extend_from_slice(b"RBWN000")?;
    out.push(b'0' + version)?;
    put_head(out, b"IREP", len + 12)?;
    out.extend_from_slice(b"0300")?;
    Ok(())
}
