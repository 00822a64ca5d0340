//! The file of bodies, as it is read.
ghost use Rattle.std.specs.Prelude.{◌≡◌, ◌+◌, ◌++◌, List, length, flat_map, codes, IfOk, OnOk};
ghost use Rattle.std.specs.Int.{to_be_bytes, cast_unsigned, w16, w32, w64};
ghost use Rattle.rite_code.specs.Code.{program};
ghost use Rattle.rite_file.specs.File as file;

use rb_base::Bytes;
use rite_code::{CatchEntry, Irep, PoolItem};
use std::alloc::{AllocError, Global};

type Put = Result<(), AllocError>;

fn put_u16(out: &mut Vec<u8>, n: u16) -> Put
    ensures { OnOk result (out.new.items ≡ out.old.items ++ to_be_bytes w16 n) }
{
    out.extend_from_slice(&n.to_be_bytes())
}

fn put_u32(out: &mut Vec<u8>, n: u32) -> Put
    ensures { OnOk result (out.new.items ≡ out.old.items ++ to_be_bytes w32 n) }
{
    out.extend_from_slice(&n.to_be_bytes())
}

fn put_i64(out: &mut Vec<u8>, n: i64) -> Put
    ensures { OnOk result (out.new.items ≡ out.old.items ++ to_be_bytes w64 (cast_unsigned w64 n)) }
{
    out.extend_from_slice(&n.to_be_bytes())
}

/// A count of two bytes. One that doesn't fit is answered as if memory ran out.
fn put_count(out: &mut Vec<u8>, n: usize) -> Put
    ensures { OnOk result (out.new.items ≡ out.old.items ++ to_be_bytes w16 n) }
{
    match u16::try_from(n) {
        Ok(n) => put_u16(out, n),
        Err(_) => Err(AllocError),
    }
}

/// A length of four bytes.
fn put_length(out: &mut Vec<u8>, n: usize) -> Put
    ensures { OnOk result (out.new.items ≡ out.old.items ++ to_be_bytes w32 n) }
{
    match u32::try_from(n) {
        Ok(n) => put_u32(out, n),
        Err(_) => Err(AllocError),
    }
}

fn put_text(out: &mut Vec<u8>, text: &Bytes) -> Put
    ensures { OnOk result (out.new.items ≡ out.old.items ++ file.text text.now) }
{
    put_length(out, text.len())?;
    out.extend_from_slice(text.as_slice())
}

fn put_texts(out: &mut Vec<u8>, texts: &[Bytes]) -> Put
    ensures { OnOk result (out.new.items ≡ out.old.items ++ flat_map file.text texts.now) }
{
    for text in texts {
        put_text(out, text)?;
    }
    Ok(())
}

/// The kind of a catch entry.
fn kind_of(rescue: bool) -> u8
    ensures { result ≡ file.kind rescue }
{
    if rescue { 0 } else { 1 }
}

fn put_entry(out: &mut Vec<u8>, entry: &CatchEntry) -> Put
    ensures { OnOk result (out.new.items ≡ out.old.items ++ file.catch_entry entry.now) }
{
    out.push(kind_of(entry.rescue))?;
    put_u32(out, entry.begin)?;
    put_u32(out, entry.end)?;
    put_u32(out, entry.target)
}

fn put_entries(out: &mut Vec<u8>, entries: &[CatchEntry]) -> Put
    ensures { OnOk result (out.new.items ≡ out.old.items ++ flat_map file.catch_entry entries.now) }
{
    for entry in entries {
        put_entry(out, entry)?;
    }
    Ok(())
}

fn put_item(out: &mut Vec<u8>, item: &PoolItem) -> Put
    ensures { OnOk result (out.new.items ≡ out.old.items ++ file.pool_item item.now) }
{
    match item {
        PoolItem::Text(text) => {
            out.push(0)?;
            put_text(out, text)
        }
        PoolItem::Int(value) => {
            out.push(1)?;
            put_i64(out, *value)
        }
    }
}

fn put_items(out: &mut Vec<u8>, items: &[PoolItem]) -> Put
    ensures { OnOk result (out.new.items ≡ out.old.items ++ flat_map file.pool_item items.now) }
{
    for item in items {
        put_item(out, item)?;
    }
    Ok(())
}

/// The constant pool with its count.
fn put_pool(out: &mut Vec<u8>, items: &[PoolItem]) -> Put
    ensures { OnOk result (out.new.items ≡ out.old.items ++ file.counted file.pool_item items.now) }
{
    put_count(out, items.len())?;
    put_items(out, items)
}

/// The symbols with their count.
fn put_symbols(out: &mut Vec<u8>, symbols: &[Bytes]) -> Put
    ensures { OnOk result (out.new.items ≡ out.old.items ++ file.counted file.text symbols.now) }
{
    put_count(out, symbols.len())?;
    put_texts(out, symbols)
}

/// What a record counts.
fn put_counts(out: &mut Vec<u8>, body: &Irep) -> Put
    ensures { OnOk result (out.new.items ≡ out.old.items ++ file.counts body.now) }
{
    put_u16(out, body.locals)?;
    put_u16(out, body.registers)?;
    put_count(out, body.children.len())?;
    put_count(out, body.catches.len())
}

/// A record without its size.
fn put_fields(out: &mut Vec<u8>, body: &Irep) -> Put
    ensures { OnOk result (out.new.items ≡ out.old.items ++ file.fields body.now) }
{
    put_counts(out, body)?;
    put_text(out, &body.code)?;
    put_entries(out, body.catches.as_slice())?;
    put_pool(out, body.pool.as_slice())?;
    put_symbols(out, body.symbols.as_slice())?;
    Ok(())
}

/// So many bytes more.
fn sum(len: usize, more: u32) -> Result<u32, AllocError>
    ensures { IfOk result (λ n. n ≡ len + more) }
{
    match u32::try_from(len) {
        Ok(len) => match len.checked_add(more) {
            Some(sum) => Ok(sum),
            None => Err(AllocError),
        },
        Err(_) => Err(AllocError),
    }
}

#[tactic(auto, unfolding(rite_file::specs::File::record_of))]
fn put_record(alloc: Global, out: &mut Vec<u8>, body: &Irep) -> Put
    ensures { OnOk result (out.new.items ≡ out.old.items ++ file.record_of body.now) }
{
    let mut fields = Vec::new(alloc);
    put_fields(&mut fields, body)?;
    put_u32(out, sum(fields.len(), 4)?)?;
    out.extend_from_slice(&fields)
}

/// The records of bodies.
fn put_records(alloc: Global, out: &mut Vec<u8>, bodies: &[Irep]) -> Put
    ensures { OnOk result (out.new.items ≡ out.old.items ++ flat_map file.record_of bodies.now) }
{
    for body in bodies {
        put_record(alloc, out, body)?;
    }
    Ok(())
}

/// A section with its size, which counts these bytes and eight more.
fn put_section(out: &mut Vec<u8>, name: &[u8], contents: &[u8]) -> Put
    ensures { OnOk result (out.new.items ≡ out.old.items ++ file.section name.now contents.now) }
{
    out.extend_from_slice(name)?;
    put_u32(out, sum(contents.len(), 8)?)?;
    out.extend_from_slice(contents)
}

/// What the section of the records has in it.
fn records(alloc: Global, bodies: &[Irep]) -> Result<Vec<u8>, AllocError>
    ensures { IfOk result (λ bytes. bytes.items ≡ codes "0300" ++ flat_map file.record_of bodies.now) }
{
    let mut out = Vec::new(alloc);
    out.extend_from_slice(b"0300")?;
    put_records(alloc, &mut out, bodies)?;
    Ok(out)
}

/// The sections of a file.
fn sections(alloc: Global, bodies: &[Irep]) -> Result<Vec<u8>, AllocError>
    ensures { IfOk result (λ bytes. bytes.items ≡ file.irep_section bodies.now ++ file.end_section) }
{
    let contents = records(alloc, bodies)?;
    let mut out = Vec::new(alloc);
    put_section(&mut out, b"IREP", &contents)?;
    put_section(&mut out, b"END\0", b"")?;
    Ok(out)
}

/// The file of bodies that stand depth first, as a program of version 2.
#[tactic(auto, unfolding(rite_file::specs::File::canonical))]
pub fn image(alloc: Global, bodies: &[Irep]) -> Result<Vec<u8>, AllocError>
    ensures { IfOk result (λ bytes. bytes.items ≡ file.canonical (program 2 bodies.now)) }
{
    let contents = sections(alloc, bodies)?;
    let mut out = Vec::new(alloc);
    out.extend_from_slice(b"RITE0300")?;
    put_u32(&mut out, sum(contents.len(), 20)?)?;
    out.extend_from_slice(b"RBWN0002")?;
    out.extend_from_slice(&contents)?;
    Ok(out)
}
