//! The fields of a record: from bytes and a place to a value and the place after it.
ghost use Rattle.std.specs.Prelude.{◌≡◌, ◌≤◌, ◌+◌, ◌-◌, length, not, nat_lt, IfOk};
ghost use Rattle.std.specs.Int.{w8, w16, w32};
ghost use Rattle.rite_file.specs.Gives.{Gives};
ghost use Rattle.rite_file.specs.Record as specs;

use crate::error::LoadError;
use crate::front::array_at;
use rb_base::Bytes;
use std::alloc::Global;

/// What a field at a place that is wrong answers.
pub fn bad(at: usize) -> LoadError
    ensures { result ≡ LoadError.BadRecord at }
{
    LoadError::BadRecord { at: at as u64 }
}

/// The place after so many bytes.
fn end_of(bytes: &[u8], at: usize, n: usize) -> Result<usize, LoadError>
    requires { at ≤ length bytes.now }
    ensures value { result ≡ specs.guarded (not (nat_lt (length bytes.now - at) n)) at (at + n) }
    ensures within { IfOk result (λ end. end ≤ length bytes.now) }
{
    if bytes.len() - at < n {
        return Err(bad(at));
    }
    Ok(at + n)
}

#[tactic(auto, unfolding(crate::specs::Record::number_at, crate::specs::Record::bytes_at))]
pub fn u8_at(bytes: &[u8], at: usize) -> Result<(u8, usize), LoadError>
    requires { at ≤ length bytes.now }
    ensures value { result ≡ specs.number_at w8 bytes.now at }
    ensures within { IfOk result (λ x. x.1 ≤ length bytes.now) }
{
    let end = end_of(bytes, at, 1)?;
    Ok((u8::from_be_bytes(array_at(bytes, at)), end))
}

#[tactic(auto, unfolding(crate::specs::Record::number_at, crate::specs::Record::bytes_at))]
pub fn u16_at(bytes: &[u8], at: usize) -> Result<(u16, usize), LoadError>
    requires { at ≤ length bytes.now }
    ensures value { result ≡ specs.number_at w16 bytes.now at }
    ensures within { IfOk result (λ x. x.1 ≤ length bytes.now) }
{
    let end = end_of(bytes, at, 2)?;
    Ok((u16::from_be_bytes(array_at(bytes, at)), end))
}

#[tactic(auto, unfolding(crate::specs::Record::number_at, crate::specs::Record::bytes_at))]
pub fn u32_at(bytes: &[u8], at: usize) -> Result<(u32, usize), LoadError>
    requires { at ≤ length bytes.now }
    ensures value { result ≡ specs.number_at w32 bytes.now at }
    ensures within { IfOk result (λ x. x.1 ≤ length bytes.now) }
{
    let end = end_of(bytes, at, 4)?;
    Ok((u32::from_be_bytes(array_at(bytes, at)), end))
}

#[tactic(auto, unfolding(crate::specs::Record::number_at, crate::specs::Record::bytes_at, crate::specs::Record::int_at))]
pub fn i64_at(bytes: &[u8], at: usize) -> Result<(i64, usize), LoadError>
    requires { at ≤ length bytes.now }
    ensures value { result ≡ specs.int_at bytes.now at }
    ensures within { IfOk result (λ x. x.1 ≤ length bytes.now) }
{
    let end = end_of(bytes, at, 8)?;
    Ok((i64::from_be_bytes(array_at(bytes, at)), end))
}

/// A length in four bytes, and that many bytes.
#[tactic(auto, unfolding(crate::specs::Record::text_at, crate::specs::Record::bytes_at))]
pub fn text_at(alloc: Global, bytes: &[u8], at: usize) -> Result<(Bytes, usize), LoadError>
    requires { at ≤ length bytes.now }
    ensures value { Gives result (specs.text_at bytes.now at) }
    ensures within { IfOk result (λ x. x.1 ≤ length bytes.now) }
{
    let (len, start) = u32_at(bytes, at)?;
    let end = end_of(bytes, start, len as usize)?;
    let text = Bytes::from_slice(alloc, &bytes[start..end])?;
    Ok((text, end))
}
