//! The header of a file and its sections.
ghost use Rattle.std.specs.Prelude.{◌≡◌, ◌<◌, ◌≤◌, ◌+◌, length, take, drop, Result, IfOk};
ghost use Rattle.rite_file.specs.Front as specs;

use crate::error::LoadError;

/// What the first 20 bytes of a file say.
#[derive(Clone, Copy, Debug, PartialEq, Eq)]
pub struct Header {
    /// The size of the whole file in bytes.
    pub size: u32,
    /// The name of the compiler.
    pub name: [u8; 4],
    /// The version of the compiler.
    pub version: [u8; 4],
}

/// A section of a file.
#[derive(Clone, Copy, Debug, PartialEq, Eq)]
pub struct Section {
    pub id: [u8; 4],
    /// Where its identifier begins.
    pub at: u32,
    /// Its size in bytes, with the eight of identifier and size.
    pub size: u32,
}

/// The bytes before the first section.
pub const HEADER_SIZE: usize = 20;

/// So many bytes at a place.
pub fn array_at<const N: usize>(bytes: &[u8], at: usize) -> [u8; N]
    requires { at + N ≤ length bytes.now }
    ensures { result ≡ take N (drop at bytes.now) }
{
    let mut array = [0; N];
    array.copy_from_slice(&bytes[at..at + N]);
    array
}

/// What the first 20 bytes say, whatever the file's size is.
#[tactic(auto, unfolding(crate::specs::Front::front_of, crate::specs::Front::four_at))]
pub fn front_of(bytes: &[u8]) -> Result<Header, LoadError>
    ensures value { result ≡ specs.front_of bytes.now }
    ensures long { IfOk result (λ _. 20 ≤ length bytes.now) }
{
    if !bytes.starts_with(b"RITE0300") {
        return Err(LoadError::NotRite);
    }
    if bytes.len() < HEADER_SIZE {
        let at = bytes.len() as u64;
        return Err(LoadError::Truncated { at });
    }
    Ok(Header {
        size: u32::from_be_bytes(array_at(bytes, 8)),
        name: array_at(bytes, 12),
        version: array_at(bytes, 16),
    })
}

/// The header, where its size is that of the bytes.
#[tactic(auto, unfolding(crate::specs::Front::sized))]
pub fn sized(bytes: &[u8], header: Header) -> Result<Header, LoadError>
    ensures value { result ≡ specs.sized bytes.now header }
    ensures size { IfOk result (λ _. length bytes.now ≡ header.size) }
{
    if bytes.len() < header.size as usize {
        let at = bytes.len() as u64;
        return Err(LoadError::Truncated { at });
    }
    if bytes.len() > header.size as usize {
        let at = u64::from(header.size);
        return Err(LoadError::BadSection { at });
    }
    Ok(header)
}
