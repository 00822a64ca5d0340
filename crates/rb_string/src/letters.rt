//! Small and capital letters of ASCII, and the bytes in reverse (ISO/IEC 30170:2012, 15.2.10).
ghost use Rattle.std.specs.Prelude.{◌≡◌, reverse, IfOk};
ghost use Rattle.rb_string.specs.Letters as texts;

use rb_base::Bytes;
use std::alloc::{AllocError, Global};

/// `text.upcase`: each small letter as the capital one.
pub fn upcased(alloc: Global, text: &[u8]) -> Result<Bytes, AllocError>
    ensures { IfOk result (λ bytes. bytes ≡ texts.upcased text.now) }
{
    let bytes = text
        .iter()
        .map(|byte| byte.to_ascii_uppercase())
        .collect(alloc)?;
    Ok(Bytes::from_vec(bytes))
}

/// The bytes with each capital letter as the small one.
fn small_letters(alloc: Global, text: &[u8]) -> Result<Vec<u8>, AllocError>
    ensures { IfOk result (λ bytes. bytes.items ≡ texts.downcased text.now) }
{
    text.iter()
        .map(|byte| byte.to_ascii_lowercase())
        .collect(alloc)
}

/// `text.downcase`: each capital letter as the small one.
pub fn downcased(alloc: Global, text: &[u8]) -> Result<Bytes, AllocError>
    ensures { IfOk result (λ bytes. bytes ≡ texts.downcased text.now) }
{
    Ok(Bytes::from_vec(small_letters(alloc, text)?))
}

/// `text.capitalize`: the first byte as in `upcase`, all others as in `downcase`.
pub fn capitalized(alloc: Global, text: &[u8]) -> Result<Bytes, AllocError>
    ensures { IfOk result (λ bytes. bytes ≡ texts.capitalized text.now) }
{
    let mut bytes = small_letters(alloc, text)?;
    if !text.is_empty() {
        bytes[0] = text[0].to_ascii_uppercase();
    }
    Ok(Bytes::from_vec(bytes))
}

/// A small letter as the capital one, and a capital letter as the small one.
fn swapped_byte(byte: u8) -> u8
    ensures { result ≡ texts.swapped_byte byte }
{
    if byte.is_ascii_lowercase() {
        byte.to_ascii_uppercase()
    } else {
        byte.to_ascii_lowercase()
    }
}

/// `text.swapcase`: each small letter as the capital one, and each capital letter as the small one.
pub fn swapped(alloc: Global, text: &[u8]) -> Result<Bytes, AllocError>
    ensures { IfOk result (λ bytes. bytes ≡ texts.swapped text.now) }
{
    let bytes = text.iter().map(|byte| swapped_byte(*byte)).collect(alloc)?;
    Ok(Bytes::from_vec(bytes))
}

/// `text.reverse`: the bytes from the last to the first.
pub fn reversed(alloc: Global, text: &[u8]) -> Result<Bytes, AllocError>
    ensures { IfOk result (λ bytes. bytes ≡ reverse text.now) }
{
    let mut bytes = Vec::from_slice(alloc, text)?;
    bytes.reverse();
    Ok(Bytes::from_vec(bytes))
}
