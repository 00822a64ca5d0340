//! How keys are hashed.
ghost use Rattle.std.specs.Prelude.{◌≡◌, length};
ghost use Rattle.pair_table.specs.Hashing as hashing;

use std::hash::{FoldHasher, Hasher};

/// An odd number near 2^64 by the golden ratio, by which neighbours come far apart.
const SPREAD: u64 = 0x9e37_79b9_7f4a_7c15;

/// A hash by which two numbers one after another have one place, and those after them the next, so that Integers and
/// Symbols that are near one another are found in the same lines of the processor's cache; their tags are far apart. Numbers
/// are what is written by eight bytes; all else, such as the bytes of a text, is hashed by the standard library.
#[derive(Clone, Copy)]
pub struct NearHasher {
    near: u64,
}

impl Default for NearHasher {
    ghost is_default = { λ h. h ≡ hashing.initial };

    fn default() -> NearHasher {
        NearHasher { near: 0 }
    }
}

/// The number that eight bytes are, the lowest first.
#[inline(always)]
fn number_of(bytes: &[u8]) -> u64
    requires { length bytes.now ≡ 8 }
    ensures { result ≡ hashing.number_of bytes.now }
{
    u64::from_le_bytes([
        bytes[0], bytes[1], bytes[2], bytes[3], bytes[4], bytes[5], bytes[6], bytes[7],
    ])
}

/// What the standard library makes of other bytes.
fn others(bytes: &[u8]) -> u64
    ensures { result ≡ hashing.others bytes.now }
{
    let mut hasher = FoldHasher::default();
    hasher.write(bytes);
    hasher.finish()
}

/// A place in which the higher bits tell, too, so that numbers a power of two apart have places of their own.
#[inline(always)]
fn folded(place: u64) -> u64
    ensures { result ≡ hashing.folded place }
{
    let nine = place ^ place >> 9;
    let more = nine ^ nine >> 18;
    more ^ more >> 36
}

impl Hasher for NearHasher {
    ghost write = { hashing.write };

    ghost finish = { hashing.finish };

    #[inline(always)]
    fn finish(&self) -> u64 {
        let tag = self.near.wrapping_mul(SPREAD) >> 56 << 24;
        tag + folded(self.near >> 1) % 0x100_0000
    }

    #[inline(always)]
    fn write(&mut self, bytes: &[u8]) {
        let number = if bytes.len() == 8 {
            number_of(bytes)
        } else {
            others(bytes)
        };
        self.near = self.near.wrapping_mul(SPREAD).wrapping_add(number);
    }
}
