//! The first look at a file, which takes no memory.
ghost use Rattle.std.specs.Prelude.{◌≡◌, Ok};
ghost use Rattle.rite_file.specs.Front.{header_of, sections_of};

use crate::error::LoadError;
use crate::front::{Header, front_of, sized};
use crate::section_list::Sections;

/// The header of a file. It takes no memory, and never answers `NoMemory`.
///
/// `NotRite`: the bytes don't begin with `RITE0300`. `Truncated` at their length: they are fewer than 20 or than the
/// size in the header. `BadSection` at that size: they are more.
#[tactic(auto, unfolding(crate::specs::Front::header_of))]
pub fn header(bytes: &[u8]) -> Result<Header, LoadError>
    ensures { result ≡ header_of bytes.now }
{
    sized(bytes, front_of(bytes)?)
}

/// The sections of the file with this header, in order. They take no memory.
#[tactic(auto, unfolding(crate::specs::Front::header_of, crate::specs::Front::front_of, crate::specs::Front::sized))]
pub fn sections<'a>(bytes: &'a [u8], header: &Header) -> Sections<'a>
    requires { header_of bytes.now ≡ Ok header.now }
    ensures { result ≡ sections_of bytes.now }
{
    let size = header.size as usize;
    Sections::new(&bytes[..size])
}
