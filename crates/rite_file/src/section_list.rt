//! The sections of a file, one after the other.
ghost use Rattle.std.specs.Prelude.{◌≡◌, ◌<◌, ◌≤◌, ◌^◌, ◌+◌, List, length, drop, slice_get, Result, IfSome, if◌then◌else◌};
ghost use Rattle.rite_file.specs.Front.{sections_of};
ghost use Rattle.rite_file.specs.Front as specs;

use crate::error::LoadError;
use crate::front::{HEADER_SIZE, Section, array_at};
use std::marker::Model;

/// The sections of a file from a place on, seen as what [`Sections::next`] will answer.
#[derive(Debug, Drop)]
pub struct Sections<'a> {
    bytes: &'a [u8],
    at: usize,
}

impl<'a> Model for Sections<'a> {
    ghost use Rattle.std.specs.Prelude.{◌<◌, ◌≤◌, ◌^◌, List, length, Result};
    ghost use Rattle.rite_file.specs.declared.error.LoadError.{LoadError};
    ghost use Rattle.rite_file.specs.declared.front.Section.{Section};
    ghost use Rattle.rite_file.specs.Front.{sections_from};

    ghost Value = { List (Result Section LoadError) };

    ghost view = { λ s. sections_from (length s.bytes.now) s.bytes.now s.at };

    ghost invariant = { λ s. (length s.bytes.now < 2 ^ 32) × (s.at ≤ length s.bytes.now) };
}

/// The section at a place, where it fits there.
#[tactic(auto, unfolding(crate::specs::Front::fits_at, crate::specs::Front::section_at, crate::specs::Front::four_at))]
fn section_at(bytes: &[u8], at: usize) -> Option<Section>
    requires small { length bytes.now < 2 ^ 32 }
    requires within { at ≤ length bytes.now }
    ensures value { result ≡ (if specs.fits_at bytes.now at then Some (specs.section_at bytes.now at) else None) }
    ensures fits { IfSome result (λ s. at + s.size ≤ length bytes.now) }
{
    let left = bytes.len() - at;
    if left < 8 {
        return None;
    }
    let size = u32::from_be_bytes(array_at(bytes, at + 4));
    if size < 8 {
        return None;
    }
    if left < size as usize {
        return None;
    }
    Some(Section {
        id: array_at(bytes, at),
        at: at as u32,
        size,
    })
}

impl<'a> Sections<'a> {
    /// The sections after the header of the bytes.
    #[tactic(auto, unfolding(crate::specs::Front::sections_of))]
    pub fn new(bytes: &'a [u8]) -> Sections<'a>
        requires long { 20 ≤ length bytes.now }
        requires small { length bytes.now < 2 ^ 32 }
        ensures { result ≡ sections_of bytes.now }
    {
        Sections {
            bytes,
            at: HEADER_SIZE,
        }
    }

    /// The next section, or `BadSection` at its place where it doesn't fit: fewer than eight bytes are left, or its
    /// size is below 8 or passes the end. After such a section there is none.
    #[tactic(auto, using(crate::proofs::SectionSteps::nothing_left, crate::proofs::SectionSteps::goes_on, crate::proofs::SectionSteps::stops))]
    pub fn next(&mut self) -> Option<Result<Section, LoadError>>
        ensures value { result ≡ slice_get self.old 0 }
        ensures rest { self.new ≡ drop 1 self.old }
    {
        if self.at == self.bytes.len() {
            return None;
        }
        let at = self.at;
        match section_at(self.bytes, at) {
            None => {
                self.at = self.bytes.len();
                Some(Err(LoadError::BadSection { at: at as u64 }))
            }
            Some(section) => {
                self.at = at + section.size as usize;
                Some(Ok(section))
            }
        }
    }
}
