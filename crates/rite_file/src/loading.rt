//! The checks of a whole file, in their order.
ghost use Rattle.std.specs.Prelude.{◌≡◌, ◌≤◌, ◌<◌, ◌^◌, ◌+◌, None, length, codes, IfOk};
ghost use Rattle.std.specs.Str.{bytes_eq};
ghost use Rattle.rite_file.specs.Front as front;
ghost use Rattle.rite_file.specs.Gives.{Gives};
ghost use Rattle.rite_file.specs.Loaded as specs;

use crate::error::LoadError;
use crate::front::{Header, Section, front_of, sized};
use crate::reading::bad;
use crate::records::{Record, records_at};
use crate::section_list::Sections;
use rb_base::List;
use std::alloc::Global;

/// The version of the programs of a header's compiler. `Foreign`: it is another compiler.
#[tactic(auto, unfolding(crate::specs::Front::version_of))]
pub fn version_of(header: &Header) -> Result<u8, LoadError>
    ensures { result ≡ front.version_of header.now }
{
    let name = header.name;
    if name != *b"RBWN" {
        return Err(LoadError::Foreign { name });
    }
    if header.version == *b"0001" {
        return Ok(1);
    }
    if header.version == *b"0002" {
        return Ok(2);
    }
    Err(LoadError::Foreign { name })
}

#[tactic(auto, unfolding(crate::specs::Loaded::is_skipped))]
fn is_skipped(section: &Section) -> bool
    ensures { result ≡ specs.is_skipped section.now }
{
    section.id == *b"DBG\0" || section.id == *b"LVAR"
}

#[tactic(auto, unfolding(crate::specs::Front::four_at))]
fn has_version(bytes: &[u8], at: usize) -> bool
    ensures { result ≡ bytes_eq (front.four_at bytes.now at) (codes "0300") }
{
    match bytes.get(at..) {
        None => false,
        Some(rest) => rest.starts_with(b"0300"),
    }
}

#[tactic(auto, unfolding(crate::specs::Loaded::is_irep))]
fn is_irep(bytes: &[u8], section: &Section) -> bool
    ensures { result ≡ specs.is_irep bytes.now section.now }
{
    section.id == *b"IREP" && section.size >= 12 && has_version(bytes, section.at as usize + 8)
}

#[tactic(auto, unfolding(crate::specs::Loaded::is_end))]
fn is_end(bytes: &[u8], section: &Section) -> bool
    ensures { result ≡ specs.is_end bytes.now section.now }
{
    section.id == *b"END\0" && section.size == 8 && section.at as usize + 8 == bytes.len()
}

/// What a section that is wrong answers.
fn bad_section(section: &Section) -> LoadError
    ensures { result ≡ LoadError.BadSection section.now.at }
{
    LoadError::BadSection {
        at: u64::from(section.at),
    }
}

/// The section of the records, where the others are sections to skip and the last one.
pub fn irep_in(bytes: &[u8]) -> Result<Section, LoadError>
    requires long { 20 ≤ length bytes.now }
    requires small { length bytes.now < 2 ^ 32 }
    ensures { result ≡ specs.irep_in bytes.now None (front.sections_of bytes.now) }
{
    let mut sections = Sections::new(bytes);
    let mut found = None;
    'sections: while let Some(next) = sections.next() {
        let section = next?;
        if !is_skipped(&section) {
            match found {
                None => {
                    if !is_irep(bytes, &section) {
                        return Err(bad_section(&section));
                    }
                    found = Some(section);
                }
                Some(irep) => {
                    if !is_end(bytes, &section) {
                        return Err(bad_section(&section));
                    }
                    return Ok(irep);
                }
            }
        }
    }
    let at = bytes.len() as u64;
    Err(LoadError::BadSection { at })
}

/// The version of the program and the section of its records, where the header and all sections are right.
#[tactic(auto, unfolding(crate::specs::Loaded::checked))]
pub fn checked(bytes: &[u8]) -> Result<(u8, Section), LoadError>
    ensures value { result ≡ specs.checked bytes.now }
    ensures long { IfOk result (λ x. 12 ≤ x.1.size) }
    ensures within { IfOk result (λ x. x.1.at + x.1.size ≤ length bytes.now) }
{
    let header = front_of(bytes)?;
    let version = version_of(&header)?;
    sized(bytes, header)?;
    let section = irep_in(bytes)?;
    Ok((version, section))
}

/// The records of a section: they end where it ends.
#[tactic(auto, unfolding(crate::specs::Loaded::records_in))]
pub fn records_in(
    alloc: Global,
    version: u8,
    bytes: &[u8],
    section: &Section,
) -> Result<List<Record>, LoadError>
    requires long { 12 ≤ section.now.size }
    requires within { section.now.at + section.now.size ≤ length bytes.now }
    ensures { Gives result (specs.records_in version bytes.now section.now) }
{
    let start = section.at as usize;
    let end = start + section.size as usize;
    let inside = &bytes[..end];
    let (records, next) = records_at(alloc, version, inside, start + 12)?;
    if next != inside.len() {
        return Err(bad(next));
    }
    Ok(records)
}
