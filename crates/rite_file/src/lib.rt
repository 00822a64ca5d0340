//! Files of programs: reading and writing them whole (docs/formats.md).
//!
//! Types: [`Header`], [`Section`], [`Sections`], [`LoadError`]. Calls: [`header`], [`sections`], [`load`], [`write`].
#![tactic(auto)]

ghost use Rattle.std.specs.Prelude.{◌≡◌, ◌<◌, ◌^◌, ℕ, List, All, length, Ok, Result, IfOk};
ghost use Rattle.rite_code.specs.Code.{Program, IsWhole};
ghost use Rattle.rite_file.specs.File.{IsHeld, Spells, canonical};
ghost use Rattle.rite_file.specs.Gives.{Gives};
ghost use Rattle.rite_file.specs.Loaded.{loaded};

pub mod counts;
mod distinct;
pub mod error;
pub mod front;
mod lists;
mod loading;
mod numbering;
mod opening;
pub mod reading;
pub mod records;
pub mod section_list;
mod writing;

use crate::loading::{checked, records_in};
use crate::numbering::numbered;
use crate::writing::{END, put_front, put_records};
pub use error::LoadError;
pub use front::{Header, Section};
pub use opening::{header, sections};
use rite_code::Code;
pub use section_list::Sections;
use std::alloc::{AllocError, Global};

/// The program of a file (docs/formats.md). Without `NoMemory` the answer is that of the first check that fails:
///
/// - `NotRite`, `Truncated` at the file's length, `BadSection` at the size that the header has: as [`header`], but that
///   `Foreign` comes before a wrong size. `Foreign`: the compiler isn't `RBWN` of version `0001` or `0002`.
/// - `BadSection`: the first section that doesn't fit as in [`Sections::next`], or that is neither one to skip (`DBG`,
///   `LVAR`), nor the one `IREP` of at least 12 bytes and version `0300`, nor the empty `END` after it, at the end of
///   the file; or the end of the file, where `END` is missing.
/// - `BadRecord`: the first field of the records that passes the end of their section or is wrong.
pub fn load(alloc: Global, bytes: &[u8]) -> Result<Code, LoadError>
    ensures exact { Gives result (loaded bytes.now) }
    ensures spelled { IfOk result (λ code. Spells bytes.now code) }
    ensures small { IfOk result (λ code. length (canonical code) < 2 ^ 32) }
    ensures only { (p : Program) → IsWhole p → Spells bytes.now p → Gives result (Ok p) }
{
    let (version, section) = checked(bytes)?;
    let records = records_in(alloc, version, bytes, &section)?;
    let bodies = numbered(alloc, records)?;
    Ok(Code::new(version, bodies))
}

/// At most one program is spelled by a file; the file of a program spells it, and it is loaded from there. Each number
/// of the program is to fit its field, as those of every [`Code`] do.
pub fn files_spell_programs()
    ensures one { (bytes : List ℕ) (p q : Program) → IsWhole p → IsWhole q → Spells bytes p → Spells bytes q → p ≡ q }
    ensures canonical { (p : Program) → All IsHeld p.bodies → length (canonical p) < 2 ^ 32 → Spells (canonical p) p }
    ensures again { (bytes : List ℕ) (p : Program) → IsWhole p → Spells bytes p → loaded bytes ≡ Ok p }
{}

/// The one file of the program without sections to skip. It is a file that [`load`] takes.
pub fn write(alloc: Global, code: &Code) -> Result<Vec<u8>, AllocError>
    requires { length (canonical code.now) < 2 ^ 32 }
    ensures value { IfOk result (λ bytes. bytes.items ≡ canonical code.now) }
    ensures spelled { IfOk result (λ bytes. Spells bytes.items code.now) }
{
    let version = code.version();
    let mut records = Vec::new(alloc);
    put_records(alloc, &mut records, version, code.bodies())?;
    let mut out = Vec::new(alloc);
    put_front(&mut out, version, records.len() as u32)?;
    out.extend_from_slice(&records)?;
    out.extend_from_slice(&END)?;
    Ok(out)
}
