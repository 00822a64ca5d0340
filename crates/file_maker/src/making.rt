//! The file of a source.
ghost use Rattle.std.specs.Prelude.{◌≡◌, Some, None, IfOk};
ghost use Rattle.ir_core.specs.CoreForm.{Body};
ghost use Rattle.ir_core.specs.Program.{IsProgram};
ghost use Rattle.ir_core.specs.View.{body_view};
ghost use Rattle.ir_counts.specs.Counts.{need};
ghost use Rattle.ir_counts.specs.Limits.{first_excess};
ghost use Rattle.code_generator.specs.Built.{code_built};
ghost use Rattle.rb_front.specs.Front.{core_of};
ghost use Rattle.file_maker.specs.Making.{IsMade, IsMadeOf, HasFile};

use crate::made::Made;
use code_generator::generate;
use code_laws::{code_fits_a_file, code_is_whole, laws_of_code};
use code_verifier::Verified;
use gen_forms::main_code;
use ir_core::Program;
use ir_counts::first_past_limit;
use rb_front::{FrontError, read};
use rb_refusal::Refusal;
use rite_code::Code;
use rite_file::{files_spell_programs, write};
use std::alloc::{AllocError, Global};
use step_laws::plain_programs_are_implemented;

/// The file of the core of a program whose counts are within their limits. By the laws its code is whole and verified, so
/// that neither is tested here, its file is short enough, and it implements a source of plain forms for every input.
fn file_of_core(alloc: Global, core: &Program) -> Result<Made, AllocError>
    requires unbuilt { code_built (body_view core.now) ≡ None }
    requires within { first_excess (need (body_view core.now)) ≡ None }
    requires program { IsProgram (body_view core.now) }
    ensures { IfOk result (HasFile (body_view core.now)) }
{
    code_is_whole();
    laws_of_code();
    code_fits_a_file();
    files_spell_programs();
    plain_programs_are_implemented();
    let code = Code::new(2, main_code(alloc, core)?);
    let bytes = write(alloc, &code)?;
    Ok(Made::File(bytes, Verified::new(code)))
}

/// What becomes of the core of a program.
fn make_of_core(alloc: Global, core: &Program) -> Result<Made, AllocError>
    requires { IsProgram (body_view core.now) }
    ensures made { IfOk result (IsMadeOf (body_view core.now)) }
    ensures complete { code_built (body_view core.now) ≡ None → first_excess (need (body_view core.now)) ≡ None
        → IfOk result (HasFile (body_view core.now)) }
{
    if generate(alloc, core)?.is_some() {
        return Ok(Made::FirstPath);
    }
    match first_past_limit(alloc, core)? {
        Some(excess) => Ok(Made::Refused(Refusal::TooLarge {
            what: excess.what,
            count: excess.count,
        })),
        None => file_of_core(alloc, core),
    }
}

/// What becomes of the text of a source. One that the front refuses goes the first path, which tells of it, and so does
/// one that has no form beyond those of that path. It is refused exactly for the first count past its limit: else it has
/// its file. The code in the file of a program of plain forms (specs/Plain of step_laws) implements its source for every
/// input. The error is that memory ran out.
#[tactic(auto, using(crate::proofs::Refused::refused_has_none))]
pub fn make_file(alloc: Global, text: &[u8]) -> Result<Made, AllocError>
    ensures made { IfOk result (IsMade text.now) }
    ensures complete { (c : Body) → core_of text.now ≡ Some c → code_built c ≡ None → first_excess (need c) ≡ None
        → IfOk result (HasFile c) }
{
    match read(alloc, text) {
        Ok(core) => make_of_core(alloc, &core),
        Err(FrontError::NoMemory) => Err(AllocError),
        Err(_) => Ok(Made::FirstPath),
    }
}
