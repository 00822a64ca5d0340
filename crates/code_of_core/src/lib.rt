//! The code of a core: the generator's bodies as a program that a file can hold.
//!
//! The bodies are put into the form of a file (docs/formats.md) and read from there, which tests that they are whole: that
//! each count fits its field, that nothing stands twice in a pool or among the symbols, and that the bodies are one
//! tree. Whether an instruction is fit for the machine is the verifier's to say.
//!
//! Calls: [`generate`], [`file_of`], [`code_of_bodies`].
#![tactic(auto)]

ghost use Rattle.std.specs.Prelude.{◌≡◌, IfOk};
ghost use Rattle.ir_core.specs.View.{body_view};
ghost use Rattle.rite_code.specs.Code.{program as of_bodies};
ghost use Rattle.rite_file.specs.File.{canonical, Spells};
ghost use Rattle.gen_forms.specs.Making.{coded_program};

mod image;

use crate::image::image;
use gen_forms::main_code;
use ir_core::Program;
use rite_code::{Code, Irep};
use rite_file::load;
use std::alloc::{AllocError, Global};

/// The code of a file that is to hold a program of version 2.
fn loaded(alloc: Global, file: &[u8]) -> Result<Code, AllocError>
    ensures version { IfOk result (λ code. code.version ≡ 2) }
    ensures spelled { IfOk result (λ code. Spells file.now code) }
{
    match load(alloc, file) {
        Ok(code) => {
            if code.version() == 2 {
                Ok(code)
            } else {
                Err(AllocError)
            }
        }
        Err(_) => Err(AllocError),
    }
}

/// The code of bodies that stand depth first, of version 2. It fails as [`generate`] does.
pub fn code_of_bodies(alloc: Global, bodies: &[Irep]) -> Result<Code, AllocError>
    ensures version { IfOk result (λ code. code.version ≡ 2) }
    ensures spelled { IfOk result (λ code. Spells (canonical (of_bodies 2 bodies.now)) code) }
{
    let file = image(alloc, bodies)?;
    loaded(alloc, &file)
}

/// The bytes of the file of a program. It fails as [`generate`] does.
pub fn file_of(alloc: Global, program: &Program) -> Result<Vec<u8>, AllocError>
    ensures { IfOk result (λ bytes. bytes.items ≡
        canonical (of_bodies 2 (coded_program (body_view program.now)))) }
{
    let bodies = main_code(alloc, program)?;
    image(alloc, bodies.as_slice())
}

/// The code of a program, of version 2. It fails where memory runs out, and answers so too where a count of the program
/// is past what a file can say: the limits of docs/core.md are to be tested before.
pub fn generate(alloc: Global, program: &Program) -> Result<Code, AllocError>
    ensures version { IfOk result (λ code. code.version ≡ 2) }
    ensures spelled { IfOk result (λ code. Spells
        (canonical (of_bodies 2 (coded_program (body_view program.now)))) code) }
{
    let bodies = main_code(alloc, program)?;
    code_of_bodies(alloc, bodies.as_slice())
}
