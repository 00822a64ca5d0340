//! The compiler, from text to code.
//!
//! Type: [`CompileError`]. Call: [`compile`]. Law: [`laws_of_refusals`].
#![tactic(auto)]

ghost use Rattle.std.specs.Prelude.{◌≡◌, ◌<◌, ◌^◌, Some, length, IfOk, IfErr, MatchOption};
ghost use Rattle.path_core.specs.Form.{Form};
ghost use Rattle.ir_core.specs.View.{body_view};
ghost use Rattle.rb_front.specs.Front.{core_of};
ghost use Rattle.rite_file.specs.File.{canonical};
ghost use Rattle.code_verifier.specs.Verified.{IsVerified};
ghost use Rattle.rite_code.specs.Code.{IsWhole};
ghost use Rattle.code_generator.specs.Implements.{Implements};
ghost use Rattle.rb_compile.specs.Language.{program_of};
ghost use Rattle.rb_compile.specs.Compiled.{IsCodeOf, Refuses};
ghost use Rattle.rb_compile.specs.Causes.{OneCause, NoProgram};
ghost use Rattle.rb_compile.specs.declared.error.CompileError.TheVariants.{NoMemory};

pub mod error;

use code_generator::generate;
pub use error::CompileError;
use ir_core::Program;
use ir_counts::first_past_limit;
use rb_front::read;
use rb_syntax::Outside;
use rite_code::Code;
use std::alloc::Global;

/// The core of the text.
fn read_core(alloc: Global, text: &[u8]) -> Result<Program, CompileError>
    ensures core { IfOk result (λ c. core_of text.now ≡ Some (body_view c)) }
    ensures refused { IfErr result (Refuses text.now) }
{
    let core = read(alloc, text)?;
    Ok(core)
}

/// The code of the core of the text, where the generator builds it and no count exceeds its limit.
#[tactic(auto, using(crate::proofs::Coded::refused_unbuilt))]
fn generate_code(alloc: Global, text: &[u8], core: &Program) -> Result<Code, CompileError>
    requires { core_of text.now ≡ Some (body_view core.now) }
    ensures code { IfOk result (λ code. IsCodeOf code (program_of text.now)) }
    ensures refused { IfErr result (Refuses text.now) }
{
    let Some(code) = generate(alloc, core)? else {
        return Err(CompileError::Outside {
            what: Outside::Unbuilt,
            at: 0,
        });
    };
    match first_past_limit(alloc, core)? {
        Some(excess) => Err(CompileError::TooLarge {
            what: excess.what,
            count: excess.count,
        }),
        None => Ok(code),
    }
}

/// Code of version 2 that implements the source, in which no check of the verifier fails and whose file has a size.
///
/// Each refusal comes exactly where its cause is the first in this order. `TooLarge` of the source: the text has more
/// than 16,777,216 bytes, whatever they are. `Syntax`: it has no tokens. `TooDeep`: these are more than 256 deep.
/// `Syntax`: they have no tree, or a word stands where it may not. `Outside`: the tree has a construct outside the
/// language; the one with the least place is told. `Outside` with `Unbuilt` at 0: the generator doesn't build the core.
/// `TooLarge` of a count: the first that exceeds its limit. A text that has a program is compiled, unless memory runs
/// out.
#[tactic(auto, using(crate::proofs::Causes::only_memory))]
pub fn compile(alloc: Global, text: &[u8]) -> Result<Code, CompileError>
    ensures implements { IfOk result (λ code. MatchOption (program_of text.now) ⊥ (Implements code)) }
    ensures whole { IfOk result IsWhole }
    ensures version { IfOk result (λ code. code.version ≡ 2) }
    ensures verified { IfOk result IsVerified }
    ensures fits { IfOk result (λ code. length (canonical code) < 2 ^ 32) }
    ensures refused { IfErr result (Refuses text.now) }
    ensures complete { (f : Form) → program_of text.now ≡ Some f → IfErr result (λ e. e ≡ NoMemory) }
{
    let core = read_core(alloc, text)?;
    let code = generate_code(alloc, text, &core)?;
    Ok(code)
}

/// Memory aside, a text is refused for one cause, and one that is refused has no program.
pub fn laws_of_refusals()
    ensures one_cause { OneCause }
    ensures no_program { NoProgram }
{}
