//! The code of every program goes on to its end: the machine is never stuck in it. There is no code here: the law binds
//! what code_laws shows of the code of a core, that it is whole and verified, to what machine_laws shows of every run of
//! such code.
#![tactic(auto)]

ghost use Rattle.std.specs.Prelude.{◌≡◌, ℕ, List, [], None, is_some, true};
ghost use Rattle.code_verifier.specs.Checks.{first_bad};
ghost use Rattle.def_machine.specs.Fits.{Fits};
ghost use Rattle.def_machine.specs.State.{Stuck, start};
ghost use Rattle.def_machine.specs.Turn.{turns};
ghost use Rattle.gen_forms.specs.Making.{coded_program};
ghost use Rattle.ir_core.specs.CoreForm.{Body};
ghost use Rattle.ir_core.specs.Program.{IsProgram};
ghost use Rattle.ir_counts.specs.Counts.{need};
ghost use Rattle.ir_counts.specs.Limits.{first_excess};
ghost use Rattle.rite_code.specs.Code.{program};
ghost use Rattle.run_laws.specs.Example as example;

use code_laws::{code_is_whole, laws_of_code};
use machine_laws::verified_code_is_never_stuck;

/// Of the core of a program none of whose counts is past its limit: in every run of its code, whatever the input, each
/// state fits, and none is the stuck one.
pub fn programs_are_never_stuck()
    ensures fits { (b : Body) (input : List ℕ) (n : ℕ) → IsProgram b → first_excess (need b) ≡ None
        → Fits (program 2 (coded_program b))
        (turns n (program 2 (coded_program b)) (start (program 2 (coded_program b)) input)) }
    ensures goes_on { (b : Body) (input : List ℕ) (n : ℕ) (out : List ℕ) → IsProgram b
        → first_excess (need b) ≡ None
        → turns n (program 2 (coded_program b)) (start (program 2 (coded_program b)) input) ≡ Stuck out → ⊥ }
{
    laws_of_code();
    code_is_whole();
    verified_code_is_never_stuck();
}

/// Code that isn't verified can be stuck: in a body without an instruction a check fails, and its first turn has none to
/// make.
#[tactic(auto, using(crate::proofs::Witness::empty_fails, crate::proofs::Witness::empty_is_stuck))]
pub fn unverified_code_can_be_stuck()
    ensures fails { is_some (first_bad example.empty) ≡ true }
    ensures stuck { turns 1 example.empty (start example.empty []) ≡ Stuck [] }
{}
