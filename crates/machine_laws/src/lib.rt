//! A turn of verified code keeps what fits, and is never stuck. There is no code here: the laws bind the state and the
//! turn of def_machine to what the verifier shows (code_verifier, code_instructions) and to what every outcome keeps
//! (world_laws).
//!
//! - `def_machine::specs::Fits`: a state that fits. Each number in it is of what it has to be: places are starts of
//!   instructions, registers hold what is of the store, exits lead to activations that are under way, lists of
//!   registers are those of their bodies, waiting fibers have a level, and the names of the code are symbols
//!
//! `Stuck` doesn't fit, so no run of verified code comes to it.
#![tactic(auto)]

ghost use Rattle.std.specs.Prelude.{◌≡◌, ℕ, List, ◌∷◌};
ghost use Rattle.code_verifier.specs.Verified.{IsVerified};
ghost use Rattle.def_machine.specs.Fits.{Fits};
ghost use Rattle.def_machine.specs.State.{Frame, Level, Memory, On, State, Stuck, frame, start};
ghost use Rattle.def_machine.specs.Turn.{turn, turns};
ghost use Rattle.machine_laws.specs.Standing.{StandsAt, StandsAtIndex};
ghost use Rattle.rite_code.specs.Code.{IsWhole, Program};

/// A turn of a whole and verified program leaves a state that fits where it was in one, and so do any number of turns.
#[tactic(auto, using(crate::proofs::Laws::turn_keeps, crate::proofs::Laws::turns_keep))]
pub fn laws_of_turns()
    ensures one { (p : Program) (s : State) → IsWhole p → IsVerified p → Fits p s → Fits p (turn p s) }
    ensures many { (p : Program) (n : ℕ) (s : State) → IsWhole p → IsVerified p → Fits p s → Fits p (turns n p s) }
{}

/// Every state of a run of a whole and verified program fits, from its start on, whatever its input; so none is stuck.
#[tactic(auto, using(crate::proofs::Laws::run_fits, crate::proofs::Laws::never_stuck))]
pub fn verified_code_is_never_stuck()
    ensures fits { (p : Program) (input : List ℕ) (n : ℕ) → IsWhole p → IsVerified p
        → Fits p (turns n p (start p input)) }
    ensures goes_on { (p : Program) (input : List ℕ) (n : ℕ) (out : List ℕ) → IsWhole p → IsVerified p
        → turns n p (start p input) ≡ Stuck out → ⊥ }
{}

/// Where a frame runs in a state that fits, it stands at an instruction that can be read, whose registers are there, and
/// which reaches its variable further out; by its index, all is known of it that the verifier shows.
#[tactic(auto, using(crate::proofs::Reaching::stands_at, crate::proofs::Indexing::stands_at_index))]
pub fn laws_of_frames()
    ensures stands { (p : Program) (f : Frame) (ls : List Level) (m : Memory) → IsWhole p → IsVerified p
        → Fits p (On (frame f ∷ ls) m) → StandsAt p m f }
    ensures indexed { (p : Program) (f : Frame) (ls : List Level) (m : Memory) → IsWhole p → IsVerified p
        → Fits p (On (frame f ∷ ls) m) → StandsAtIndex p f }
{}
