//! What is known of verified code.
ghost use Rattle.std.specs.Prelude.{◌≡◌, ℕ, None, Some, slice_get};
ghost use Rattle.rite_code.specs.Code.{Program};
ghost use Rattle.rite_code.specs.declared.code.Irep.{Irep};
ghost use Rattle.code_outline.specs.Layout.{Standing, layout};
ghost use Rattle.code_verifier.specs.Checks.{cause_of};
ghost use Rattle.code_verifier.specs.Holds.{PassesBody};
ghost use Rattle.code_verifier.specs.Verified.{IsVerified};

/// Each body of a verified program is read to its end, each of its instructions and catch entries passes every
/// check, and no instruction has a cause.
pub fn every_check_holds()
    ensures bodies { (p : Program) (k : ℕ) (b : Irep)
        → IsVerified p → slice_get p.bodies k ≡ Some b → PassesBody p k b }
    ensures causes { (p : Program) (k i : ℕ) (b : Irep) (s : Standing)
        → IsVerified p → slice_get p.bodies k ≡ Some b → slice_get (layout p.version b.code) i ≡ Some s
        → cause_of p k b (layout p.version b.code) s ≡ None }
{}
