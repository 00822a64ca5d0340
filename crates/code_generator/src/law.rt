//! The theorem of the generator, about definitions alone, and a program that it speaks of.
ghost use Rattle.path_core.specs.Form.{Form};
ghost use Rattle.code_generator.specs.Limits.{IsWithin};
ghost use Rattle.code_verifier.specs.Verified.{IsVerified};
ghost use Rattle.code_generator.specs.Gen.{code_of};
ghost use Rattle.code_generator.specs.Implements.{Implements};
ghost use Rattle.code_generator.specs.Witness.{IsWitness, countdown};

/// The code of every form within the limits does what the form means.
pub fn code_implements()
    ensures { (f : Form) → IsWithin f → Implements (code_of f) f }
{}

/// No check of the verifier fails in the code of a form within the limits.
pub fn code_verified()
    ensures { (f : Form) → IsWithin f → IsVerified (code_of f) }
{}

/// There is such a form, whose evaluation and whose code come to the same end with an output.
pub fn witness()
    ensures { IsWitness countdown }
{}
