//! The code of every program passes the verifier, and a file can hold it. There is no code here: the laws bind what
//! ir_core asks of the core of a program, and the limits of its counts, to the code that gen_forms gives for it, to what
//! code_verifier checks, and to what rite_code and rite_file ask of a program in a file.
//!
//! A body within the limits is that of specs/Counted.antt. What the proof says of pieces of code stands in
//! proofs/Serves.antt and proofs/Wells.antt: the code of a form keeps within the registers that its width says and
//! within the bytes that are counted of it, each entry of a table that it names is there, each jump leads to a line of
//! the same body, each variable of a body further out is one of its locals, and each instruction that makes a body
//! makes the next one.
#![tactic(auto)]

ghost use Rattle.std.specs.Prelude.{◌≡◌, ◌<◌, ◌≤◌, ◌^◌, ℕ, ◌+◌, List, [], ◌∷◌, All, length, slice_get, None, Some, true, false, is_some};
ghost use Rattle.rite_code.specs.Code.{program, IsForest, IsWhole};
ghost use Rattle.rite_file.specs.File.{canonical};
ghost use Rattle.ir_core.specs.CoreForm as form;
ghost use Rattle.ir_core.specs.CoreForm.{Local, Parameters, CoreForm, Body};
ghost use Rattle.ir_core.specs.Program.{Around, IsProgram, is_program, is_form, within_program, within_class, within_method, within_block};
ghost use Rattle.ir_walk.specs.Walk.{walked};
ghost use Rattle.ir_walk.specs.declared.extent.Extent.TheVariants as extent;
ghost use Rattle.ir_counts.specs.Counts.{need};
ghost use Rattle.ir_counts.specs.Limits.{first_excess};
ghost use Rattle.code_verifier.specs.Checks.{first_bad};
ghost use Rattle.code_verifier.specs.Verified.{IsVerified};
ghost use Rattle.scope_resolver.specs.declared.body_kind.BodyKind.TheVariants as kind;
ghost use Rattle.scope_resolver.specs.Layout.{Slots, Scopes, innermost_count, scopes_in};
ghost use Rattle.gen_parts.specs.declared.emitter.Spot.{Spot};
ghost use Rattle.gen_parts.specs.Pieces.{◌⊕◌, does};
ghost use Rattle.gen_forms.specs.Gen.{Context, gen};
ghost use Rattle.gen_forms.specs.Making.{coded_program};
ghost use Rattle.code_laws.specs.Bound.{IsSeen, IsFirst, IsBound, Knows, IsHeldAt, reading, writing};
ghost use Rattle.code_laws.specs.Counted.{IsCounted};
ghost use Rattle.code_laws.specs.Example as example;

/// No check of the verifier fails in the code of a program none of whose counts is past its limit, and each of its
/// bodies is within the limits of registers, tables and code.
#[tactic(auto, using(crate::proofs::Programs::program_verified, crate::proofs::Programs::program_within))]
pub fn laws_of_code()
    ensures verified { (b : Body) → IsProgram b → first_excess (need b) ≡ None
        → IsVerified (program 2 (coded_program b)) }
    ensures counted { (b : Body) → IsProgram b → first_excess (need b) ≡ None
        → All IsCounted (coded_program b) }
{}

/// The bodies of such code are one tree, each before its children, of no more than a file can hold.
#[tactic(auto, using(crate::proofs::Programs::program_is_tree, crate::proofs::Programs::program_is_small))]
pub fn bodies_are_a_tree()
    ensures tree { (b : Body) → IsProgram b → first_excess (need b) ≡ None
        → IsForest 0 (coded_program b) (0 ∷ []) }
    ensures few { (b : Body) → IsProgram b → first_excess (need b) ≡ None
        → length (coded_program b) ≤ 65536 }
{}

/// Such code is whole: nothing stands twice in a pool or among the symbols of a body, its texts are short enough, and each
/// count fits its field.
pub fn code_is_whole()
    ensures whole { (b : Body) → IsProgram b → first_excess (need b) ≡ None
        → IsWhole (program 2 (coded_program b)) }
{}

/// The file of the code of a program none of whose counts is past its limit is short enough to say how long it is.
#[tactic(auto, using(crate::proofs::Filing::program_files))]
pub fn code_fits_a_file()
    ensures small { (b : Body) → first_excess (need b) ≡ None
        → length (canonical (program 2 (coded_program b))) < 2 ^ 32 }
{}

/// A form that reads or writes a local does so in the body that binds it: the innermost one around the form among whose
/// locals it is, at the register of its first place there. A hidden local is one of the form's own body, behind its other
/// locals; a parameter of the method around the text is one of the outermost body.
pub fn laws_of_locals()
    ensures reads { (c : Context) (s : Spot) (r levels place : ℕ) (x : Local) → IsSeen x
        → IsBound c.scopes x levels place → gen c s r (form.local x) ≡ does (reading r levels place) }
    ensures writes { (c : Context) (s : Spot) (r levels place : ℕ) (x : Local) (e : CoreForm) → IsSeen x
        → IsBound c.scopes x levels place
        → gen c s r (form.set_local x e) ≡ gen c s r e ⊕ does (writing r levels place) }
    ensures hidden { (c : Context) (s : Spot) (r d : ℕ)
        → gen c s r (form.local (form.hidden d)) ≡ does (reading r 0 (innermost_count c.scopes + d)) }
    ensures hidden_written { (c : Context) (s : Spot) (r d : ℕ) (e : CoreForm)
        → gen c s r (form.set_local (form.hidden d) e)
        ≡ gen c s r e ⊕ does (writing r 0 (innermost_count c.scopes + d)) }
    ensures owned { (c : Context) (s : Spot) (r levels place : ℕ) (x : Local) (ss : Slots)
        → length c.scopes ≡ levels + 1 → slice_get c.scopes levels ≡ Some ss → IsFirst x ss place
        → gen c s r (form.own x) ≡ does (reading r levels place) }
{}

/// Where the bodies that a form sees bind all that it may name, each form in it that reads or writes a local, without those
/// of the bodies within, sees a body that binds that local. And they do bind it: the body of the program or of a class
/// its locals, that of a method its parameters too, and that of a block what is known around it besides.
pub fn names_are_bound()
    ensures forms { (scopes : Scopes) (a : Around) (f : CoreForm) → is_form a f ≡ true → Knows scopes a
        → All (IsHeldAt scopes) (walked extent.Body [] f) }
    ensures main { (p : Parameters) (ls : List Local) (f : CoreForm)
        → Knows (scopes_in kind.Main (form.body p ls f) []) (within_program ls) }
    ensures class { (p : Parameters) (ls : List Local) (f : CoreForm) (around : Scopes)
        → Knows (scopes_in kind.Class (form.body p ls f) around) (within_class ls) }
    ensures method { (p : Parameters) (ls : List Local) (f : CoreForm) (around : Scopes) → length p.block ≤ 1
        → Knows (scopes_in kind.Method (form.body p ls f) around) (within_method p ls) }
    ensures block { (p : Parameters) (ls : List Local) (f : CoreForm) (around : Scopes) (a : Around)
        → length p.block ≤ 1 → Knows around a
        → Knows (scopes_in kind.Block (form.body p ls f) around) (within_block a p ls) }
{}

/// A program with a class, a method, a block that sets a variable around it, a loop and a clause is such a core. In the
/// code of a `break` that has nowhere to go a check fails.
#[tactic(auto, using(crate::proofs::Witness::stray_fails))]
pub fn a_program_is_coded()
    ensures placed { is_program example.main ≡ true }
    ensures counted { first_excess (need example.main) ≡ None }
    ensures stray_word { is_program example.stray_word ≡ false }
    ensures stray_code { is_some (first_bad (program 2 (coded_program example.stray_word))) ≡ true }
{}
