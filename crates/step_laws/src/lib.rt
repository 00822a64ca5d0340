//! The step law of forms, of methods, of classes and of blocks, over the whole definitions: the code that gen_forms
//! gives for a form goes with the evaluation of the form, transition by transition. There is no code here.
//!
//! - `specs::Covers`: the forms whose code is followed, each from a spot of it and the number of its first body on:
//!   nil, true, false, self, integers, strings, symbols, variables and constants with their assignments, locals of the
//!   body and of those around it, Arrays with splats, Hashes, Ranges, texts, sequences, branches, `and` and `or`, a body
//!   with an `else` and no clauses, loops, `break`, `next`, `return`, elements of multiple assignments, `defined?`,
//!   definitions of methods, on a receiver too, other names of them, bodies of classes and modules, block literals and
//!   lambdas, calls of a name alone, calls of a value and of self and `yield` with any items, splats among them, the
//!   calls with or without a block, `super`. Beside an Array of arguments the block is a literal, a local or a Symbol,
//!   and a `super` has one. Operators are calls by look-up and row, and `puts` is the iteration that it is, plan by plan.
//!   `specs::Needs` has what they need of the tables of a body.
//! - `specs::Plain`: the same as a condition on a form alone and on those in its bodies
//! - `specs::Simple`: those over nil, true, false and integers, with operators and `puts`, whose evaluation calls no body
//! - `specs::Bodies`: code of the body of a method, a block or a class, and a store whose methods and Procs have such
//!   code
//! - `specs::Spaces`: what is opened as a class or a module is one
//! - `specs::Calm`: what is asked of an evaluation otherwise: it calls no bodies of the source but those with such code
//! - `specs::Peaceful`: what of this isn't so of every program
//! - `specs::Implements`: code of a source, and what it means that code implements a source
//! - `specs::Behind`: the code behind each part of a form that waits for its value
//! - `specs::Guards`: the entries of the catch table that cover a line, of a piece of code and around it
//! - `specs::Relation`: when a configuration and a state are alike (`Alike`): one world on both sides; the focus goes with
//!   the frame or the iteration that runs; below it frames and iterations wait for values as the items do, whichever and
//!   however many; so in each other fiber; each scope has the list of registers of its number, of a body that has a
//!   `Site`, and no two frames have one list
//!
//! The step law is of any such pair, not only of those that a program of such forms comes to. A form of more adds a case
//! to `Behind`, to proofs/Whole.antt, and a file of its own; what it leaves as it is stands in proofs/Untouched.antt.
#![tactic(auto)]

ghost use Rattle.std.specs.Prelude.{◌≡◌, List, ℕ, None};
ghost use Rattle.rite_code.specs.Code.{Program, program};
ghost use Rattle.ir_core.specs.CoreForm as form;
ghost use Rattle.ir_core.specs.CoreForm.{Body};
ghost use Rattle.ir_core.specs.Program.{IsProgram};
ghost use Rattle.ir_counts.specs.Counts.{need};
ghost use Rattle.ir_counts.specs.Limits.{first_excess};
ghost use Rattle.gen_forms.specs.Making.{coded_program};
ghost use Rattle.path_eval.specs.Steps.{StepLaw};
ghost use Rattle.def_calls.specs.Seen.{over};
ghost use Rattle.def_eval.specs.Source.{Source, body_at, form_of, source_of};
ghost use Rattle.def_eval.specs.Configuration.{opening, seen};
ghost use Rattle.def_eval.specs.Transition.{go};
ghost use Rattle.def_machine.specs.State.{shown, start};
ghost use Rattle.def_machine.specs.Turn.{turn};
ghost use Rattle.step_laws.specs.Calm.{StaysCalm};
ghost use Rattle.step_laws.specs.Peaceful.{StaysPeaceful};
ghost use Rattle.step_laws.specs.Measure.{measure};
ghost use Rattle.step_laws.specs.Relation.{Alike, Shared};
ghost use Rattle.step_laws.specs.Simple.{IsSimple};
ghost use Rattle.step_laws.specs.Plain.{IsPlainProgram};
ghost use Rattle.step_laws.specs.Implements.{IsCodeOf, Implements};
ghost use Rattle.step_laws.specs.Objects.{squares, cubes, IsObjectWitness, IsInheritingWitness};
ghost use Rattle.step_laws.specs.Unnamed.{walker, IsUnnamedWitness};
ghost use Rattle.step_laws.specs.Otherwise.{leaver, IsElseWitness};
ghost use Rattle.step_laws.specs.Example.{countdown, gatherer, chooser, visitor, yielder, seeker, defaulter, keeper, counting, nester, picker, hander, spreader, overrider, IsWitness, IsPlainWitness, IsMethodWitness, IsBlockWitness, IsYieldWitness, IsExitWitness, IsDefaultWitness, IsValueWitness, IsClosureWitness, IsNestingWitness, IsLambdaWitness, IsHandingWitness, IsSpreadWitness, IsSuperWitness};

/// From a configuration and a state that are alike a transition is matched by few turns, after which they are alike again;
/// what waits below the running frame, and in other fibers, may be anything that is alike. Both begin alike.
pub fn each_transition_is_matched()
    ensures law { (s : Source) (p : Program) → StepLaw (go s) (turn p) seen shown over measure (Shared s p) }
    ensures begun { (s : Source) (p : Program) (input : List ℕ) → IsCodeOf s p
        → Alike s p (opening s input) (start p input) }
{}

/// Code of a source implements it, for each input with which the evaluation calls no bodies of the source but those of
/// methods, blocks and classes with code; and code of a program implements it for every input.
#[tactic(auto, using(crate::proofs::Whole::implements, crate::proofs::Coded::code_implements))]
pub fn code_implements()
    ensures calm { (s : Source) (p : Program) (input : List ℕ) → IsCodeOf s p
        → StaysCalm s p (opening s input) → Implements s p input }
    ensures program { (b : Body) (p : Program) (input : List ℕ) → IsProgram b → IsCodeOf (source_of b) p
        → Implements (source_of b) p input }
{}

/// All that is asked of an evaluation but that it calls no other bodies is so of that of every program: names keep their
/// numbers, the class around a text is one, and so is what is opened as one, the object that a literal gathers into is one
/// of its kind, an exit leaves an iteration as it leaves a core method, a transition only adds activations, and it doesn't
/// write where an exit goes on.
pub fn peace_is_calm()
    ensures { (b : Body) (p : Program) (input : List ℕ) → IsProgram b
        → StaysPeaceful (source_of b) p (opening (source_of b) input)
        → StaysCalm (source_of b) p (opening (source_of b) input) }
{}

/// The evaluation of simple forms calls none, so code of a main program of them implements it, for every input.
#[tactic(auto, using(crate::proofs::Calms::stays_calm, crate::proofs::Simply::simply))]
pub fn simple_code_implements()
    ensures calm { (s : Source) (p : Program) (input : List ℕ) → IsSimple (form_of (body_at s 0))
        → StaysCalm s p (opening s input) }
    ensures implemented { (s : Source) (p : Program) (input : List ℕ) → IsSimple (form_of (body_at s 0)) → IsCodeOf s p
        → Implements s p input }
{}

/// The code that gen_forms gives for a program of plain forms within the limits, in whose bodies stand plain forms, is code
/// of it, its methods, its blocks and its classes. Its evaluation enters no other bodies, and the code implements it
/// for every input.
#[tactic(auto, using(crate::proofs::Coded::program_is_code, crate::proofs::Coded::program_implements))]
pub fn plain_programs_are_implemented()
    ensures coded { (b : Body) → IsProgram b → first_excess (need b) ≡ None → IsPlainProgram b
        → IsCodeOf (source_of b) (program 2 (coded_program b)) }
    ensures implemented { (b : Body) (input : List ℕ) → IsProgram b → first_excess (need b) ≡ None → IsPlainProgram b
        → Implements (source_of b) (program 2 (coded_program b)) input }
{}

/// For a program of simple forms it does so for every input.
#[tactic(auto, using(crate::proofs::Coded::simple_is_code, crate::proofs::Coded::simple_implements))]
pub fn simple_programs_are_implemented()
    ensures coded { (b : Body) → IsProgram b → first_excess (need b) ≡ None → IsSimple (form.form_of b)
        → IsCodeOf (source_of b) (program 2 (coded_program b)) }
    ensures implemented { (b : Body) (input : List ℕ) → IsProgram b → first_excess (need b) ≡ None
        → IsSimple (form.form_of b) → Implements (source_of b) (program 2 (coded_program b)) input }
{}

/// There is such a program, with a loop, operators and `puts`; its evaluation and its code come to the same end with an
/// output.
#[tactic(auto, using(crate::proofs::Example::witness))]
pub fn a_program_counts_down()
    ensures { IsWitness countdown }
{}

/// There is a plain one with an Array, a Hash, variables, a loop that is left by a break, and an exception that nothing
/// rescues; its evaluation and its code come to the same end.
#[tactic(auto, using(crate::proofs::Example::gathers))]
pub fn a_program_gathers()
    ensures { IsPlainWitness gatherer }
{}

/// There is one that defines methods, one of which calls the other, with a return and a parameter for the rest of the
/// arguments; both sides come to the same end.
#[tactic(auto, using(crate::proofs::Methods::chooses))]
pub fn a_program_calls_methods()
    ensures { IsMethodWitness chooser }
{}

/// There is one that hands a block, which has a local of its own, to a method that calls it, and to `each` of an Array in
/// another block; both sides come to the same end.
#[tactic(auto, using(crate::proofs::Methods::visits))]
pub fn a_program_visits_each()
    ensures { IsBlockWitness visitor }
{}

/// There is one whose method calls its block, with no argument and out of a block of its own; both sides come to the same
/// end.
#[tactic(auto, using(crate::proofs::Methods::hands_on))]
pub fn a_program_yields()
    ensures { IsYieldWitness yielder }
{}

/// There is one whose blocks are left by a next, by a return out of the method around, and by a break; both sides come to
/// the same end.
#[tactic(auto, using(crate::proofs::Methods::seeks))]
pub fn a_program_leaves_blocks()
    ensures { IsExitWitness seeker }
{}

/// There is one whose method has an optional parameter, that is called with a value for it and without; both sides come to
/// the same end.
#[tactic(auto, using(crate::proofs::Methods::takes_defaults))]
pub fn a_program_has_defaults()
    ensures { IsDefaultWitness defaulter }
{}

/// There is one that assigns what a call with a block gives, and a method of which returns it; both sides come to the same
/// end.
#[tactic(auto, using(crate::proofs::Methods::keeps_values))]
pub fn a_program_keeps_values()
    ensures { IsValueWitness keeper }
{}

/// There is one with a block that sets a local of the method around it and outlives that, and with one that adds to a local
/// of the program; both sides come to the same end.
#[tactic(auto, using(crate::proofs::Methods::counts))]
pub fn a_program_counts_by_a_closure()
    ensures { IsClosureWitness counting }
{}

/// There is one with a block in an argument of a call, and a definition of a method, in the branches of a loop; both sides
/// come to the same end.
#[tactic(auto, using(crate::proofs::Methods::nests))]
pub fn a_program_nests_blocks()
    ensures { IsNestingWitness nester }
{}

/// There is one with a lambda that a return leaves, in a method that goes on, and with one that is called with a wrong count
/// of arguments, which nothing rescues; both sides come to the same end.
#[tactic(auto, using(crate::proofs::Methods::calls_lambdas))]
pub fn a_program_calls_lambdas()
    ensures { IsLambdaWitness picker }
{}

/// There is one with a method that hands its block on to `each`, and with a Symbol as a block; both sides come to the same
/// end.
#[tactic(auto, using(crate::proofs::Methods::hands_blocks_on))]
pub fn a_program_hands_on_blocks()
    ensures { IsHandingWitness hander }
{}

/// There is one that spreads Arrays into the arguments of calls, with and without blocks, and into those of a yield; both
/// sides come to the same end.
#[tactic(auto, using(crate::proofs::Methods::spreads))]
pub fn a_program_spreads_arguments()
    ensures { IsSpreadWitness spreader }
{}

/// There is one with a class in a module and another one under it, whose objects a method of the class makes, and whose
/// other method yields a variable of theirs; both sides come to the same end.
#[tactic(auto, using(crate::proofs::Objects::has_objects))]
pub fn a_program_has_objects()
    ensures { IsObjectWitness squares }
{}

/// There is one with a class under another, whose `initialize` and whose method with a block call those above them and pass
/// what they have; both sides come to the same end.
#[tactic(auto, using(crate::proofs::Objects::inherits))]
pub fn a_program_inherits()
    ensures { IsInheritingWitness cubes }
{}

/// There is one with a method that calls the one above it, with a splat and its own block; both sides come to the same end.
#[tactic(auto, using(crate::proofs::Methods::calls_above))]
pub fn a_program_calls_super()
    ensures { IsSuperWitness overrider }
{}

/// There is one with a `for`, a pattern among the parameters of a block, and a rest parameter without a name; both sides
/// come to the same end.
#[tactic(auto, using(crate::proofs::Unnamed::walks))]
pub fn a_program_has_parameters_without_names()
    ensures { IsUnnamedWitness walker }
{}

/// There is one with a body that has an `else` and no clauses, which a break leaves; both sides come to the same end.
#[tactic(auto, using(crate::proofs::Otherwise::leaves_it))]
pub fn a_program_does_otherwise()
    ensures { IsElseWitness leaver }
{}
