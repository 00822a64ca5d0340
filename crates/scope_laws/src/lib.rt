//! The scopes of the evaluation and the lists of registers of the machine have the same numbers, by which the store of
//! each names them in its Procs. There is no code here: the laws are of def_eval and def_machine, one by one, for any
//! source and any code.
//!
//! - `specs::Numbers`: what is around each scope and each list, and how a step may let them grow
//!
//! A step leaves the scope around each scope as it is, opens one at most, gives it the next number, and runs in it then;
//! and so with lists of registers. Both begin with number 0. So where two runs open theirs at the same steps within the
//! same ones, what is around each is the same, and a Proc that both make names the same numbers. That code opens its
//! lists where its source opens its scopes isn't said here.
#![tactic(auto)]

ghost use Rattle.std.specs.Prelude.{◌≡◌, ℕ, suc, List, [], ◌∷◌, Option, Some, None};
ghost use Rattle.rite_code.specs.Code.{Program};
ghost use Rattle.def_eval.specs.Source.{Source};
ghost use Rattle.def_eval.specs.Configuration as eval;
ghost use Rattle.def_eval.specs.Configuration.{Scope, Focus, Item, Run, opening};
ghost use Rattle.def_eval.specs.Scopes.{scopes_around};
ghost use Rattle.def_eval.specs.Transition.{go};
ghost use Rattle.def_machine.specs.State as machine;
ghost use Rattle.def_machine.specs.State.{Registers, Level, On, start};
ghost use Rattle.def_machine.specs.Turn.{lists_around, turn};
ghost use Rattle.scope_laws.specs.Numbers.{parents, ScopesGrow, outers, ListsGrow, OpensFirstScope, OpensFirstList};

/// A transition leaves what is around each scope as it is, and opens one scope at most, which has the next number and is
/// that of the body that runs then. The first has the number 0.
#[tactic(auto, using(crate::proofs::Alike::first_scope, crate::proofs::Evaluation::scopes_grow))]
pub fn laws_of_scopes()
    ensures first { (s : Source) (input : List ℕ) → OpensFirstScope (opening s input) }
    ensures next { (s : Source) (f : Focus) (ks : List Item) (m : eval.Memory)
        → ScopesGrow (parents m.scopes) (go s (Run f ks m)) }
{}

/// A turn leaves what is around each list of registers as it is, and opens one list at most, which has the next number
/// and is that of the frame that runs then. The first has the number 0.
#[tactic(auto, using(crate::proofs::Alike::first_list, crate::proofs::Machine::lists_grow))]
pub fn laws_of_lists()
    ensures first { (p : Program) (input : List ℕ) → OpensFirstList (start p input) }
    ensures next { (p : Program) (ls : List Level) (m : machine.Memory)
        → ListsGrow (outers m.lists) (turn p (On ls m)) }
{}

/// Where what is around each is the same, a Proc that is made in a scope names the numbers that one names which is made
/// over the list of the same number.
#[tactic(auto, using(crate::proofs::Alike::around_alike))]
pub fn procs_name_the_same()
    ensures same { (cs : List Scope) (ls : List Registers) → parents cs ≡ outers ls → (n : ℕ)
        → scopes_around cs n ≡ lists_around (suc n) ls (Some n) }
{}
