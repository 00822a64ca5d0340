//! The evaluation of a program comes to nothing but what fits. There is no code here: the law binds what ir_core asks of
//! the core of a program to the transitions of def_eval.
//!
//! - `specs::Fits`: when a configuration fits. Its store is sound, each number in it is of what it has to be (values and
//!   objects of the store, scopes with their parents, activations, lists of classes, bodies of the source), each exit
//!   leads to an item that waits, and each form that is left to do stands in the source, under what is around it
//! - `specs::Standing`: what of a source stands where; the locals of a form are known, its names are the source's, and
//!   its bodies have their numbers
//! - `specs::Reached`: what follows for what is done in such a configuration
//!
//! What is said of a world stands in world_laws, which proves it of every call and every change of a store.
#![tactic(auto)]

ghost use Rattle.std.specs.Prelude.{◌≡◌, ◌≤◌, ℕ, List, [], ◌∷◌, ◌++◌, length, true, false};
ghost use Rattle.rb_value.specs.declared.value.Value.{Value};
ghost use Rattle.rb_value.specs.declared.value.ObjId.{ObjId};
ghost use Rattle.def_core.specs.Sound.{census, IsValue};
ghost use Rattle.ir_core.specs.CoreForm.{Local, CoreForm, none, local, own, exception, set_local, function, Body};
ghost use Rattle.ir_core.specs.Program.{IsProgram, is_program};
ghost use Rattle.def_calls.specs.World.{World};
ghost use Rattle.def_calls.specs.Calls.{opening_world};
ghost use Rattle.def_eval.specs.Source.{Source, source_of, body_at, all_names};
ghost use Rattle.def_eval.specs.Configuration.{Exit, raise, Action, operands, part, Item, Focus, perform, give, travel, Memory, Config, Run, opening};
ghost use Rattle.def_eval.specs.Transition.{go, go_times};
ghost use Rattle.eval_laws.specs.Procs.{ProcsAreKnown};
ghost use Rattle.eval_laws.specs.Fits.{anything_since, Fits, After, FitsSince, has_exception, wanted};
ghost use Rattle.eval_laws.specs.Reached.{GoesOn, SoundStore, IsFound, IsOwn};
ghost use Rattle.eval_laws.specs.Example as example;

/// The opening configuration of a program fits, every transition keeps what fits, and so every configuration that the
/// evaluation of a program comes to fits. Its world goes on from that of the opening, and after each transition from the
/// one before: objects keep their sort, symbols, activations and lists of classes their numbers. Nothing is written where
/// an exit goes on.
#[tactic(auto, using(crate::proofs::Start::opening_fits, crate::proofs::Kept::goes_fit, crate::proofs::Start::evaluation_fits))]
pub fn laws_of_transitions()
    ensures begun { (b : Body) (input : List ℕ) → IsProgram b
        → Fits (source_of b) (anything_since (opening_world (all_names (source_of b)) input))
        (opening (source_of b) input) }
    ensures goes_on { (s : Source) (early : World) (f : Focus) (ks : List Item) (m : Memory)
        → Fits s (anything_since early) (Run f ks m) → GoesOn m.world (go s (Run f ks m)) }
    ensures kept { (s : Source) (early : World) (c : Config) → Fits s (anything_since early) c
        → After s (anything_since early) (go s c) }
    ensures reached { (b : Body) (input : List ℕ) (n : ℕ) → IsProgram b
        → FitsSince (source_of b) (anything_since (opening_world (all_names (source_of b)) input))
        (go_times n (source_of b) (opening (source_of b) input)) }
{}

/// Where a configuration fits, each Proc of the world after a transition has the body and the scopes of one that was there,
/// or is the one that is made: that of a block literal or a lambda, in the scopes around.
#[tactic(auto, using(crate::proofs::Kept::procs_known))]
pub fn laws_of_procs()
    ensures known { (s : Source) (early : World) (f : Focus) (ks : List Item) (m : Memory)
        → Fits s (anything_since early) (Run f ks m) → ProcsAreKnown f m (go s (Run f ks m)) }
{}

/// Where a configuration fits, its store is sound, and a value that is given is one of it.
#[tactic(auto, using(crate::proofs::Reading::store_sound, crate::proofs::Reading::value_good))]
pub fn the_store_is_sound()
    ensures sound { (s : Source) (early : World) (c : Config) → Fits s (anything_since early) c → SoundStore c }
    ensures value { (s : Source) (early : World) (v : Value) (ks : List Item) (m : Memory)
        → Fits s (anything_since early) (Run (give v) ks m) → IsValue (census m.world.store) v }
{}

/// Where a configuration fits, what is sought is there: a local that is read or set in the scope that is found for it, a
/// parameter of the method around a text, the exception of a clause, as many values as an action wants, the body of a
/// block at its number.
pub fn what_is_sought_is_there()
    ensures local { (s : Source) (early : World) (n : ℕ) (ks : List Item) (m : Memory) (x : Local)
        → Fits s (anything_since early) (Run (perform n (local x)) ks m) → IsFound m x }
    ensures set { (s : Source) (early : World) (n : ℕ) (ks : List Item) (m : Memory) (x : Local) (e : CoreForm)
        → Fits s (anything_since early) (Run (perform n (set_local x e)) ks m) → IsFound m x }
    ensures own { (s : Source) (early : World) (n : ℕ) (ks : List Item) (m : Memory) (x : Local)
        → Fits s (anything_since early) (Run (perform n (own x)) ks m) → IsOwn m x }
    ensures exception { (s : Source) (early : World) (n : ℕ) (ks : List Item) (m : Memory)
        → Fits s (anything_since early) (Run (perform n exception) ks m) → has_exception ks ≡ true }
    ensures operands { (s : Source) (early : World) (n : ℕ) (action : Action) (vs : List Value) (v : Value) (ks : List Item) (m : Memory)
        → Fits s (anything_since early) (Run (give v) (part (operands n action vs none) ∷ ks) m)
        → wanted action ≤ length (vs ++ v ∷ []) }
    ensures block { (s : Source) (early : World) (n : ℕ) (ks : List Item) (m : Memory) (f : Body)
        → Fits s (anything_since early) (Run (perform n (function f)) ks m) → body_at s n ≡ f }
{}

/// Where a configuration fits, nothing but an exception gets past the last item that waits.
#[tactic(auto, using(crate::proofs::Reading::leaves_last))]
pub fn exits_lead_somewhere()
    ensures last { (s : Source) (early : World) (x : Exit) (m : Memory)
        → Fits s (anything_since early) (Run (travel x) [] m) → (e : ObjId) × (x ≡ raise e) }
{}

/// A program with a method, a block that reads a variable around it, and a clause that tries again is one of which the
/// laws speak. One that reads an unknown local isn't, and an exit from a loop where nothing waits fits nowhere.
#[tactic(auto, using(crate::proofs::Reading::lost_fails))]
pub fn a_program_fits()
    ensures program { is_program example.main ≡ true }
    ensures stray { is_program example.stray ≡ false }
    ensures lost { (s : Source) (early : World) (m : Memory) → Fits s (anything_since early) (example.lost m) → ⊥ }
{}
