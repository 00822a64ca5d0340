//! Every outcome keeps the world. There is no code here: the laws bind the definitions of def_calls, by which both the
//! evaluation of a source and the machine go on, to what a world has to be.
//!
//! - `specs::Fine`: a world is fine where its store is sound and each number in it, in its objects, global variables,
//!   activations and lists of classes, is one of what it has to be; a later world extends it, since nothing that has a
//!   number is taken away or becomes another sort of object
//! - `specs::Outcomes`: the same of every outcome: an answer, what a call enters, a plan of an iteration, bound
//!   parameters, a splat, fibers
//!
//! What the contents of a Proc have to be, and the body of a method, is open there (`Bodies`): the machine asks for
//! another thing than the evaluation. The lemmas in proofs are about any such; the laws here about the least of them.
#![tactic(auto)]

ghost use Rattle.std.specs.Prelude.{ℕ, ℤ, List, Option, Bool};
ghost use Rattle.rb_value.specs.declared.value.Value.{Value};
ghost use Rattle.rb_value.specs.declared.value.Value.TheVariants.{Obj};
ghost use Rattle.rb_value.specs.declared.value.ObjId.{ObjId};
ghost use Rattle.rb_value.specs.declared.value.SymId.{SymId};
ghost use Rattle.rb_value.specs.declared.method.Shape.{Shape};
ghost use Rattle.rb_value.specs.declared.kind.Sort.TheVariants as sort;
ghost use Rattle.def_core.specs.declared.bound.BindKind.{BindKind};
ghost use Rattle.def_core.specs.Bind.{bind};
ghost use Rattle.def_core.specs.Sound.{census, Any, ClassOrModule, Proc, Is, IsSymbol, IsValue, OptionIs, AllAre};
ghost use Rattle.def_calls.specs.World.{World, Activation, with_store, with_global};
ghost use Rattle.def_calls.specs.Calls.{Sending, enter_row, enter_proc, call, send_by_core, block_argument, settle, is_of, with_class_body, close, one_of, read, core_activation, asking, main_activation, opening_world};
ghost use Rattle.def_calls.specs.Constants.{get_constant, set_constant};
ghost use Rattle.def_calls.specs.Definitions.{define_method, singleton_class, open_class, open_module, alias_method, undefine_method, constant_told, method_told};
ghost use Rattle.def_calls.specs.Fibers.{Name, with_ended};
ghost use Rattle.def_calls.specs.Plans.{Iteration, reporting, next, caught};
ghost use Rattle.def_calls.specs.Values.{set_instance_variable, element, splat, make_symbol, make_range, with_pair};
ghost use Rattle.world_laws.specs.Anywhere.{anywhere};
ghost use Rattle.world_laws.specs.Fine.{Extends, HasSort, IsException, ActivationIs, Fine, Keeps};
ghost use Rattle.world_laws.specs.Outcomes.{AnswerIs, GivesSpace, SplattedIs, BindingIs, SendingIs, StateIs, BeginsIs, EntryIs, BlockArgumentIs, PlannedIs, NameIs};

/// The world before the first step of a program is fine, whatever names the program has, and so is its activation.
pub fn first_world_is_fine()
    ensures fine { (names : List (List ℕ)) (input : List ℕ) → Fine anywhere (opening_world names input) }
    ensures main { (names : List (List ℕ)) (input : List ℕ)
        → ActivationIs (opening_world names input) main_activation }
{}

/// A later world extends each before it.
#[tactic(auto, using(crate::proofs::Growing::extends_itself, crate::proofs::Growing::extends_both))]
pub fn worlds_go_on()
    ensures itself { (w : World) → Extends w w }
    ensures later { (w v u : World) → Extends w v → Extends v u → Extends w u }
{}

/// What a call enters, or answers at once: of a form or an instruction, of a core method's own, of a Proc, of a row.
pub fn calls_keep_the_world()
    ensures call { (w : World) (a : Activation) (s : Sending) (recv : Value) (args : List Value) (block : Option ObjId)
        → Fine anywhere w → ActivationIs w a → SendingIs (census w.store) s → IsValue (census w.store) recv
        → AllAre (IsValue (census w.store)) args → OptionIs (Is (census w.store) Proc) block
        → EntryIs anywhere w (call w a s recv args block) }
    ensures sent { (w : World) (name : SymId) (recv : Value) (args : List Value) (block : Option ObjId) (public : Bool)
        → Fine anywhere w → IsSymbol (census w.store) name → IsValue (census w.store) recv
        → AllAre (IsValue (census w.store)) args → OptionIs (Is (census w.store) Proc) block
        → EntryIs anywhere w (send_by_core w recv name args block public) }
    ensures of_proc { (w : World) (p : ObjId) (args : List Value) (block : Option ObjId) → Fine anywhere w
        → Is (census w.store) Any p → AllAre (IsValue (census w.store)) args
        → OptionIs (Is (census w.store) Proc) block → EntryIs anywhere w (enter_proc w p args block) }
    ensures of_row { (w : World) (row : ℕ) (recv : Value) (args : List Value) (block : Option ObjId) → Fine anywhere w
        → IsValue (census w.store) recv → AllAre (IsValue (census w.store)) args
        → OptionIs (Is (census w.store) Proc) block → EntryIs anywhere w (enter_row w row recv args block) }
{}

/// What a call begins and ends with: parameters, a block, the body of a class; the end of a fiber; whether a clause takes
/// an exception.
pub fn activations_keep_the_world()
    ensures parameters { (w : World) (s : Shape) (args : List Value) (k : BindKind) → Fine anywhere w
        → AllAre (IsValue (census w.store)) args → BindingIs anywhere w (bind w.store s args k) }
    ensures block { (w : World) (v : Value) → Fine anywhere w → IsValue (census w.store) v
        → BlockArgumentIs anywhere w (block_argument w v) }
    ensures settled { (w : World) (block : Option ObjId) (target : Option ℕ) → Fine anywhere w
        → OptionIs (Is (census w.store) Proc) block → Keeps anywhere w (settle w block target) }
    ensures class_body { (w : World) (a : Activation) (c : ObjId) → Fine anywhere w → ActivationIs w a
        → Is (census w.store) ClassOrModule c → Keeps anywhere w (with_class_body w a c) }
    ensures ended { (w : World) (n : Name) → Fine anywhere w → NameIs (census w.store) n
        → Keeps anywhere w (with_store w (with_ended w.store n)) }
    ensures taken { (w : World) (v class : Value) → Fine anywhere w → AnswerIs anywhere w (is_of w v class) }
    ensures closed { (w : World) (a : ℕ) → Fine anywhere w → Keeps anywhere w (close w a) }
{}

/// What an iteration wants next, and the value with which it ends where it stops an exception; what a resume and a read
/// give it; the one that asks an exception which nothing rescued for its message.
pub fn iterations_keep_the_world()
    ensures next { (w : World) (it : Iteration) (v : Value) → Fine anywhere w → StateIs (census w.store) it
        → IsValue (census w.store) v → PlannedIs anywhere w (next it v w.store) }
    ensures caught { (w : World) (it : Iteration) (e : ObjId) → Fine anywhere w → Is (census w.store) Any e
        → OptionIs (IsValue (census w.store)) (caught it e w.store) }
    ensures resumed { (w : World) (vs : List Value) → Fine anywhere w → AllAre (IsValue (census w.store)) vs
        → AnswerIs anywhere w (one_of w vs) }
    ensures read { (w : World) → Fine anywhere w → AnswerIs anywhere w (read w) }
    ensures reported { (w : World) (e : ObjId) → Fine anywhere w → IsException (census w.store) e
        → BeginsIs anywhere w (reporting e) (core_activation w (Obj e)) (asking w) }
{}

/// Variables, constants, elements, splats, symbols, Ranges and pairs of Hashes.
pub fn values_keep_the_world()
    ensures global { (w : World) (name : SymId) (v : Value) → Fine anywhere w → IsSymbol (census w.store) name
        → IsValue (census w.store) v → Keeps anywhere w (with_global w name v) }
    ensures variable { (w : World) (recv : Value) (name : SymId) (v : Value) → Fine anywhere w
        → IsValue (census w.store) recv → IsSymbol (census w.store) name → IsValue (census w.store) v
        → AnswerIs anywhere w (set_instance_variable w recv name v) }
    ensures constant { (w : World) (classes : ℕ) (name : SymId) → Fine anywhere w → IsSymbol (census w.store) name
        → AnswerIs anywhere w (get_constant w classes name) }
    ensures constant_set { (w : World) (classes : ℕ) (name : SymId) (v : Value) → Fine anywhere w
        → IsSymbol (census w.store) name → IsValue (census w.store) v
        → AnswerIs anywhere w (set_constant w classes name v) }
    ensures element { (w : World) (v : Value) (place : ℤ) → Fine anywhere w → IsValue (census w.store) v
        → AnswerIs anywhere w (element w v place) }
    ensures splat { (w : World) (v : Value) → Fine anywhere w → IsValue (census w.store) v
        → SplattedIs anywhere w (splat w.store v) }
    ensures symbol { (w : World) (v : Value) → Fine anywhere w → AnswerIs anywhere w (make_symbol w v) }
    ensures range { (w : World) (a b : Value) (exclusive : Bool) → Fine anywhere w
        → AnswerIs anywhere w (make_range w a b exclusive) }
    ensures pair { (w : World) (hash : ObjId) (shown v : Value) → Fine anywhere w
        → HasSort (census w.store) sort.Hash hash → IsValue (census w.store) shown → IsValue (census w.store) v
        → AnswerIs anywhere w (with_pair w hash shown v) }
{}

/// Classes, modules and methods, and what `defined?` tells of them; what opens a class or module gives one.
pub fn definitions_keep_the_world()
    ensures method { (w : World) (c : ObjId) (name : SymId) (body classes : ℕ) → Fine anywhere w
        → Is (census w.store) ClassOrModule c → IsSymbol (census w.store) name → anywhere.BodyIs w body classes
        → AnswerIs anywhere w (define_method w c name body classes) }
    ensures alias { (w : World) (c : ObjId) (new old : SymId) → Fine anywhere w → Is (census w.store) ClassOrModule c
        → IsSymbol (census w.store) new → IsSymbol (census w.store) old
        → AnswerIs anywhere w (alias_method w c new old) }
    ensures undefined { (w : World) (c : ObjId) (name : SymId) → Fine anywhere w → Is (census w.store) ClassOrModule c
        → IsSymbol (census w.store) name → AnswerIs anywhere w (undefine_method w c name) }
    ensures class { (w : World) (scope : Value) (name : SymId) (parent : Value) → Fine anywhere w
        → IsValue (census w.store) scope → IsSymbol (census w.store) name → IsValue (census w.store) parent
        → AnswerIs anywhere w (open_class w scope name parent) }
    ensures class_given { (w : World) (scope : Value) (name : SymId) (parent : Value) → Fine anywhere w
        → IsValue (census w.store) scope → IsSymbol (census w.store) name → IsValue (census w.store) parent
        → GivesSpace (census (open_class w scope name parent).world.store) (open_class w scope name parent).result }
    ensures module { (w : World) (scope : Value) (name : SymId) → Fine anywhere w → IsValue (census w.store) scope
        → IsSymbol (census w.store) name → AnswerIs anywhere w (open_module w scope name) }
    ensures module_given { (w : World) (scope : Value) (name : SymId) → Fine anywhere w
        → IsValue (census w.store) scope → IsSymbol (census w.store) name
        → GivesSpace (census (open_module w scope name).world.store) (open_module w scope name).result }
    ensures singleton { (w : World) (v : Value) → Fine anywhere w → IsValue (census w.store) v
        → AnswerIs anywhere w (singleton_class w v) }
    ensures singleton_given { (w : World) (v : Value) → Fine anywhere w → IsValue (census w.store) v
        → GivesSpace (census (singleton_class w v).world.store) (singleton_class w v).result }
    ensures constant_told { (w : World) (classes : ℕ) (name : SymId) → Fine anywhere w
        → AnswerIs anywhere w (constant_told w classes name) }
    ensures method_told { (w : World) (caller recv : Value) (name : SymId) → Fine anywhere w
        → AnswerIs anywhere w (method_told w caller recv name) }
{}
