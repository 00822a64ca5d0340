//! A local is sought by the evaluation in the scope that the code reaches. There is no code here: the laws bind the scopes
//! of def_eval to the bodies of code_laws, by the slots that scope_resolver gives each body.
//!
//! Scopes mirror bodies (specs/Mirrors.antt) where each has the variables, but for hidden ones, that its body has slots of.
#![tactic(auto)]

ghost use Rattle.std.specs.Prelude.{◌≡◌, ◌<◌, ◌≤◌, ℕ, ◌+◌, List, [], ◌∷◌, ◌++◌, All, length, true, is_some, slice_get, Option, None, Some};
ghost use Rattle.rb_value.specs.declared.value.Value.{Value};
ghost use Rattle.rb_value.specs.declared.value.ObjId.{ObjId};
ghost use Rattle.ir_core.specs.CoreForm.{Local, hidden, Parameters, CoreForm, body, no_parameters};
ghost use Rattle.scope_resolver.specs.declared.body_kind.BodyKind.TheVariants as kind;
ghost use Rattle.scope_resolver.specs.Layout.{Slots, Scopes, slots_of};
ghost use Rattle.def_eval.specs.Configuration.{Scope, Memory, all_nil};
ghost use Rattle.def_eval.specs.Scopes.{value_in, scope_at, put_value, put_in, scopes_around, scope_of, last_or, first_variables};
ghost use Rattle.code_laws.specs.Bound.{IsSeen, IsBound};
ghost use Rattle.local_laws.specs.Mirrors.{has_slot, Mirrors, AreMirrored};

/// Where the scope that runs and those around it mirror the bodies that a form sees, the scope in which a local is sought
/// stands as many levels out as the body that binds it. That of a hidden local is the innermost one, and that of a
/// parameter of the method around the text is the outermost.
pub fn laws_of_searches()
    ensures found { (m : Memory) (scopes : Scopes) (x : Local) (levels place : ℕ) → IsSeen x
        → AreMirrored m.scopes (scopes_around m.scopes m.place.scope) scopes → IsBound scopes x levels place
        → slice_get (scopes_around m.scopes m.place.scope) levels ≡ Some (scope_of m x) }
    ensures hidden_found { (m : Memory) (d : ℕ)
        → slice_get (scopes_around m.scopes m.place.scope) 0 ≡ Some (scope_of m (hidden d)) }
    ensures owned { (m : Memory) (scopes : Scopes) (levels : ℕ)
        → AreMirrored m.scopes (scopes_around m.scopes m.place.scope) scopes → length scopes ≡ levels + 1
        → slice_get (scopes_around m.scopes m.place.scope) levels
        ≡ Some (last_or m.place.scope (scopes_around m.scopes m.place.scope)) }
{}

/// The variables with which a body begins mirror its slots, and a local that is assigned keeps that, be it hidden or one
/// of the body's.
pub fn laws_of_variables()
    ensures main { (ls : List Local) (f : CoreForm)
        → Mirrors (all_nil ls) (slots_of kind.Main (body no_parameters ls f)) }
    ensures class { (ls : List Local) (f : CoreForm)
        → Mirrors (first_variables no_parameters ls [] None) (slots_of kind.Class (body no_parameters ls f)) }
    ensures method { (p : Parameters) (ls : List Local) (f : CoreForm) (values : List Value) (b : Option ObjId)
        → length p.block ≤ 1 → Mirrors (first_variables p ls values b) (slots_of kind.Method (body p ls f)) }
    ensures block { (p : Parameters) (ls : List Local) (f : CoreForm) (values : List Value) (b : Option ObjId)
        → length p.block ≤ 1 → Mirrors (first_variables p ls values b) (slots_of kind.Block (body p ls f)) }
    ensures kept { (vs : List (Local × Value)) (ss : Slots) (x : Local) (v : Value) → Mirrors vs ss
        → (IsSeen x → has_slot x ss ≡ true) → Mirrors (put_value vs x v) ss }
{}

/// Scopes go on mirroring bodies where one is added and where a local is assigned that the scope has, or that is hidden; and
/// a new one whose variables mirror the slots of a body does so before those around it.
pub fn laws_of_scopes()
    ensures kept { (cs : List Scope) (c : Scope) (ns : List ℕ) (scopes : Scopes) → All (λ n. n < length cs) ns
        → AreMirrored cs ns scopes → AreMirrored (cs ++ c ∷ []) ns scopes }
    ensures opened { (cs : List Scope) (c : Scope) (ns : List ℕ) (ss : Slots) (scopes : Scopes)
        → All (λ n. n < length cs) ns → AreMirrored cs ns scopes → Mirrors c.variables ss
        → AreMirrored (cs ++ c ∷ []) (length cs ∷ ns) (ss ∷ scopes) }
    ensures assigned { (cs : List Scope) (n : ℕ) (x : Local) (v : Value) → n < length cs
        → (IsSeen x → is_some (value_in (scope_at cs n).variables x) ≡ true)
        → (ns : List ℕ) (scopes : Scopes) → AreMirrored cs ns scopes → AreMirrored (put_in cs n x v) ns scopes }
{}
