//! The items of an Enumerator come in order. There is no code here: the laws bind what iter_enumerators says of each
//! method of an Enumerator to how far it has come.
//!
//! - `specs::Course`: how far an Enumerator has come, and what may happen to it, whatever its fiber gives and whatever
//!   the program does in between
//! - `specs::Told`: the course of an Enumerator of a heap
#![tactic(auto)]

ghost use Rattle.std.specs.Prelude.{◌≡◌, ◌≤◌, ◌+◌, List, [], take, length, Bool, false, true, Option, Some, None};
ghost use Rattle.rb_value.specs.declared.value.Value.{Value};
ghost use Rattle.rb_value.specs.declared.value.Value.TheVariants.{Obj};
ghost use Rattle.rb_value.specs.declared.value.ObjId.{ObjId};
ghost use Rattle.rb_value.specs.declared.kind.EnumeratorSource.{EnumeratorSource};
ghost use Rattle.def_core.specs.declared.cause.Cause.TheVariants as cause;
ghost use Rattle.def_core.specs.Store.{next_number};
ghost use Rattle.def_core.specs.Sound.{census, IsValue};
ghost use Rattle.rb_store.specs.Held.{Held};
ghost use Rattle.heap.specs.declared.enumerators.Cursor.{Cursor};
ghost use Rattle.heap.specs.Operands.{own_source};
ghost use Rattle.heap.specs.Made.{with_items, with_enumerator};
ghost use Rattle.def_plans.specs.Plan.{fails, resumes, refuses};
ghost use Rattle.def_plans.specs.Plan as plan;
ghost use Rattle.iter_enumerators.specs.declared.state.EnumeratorState.{EnumeratorState};
ghost use Rattle.iter_enumerators.specs.Items.{is_same, next_item, take_item, end, rewind};
ghost use Rattle.enumerator_laws.specs.Course.{Course, Event, begun, held_back, gives, comes, returns, stops, after, May, Happens, given_by, came_by};
ghost use Rattle.enumerator_laws.specs.Told.{course_by, IsEnumerator, HasCome, Gives, Asks, taken};
ghost use Rattle.enumerator_laws.specs.Example as example;

/// Whatever happens to an Enumerator: the values that `next` gave since the last `rewind` are the first of those that
/// came from its source, in their order, so that the k-th call gives the k-th item; at most one more came than was
/// given; and where the end is told, all that came was given.
#[tactic(auto, using(crate::proofs::Order::in_order, crate::proofs::Order::one_ahead, crate::proofs::Order::stops_at_end))]
pub fn items_come_in_order()
    ensures order { (es : List Event) (d : Course) → Happens begun es d
        → given_by [] es ≡ take d.given (came_by [] es) }
    ensures ahead { (es : List Event) (d : Course) → Happens begun es d
        → length (came_by [] es) ≤ length (given_by [] es) + 1 }
    ensures all { (es : List Event) (d : Course) (r : Value) → Happens begun es d → May d (stops r)
        → given_by [] es ≡ came_by [] es }
{}

/// What `next` (`leaves`) and `peek` do: an item that is held back is given, and leaves or stays; StopIteration is
/// raised exactly where the source has returned and every item was given; and the source runs exactly where no item is
/// held back and it hasn't returned.
#[tactic(auto, using(crate::proofs::Rows::item_passed, crate::proofs::Rows::item_stays, crate::proofs::Rows::end_told, crate::proofs::Begins::item_asked, crate::proofs::Exactly::asks_exactly))]
pub fn next_and_peek_follow_the_course()
    ensures next { (held : Held) (e : ObjId) (c : Cursor) (v : Value) → IsEnumerator held e c
        → May (course_by held c) (gives v)
        → Gives (next_item held e true) v e (after (course_by held c) (gives v)) c.fiber }
    ensures peek { (held : Held) (e : ObjId) (c : Cursor) (v : Value) → IsEnumerator held e c
        → May (course_by held c) (gives v) → next_item held e false ≡ plan.gives held v }
    ensures end_told { (held : Held) (e : ObjId) (c : Cursor) (leaves : Bool) (r : Value) → IsEnumerator held e c
        → May (course_by held c) (stops r) → next_item held e leaves ≡ refuses held (cause.IterationEnd r) }
    ensures end_alone { (held : Held) (e : ObjId) (c : Cursor) (leaves : Bool) (r : Value) → IsEnumerator held e c
        → (next_item held e leaves).plan ≡ fails (cause.IterationEnd r) → May (course_by held c) (stops r) }
    ensures asks { (held : Held) (e : ObjId) (c : Cursor) (leaves : Bool) → IsEnumerator held e c
        → held_back (course_by held c) ≡ None → c.result ≡ None
        → Asks (next_item held e leaves) e leaves (course_by held c) }
    ensures asks_alone { (held : Held) (e : ObjId) (c : Cursor) (leaves : Bool) (s : EnumeratorState) (f : ObjId)
        (args : List Value) → IsEnumerator held e c → (next_item held e leaves).plan ≡ resumes s f args
        → (held_back (course_by held c) ≡ None) × (c.result ≡ None) }
{}

/// What comes from the fiber of an Enumerator: an item, which is given, or only shown; the result of the source, which
/// is noted. What another fiber gives leaves it as it is.
#[tactic(auto, using(crate::proofs::Rows::item_taken, crate::proofs::Rows::result_noted, crate::proofs::Rows::others_pass))]
pub fn the_source_follows_the_course()
    ensures item { (held : Held) (e fiber : ObjId) (c : Cursor) (leaves : Bool) (v : Value) → IsEnumerator held e c
        → c.fiber ≡ Some fiber → IsValue (census held.store) v → May (course_by held c) (comes v)
        → Gives (take_item held e fiber leaves v) v e (taken leaves (course_by held c) v) c.fiber }
    ensures result { (held : Held) (e : ObjId) (c : Cursor) (r : Value) → IsEnumerator held e c
        → IsValue (census held.store) r
        → Gives (end held e c.fiber r) r e (after (course_by held c) (returns r)) c.fiber }
    ensures others { (held : Held) (e fiber : ObjId) (c : Cursor) (leaves : Bool) (v : Value) → IsEnumerator held e c
        → is_same c.fiber (Some fiber) ≡ false → take_item held e fiber leaves v ≡ plan.gives held v }
{}

/// A new Enumerator has come nowhere and has no fiber, so nothing of its source has run; and so it is after `rewind`.
#[tactic(auto, using(crate::proofs::Begins::made, crate::proofs::Begins::rewound))]
pub fn courses_begin()
    ensures made { (held : Held) (class_number : ObjId) (source own : EnumeratorSource)
        → own_source (with_items held).store source ≡ Some own
        → HasCome (with_enumerator held class_number source) (next_number (with_items held).store) begun None }
    ensures rewound { (held : Held) (e : ObjId) (c : Cursor) → IsEnumerator held e c
        → Gives (rewind held e) (Obj e) e begun None }
{}

/// An Enumerator of 1 and 2 that is asked, looked at, asked to its end and rewound.
#[tactic(auto, using(crate::proofs::Witness::happens))]
pub fn a_course()
    ensures { Happens begun example.events example.at_the_end }
{}
