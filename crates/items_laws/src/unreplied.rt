//! Runs that are left while a value is asked.

ghost use Rattle.std.specs.Prelude.{◌≡◌, ℕ, pos, nat_eq, ◌<◌, ◌^◌, true, List, [], ◌∷◌, length, codes, Option, Some, None, Ok};
ghost use Rattle.rb_value.specs.declared.value.Value.{Value};
ghost use Rattle.rb_value.specs.declared.value.Value.TheVariants.{Int, Obj};
ghost use Rattle.rb_value.specs.declared.value.ObjId.{ObjId};
ghost use Rattle.rb_value.specs.declared.value.SymId.{SymId};
ghost use Rattle.rb_value.specs.Value.{is_true};
ghost use Rattle.def_core.specs.Parts.{elements_at};
ghost use Rattle.def_calls.specs.Views.{an_array, a_hash, kind_in, string_of};
ghost use Rattle.rb_store.specs.Held.{Held};
ghost use Rattle.heap.specs.Made.{array_given, with_array};
ghost use Rattle.core_calls.specs.Checks.{name_in};
ghost use Rattle.core_calls.specs.Flat.{flattened};
ghost use Rattle.core_calls.specs.declared.flattening.Empty.TheVariants.{Stays};
ghost use Rattle.def_plans.specs.Plan.{Planned};
ghost use Rattle.iter_comparing.specs.declared.row.ComparingRow.TheVariants as comparing_row;
ghost use Rattle.iter_comparing.specs.declared.row.OrderRow.TheVariants as order_row;
ghost use Rattle.iter_comparing.specs.Hashes.{items, pairs};
ghost use Rattle.iter_items.specs.declared.row.GatheringRow.TheVariants as gathering;
ghost use Rattle.iter_items.specs.declared.row.ItemsRow.TheVariants as items_row;
ghost use Rattle.iter_items.specs.declared.row.Task.TheVariants as task;
ghost use Rattle.iter_items.specs.declared.source.Source.{Source};
ghost use Rattle.iter_items.specs.Sources.{next};
ghost use Rattle.run_rows.specs.declared.row.StarRow.TheVariants as row;
ghost use Rattle.core_iter.specs.Stage.{Stage};
ghost use Rattle.items_laws.specs.Beginning.{Leaves};
ghost use Rattle.items_laws.specs.Run.{Turn, waiting};
ghost use Rattle.items_laws.specs.Items.{collected_in};
ghost use Rattle.items_laws.specs.Lists.{is_untrue};
ghost use Rattle.items_laws.specs.Asked.{always, never, with_name_of};
ghost use Rattle.items_laws.specs.Compared.{differs, element, element_beside, element_of_equal, element_or_nil, gathers_for, nothing_known, same_as, value_of, value_under, value_with};
ghost use Rattle.items_laws.specs.Cut.{IsLeftBy};
ghost use Rattle.items_laws.specs.CutAsked.{CutsAsking, CutsCombining, CutsCombiningFirst, CutsCounting, IsAbandoned, IsAwaited};
ghost use Rattle.items_laws.specs.CutWritten.{CutsJoining, CutsWriting};
ghost use Rattle.items_laws.specs.Sums.{plus, with_plus};
ghost use Rattle.items_laws.specs.Written.{part_of};

/// Where a value that is asked for `==` or `<=>` never replies, by an exception or an exit: until then the values were asked, one
/// after another, each in the heap as the reply before left it, and no reply stopped it. `index`, `include?` and `delete` of an
/// Array, `key` and `value?` of a Hash, and `include?` of Enumerable, once `each` has returned.
pub fn searches_are_left()
    ensures index { (held : Held) (recv y : Value) (a : ObjId) (block : Option ObjId) (ts : List Turn)
        (last : Planned Stage) → an_array held.store.objects recv ≡ Some a
        → IsAbandoned comparing_row.ArrayIndex held recv (y ∷ []) block ts last
        → CutsAsking (codes "==") same_as (element a) (always y) is_true held ts last }
    ensures included { (held : Held) (recv y : Value) (a : ObjId) (block : Option ObjId) (ts : List Turn)
        (last : Planned Stage) → an_array held.store.objects recv ≡ Some a
        → IsAbandoned comparing_row.ArrayIncludes held recv (y ∷ []) block ts last
        → CutsAsking (codes "==") same_as (element a) (always y) is_true held ts last }
    ensures delete { (held : Held) (recv y : Value) (a : ObjId) (block : Option ObjId) (ts : List Turn)
        (last : Planned Stage) → an_array held.store.objects recv ≡ Some a
        → IsAbandoned comparing_row.ArrayDelete held recv (y ∷ []) block ts last
        → CutsAsking (codes "==") same_as (element a) (always y) never held ts last }
    ensures value { (held : Held) (recv y : Value) (h : ObjId) (block : Option ObjId) (ts : List Turn)
        (last : Planned Stage) → a_hash held.store.objects recv ≡ Some h
        → IsAbandoned comparing_row.HashHasValue held recv (y ∷ []) block ts last
        → CutsAsking (codes "==") same_as (value_of (items (pairs held.store h))) (always y) is_true held ts last }
    ensures key { (held : Held) (recv y : Value) (h : ObjId) (block : Option ObjId) (ts : List Turn)
        (last : Planned Stage) → a_hash held.store.objects recv ≡ Some h
        → IsAbandoned comparing_row.HashKeyOf held recv (y ∷ []) block ts last
        → CutsAsking (codes "==") same_as (value_of (items (pairs held.store h))) (always y) is_true held ts last }
    ensures collected { (before : Held) (recv y : Value) (block : Option ObjId) (each : Turn) (collected a : ObjId)
        (ts : List Turn) (last : Planned Stage)
        → Leaves (row.Items (items_row.Gathers gathering.Includes)) before recv (y ∷ []) block (each ∷ ts) last
        → waiting each.wanted.plan ≡ Some (gathers_for recv y block collected)
        → array_given each.held.store (collected_in each collected) ≡ Obj a
        → CutsAsking (codes "==") same_as (element a) (always y) is_true
        (with_array each.held (collected_in each collected)) ts last }
{}

/// The same of `==` and `<=>` of Arrays and of `==` of Hashes that have as many pairs.
pub fn comparisons_are_left()
    ensures order { (held : Held) (recv y : Value) (a b : ObjId) (block : Option ObjId) (ts : List Turn)
        (last : Planned Stage) → an_array held.store.objects recv ≡ Some a → an_array held.store.objects y ≡ Some b
        → IsAbandoned comparing_row.ArrayOrder held recv (y ∷ []) block ts last
        → CutsAsking (codes "<=>") nothing_known (element_beside a b) (element_or_nil b) differs held ts last }
    ensures equal { (held : Held) (recv y : Value) (a b : ObjId) (block : Option ObjId) (ts : List Turn)
        (last : Planned Stage) → an_array held.store.objects recv ≡ Some a → an_array held.store.objects y ≡ Some b
        → IsAbandoned comparing_row.ArrayEquality held recv (y ∷ []) block ts last
        → CutsAsking (codes "==") same_as (element_of_equal a b) (element_or_nil b) is_untrue held ts last }
    ensures hash { (held : Held) (recv y : Value) (h other : ObjId) (block : Option ObjId) (ts : List Turn)
        (last : Planned Stage) → a_hash held.store.objects recv ≡ Some h → a_hash held.store.objects y ≡ Some other
        → nat_eq (length (pairs held.store h)) (length (pairs held.store other)) ≡ true
        → IsAbandoned comparing_row.HashEquality held recv (y ∷ []) block ts last
        → CutsAsking (codes "==") same_as (value_with (items (pairs held.store h)) other)
        (value_under (items (pairs held.store h)) other) is_untrue held ts last }
{}

/// `count` of a value, `inject` by the name of a method and `sum` without a block: the items were asked, or what came so far was
/// asked with them, one after another, and the last one never replies.
pub fn replies_are_awaited()
    ensures count { (held : Held) (recv y : Value) (s : Source) (block : Option ObjId) (ts : List Turn)
        (last : Planned Stage) → IsLeftBy task.Count held recv s (y ∷ []) block ts last
        → CutsCounting held s y ts last }
    ensures inject { (held : Held) (recv first n : Value) (name : SymId) (s : Source) (block : Option ObjId)
        (ts : List Turn) (last : Planned Stage) → (name_in held.store n).name ≡ Ok name
        → IsLeftBy task.Inject held recv s (first ∷ n ∷ []) block ts last
        → CutsCombining name (with_name_of n held) s first ts last }
    ensures from_first { (held : Held) (recv first n : Value) (name : SymId) (s : Source) (ts : List Turn)
        (last : Planned Stage) → (name_in held.store n).name ≡ Ok name
        → (next (with_name_of n held) s).item ≡ Some first → IsLeftBy task.Inject held recv s (n ∷ []) None ts last
        → CutsCombiningFirst name (with_name_of n held) s first ts last }
    ensures sum { (held : Held) (recv : Value) (s : Source) (ts : List Turn) (last : Planned Stage)
        → IsLeftBy task.Sum held recv s [] None ts last
        → CutsCombining (plus held) (with_plus held) s (Int (pos 0)) ts last }
    ensures sum_from { (held : Held) (recv first : Value) (s : Source) (ts : List Turn) (last : Planned Stage)
        → IsLeftBy task.Sum held recv s (first ∷ []) None ts last
        → CutsCombining (plus held) (with_plus held) s first ts last }
{}

/// `!=` and `===` of Object, `<`, `<=`, `>` and `>=` of Comparable: the receiver is asked, and nothing else.
pub fn a_reply_is_awaited()
    ensures differs { (held : Held) (recv y : Value) (block : Option ObjId) (ts : List Turn) (last : Planned Stage)
        → IsAbandoned comparing_row.Differs held recv (y ∷ []) block ts last
        → IsAwaited (codes "==") held recv y ts last }
    ensures matches { (held : Held) (recv y : Value) (block : Option ObjId) (ts : List Turn) (last : Planned Stage)
        → IsAbandoned comparing_row.Matches held recv (y ∷ []) block ts last
        → IsAwaited (codes "==") held recv y ts last }
    ensures less { (held : Held) (recv y : Value) (block : Option ObjId) (ts : List Turn) (last : Planned Stage)
        → IsAbandoned (comparing_row.Order order_row.Less) held recv (y ∷ []) block ts last
        → IsAwaited (codes "<=>") held recv y ts last }
    ensures at_most { (held : Held) (recv y : Value) (block : Option ObjId) (ts : List Turn) (last : Planned Stage)
        → IsAbandoned (comparing_row.Order order_row.AtMost) held recv (y ∷ []) block ts last
        → IsAwaited (codes "<=>") held recv y ts last }
    ensures greater { (held : Held) (recv y : Value) (block : Option ObjId) (ts : List Turn) (last : Planned Stage)
        → IsAbandoned (comparing_row.Order order_row.Greater) held recv (y ∷ []) block ts last
        → IsAwaited (codes "<=>") held recv y ts last }
    ensures at_least { (held : Held) (recv y : Value) (block : Option ObjId) (ts : List Turn) (last : Planned Stage)
        → IsAbandoned (comparing_row.Order order_row.AtLeast) held recv (y ∷ []) block ts last
        → IsAwaited (codes "<=>") held recv y ts last }
{}

/// `inspect` and `to_s` of an Array and of a Hash, and `join`: the values were asked for their texts, one after another, and the
/// last one never replies.
pub fn texts_are_awaited()
    ensures array { (held : Held) (recv : Value) (a : ObjId) (block : Option ObjId) (ts : List Turn) (last : Planned Stage)
        → an_array held.store.objects recv ≡ Some a → IsAbandoned comparing_row.ArrayText held recv [] block ts last
        → CutsWriting (codes "inspect") (element a) held ts last }
    ensures hash { (held : Held) (recv : Value) (h : ObjId) (block : Option ObjId) (ts : List Turn) (last : Planned Stage)
        → a_hash held.store.objects recv ≡ Some h → IsAbandoned comparing_row.HashText held recv [] block ts last
        → CutsWriting (codes "inspect") (part_of (items (pairs held.store h))) held ts last }
    ensures join { (held : Held) (recv : Value) (a : ObjId) (pieces : List Value) (block : Option ObjId) (ts : List Turn)
        (last : Planned Stage) → an_array held.store.objects recv ≡ Some a
        → flattened Stays held.store (elements_at held.store.objects a) ≡ Some pieces → length pieces < 2 ^ 64
        → IsAbandoned comparing_row.ArrayJoin held recv [] block ts last → CutsJoining (codes "to_s") held pieces ts last }
    ensures separated { (held : Held) (recv y : Value) (a : ObjId) (pieces : List Value) (separator : List ℕ)
        (block : Option ObjId) (ts : List Turn) (last : Planned Stage) → an_array held.store.objects recv ≡ Some a
        → string_of (kind_in held.store.objects y) ≡ Some separator
        → flattened Stays held.store (elements_at held.store.objects a) ≡ Some pieces → length pieces < 2 ^ 64
        → IsAbandoned comparing_row.ArrayJoin held recv (y ∷ []) block ts last
        → CutsJoining (codes "to_s") held pieces ts last }
{}
