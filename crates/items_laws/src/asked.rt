//! What comes of runs that ask values for a method, one after another.

ghost use Rattle.std.specs.Prelude.{◌≡◌, ◌^◌, ◌-◌, pos, int_lt, int_le, min, not, true, false, List, [], ◌∷◌, codes, Option, Some, None, Ok};
ghost use Rattle.rb_value.specs.declared.value.Value.{Value};
ghost use Rattle.rb_value.specs.declared.value.Value.TheVariants.{Nil, True, False, Int};
ghost use Rattle.rb_value.specs.declared.value.ObjId.{ObjId};
ghost use Rattle.rb_value.specs.declared.value.SymId.{SymId};
ghost use Rattle.rb_value.specs.Value.{is_true, truth};
ghost use Rattle.rb_store.specs.Held.{Held};
ghost use Rattle.core_calls.specs.Checks.{name_in};
ghost use Rattle.iter_comparing.specs.declared.row.ComparingRow.TheVariants as comparing_row;
ghost use Rattle.iter_comparing.specs.declared.row.OrderRow.TheVariants as order_row;
ghost use Rattle.iter_comparing.specs.Ordering.{same_value};
ghost use Rattle.iter_items.specs.declared.row.ItemsRow.TheVariants as items_row;
ghost use Rattle.iter_items.specs.declared.row.Task.TheVariants as task;
ghost use Rattle.iter_items.specs.declared.source.Source.{Source};
ghost use Rattle.iter_items.specs.Sources.{next, left};
ghost use Rattle.run_rows.specs.declared.row.StarRow.TheVariants as row;
ghost use Rattle.items_laws.specs.Run.{Turn, Gives};
ghost use Rattle.items_laws.specs.Items.{IsRunBy, IsValue};
ghost use Rattle.items_laws.specs.Asked.{CountsEqual, Combines, CombinesFirst, IsEmpty, IsReply, IsSign, with_name_of, with_symbol};
ghost use Rattle.items_laws.specs.Placed.{IsPlaced, IsZero};

/// `count` of a value: how many items are equal to it, by what each replies to `==`; without a value and a block: how many
/// items there are, and nothing is called.
pub fn equal_items_are_counted()
    ensures equal { (held after : Held) (recv y v : Value) (s : Source) (block : Option ObjId) (ts : List Turn)
        → IsRunBy task.Count held recv s (y ∷ []) block ts v after → CountsEqual held s y ts v after }
    ensures all { (held after : Held) (recv v : Value) (s : Source) (ts : List Turn)
        → IsRunBy task.Count held recv s [] None ts v after
        → (ts ≡ []) × (v ≡ Int (pos (min (left (with_symbol (codes "==") held).store s) (2 ^ 63 - 1))))
        × (after.store ≡ (with_symbol (codes "==") held).store) }
{}

/// `inject` by the name of a method, with a first value or with its first item as one: what came so far is asked for that
/// method with each item, and the last reply is given.
pub fn items_are_combined()
    ensures from_value { (held after : Held) (recv first n v : Value) (name : SymId) (s : Source) (block : Option ObjId)
        (ts : List Turn) → (name_in held.store n).name ≡ Ok name
        → IsRunBy task.Inject held recv s (first ∷ n ∷ []) block ts v after
        → Combines name (with_name_of n held) s first ts v after }
    ensures from_first { (held after : Held) (recv first n v : Value) (name : SymId) (s : Source) (ts : List Turn)
        → (name_in held.store n).name ≡ Ok name → (next (with_name_of n held) s).item ≡ Some first
        → IsRunBy task.Inject held recv s (n ∷ []) None ts v after
        → CombinesFirst name (with_name_of n held) s first ts v after }
{}

/// `inject` of no items, with a block or by a name: nil, and nothing is called.
pub fn nothing_is_combined()
    ensures block { (held after : Held) (recv v : Value) (s : Source) (b : ObjId) (ts : List Turn) → IsEmpty held s
        → IsRunBy task.Inject held recv s [] (Some b) ts v after
        → (ts ≡ []) × (v ≡ Nil) × (after.store ≡ held.store) }
    ensures name { (held after : Held) (recv n v : Value) (name : SymId) (s : Source) (ts : List Turn)
        → (name_in held.store n).name ≡ Ok name → IsEmpty (with_name_of n held) s
        → IsRunBy task.Inject held recv s (n ∷ []) None ts v after
        → (ts ≡ []) × (v ≡ Nil) × (after.store ≡ (with_name_of n held).store) }
{}

/// `!=` and `===` of Object: the receiver is asked whether it is `==` a value; whether what it replies isn't true, or is.
pub fn a_reply_decides()
    ensures differs { (held after : Held) (recv y v : Value) (block : Option ObjId) (ts : List Turn)
        → Gives (row.Items (items_row.Compares comparing_row.Differs)) held recv (y ∷ []) block ts v after
        → IsReply (codes "==") held recv y ts (λ a. v ≡ truth (not (is_true a))) after }
    ensures matches { (held after : Held) (recv y v : Value) (block : Option ObjId) (ts : List Turn)
        → Gives (row.Items (items_row.Compares comparing_row.Matches)) held recv (y ∷ []) block ts v after
        → IsReply (codes "==") held recv y ts (λ a. v ≡ truth (is_true a)) after }
{}

/// `<`, `<=`, `>` and `>=` of Comparable: the receiver is asked how it stands to a value, and replies with an Integer; whether
/// that is below 0, or not above it, or above it, or not below it.
pub fn a_reply_orders()
    ensures less { (held after : Held) (recv y v : Value) (block : Option ObjId) (ts : List Turn)
        → Gives (row.Items (items_row.Compares (comparing_row.Order order_row.Less))) held recv (y ∷ []) block ts v after
        → IsReply (codes "<=>") held recv y ts (IsSign (λ z. int_lt z (pos 0)) v) after }
    ensures at_most { (held after : Held) (recv y v : Value) (block : Option ObjId) (ts : List Turn)
        → Gives (row.Items (items_row.Compares (comparing_row.Order order_row.AtMost))) held recv (y ∷ []) block ts v after
        → IsReply (codes "<=>") held recv y ts (IsSign (λ z. int_le z (pos 0)) v) after }
    ensures greater { (held after : Held) (recv y v : Value) (block : Option ObjId) (ts : List Turn)
        → Gives (row.Items (items_row.Compares (comparing_row.Order order_row.Greater))) held recv (y ∷ []) block ts v after
        → IsReply (codes "<=>") held recv y ts (IsSign (λ z. int_lt (pos 0) z) v) after }
    ensures at_least { (held after : Held) (recv y v : Value) (block : Option ObjId) (ts : List Turn)
        → Gives (row.Items (items_row.Compares (comparing_row.Order order_row.AtLeast))) held recv (y ∷ []) block ts v after
        → IsReply (codes "<=>") held recv y ts (IsSign (λ z. int_le (pos 0) z) v) after }
{}

/// `between?` of Comparable: the receiver is asked how it stands to a value, and, where it isn't below that, to a second one;
/// whether it is neither below the first nor above the second. `clamp`: the first value where it is below that, the second
/// where it is above that, and else the receiver.
pub fn a_value_is_placed()
    ensures between { (held after : Held) (recv low high v : Value) (block : Option ObjId) (ts : List Turn)
        → Gives (row.Items (items_row.Compares (comparing_row.Order order_row.Between))) held recv (low ∷ high ∷ []) block ts
        v after → IsPlaced held recv low high False True False ts v after }
    ensures clamp { (held after : Held) (recv low high v : Value) (block : Option ObjId) (ts : List Turn)
        → Gives (row.Items (items_row.Compares (comparing_row.Order order_row.Clamp))) held recv (low ∷ high ∷ []) block ts
        v after → IsPlaced held recv low high low recv high ts v after }
{}

/// `==` of Comparable: a value is equal to itself, and nothing is called; to another one where it replies 0 to `<=>`.
pub fn comparables_are_equal()
    ensures itself { (held after : Held) (recv y v : Value) (block : Option ObjId) (ts : List Turn)
        → same_value recv y ≡ true
        → Gives (row.Items (items_row.Compares (comparing_row.Order order_row.Equal))) held recv (y ∷ []) block ts v after
        → (ts ≡ []) × IsValue held True v after }
    ensures other { (held after : Held) (recv y v : Value) (block : Option ObjId) (ts : List Turn)
        → same_value recv y ≡ false
        → Gives (row.Items (items_row.Compares (comparing_row.Order order_row.Equal))) held recv (y ∷ []) block ts v after
        → IsReply (codes "<=>") held recv y ts (IsZero v) after }
{}
