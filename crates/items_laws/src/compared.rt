//! What comes of the methods of Arrays and Hashes that compare many values: each is asked for `==` or `<=>`, and the result is
//! by their replies.

ghost use Rattle.std.specs.Prelude.{◌≡◌, ◌<◌, ◌^◌, nat_eq, not, true, false, ◌&&◌, List, [], ◌∷◌, ◌++◌, length, slice_get, codes, is_none, Option, Some, None};
ghost use Rattle.rb_value.specs.declared.value.Value.{Value};
ghost use Rattle.rb_value.specs.declared.value.Value.TheVariants.{Nil, False, Obj};
ghost use Rattle.rb_value.specs.declared.value.ObjId.{ObjId};
ghost use Rattle.rb_value.specs.Value.{is_true, truth};
ghost use Rattle.def_calls.specs.Views.{an_array, a_hash};
ghost use Rattle.rb_store.specs.Held.{Held};
ghost use Rattle.heap.specs.Made.{array_given, with_array};
ghost use Rattle.iter_comparing.specs.declared.row.ComparingRow.TheVariants as comparing_row;
ghost use Rattle.iter_comparing.specs.Hashes.{items, pairs};
ghost use Rattle.iter_comparing.specs.Pairing.{order};
ghost use Rattle.iter_items.specs.declared.row.GatheringRow.TheVariants as gathering;
ghost use Rattle.iter_items.specs.declared.row.ItemsRow.TheVariants as items_row;
ghost use Rattle.run_rows.specs.declared.row.StarRow.TheVariants as row;
ghost use Rattle.items_laws.specs.Run.{Turn, Gives, waiting};
ghost use Rattle.items_laws.specs.Items.{IsValue, collected_in};
ghost use Rattle.items_laws.specs.Lists.{any_of, first_or_nil, is_untrue, picked, place_from};
ghost use Rattle.items_laws.specs.Asked.{always, never, with_symbol};
ghost use Rattle.items_laws.specs.Compared.{Compares, Deletes, differs, element, element_beside, element_of_equal, element_or_nil, first_or, gathers_for, keys_of, length_at, nothing_known, same_as, value_of, value_under, value_with};
ghost use Rattle.items_laws.specs.Sieved.{IsMadeAtOnce, IsNew, IsSieved, Lacks, SharesNew, elements, first_of_each, own_equality, picked_by_key};

/// `index` of an Array: the place of the first element that is equal to a value, by what each replies to `==` as it stands
/// then; nil where there is none. `include?`: whether there is one.
pub fn elements_are_looked_for()
    ensures index { (held after : Held) (recv y v : Value) (a : ObjId) (block : Option ObjId) (ts : List Turn)
        → an_array held.store.objects recv ≡ Some a
        → Gives (row.Items (items_row.Compares comparing_row.ArrayIndex)) held recv (y ∷ []) block ts v after
        → Compares (codes "==") same_as (element a) (always y) is_true held ts
        (λ h xs us. length us < 2 ^ 63 → IsValue h (place_from 0 is_true us) v after) }
    ensures included { (held after : Held) (recv y v : Value) (a : ObjId) (block : Option ObjId) (ts : List Turn)
        → an_array held.store.objects recv ≡ Some a
        → Gives (row.Items (items_row.Compares comparing_row.ArrayIncludes)) held recv (y ∷ []) block ts v after
        → Compares (codes "==") same_as (element a) (always y) is_true held ts
        (λ h xs us. IsValue h (truth (any_of is_true us)) v after) }
{}

/// `include?` and `member?` of Enumerable, once `each` has returned: the same of a new Array of what that collected.
pub fn collected_items_are_looked_for()
    ensures { (before after : Held) (recv y v : Value) (block : Option ObjId) (each : Turn) (collected a : ObjId)
        (ts : List Turn)
        → Gives (row.Items (items_row.Gathers gathering.Includes)) before recv (y ∷ []) block (each ∷ ts) v after
        → waiting each.wanted.plan ≡ Some (gathers_for recv y block collected)
        → array_given each.held.store (collected_in each collected) ≡ Obj a
        → Compares (codes "==") same_as (element a) (always y) is_true
        (with_array each.held (collected_in each collected)) ts (λ h xs us. IsValue h (truth (any_of is_true us)) v after) }
{}

/// `key` of a Hash: what is shown as the key of the first pair whose value is equal to a value; nil where there is none.
/// `value?`: whether there is one. The pairs are those that it had at the start.
pub fn values_are_looked_for()
    ensures key { (held after : Held) (recv y v : Value) (h : ObjId) (block : Option ObjId) (ts : List Turn)
        → a_hash held.store.objects recv ≡ Some h
        → Gives (row.Items (items_row.Compares comparing_row.HashKeyOf)) held recv (y ∷ []) block ts v after
        → Compares (codes "==") same_as (value_of (items (pairs held.store h))) (always y) is_true held ts
        (λ k xs us. length us < 2 ^ 63
        → IsValue k (first_or_nil (picked is_true (keys_of (items (pairs held.store h))) us)) v after) }
    ensures value { (held after : Held) (recv y v : Value) (h : ObjId) (block : Option ObjId) (ts : List Turn)
        → a_hash held.store.objects recv ≡ Some h
        → Gives (row.Items (items_row.Compares comparing_row.HashHasValue)) held recv (y ∷ []) block ts v after
        → Compares (codes "==") same_as (value_of (items (pairs held.store h))) (always y) is_true held ts
        (λ k xs us. IsValue k (truth (any_of is_true us)) v after) }
{}

/// `==` of Arrays: each element is asked whether it is `==` the one beside it, as they stand then, so long as both have as
/// many; whether no reply was untrue, and they have as many at the end. `<=>`: each is asked how it stands to the one beside
/// it; the first reply that isn't 0, or how their lengths stand to each other at the end.
pub fn arrays_are_compared()
    ensures equal { (held after : Held) (recv y v : Value) (a b : ObjId) (block : Option ObjId) (ts : List Turn)
        → an_array held.store.objects recv ≡ Some a → an_array held.store.objects y ≡ Some b
        → Gives (row.Items (items_row.Compares comparing_row.ArrayEquality)) held recv (y ∷ []) block ts v after
        → Compares (codes "==") same_as (element_of_equal a b) (element_or_nil b) is_untrue held ts
        (λ h xs us. IsValue h (truth (not (any_of is_untrue us) && nat_eq (length_at a h) (length_at b h))) v after) }
    ensures order { (held after : Held) (recv y v : Value) (a b : ObjId) (block : Option ObjId) (ts : List Turn)
        → an_array held.store.objects recv ≡ Some a → an_array held.store.objects y ≡ Some b
        → Gives (row.Items (items_row.Compares comparing_row.ArrayOrder)) held recv (y ∷ []) block ts v after
        → Compares (codes "<=>") nothing_known (element_beside a b) (element_or_nil b) differs held ts
        (λ h xs us. IsValue h (first_or differs us (order (length_at a h) (length_at b h))) v after) }
{}

/// `==` of Hashes: where they don't have as many pairs they aren't equal; else the value of each pair of the start is asked
/// whether it is `==` the one that the other Hash has under its key then; whether no reply was untrue, and no pair is left.
pub fn hashes_are_compared()
    ensures equal { (held after : Held) (recv y v : Value) (h other : ObjId) (block : Option ObjId) (ts : List Turn)
        → a_hash held.store.objects recv ≡ Some h → a_hash held.store.objects y ≡ Some other
        → nat_eq (length (pairs held.store h)) (length (pairs held.store other)) ≡ true
        → Gives (row.Items (items_row.Compares comparing_row.HashEquality)) held recv (y ∷ []) block ts v after
        → Compares (codes "==") same_as (value_with (items (pairs held.store h)) other)
        (value_under (items (pairs held.store h)) other) is_untrue held ts
        (λ k xs us. length us < 2 ^ 63 → IsValue k (truth (not (any_of is_untrue us)
        && is_none (slice_get (items (pairs held.store h)) (length us)))) v after) }
    ensures differ { (held after : Held) (recv y v : Value) (h other : ObjId) (block : Option ObjId) (ts : List Turn)
        → a_hash held.store.objects recv ≡ Some h → a_hash held.store.objects y ≡ Some other
        → nat_eq (length (pairs held.store h)) (length (pairs held.store other)) ≡ false
        → Gives (row.Items (items_row.Compares comparing_row.HashEquality)) held recv (y ∷ []) block ts v after
        → (ts ≡ []) × IsValue held False v after }
{}

/// Where the argument is no Array, or no Hash: it isn't equal, or stands in no order, and nothing is called.
pub fn others_are_unequal()
    ensures array { (held after : Held) (recv y v : Value) (a : ObjId) (block : Option ObjId) (ts : List Turn)
        → an_array held.store.objects recv ≡ Some a → an_array held.store.objects y ≡ None
        → Gives (row.Items (items_row.Compares comparing_row.ArrayEquality)) held recv (y ∷ []) block ts v after
        → (ts ≡ []) × IsValue held False v after }
    ensures order { (held after : Held) (recv y v : Value) (a : ObjId) (block : Option ObjId) (ts : List Turn)
        → an_array held.store.objects recv ≡ Some a → an_array held.store.objects y ≡ None
        → Gives (row.Items (items_row.Compares comparing_row.ArrayOrder)) held recv (y ∷ []) block ts v after
        → (ts ≡ []) × IsValue held Nil v after }
    ensures hash { (held after : Held) (recv y v : Value) (h : ObjId) (block : Option ObjId) (ts : List Turn)
        → a_hash held.store.objects recv ≡ Some h → a_hash held.store.objects y ≡ None
        → Gives (row.Items (items_row.Compares comparing_row.HashEquality)) held recv (y ∷ []) block ts v after
        → (ts ≡ []) × IsValue held False v after }
{}

/// `delete` of an Array: each element is asked whether it is `==` a value, as it stands then; at the end the elements are
/// those that replied that they aren't, and the last of the others is given; where there is none all stays, and nil is given.
pub fn equal_elements_are_deleted()
    ensures { (held after : Held) (recv y v : Value) (a : ObjId) (block : Option ObjId) (ts : List Turn)
        → an_array held.store.objects recv ≡ Some a
        → Gives (row.Items (items_row.Compares comparing_row.ArrayDelete)) held recv (y ∷ []) block ts v after
        → Compares (codes "==") same_as (element a) (always y) never held ts (λ h xs us. Deletes a h xs us v after) }
{}

/// `-`, `&` and `|` of Arrays that aren't all of Integers and Strings with the `==` of their class: each element is sought
/// among others by `==`, in a new Array of those that stay. Of `-` those stay that the other Array hasn't; of `&` those that
/// it has, and each once; of `|` those of both, and each once.
pub fn elements_are_sieved()
    ensures difference { (held after : Held) (recv y v : Value) (a b : ObjId) (block : Option ObjId) (ts : List Turn)
        → length (elements held a) < 2 ^ 64 → an_array held.store.objects recv ≡ Some a
        → an_array held.store.objects y ≡ Some b → own_equality held (elements held a) (elements held b) ≡ false
        → Gives (row.Items (items_row.Compares comparing_row.ArrayDifference)) held recv (y ∷ []) block ts v after
        → IsSieved (λ name. Lacks name (elements held b)) held (elements held a) ts v after }
    ensures intersection { (held after : Held) (recv y v : Value) (a b : ObjId) (block : Option ObjId) (ts : List Turn)
        → length (elements held a) < 2 ^ 64 → an_array held.store.objects recv ≡ Some a
        → an_array held.store.objects y ≡ Some b → own_equality held (elements held a) (elements held b) ≡ false
        → Gives (row.Items (items_row.Compares comparing_row.ArrayIntersection)) held recv (y ∷ []) block ts v after
        → IsSieved (λ name. SharesNew name (elements held b)) held (elements held a) ts v after }
    ensures union { (held after : Held) (recv y v : Value) (a b : ObjId) (block : Option ObjId) (ts : List Turn)
        → length (elements held a ++ elements held b) < 2 ^ 64 → an_array held.store.objects recv ≡ Some a
        → an_array held.store.objects y ≡ Some b → own_equality held (elements held a ++ elements held b) [] ≡ false
        → Gives (row.Items (items_row.Compares comparing_row.ArrayUnion)) held recv (y ∷ []) block ts v after
        → IsSieved (λ name. IsNew name []) held (elements held a ++ elements held b) ts v after }
{}

/// The same where all of them are Integers and Strings with the `==` of their class, which are told by their keys: nothing is
/// called. Of `-` those stay whose key the other Array hasn't; of `&` those whose key it has, and of each key the first; of
/// `|` the first of each key of both.
pub fn elements_are_told_by_keys()
    ensures difference { (held after : Held) (recv y v : Value) (a b : ObjId) (block : Option ObjId) (ts : List Turn)
        → an_array held.store.objects recv ≡ Some a → an_array held.store.objects y ≡ Some b
        → own_equality held (elements held a) (elements held b) ≡ true
        → Gives (row.Items (items_row.Compares comparing_row.ArrayDifference)) held recv (y ∷ []) block ts v after
        → IsMadeAtOnce held (picked_by_key false (with_symbol (codes "==") held).store (elements held b) (elements held a)) ts
        v after }
    ensures intersection { (held after : Held) (recv y v : Value) (a b : ObjId) (block : Option ObjId) (ts : List Turn)
        → an_array held.store.objects recv ≡ Some a → an_array held.store.objects y ≡ Some b
        → own_equality held (elements held a) (elements held b) ≡ true
        → Gives (row.Items (items_row.Compares comparing_row.ArrayIntersection)) held recv (y ∷ []) block ts v after
        → IsMadeAtOnce held (first_of_each (with_symbol (codes "==") held).store []
        (picked_by_key true (with_symbol (codes "==") held).store (elements held b) (elements held a))) ts v after }
    ensures union { (held after : Held) (recv y v : Value) (a b : ObjId) (block : Option ObjId) (ts : List Turn)
        → an_array held.store.objects recv ≡ Some a → an_array held.store.objects y ≡ Some b
        → own_equality held (elements held a ++ elements held b) [] ≡ true
        → Gives (row.Items (items_row.Compares comparing_row.ArrayUnion)) held recv (y ∷ []) block ts v after
        → IsMadeAtOnce held (first_of_each (with_symbol (codes "==") held).store [] (elements held a ++ elements held b)) ts v
        after }
{}
