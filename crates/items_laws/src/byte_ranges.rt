//! Ranges of bytes.

ghost use Rattle.std.specs.Prelude.{◌≡◌, ℕ, suc, ◌<◌, ℤ, pos, int_lt, true, List, [], ◌∷◌, length, map, Some, None, Ok};
ghost use Rattle.rb_value.specs.declared.value.Value.{Value};
ghost use Rattle.rb_value.specs.declared.value.Value.TheVariants.{Obj};
ghost use Rattle.rb_value.specs.declared.value.ObjId.{ObjId};
ghost use Rattle.def_core.specs.Store.{next_number};
ghost use Rattle.def_calls.specs.Views.{kind_in};
ghost use Rattle.rb_store.specs.Held.{Held};
ghost use Rattle.heap.specs.Reading.{range_in};
ghost use Rattle.core_calls.specs.Checks.{integer};
ghost use Rattle.def_plans.specs.Plan.{Planned};
ghost use Rattle.iter_items.specs.Sources.{byte_of, next};
ghost use Rattle.run_rows.specs.declared.row.StarRow.TheVariants as row;
ghost use Rattle.run_rows.specs.declared.row.VisitRow.TheVariants as visit;
ghost use Rattle.core_iter.specs.Stage.{Stage};
ghost use Rattle.items_laws.specs.Beginning.{IsBeginning, Leaves};
ghost use Rattle.items_laws.specs.ByteSteps.{StepsOnBytes};
ghost use Rattle.items_laws.specs.Run.{Turn, Gives};
ghost use Rattle.items_laws.specs.Items.{Hands, IsValue, last_heap, left_of};
ghost use Rattle.items_laws.specs.Numbers.{integers_from};
ghost use Rattle.items_laws.specs.Read.{heaps_before};
ghost use Rattle.items_laws.specs.Texts.{HandsOnBytes, bytes_before, bytes_to, so_many_bytes, texts_made};

/// `each` of a Range of bytes without its last end: the block is called with a new String of each byte before that, and with
/// none where that is the first byte of all.
pub fn bytes_end_before_the_last()
    ensures before { (held after : Held) (recv v : Value) (a z : ℕ) (b : ObjId) (ts : List Turn) → z < 256
        → range_in (kind_in held.store.objects recv) ≡ Some (bytes_before a (suc z))
        → Gives (row.Visit visit.EachOfRange) held recv [] (Some b) ts v after
        → HandsOnBytes held a z b ts recv v after }
    ensures none { (held after : Held) (recv v : Value) (a : ℕ) (b : ObjId) (ts : List Turn)
        → range_in (kind_in held.store.objects recv) ≡ Some (bytes_before a 0)
        → Gives (row.Visit visit.EachOfRange) held recv [] (Some b) ts v after → (ts ≡ []) × IsValue held recv v after }
{}

/// The items of a Range of bytes, of which so many are left: a new String of one after another, each made when the answer before
/// has come, and all of them where none is left.
pub fn bytes_are_items()
    ensures items { (held : Held) (z last : ℤ) (k : ℕ) (ts : List Turn) (xs : List Value)
        → Hands next held (so_many_bytes z last k) ts xs
        → xs ≡ map (λ h. Obj (next_number h.store)) (heaps_before held ts) }
    ensures texts { (held : Held) (z last : ℤ) (k : ℕ) (ts : List Turn) (xs : List Value)
        → Hands next held (so_many_bytes z last k) ts xs → map (λ t. t.wanted.held) ts
        ≡ texts_made (map (λ n. byte_of n ∷ []) (integers_from z (length ts))) (heaps_before held ts) }
    ensures end { (held : Held) (z last : ℤ) (k : ℕ) (ts : List Turn) (xs : List Value)
        → Hands next held (so_many_bytes z last k) ts xs
        → (next (last_heap held ts) (left_of next held (so_many_bytes z last k) ts)).item ≡ None → length ts ≡ k }
{}

/// `step` of a Range of bytes, with its last end and without: the block is called with a new String of each byte from the first one
/// to the last one by steps above 0, and the Range is given; with none where none is before the last end.
pub fn bytes_are_stepped_through()
    ensures range { (held after : Held) (recv size v : Value) (a z : ℕ) (by : ℤ) (b : ObjId) (ts : List Turn) → z < 256
        → range_in (kind_in held.store.objects recv) ≡ Some (bytes_to a z)
        → integer held.store size ≡ Ok by → int_lt (pos 0) by ≡ true
        → Gives (row.Visit visit.StepOfRange) held recv (size ∷ []) (Some b) ts v after
        → StepsOnBytes held (pos a) (pos z) by b ts × IsValue (last_heap held ts) recv v after }
    ensures range_before { (held after : Held) (recv size v : Value) (a z : ℕ) (by : ℤ) (b : ObjId) (ts : List Turn)
        → z < 256 → range_in (kind_in held.store.objects recv) ≡ Some (bytes_before a (suc z))
        → integer held.store size ≡ Ok by → int_lt (pos 0) by ≡ true
        → Gives (row.Visit visit.StepOfRange) held recv (size ∷ []) (Some b) ts v after
        → StepsOnBytes held (pos a) (pos z) by b ts × IsValue (last_heap held ts) recv v after }
    ensures none { (held after : Held) (recv size v : Value) (a : ℕ) (by : ℤ) (b : ObjId) (ts : List Turn)
        → range_in (kind_in held.store.objects recv) ≡ Some (bytes_before a 0)
        → integer held.store size ≡ Ok by → int_lt (pos 0) by ≡ true
        → Gives (row.Visit visit.StepOfRange) held recv (size ∷ []) (Some b) ts v after
        → (ts ≡ []) × IsValue held recv v after }
{}

/// `each` and `step` of a Range of bytes, where the block never answers: what was called is the beginning of a whole run.
pub fn walks_over_bytes_are_left()
    ensures each { (held : Held) (recv : Value) (a z : ℕ) (b : ObjId) (ts : List Turn) (last : Planned Stage) → z < 256
        → range_in (kind_in held.store.objects recv) ≡ Some (bytes_to a z)
        → Leaves (row.Visit visit.EachOfRange) held recv [] (Some b) ts last
        → IsBeginning (λ us v after. HandsOnBytes held a z b us recv v after) ts last }
    ensures each_before { (held : Held) (recv : Value) (a z : ℕ) (b : ObjId) (ts : List Turn) (last : Planned Stage)
        → z < 256 → range_in (kind_in held.store.objects recv) ≡ Some (bytes_before a (suc z))
        → Leaves (row.Visit visit.EachOfRange) held recv [] (Some b) ts last
        → IsBeginning (λ us v after. HandsOnBytes held a z b us recv v after) ts last }
    ensures steps { (held : Held) (recv size : Value) (a z : ℕ) (by : ℤ) (b : ObjId) (ts : List Turn)
        (last : Planned Stage) → z < 256 → range_in (kind_in held.store.objects recv) ≡ Some (bytes_to a z)
        → integer held.store size ≡ Ok by → int_lt (pos 0) by ≡ true
        → Leaves (row.Visit visit.StepOfRange) held recv (size ∷ []) (Some b) ts last
        → IsBeginning (λ us v after. StepsOnBytes held (pos a) (pos z) by b us × IsValue (last_heap held us) recv v after)
        ts last }
    ensures steps_before { (held : Held) (recv size : Value) (a z : ℕ) (by : ℤ) (b : ObjId) (ts : List Turn)
        (last : Planned Stage) → z < 256 → range_in (kind_in held.store.objects recv) ≡ Some (bytes_before a (suc z))
        → integer held.store size ≡ Ok by → int_lt (pos 0) by ≡ true
        → Leaves (row.Visit visit.StepOfRange) held recv (size ∷ []) (Some b) ts last
        → IsBeginning (λ us v after. StepsOnBytes held (pos a) (pos z) by b us × IsValue (last_heap held us) recv v after)
        ts last }
{}
